// Services are served.

ghost use Rattle.std.specs.Prelude.{◌≡◌, IfOk, OnOk, Some};
ghost use Rattle.mdr_core.specs.Services.{service_numbered};
ghost use Rattle.mdr_events.specs.Events.{asked_as};
ghost use Rattle.mdr_plain.specs.Services.{served, served_by};
ghost use Rattle.mdr_services.specs.Serving.{asked_with, served_as, service_as};

use crate::allocation::allocate;
use crate::answer::{Served, nothing};
use crate::arguments::{as_now, first, second};
use crate::freeing::free;
use crate::interrupts::{release, request};
use crate::locking::{lock, unlock};
use crate::objects::{enter, leave};
use crate::registers::{read_register, write_register};
use crate::service::{Service, numbered};
use crate::texts::{deliver, print};
use mdr_core::{OutOfMemory, StopKind, Value};
use mdr_events::Asked;
use mdr_world::World;
use std::alloc::Global;

/// A service is served, with these arguments.
fn serve_by(
    alloc: Global,
    world: &mut World,
    asked: &Asked,
    args: &[Value],
    service: Service,
) -> Result<Served, OutOfMemory>
    ensures kept { OnOk result (world.new.program ≡ world.old.program) }
    ensures served { IfOk result (λ s. served_as s asked.now.at world.new.world ≡ served_by world.old.program (asked_with args.now asked.now) (Some (service_as service)) world.old.world) }
{
    let served = match service {
        Service::Kzalloc => allocate(alloc, world, asked.shapes.as_slice())?,
        Service::Kcalloc => allocate(alloc, world, asked.shapes.as_slice())?,
        Service::Kfree => free(alloc, world, first(args)),
        Service::Readl => read_register(alloc, world, first(args))?,
        Service::Writel => write_register(alloc, world, second(args), first(args))?,
        Service::Printk => print(alloc, world, asked.bytes.as_slice())?,
        Service::RequestIrq => request(alloc, world, first(args))?,
        Service::FreeIrq => release(alloc, world),
        Service::Deliver => deliver(alloc, world, asked.bytes.as_slice())?,
        Service::Combolock => lock(alloc, world, first(args)),
        Service::Combounlock => unlock(alloc, world, first(args)),
        Service::Bug => Served::Stop(StopKind::Bug),
        Service::Enter => enter(alloc, world, asked.shapes.as_slice())?,
        Service::Leave => leave(alloc, world, args),
    };
    Ok(served)
}

/// A service, if the number is one's, is served.
fn serve_with(
    alloc: Global,
    world: &mut World,
    asked: &Asked,
    args: &[Value],
) -> Result<Served, OutOfMemory>
    ensures kept { OnOk result (world.new.program ≡ world.old.program) }
    ensures served { IfOk result (λ s. served_as s asked.now.at world.new.world ≡ served_by world.old.program (asked_with args.now asked.now) (service_numbered asked.now.service) world.old.world) }
{
    match numbered(asked.service) {
        Some(service) => {
            let served = serve_by(alloc, world, asked, args, service)?;
            Ok(served)
        }
        None => Ok(nothing(alloc)),
    }
}

/// Serves a question, whatever is asked. Where memory is wanting nothing is promised of the world.
#[tactic(auto, unfolding(mdr_plain::specs::Services::served))]
pub fn serve(alloc: Global, world: &mut World, asked: &Asked) -> Result<Served, OutOfMemory>
    ensures kept { OnOk result (world.new.program ≡ world.old.program) }
    ensures served { IfOk result (λ s. served_as s asked.now.at world.new.world ≡ served world.old.program (asked_as asked.now) world.old.world) }
{
    let args = as_now(alloc, world, asked.args.as_slice())?;
    let served = serve_with(alloc, world, asked, args.as_slice())?;
    Ok(served)
}

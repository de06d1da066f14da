// One message as bytes.

ghost use Rattle.std.specs.Prelude.{◌≡◌, ℕ, true, IfOk, OnOk};
ghost use Rattle.mdr_core.specs.Sound.{IsSound};
ghost use Rattle.mdr_model.specs.declared.message.Message.TheVariants.{Refuse};
ghost use Rattle.mdr_model.specs.Refusals.{is_refusal};
ghost use Rattle.mdr_model.specs.Text.{text};
ghost use Rattle.mdr_msg.specs.WellFormed.{IsMessage};
ghost use Rattle.mdr_far.specs.InBytes.{GoesOnBehind, IsRepliedTo};
ghost use Rattle.mdr_user_code.specs.Standing.{GoesOnTo, IsFit, IsReplied, Opens};
ghost use Rattle.mdr_watched.specs.Driver.{driver_of};

use mdr_core::{OutOfMemory, Plan, Program};
use mdr_model::{Fault, Message};
use mdr_msg::{reading_of, spelled};
use mdr_user_code::{State, delivered};
use std::alloc::Global;

/// What was made of a value, when the value is let go.
fn apart<A, T: Drop>(made: A, _of: T) -> A
    ensures { result ≡ made }
{
    made
}

/// The reply to what was read of bytes.
fn told(
    alloc: Global,
    program: &Program,
    plan: &Plan,
    state: &mut State,
    reading: Result<Message, Fault>,
) -> Result<Message, OutOfMemory>
    requires sound { IsSound program.now }
    requires fit { IsFit plan.now program.now }
    requires opens { Opens (driver_of program.now plan.now) state.old }
    ensures reply { IfOk result (IsReplied (driver_of program.now plan.now) state.old reading) }
    ensures follows { OnOk result (GoesOnTo (driver_of program.now plan.now) state.old reading state.new) }
    ensures refused { IfOk result (λ r. is_refusal r ≡ true → state.new ≡ state.old) }
{
    let reply = delivered(alloc, program, plan, state, &reading);
    apart(reply, reading)
}

/// The bytes of a message.
fn written(alloc: Global, message: Message) -> Result<Vec<u8>, OutOfMemory>
    ensures written { IfOk result (λ bytes. bytes.items ≡ text message) }
    ensures spelled { IfOk result (λ _. IsMessage message) }
{
    let bytes = spelled(alloc, &message);
    apart(bytes, message)
}

/// The reply's bytes to a message's bytes. A message that is refused leaves the state as it was.
pub(crate) fn reply_to(
    alloc: Global,
    program: &Program,
    plan: &Plan,
    state: &mut State,
    bytes: &[u8],
) -> Result<Vec<u8>, OutOfMemory>
    requires sound { IsSound program.now }
    requires fit { IsFit plan.now program.now }
    requires opens { Opens (driver_of program.now plan.now) state.old }
    ensures reply { IfOk result (λ r. IsRepliedTo (driver_of program.now plan.now) state.old bytes.now r.items) }
    ensures follows { OnOk result (GoesOnBehind (driver_of program.now plan.now) state.old bytes.now state.new) }
    ensures refused { IfOk result (λ r. (reason : ℕ) → r.items ≡ text (Refuse reason) → state.new ≡ state.old) }
{
    let reading = reading_of(alloc, bytes)?;
    let reply = told(alloc, program, plan, state, reading)?;
    let written = written(alloc, reply)?;
    Ok(written)
}

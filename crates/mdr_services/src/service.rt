// Services by their numbers.

ghost use Rattle.std.specs.Prelude.{◌≡◌, ◌<◌, option_map};
ghost use Rattle.mdr_core.specs.Services.{service_numbered};
ghost use Rattle.mdr_services.specs.Serving.{service_as};

/// A service of the kernel. In the order of the variants they have the numbers 1 to 14.
#[derive(Clone, Copy)]
pub enum Service {
    /// Allocates one object.
    Kzalloc,
    /// Allocates an array.
    Kcalloc,
    /// Frees what was allocated.
    Kfree,
    /// Reads a register.
    Readl,
    /// Writes a register.
    Writel,
    /// Prints a text.
    Printk,
    /// Registers the handler of interrupts.
    RequestIrq,
    /// Takes the handler away.
    FreeIrq,
    /// Delivers bytes.
    Deliver,
    /// Takes a lock.
    Combolock,
    /// Frees a lock.
    Combounlock,
    /// Stops.
    Bug,
    /// Objects of locals are born.
    Enter,
    /// Objects of locals die.
    Leave,
}

/// One of the services from 8 on.
fn later(service: u32) -> Option<Service>
    requires { 7 < service }
    ensures { option_map service_as result ≡ service_numbered service }
{
    if service == 8 {
        return Some(Service::FreeIrq);
    }
    if service == 9 {
        return Some(Service::Deliver);
    }
    if service == 10 {
        return Some(Service::Combolock);
    }
    if service == 11 {
        return Some(Service::Combounlock);
    }
    if service == 12 {
        return Some(Service::Bug);
    }
    if service == 13 {
        return Some(Service::Enter);
    }
    if service == 14 {
        return Some(Service::Leave);
    }
    None
}

/// The service with a number.
pub(crate) fn numbered(service: u32) -> Option<Service>
    ensures { option_map service_as result ≡ service_numbered service }
{
    if service == 1 {
        return Some(Service::Kzalloc);
    }
    if service == 2 {
        return Some(Service::Kcalloc);
    }
    if service == 3 {
        return Some(Service::Kfree);
    }
    if service == 4 {
        return Some(Service::Readl);
    }
    if service == 5 {
        return Some(Service::Writel);
    }
    if service == 6 {
        return Some(Service::Printk);
    }
    if service == 7 {
        return Some(Service::RequestIrq);
    }
    if service == 0 {
        return None;
    }
    later(service)
}

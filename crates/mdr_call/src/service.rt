// The kernel's services by their names.

ghost use Rattle.std.specs.Prelude.{◌≡◌};
ghost use Rattle.mdr_call.specs.Services.{plain_named, as_plain, service_named};

/// A service that takes values alone.
#[derive(Clone, Copy)]
pub enum PlainService {
    Kfree,
    Readl,
    Writel,
    FreeIrq,
    Deliver,
    Combolock,
    Combounlock,
    Bug,
}

/// A service that a source may call.
#[derive(Clone, Copy)]
pub enum Service {
    Kzalloc,
    Kcalloc,
    Printk,
    RequestIrq,
    Kcall,
    Plain(PlainService),
}

fn plain_named(name: &[u8]) -> Option<PlainService>
    ensures { result ≡ plain_named name.now }
{
    if name == b"kfree".as_slice() {
        return Some(PlainService::Kfree);
    }
    if name == b"readl".as_slice() {
        return Some(PlainService::Readl);
    }
    if name == b"writel".as_slice() {
        return Some(PlainService::Writel);
    }
    if name == b"free_irq".as_slice() {
        return Some(PlainService::FreeIrq);
    }
    if name == b"deliver".as_slice() {
        return Some(PlainService::Deliver);
    }
    if name == b"combolock".as_slice() {
        return Some(PlainService::Combolock);
    }
    if name == b"combounlock".as_slice() {
        return Some(PlainService::Combounlock);
    }
    if name == b"BUG".as_slice() {
        return Some(PlainService::Bug);
    }
    None
}

fn as_plain(service: Option<PlainService>) -> Option<Service>
    ensures { result ≡ as_plain service }
{
    match service {
        None => None,
        Some(service) => Some(Service::Plain(service)),
    }
}

/// The service of a name. Its word is reserved.
#[tactic(auto, unfolding(crate::specs::Services::service_named))]
pub fn service_named(name: &[u8]) -> Option<Service>
    ensures { result ≡ service_named name.now }
{
    if name == b"kzalloc".as_slice() {
        return Some(Service::Kzalloc);
    }
    if name == b"kcalloc".as_slice() {
        return Some(Service::Kcalloc);
    }
    if name == b"printk".as_slice() {
        return Some(Service::Printk);
    }
    if name == b"request_irq".as_slice() {
        return Some(Service::RequestIrq);
    }
    if name == b"kcall".as_slice() {
        return Some(Service::Kcall);
    }
    as_plain(plain_named(name))
}

// The table of services: what each takes and gives, as messages carry it.

ghost use Rattle.std.specs.Prelude.{◌≡◌, ◌<◌, Some, option_map};
ghost use Rattle.mdr_core.specs.Services.{service_numbered};
ghost use Rattle.mdr_fits.specs.Tables.{terms_as};
ghost use Rattle.mdr_split.specs.Services.{terms_of};

use mdr_core::Kind;

/// The type of an argument: a number of 32 bits, any pointer, an interrupt's handler, or a pointer to a lock.
#[derive(Clone, Copy)]
pub enum Parameter {
    Number,
    Pointer,
    Handler,
    Lock,
}

/// What arguments a service takes: so many of these types, or pointers to the objects that die.
#[derive(Clone, Copy)]
pub enum Arguments {
    Nothing,
    One(Parameter),
    Two(Parameter, Parameter),
    Objects,
}

/// What shapes it takes: none, that of one element, that of so many elements, or those of the objects that are born.
#[derive(Clone, Copy)]
pub enum Shapes {
    NoShape,
    OneElement,
    Elements,
    Births,
}

/// What it gives: nothing, a number of a kind, null or a pointer to a new block, or a pointer to each new object.
#[derive(Clone, Copy)]
pub enum Gives {
    Nothing,
    Number(Kind),
    Block,
    Pointers,
}

/// What a service takes and gives. At most so many bytes come with the question.
#[derive(Clone, Copy)]
pub struct Terms {
    pub arguments: Arguments,
    pub shapes: Shapes,
    pub bytes: u32,
    pub gives: Gives,
}

fn takes(arguments: Arguments, gives: Gives) -> Option<Terms>
    ensures { result ≡ Some (record { arguments = arguments; shapes = Shapes.NoShape; bytes = 0; gives = gives }) }
{
    Some(Terms {
        arguments,
        shapes: Shapes::NoShape,
        bytes: 0,
        gives,
    })
}

fn takes_shapes(shapes: Shapes, gives: Gives) -> Option<Terms>
    ensures { result ≡ Some (record { arguments = Arguments.Nothing; shapes = shapes; bytes = 0; gives = gives }) }
{
    Some(Terms {
        arguments: Arguments::Nothing,
        shapes,
        bytes: 0,
        gives,
    })
}

fn takes_bytes(most: u32) -> Option<Terms>
    ensures { result ≡ Some (record { arguments = Arguments.Nothing; shapes = Shapes.NoShape; bytes = most; gives = Gives.Nothing }) }
{
    Some(Terms {
        arguments: Arguments::Nothing,
        shapes: Shapes::NoShape,
        bytes: most,
        gives: Gives::Nothing,
    })
}

/// The terms of the services from 8 on.
fn later(service: u32) -> Option<Terms>
    requires { 7 < service }
    ensures { option_map terms_as result ≡ option_map terms_of (service_numbered service) }
{
    if service == 8 {
        return takes(Arguments::Nothing, Gives::Nothing);
    }
    if service == 9 {
        return takes_bytes(u32::MAX);
    }
    if service == 10 {
        return takes(Arguments::One(Parameter::Lock), Gives::Nothing);
    }
    if service == 11 {
        return takes(Arguments::One(Parameter::Lock), Gives::Nothing);
    }
    if service == 12 {
        return takes(Arguments::Nothing, Gives::Nothing);
    }
    if service == 13 {
        return takes_shapes(Shapes::Births, Gives::Pointers);
    }
    if service == 14 {
        return takes(Arguments::Objects, Gives::Nothing);
    }
    None
}

/// What the service with a number takes and gives, where there is one.
pub fn terms_of(service: u32) -> Option<Terms>
    ensures { option_map terms_as result ≡ option_map terms_of (service_numbered service) }
{
    if service == 0 {
        return None;
    }
    if service == 1 {
        return takes_shapes(Shapes::OneElement, Gives::Block);
    }
    if service == 2 {
        return takes_shapes(Shapes::Elements, Gives::Block);
    }
    if service == 3 {
        return takes(Arguments::One(Parameter::Pointer), Gives::Nothing);
    }
    if service == 4 {
        return takes(Arguments::One(Parameter::Number), Gives::Number(Kind::U32));
    }
    if service == 5 {
        return takes(
            Arguments::Two(Parameter::Number, Parameter::Number),
            Gives::Nothing,
        );
    }
    if service == 6 {
        return takes_bytes(4096);
    }
    if service == 7 {
        return takes(Arguments::One(Parameter::Handler), Gives::Number(Kind::S32));
    }
    later(service)
}

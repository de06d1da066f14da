// How the program ends.

ghost use Rattle.std.specs.Prelude.{◌≡◌};
ghost use Rattle.mdr_due.specs.declared.status.Status.TheVariants.{OutOfMemory as Wanting};
ghost use Rattle.mdr_due.specs.Statuses.{number_of};

use mdr_core::OutOfMemory;

/// How the program ends. Its number is what the program gives to the system.
#[derive(Clone, Copy)]
pub enum Status {
    /// The run ended by itself.
    Done,
    /// The words are none of the program's.
    Usage,
    /// The source is none that is taken.
    SourceRefused,
    /// The script is none that is taken.
    ScriptRefused,
    /// A file couldn't be read.
    ReadFault,
    /// The output couldn't be written.
    WriteFault,
    /// The far side didn't answer.
    FarFault,
    /// The far side's answer was refused, or it refused the texts.
    Marshal,
    /// The driver stopped.
    Stopped,
    /// Memory was wanting.
    OutOfMemory,
    /// A file isn't there.
    Missing,
    /// A file is too large.
    TooLarge,
    /// Three texts aren't those that one source is cut into.
    HalvesRefused,
    /// A transcript isn't that of its run.
    NotVerified,
}

impl Status {
    /// Its number, from 0.
    pub const fn number(self) -> u8
        ensures { result ≡ number_of self }
    {
        match self {
            Status::Done => 0,
            Status::Usage => 1,
            Status::SourceRefused => 2,
            Status::ScriptRefused => 3,
            Status::ReadFault => 4,
            Status::WriteFault => 5,
            Status::FarFault => 6,
            Status::Marshal => 7,
            Status::Stopped => 8,
            Status::OutOfMemory => 9,
            Status::Missing => 10,
            Status::TooLarge => 11,
            Status::HalvesRefused => 12,
            Status::NotVerified => 13,
        }
    }
}

impl From<OutOfMemory> for Status {
    ghost from_gives = { λ _ s. s ≡ Wanting };

    fn from(_e: OutOfMemory) -> Status {
        Status::OutOfMemory
    }
}

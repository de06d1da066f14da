// The integer kinds.

ghost use Rattle.std.specs.Prelude.{◌≡◌};
ghost use Rattle.mdr_core.specs.Kinds.{width, is_signed, kind_number, least, greatest, is_in_range};

/// An integer type of the profile (C99 6.2.5): unsigned or signed, of 8, 16, 32 or 64 bits.
#[derive(Clone, Copy, Debug, PartialEq, Eq)]
pub enum Kind {
    U8,
    U16,
    U32,
    U64,
    S8,
    S16,
    S32,
    S64,
}

impl Kind {
    /// How many bits it has.
    pub const fn width(self) -> u32
        ensures { result ≡ width self }
    {
        match self {
            Kind::U8 | Kind::S8 => 8,
            Kind::U16 | Kind::S16 => 16,
            Kind::U32 | Kind::S32 => 32,
            Kind::U64 | Kind::S64 => 64,
        }
    }

    pub const fn is_signed(self) -> bool
        ensures { result ≡ is_signed self }
    {
        match self {
            Kind::U8 | Kind::U16 | Kind::U32 | Kind::U64 => false,
            Kind::S8 | Kind::S16 | Kind::S32 | Kind::S64 => true,
        }
    }

    /// Its number in the order of the kinds, from 0: its number in the type table and on the wire.
    pub const fn number(self) -> u32
        ensures { result ≡ kind_number self }
    {
        match self {
            Kind::U8 => 0,
            Kind::U16 => 1,
            Kind::U32 => 2,
            Kind::U64 => 3,
            Kind::S8 => 4,
            Kind::S16 => 5,
            Kind::S32 => 6,
            Kind::S64 => 7,
        }
    }

    pub const fn least(self) -> i128
        ensures { result ≡ least self }
    {
        match self {
            Kind::U8 | Kind::U16 | Kind::U32 | Kind::U64 => 0,
            Kind::S8 => i8::MIN as i128,
            Kind::S16 => i16::MIN as i128,
            Kind::S32 => i32::MIN as i128,
            Kind::S64 => i64::MIN as i128,
        }
    }

    pub const fn greatest(self) -> i128
        ensures { result ≡ greatest self }
    {
        match self {
            Kind::U8 => u8::MAX as i128,
            Kind::U16 => u16::MAX as i128,
            Kind::U32 => u32::MAX as i128,
            Kind::U64 => u64::MAX as i128,
            Kind::S8 => i8::MAX as i128,
            Kind::S16 => i16::MAX as i128,
            Kind::S32 => i32::MAX as i128,
            Kind::S64 => i64::MAX as i128,
        }
    }

    /// Whether a number lies in its range.
    #[tactic(auto, unfolding(crate::specs::Kinds::is_in_range))]
    pub const fn contains(self, number: i128) -> bool
        ensures { result ≡ is_in_range self number }
    {
        self.least() <= number && number <= self.greatest()
    }
}

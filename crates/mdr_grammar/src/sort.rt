// The sorts of tokens.

ghost use Rattle.std.specs.Prelude.{◌≡◌};
ghost use Rattle.mdr_grammar.specs.Sorts.{kind_number, number_of, is};

use mdr_core::Kind;

/// What a token is for the grammar.
#[derive(Clone, Copy)]
pub enum Sort {
    Name,
    Number,
    Text,
    Define,
    End,
    /// A word that no production has.
    Other,
    /// The words of base types; `u8` to `s64` are whole types.
    Integer(Kind),
    Char,
    Short,
    Int,
    Long,
    Signed,
    Unsigned,
    Void,
    Lock,
    Struct,
    /// `static`, `const`, `inline` and `volatile`.
    Qualifier,
    Remote,
    Critical,
    Array,
    Sentinel,
    NullTerm,
    Opaque,
    Enum,
    Null,
    /// The name of a service.
    Service,
    If,
    Else,
    While,
    For,
    Do,
    Switch,
    Case,
    Default,
    Return,
    Break,
    Continue,
    OpenBrace,
    CloseBrace,
    Open,
    Close,
    OpenBracket,
    CloseBracket,
    Semicolon,
    Comma,
    Dot,
    Arrow,
    Colon,
    Question,
    Equals,
    /// A compound assignment operator.
    Compound,
    /// `++` and `--`.
    Step,
    /// Operators that stand between operands alone: `||`, `&&`, `|`, `^`, `== !=`, `< <= > >=`, `<< >>`, `/ %`.
    OrElse,
    AndThen,
    Or,
    Xor,
    Equality,
    Relation,
    Shift,
    Slash,
    /// Operators that also stand before an operand: `&`, `+`, `-`, `*`.
    And,
    Plus,
    Minus,
    Star,
    /// `!` and `~`.
    Not,
}

fn kind_number(kind: Kind) -> u32
    ensures { result ≡ kind_number kind }
{
    match kind {
        Kind::U8 => 0,
        Kind::U16 => 1,
        Kind::U32 => 2,
        Kind::U64 => 3,
        Kind::S8 => 4,
        Kind::S16 => 5,
        Kind::S32 => 6,
        Kind::S64 => 7,
    }
}

impl Sort {
    fn number(self) -> u32
        ensures { result ≡ number_of self }
    {
        match self {
            Sort::Name => 10,
            Sort::Number => 11,
            Sort::Text => 12,
            Sort::Define => 13,
            Sort::End => 14,
            Sort::Other => 15,
            Sort::Integer(kind) => kind_number(kind),
            Sort::Char => 16,
            Sort::Short => 17,
            Sort::Int => 18,
            Sort::Long => 19,
            Sort::Signed => 20,
            Sort::Unsigned => 21,
            Sort::Void => 22,
            Sort::Lock => 23,
            Sort::Struct => 24,
            Sort::Qualifier => 25,
            Sort::Remote => 26,
            Sort::Critical => 27,
            Sort::Array => 28,
            Sort::Sentinel => 29,
            Sort::NullTerm => 30,
            Sort::Opaque => 31,
            Sort::Enum => 32,
            Sort::Null => 33,
            Sort::Service => 34,
            Sort::If => 35,
            Sort::Else => 36,
            Sort::While => 37,
            Sort::For => 38,
            Sort::Do => 39,
            Sort::Switch => 40,
            Sort::Case => 41,
            Sort::Default => 42,
            Sort::Return => 43,
            Sort::Break => 44,
            Sort::Continue => 45,
            Sort::OpenBrace => 46,
            Sort::CloseBrace => 47,
            Sort::Open => 48,
            Sort::Close => 49,
            Sort::OpenBracket => 50,
            Sort::CloseBracket => 51,
            Sort::Semicolon => 52,
            Sort::Comma => 53,
            Sort::Dot => 54,
            Sort::Arrow => 55,
            Sort::Colon => 56,
            Sort::Question => 57,
            Sort::Equals => 58,
            Sort::Compound => 59,
            Sort::Step => 60,
            Sort::OrElse => 61,
            Sort::AndThen => 62,
            Sort::Or => 63,
            Sort::Xor => 64,
            Sort::Equality => 65,
            Sort::Relation => 66,
            Sort::Shift => 67,
            Sort::Slash => 68,
            Sort::And => 69,
            Sort::Plus => 70,
            Sort::Minus => 71,
            Sort::Star => 72,
            Sort::Not => 73,
        }
    }

    /// Whether the two are one sort.
    pub fn is(self, other: Sort) -> bool
        ensures { result ≡ is self other }
    {
        self.number() == other.number()
    }
}

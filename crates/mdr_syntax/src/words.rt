// The reserved words and the punctuation.

ghost use Rattle.std.specs.Prelude.{◌≡◌, ◌≤◌, length, map};
ghost use Rattle.std.specs.Str.{bytes_eq};
ghost use Rattle.std.specs.List.{list_any};
ghost use Rattle.mdr_syntax.specs.Words.{is_reserved, front_len, punctuation_len};

/// C99's keywords (6.4.1), the names of types, the annotations, the services and the other words that may
/// name nothing in a source.
const RESERVED: [&str; 70] = [
    "auto",
    "break",
    "case",
    "char",
    "const",
    "continue",
    "default",
    "do",
    "double",
    "else",
    "enum",
    "extern",
    "float",
    "for",
    "goto",
    "if",
    "inline",
    "int",
    "long",
    "register",
    "restrict",
    "return",
    "short",
    "signed",
    "sizeof",
    "static",
    "struct",
    "switch",
    "typedef",
    "union",
    "unsigned",
    "void",
    "volatile",
    "while",
    "_Bool",
    "_Complex",
    "_Imaginary",
    "NULL",
    "u8",
    "u16",
    "u32",
    "u64",
    "s8",
    "s16",
    "s32",
    "s64",
    "combolock_t",
    "__array",
    "__sentinel",
    "__nullterm",
    "__opaque",
    "__critical",
    "__remote",
    "asm",
    "__asm__",
    "kzalloc",
    "kcalloc",
    "kfree",
    "readl",
    "writel",
    "printk",
    "request_irq",
    "free_irq",
    "deliver",
    "combolock",
    "combounlock",
    "BUG",
    "enter",
    "leave",
    "kcall",
];

/// The punctuation (C99 6.4.6), the longest first.
const PUNCTUATION: [&str; 46] = [
    "...", "<<=", ">>=", "->", "==", "!=", "<=", ">=", "<<", ">>", "&&", "||", "+=", "-=", "*=",
    "/=", "%=", "&=", "|=", "^=", "++", "--", "{", "}", "(", ")", "[", "]", ";", ",", ".", "=",
    "<", ">", "+", "-", "*", "/", "%", "&", "|", "^", "!", "~", "?", ":",
];

/// Whether a word is one of these.
fn is_one_of(words: &[&str], word: &[u8]) -> bool
    ensures { result ≡ list_any (λ w. bytes_eq w.now word.now) words.now }
{
    words.iter().any(|w| w.as_bytes() == word)
}

/// How many bytes the first of these words has that stands at the front, or none.
fn front_len(words: &[&str], bytes: &[u8]) -> usize
    ensures value { result ≡ front_len (map (λ w. w.now) words.now) bytes.now }
    ensures within { result ≤ length bytes.now }
{
    for word in words {
        if bytes.starts_with(word.as_bytes()) {
            return word.len();
        }
    }
    0
}

/// Whether a word may name nothing in a source.
pub fn is_reserved(word: &[u8]) -> bool
    ensures { result ≡ is_reserved word.now }
{
    is_one_of(&RESERVED, word)
}

/// How many bytes the longest punctuation at the front has, or none.
pub fn punctuation_len(bytes: &[u8]) -> usize
    ensures value { result ≡ punctuation_len bytes.now }
    ensures within { result ≤ length bytes.now }
{
    front_len(&PUNCTUATION, bytes)
}

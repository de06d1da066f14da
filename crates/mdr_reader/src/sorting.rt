// The sorts of words and marks.

ghost use Rattle.std.specs.Prelude.{◌≡◌, if◌then◌else◌, map};
ghost use Rattle.mdr_grammar.specs.Sorts.{Word, word as listed, sort_in, words, marks, admitted, unlisted, sort_of};

use mdr_core::Kind;
use mdr_grammar::sort::Sort;
use mdr_syntax::{Lexeme, is_reserved};

/// The words that productions name.
const WORDS: [(&str, Sort); 53] = [
    ("u8", Sort::Integer(Kind::U8)),
    ("u16", Sort::Integer(Kind::U16)),
    ("u32", Sort::Integer(Kind::U32)),
    ("u64", Sort::Integer(Kind::U64)),
    ("s8", Sort::Integer(Kind::S8)),
    ("s16", Sort::Integer(Kind::S16)),
    ("s32", Sort::Integer(Kind::S32)),
    ("s64", Sort::Integer(Kind::S64)),
    ("char", Sort::Char),
    ("short", Sort::Short),
    ("int", Sort::Int),
    ("long", Sort::Long),
    ("signed", Sort::Signed),
    ("unsigned", Sort::Unsigned),
    ("void", Sort::Void),
    ("combolock_t", Sort::Lock),
    ("struct", Sort::Struct),
    ("static", Sort::Qualifier),
    ("const", Sort::Qualifier),
    ("inline", Sort::Qualifier),
    ("volatile", Sort::Qualifier),
    ("__remote", Sort::Remote),
    ("__critical", Sort::Critical),
    ("__array", Sort::Array),
    ("__sentinel", Sort::Sentinel),
    ("__nullterm", Sort::NullTerm),
    ("__opaque", Sort::Opaque),
    ("enum", Sort::Enum),
    ("NULL", Sort::Null),
    ("kzalloc", Sort::Service),
    ("kcalloc", Sort::Service),
    ("kfree", Sort::Service),
    ("readl", Sort::Service),
    ("writel", Sort::Service),
    ("printk", Sort::Service),
    ("request_irq", Sort::Service),
    ("free_irq", Sort::Service),
    ("deliver", Sort::Service),
    ("combolock", Sort::Service),
    ("combounlock", Sort::Service),
    ("BUG", Sort::Service),
    ("kcall", Sort::Service),
    ("if", Sort::If),
    ("else", Sort::Else),
    ("while", Sort::While),
    ("for", Sort::For),
    ("do", Sort::Do),
    ("switch", Sort::Switch),
    ("case", Sort::Case),
    ("default", Sort::Default),
    ("return", Sort::Return),
    ("break", Sort::Break),
    ("continue", Sort::Continue),
];

/// The punctuation.
const MARKS: [(&str, Sort); 45] = [
    ("{", Sort::OpenBrace),
    ("}", Sort::CloseBrace),
    ("(", Sort::Open),
    (")", Sort::Close),
    ("[", Sort::OpenBracket),
    ("]", Sort::CloseBracket),
    (";", Sort::Semicolon),
    (",", Sort::Comma),
    (".", Sort::Dot),
    ("->", Sort::Arrow),
    (":", Sort::Colon),
    ("?", Sort::Question),
    ("=", Sort::Equals),
    ("+=", Sort::Compound),
    ("-=", Sort::Compound),
    ("*=", Sort::Compound),
    ("/=", Sort::Compound),
    ("%=", Sort::Compound),
    ("&=", Sort::Compound),
    ("|=", Sort::Compound),
    ("^=", Sort::Compound),
    ("<<=", Sort::Compound),
    (">>=", Sort::Compound),
    ("++", Sort::Step),
    ("--", Sort::Step),
    ("||", Sort::OrElse),
    ("&&", Sort::AndThen),
    ("|", Sort::Or),
    ("^", Sort::Xor),
    ("==", Sort::Equality),
    ("!=", Sort::Equality),
    ("<", Sort::Relation),
    ("<=", Sort::Relation),
    (">", Sort::Relation),
    (">=", Sort::Relation),
    ("<<", Sort::Shift),
    (">>", Sort::Shift),
    ("/", Sort::Slash),
    ("%", Sort::Slash),
    ("&", Sort::And),
    ("+", Sort::Plus),
    ("-", Sort::Minus),
    ("*", Sort::Star),
    ("!", Sort::Not),
    ("~", Sort::Not),
];

/// The sort of a text in a table.
fn sort_in(table: &[(&str, Sort)], text: &[u8], other: Sort) -> Sort
    ensures { result ≡ sort_in (map (λ w. listed w.0.now w.1) table.now) text.now other }
{
    for (word, sort) in table {
        if word.as_bytes() == text {
            return *sort;
        }
    }
    other
}

/// The sort of a word that isn't in the table.
fn unlisted(text: &[u8]) -> Sort
    ensures { result ≡ unlisted text.now }
{
    if is_reserved(text) {
        Sort::Other
    } else {
        Sort::Name
    }
}

fn word_sort(text: &[u8]) -> Sort
    ensures { result ≡ sort_in words text.now (unlisted text.now) }
{
    sort_in(&WORDS, text, unlisted(text))
}

fn mark_sort(text: &[u8]) -> Sort
    ensures { result ≡ sort_in marks text.now Sort.Other }
{
    sort_in(&MARKS, text, Sort::Other)
}

/// The sort of `__remote`, which stands in half texts alone.
fn remote(halves: bool) -> Sort
    ensures { result ≡ if halves then Sort.Remote else Sort.Other }
{
    if halves { Sort::Remote } else { Sort::Other }
}

fn admitted(sort: Sort, halves: bool) -> Sort
    ensures { result ≡ admitted halves sort }
{
    if sort.is(Sort::Remote) {
        remote(halves)
    } else {
        sort
    }
}

/// The sort of a token.
#[tactic(auto, unfolding(mdr_grammar::specs::Sorts::sort_of))]
pub fn sort_of(what: &Lexeme, halves: bool) -> Sort
    ensures { result ≡ sort_of halves what.now }
{
    match what {
        Lexeme::Word(text) => admitted(word_sort(text.as_slice()), halves),
        Lexeme::Number(_, _) => Sort::Number,
        Lexeme::Text(_) => Sort::Text,
        Lexeme::Punct(text) => mark_sort(text.as_slice()),
        Lexeme::Define(_, _, _, _) => Sort::Define,
        Lexeme::End => Sort::End,
    }
}

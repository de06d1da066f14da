// The words of a line.

ghost use Rattle.std.specs.Prelude.{◌≡◌, ◌≤◌, length, take, drop};
ghost use Rattle.std.specs.List.{prefix_len, list_all};
ghost use Rattle.mdr_syntax.specs.Bytes.{is_blank, is_name_byte};
ghost use Rattle.mdr_syntax.specs.Pieces.{begins_letter, skip_blanks};
ghost use Rattle.mdr_script.specs.Gives.{Gives};
ghost use Rattle.mdr_script.specs.Words.{is_word_byte, word_len, word_at, ends, ends_comma, piece_len, piece_at, begins_hash, is_name, name_of};

use crate::unread::Unread;
use mdr_core::{Items, Name};
use std::alloc::Global;

/// Blank or tab.
fn is_blank(b: u8) -> bool
    ensures { result ≡ is_blank b }
{
    b == b' ' || b == b'\t'
}

fn blanks_len(bytes: &[u8]) -> usize
    ensures count { result ≡ prefix_len is_blank bytes.now }
    ensures within { result ≤ length bytes.now }
{
    bytes.iter().take_while(|b| is_blank(**b)).count()
}

/// What stands behind the blanks at the front.
fn skip_blanks(bytes: &[u8]) -> &[u8]
    ensures { result.now ≡ skip_blanks bytes.now }
{
    &bytes[blanks_len(bytes)..]
}

fn word_len(bytes: &[u8]) -> usize
    ensures count { result ≡ word_len bytes.now }
    ensures within { result ≤ length bytes.now }
{
    bytes.iter().take_while(|b| !is_blank(**b)).count()
}

/// The first word, which is empty where there is none, and what stands behind it.
#[tactic(auto, unfolding(crate::specs::Words::word_at))]
pub fn word_at(bytes: &[u8]) -> (&[u8], &[u8])
    ensures { (result.0.now, result.1.now) ≡ word_at bytes.now }
{
    let start = skip_blanks(bytes);
    start.split_at(word_len(start))
}

/// Whether there is no further word.
#[tactic(auto, unfolding(crate::specs::Words::ends))]
pub fn ends(bytes: &[u8]) -> bool
    ensures { result ≡ ends bytes.now }
{
    word_at(bytes).0.is_empty()
}

/// Whether a comma stands behind other bytes.
fn ends_comma(word: &[u8]) -> bool
    ensures { result ≡ ends_comma word.now }
{
    word.len() > 1 && word[word.len() - 1] == b','
}

fn piece_len(word: &[u8]) -> usize
    ensures count { result ≡ piece_len word.now }
    ensures within { result ≤ length word.now }
{
    if ends_comma(word) {
        word.len() - 1
    } else {
        word.len()
    }
}

/// The first word, where a comma at a word's end is a word of its own, and what stands behind it.
#[tactic(auto, unfolding(crate::specs::Words::piece_at, crate::specs::Words::word_at))]
pub fn piece_at(bytes: &[u8]) -> (&[u8], &[u8])
    ensures { (result.0.now, result.1.now) ≡ piece_at bytes.now }
{
    let start = skip_blanks(bytes);
    let word = &start[..word_len(start)];
    start.split_at(piece_len(word))
}

pub fn begins_hash(bytes: &[u8]) -> bool
    ensures { result ≡ begins_hash bytes.now }
{
    match bytes {
        [b, ..] => *b == b'#',
        [] => false,
    }
}

fn begins_letter(word: &[u8]) -> bool
    ensures { result ≡ begins_letter word.now }
{
    match word {
        [first, ..] => first.is_ascii_alphabetic() || *first == b'_',
        [] => false,
    }
}

fn is_name_byte(b: u8) -> bool
    ensures { result ≡ is_name_byte b }
{
    b.is_ascii_alphabetic() || b == b'_' || b.is_ascii_digit()
}

fn are_name_bytes(word: &[u8]) -> bool
    ensures { result ≡ list_all is_name_byte word.now }
{
    word.iter().all(|b| is_name_byte(*b))
}

#[tactic(auto, unfolding(crate::specs::Words::is_name))]
fn is_name(word: &[u8]) -> bool
    ensures { result ≡ is_name word.now }
{
    begins_letter(word) && are_name_bytes(word)
}

/// A word that is a name.
#[tactic(auto, unfolding(crate::specs::Words::name_of))]
pub fn name_of(alloc: Global, word: &[u8]) -> Result<Name, Unread>
    ensures { Gives (λ n. n) result (name_of word.now) }
{
    if is_name(word) {
        Ok(Items::from_slice(alloc, word)?)
    } else {
        Err(Unread::Refused)
    }
}

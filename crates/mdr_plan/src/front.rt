// What stands at the front of a text.

ghost use Rattle.std.specs.Prelude.{◌≡◌, ◌≤◌, length, take, drop};
ghost use Rattle.std.specs.List.{prefix_len};
ghost use Rattle.std.specs.Option.{option_map};
ghost use Rattle.mdr_syntax.specs.Bytes.{is_name_byte};
ghost use Rattle.mdr_plan.specs.Front.{strip, word_at};

/// What stands behind these bytes, where the text begins with them.
pub fn strip<'a>(bytes: &'a [u8], front: &[u8]) -> Option<&'a [u8]>
    ensures { option_map (λ r. r.now) result ≡ strip front.now bytes.now }
{
    bytes.strip_prefix(front)
}

/// Whether the byte may stand in a name.
pub fn is_name_byte(b: u8) -> bool
    ensures { result ≡ is_name_byte b }
{
    b.is_ascii_alphabetic() || b == b'_' || b.is_ascii_digit()
}

fn word_len(bytes: &[u8]) -> usize
    ensures count { result ≡ prefix_len is_name_byte bytes.now }
    ensures within { result ≤ length bytes.now }
{
    bytes.iter().take_while(|b| is_name_byte(**b)).count()
}

/// The word at the front, which may be empty, and what stands behind it.
#[tactic(auto, unfolding(crate::specs::Front::word_at))]
pub fn word_at(bytes: &[u8]) -> (&[u8], &[u8])
    ensures { (result.0.now, result.1.now) ≡ word_at bytes.now }
{
    bytes.split_at(word_len(bytes))
}

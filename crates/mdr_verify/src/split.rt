// A text's first line.

ghost use Rattle.std.specs.Prelude.{◌≡◌, ◌≤◌, length, MatchOption};
ghost use Rattle.std.specs.List.{prefix_len};
ghost use Rattle.mdr_verify.specs.Transcripts.{in_line, IsOneLine};
ghost use Rattle.mdr_verify.specs.Reading.{Splits};

fn line_len(bytes: &[u8]) -> usize
    ensures count { result ≡ prefix_len in_line bytes.now }
    ensures within { result ≤ length bytes.now }
{
    bytes.iter().take_while(|b| **b != b'\n').count()
}

/// The first line without its newline, and what stands behind that. The text's end isn't a line's.
pub fn split_line(bytes: &[u8]) -> Option<(&[u8], &[u8])>
    ensures { MatchOption result (IsOneLine bytes.now) (λ x. Splits bytes.now x.0.now x.1.now) }
{
    let (line, rest) = bytes.split_at(line_len(bytes));
    match rest {
        [_, after @ ..] => Some((line, after)),
        [] => None,
    }
}

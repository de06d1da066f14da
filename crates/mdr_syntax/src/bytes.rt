// The classes of bytes.

ghost use Rattle.std.specs.Prelude.{◌≡◌, ◌≤◌, length, IfOk};
ghost use Rattle.std.specs.List.{prefix_len};
ghost use Rattle.mdr_syntax.specs.Pieces.{skip_blanks};
ghost use Rattle.mdr_syntax.specs.Bytes.{is_blank, is_space, is_letter, is_name_byte, is_number_byte, is_plain, in_line};

/// Blank or tab: what separates words on a line.
pub fn is_blank(b: u8) -> bool
    ensures { result ≡ is_blank b }
{
    b == b' ' || b == b'\t'
}

/// What separates tokens.
pub fn is_space(b: u8) -> bool
    ensures { result ≡ is_space b }
{
    is_blank(b) || b == b'\n' || b == b'\r'
}

/// What begins a name.
pub fn is_letter(b: u8) -> bool
    ensures { result ≡ is_letter b }
{
    b.is_ascii_alphabetic() || b == b'_'
}

/// What continues a name.
pub fn is_name_byte(b: u8) -> bool
    ensures { result ≡ is_name_byte b }
{
    is_letter(b) || b.is_ascii_digit()
}

/// What may not follow a number.
pub fn is_number_byte(b: u8) -> bool
    ensures { result ≡ is_number_byte b }
{
    is_name_byte(b) || b == b'.'
}

/// What stands for itself between these quotes.
pub fn is_plain(quote: u8, b: u8) -> bool
    ensures { result ≡ is_plain quote b }
{
    (32..=126).contains(&b) && b != quote && b != b'\\'
}

/// How many bytes at the front are blanks.
pub fn blanks_len(bytes: &[u8]) -> usize
    ensures count { result ≡ prefix_len is_blank bytes.now }
    ensures within { result ≤ length bytes.now }
{
    bytes.iter().take_while(|b| is_blank(**b)).count()
}

/// What stands behind the blanks at the front.
pub fn skip_blanks(bytes: &[u8]) -> &[u8]
    ensures value { result.now ≡ skip_blanks bytes.now }
    ensures within { length result.now ≤ length bytes.now }
{
    &bytes[blanks_len(bytes)..]
}

/// How many bytes at the front may stand in a name.
pub fn name_len(bytes: &[u8]) -> usize
    ensures count { result ≡ prefix_len is_name_byte bytes.now }
    ensures within { result ≤ length bytes.now }
{
    bytes.iter().take_while(|b| is_name_byte(**b)).count()
}

/// How many bytes at the front belong to what a digit begins.
pub fn number_len(bytes: &[u8]) -> usize
    ensures count { result ≡ prefix_len is_number_byte bytes.now }
    ensures within { result ≤ length bytes.now }
{
    bytes.iter().take_while(|b| is_number_byte(**b)).count()
}

/// How many bytes stand before the end of the line.
pub fn line_len(bytes: &[u8]) -> usize
    ensures count { result ≡ prefix_len in_line bytes.now }
    ensures within { result ≤ length bytes.now }
{
    bytes.iter().take_while(|b| **b != b'\n').count()
}

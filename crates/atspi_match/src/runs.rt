//! How many bytes of one sort stand in front.

ghost use Rattle.std.specs.Prelude.{◌≡◌, ◌≤◌, length};
ghost use Rattle.std.specs.List.{prefix_len};
ghost use Rattle.atspi_match.specs.Grammar.{is_blank, is_word_byte, is_quotable, is_plain};

/// How many blanks, spaces and tabs, stand in front.
pub(crate) fn count_blanks(bytes: &[u8]) -> usize
    ensures count { result ≡ prefix_len is_blank bytes.now }
    ensures within { result ≤ length bytes.now }
{
    bytes
        .iter()
        .take_while(|b| **b == b' ' || **b == b'\t')
        .count()
}

/// How many bytes stand before the first `=` or `,`, or all.
pub(crate) fn count_word(bytes: &[u8]) -> usize
    ensures count { result ≡ prefix_len is_word_byte bytes.now }
    ensures within { result ≤ length bytes.now }
{
    bytes
        .iter()
        .take_while(|b| **b != b'=' && **b != b',')
        .count()
}

/// How many bytes stand before the first apostrophe, or all.
pub(crate) fn count_quotable(bytes: &[u8]) -> usize
    ensures count { result ≡ prefix_len is_quotable bytes.now }
    ensures within { result ≤ length bytes.now }
{
    bytes.iter().take_while(|b| **b != b'\'').count()
}

/// How many bytes stand before the first apostrophe, comma or backslash, or all.
pub(crate) fn count_plain(bytes: &[u8]) -> usize
    ensures count { result ≡ prefix_len is_plain bytes.now }
    ensures within { result ≤ length bytes.now }
{
    bytes
        .iter()
        .take_while(|b| **b != b'\'' && **b != b',' && **b != b'\\')
        .count()
}

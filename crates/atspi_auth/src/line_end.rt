//! Where a line ends that comes in pieces.

ghost use Rattle.std.specs.Prelude.{◌≡◌, ◌+◌, ◌-◌, ◌≤◌, ◌++◌, [], ◌∷◌, length, take, IfSome, IfNone};
ghost use Rattle.atspi_auth.specs.Lines.{HasNoEnd, lines_of, ends_in_return};

/// Whether the last byte is CR.
fn ends_in_return(bytes: &[u8]) -> bool
    ensures { result ≡ ends_in_return bytes.now }
{
    !bytes.is_empty() && bytes[bytes.len() - 1] == b'\r'
}

/// How many bytes of the piece end the line that `held` began; `None` where it does not end there.
pub(crate) fn line_end(held: &[u8], piece: &[u8]) -> Option<usize>
    requires { HasNoEnd held.now }
    ensures none { IfNone result (HasNoEnd (held.now ++ piece.now)) }
    ensures within { IfSome result (λ n. n ≤ length piece.now) }
    ensures room { IfSome result (λ n. 2 ≤ length held.now + n) }
    ensures line { IfSome result (λ n. lines_of (held.now ++ take n piece.now)
        ≡ record { whole = take (length held.now + n - 2) (held.now ++ take n piece.now) ∷ []; rest = [] }) }
{
    let mut returned = ends_in_return(held);
    for (i, byte) in piece.iter().enumerate() {
        if returned && *byte == b'\n' {
            return Some(i + 1);
        }
        returned = *byte == b'\r';
    }
    None
}

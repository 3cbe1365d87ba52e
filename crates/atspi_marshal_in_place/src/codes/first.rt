//! The first of several types.

ghost use Rattle.std.specs.Prelude.{◌≡◌};
ghost use Rattle.atspi_marshal_in_place.specs.codes.Codes.{first_end};

/// How many codes the first type has. Most types have one code, so that this is looked at first.
#[inline(always)]
pub fn first_len(codes: &[u8]) -> usize
    ensures { result ≡ first_end 0 codes.now }
{
    if codes.is_empty() {
        return 0;
    }
    let code = codes[0];
    if code != b'a' && code != b'(' && code != b'{' {
        return 1;
    }
    bracketed_len(codes)
}

/// The same, code by code.
fn bracketed_len(codes: &[u8]) -> usize
    ensures { result ≡ first_end 0 codes.now }
{
    let mut open = 0usize;
    for i in 0..codes.len() {
        let code = codes[i];
        if code == b'(' || code == b'{' {
            open += 1;
        } else if open == 0 {
            if code != b'a' {
                return i + 1;
            }
        } else if code == b')' || code == b'}' {
            open -= 1;
            if open == 0 {
                return i + 1;
            }
        }
    }
    codes.len()
}

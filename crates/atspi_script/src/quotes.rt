//! Bytes in quotes, moved whole where none of them is escaped.

ghost use Rattle.std.specs.Prelude.{◌≡◌, ◌+◌, ◌≤◌, [], ◌∷◌, ◌++◌, IsTrue, OnOk, length, take};
ghost use Rattle.std.specs.List.{flat_map, list_all};
ghost use Rattle.atspi_base.specs.Quoted.{escaped, in_quotes};
ghost use Rattle.atspi_base.specs.valid_names.Names.{IsPath, is_path};
ghost use Rattle.atspi_script.specs.inner.Marks.{stands};

use atspi_base::{Bytes, NoMemory};

/// The text of a path, which has no byte that is escaped.
#[derive(Clone, Copy)]
pub struct PathText<'a> {
    text: &'a str,
    ghost rule: { IsTrue (is_path text.now) },
}

/// Whether a byte stands between quotes as it is: without a branch, so that the machine can look at many bytes at once.
#[inline(always)]
fn is_plain(byte: u8) -> bool
    ensures { result ≡ stands byte }
{
    (32 <= byte) & (byte != 127) & (byte != b'"') & (byte != b'\\')
}

/// Whether all of the bytes stand between quotes as they are. None of them ends the loop, for the same reason.
#[inline(always)]
fn piece_is_plain(bytes: &[u8]) -> bool
    ensures { result ≡ list_all stands bytes.now }
{
    let mut plain = true;
    for i in 0..bytes.len() {
        plain &= is_plain(bytes[i]);
    }
    plain
}

/// The same of bytes that two pieces of `size` bytes cover: some may be looked at twice.
#[inline(always)]
fn pair_is_plain(size: usize, bytes: &[u8]) -> bool
    requires { (size ≤ length bytes.now) × (length bytes.now ≤ size + size) × (size ≤ 16) }
    ensures { result ≡ list_all stands bytes.now }
{
    let last = bytes.len() - size;
    piece_is_plain(&bytes[..size]) && piece_is_plain(&bytes[last..])
}

/// The same of 16 bytes or more, piece by piece: some of the last 16 may be looked at twice.
#[inline(always)]
fn pieces_are_plain(bytes: &[u8]) -> bool
    requires { 16 ≤ length bytes.now }
    ensures { result ≡ list_all stands bytes.now }
{
    let last = bytes.len() - 16;
    let mut at = 0;
    while at < last {
        if !piece_is_plain(&bytes[at..at + 16]) {
            return false;
        }
        at += 16;
    }
    piece_is_plain(&bytes[last..])
}

/// The same of fewer than four bytes.
#[inline(always)]
fn few_are_plain(bytes: &[u8]) -> bool
    ensures { result ≡ list_all stands bytes.now }
{
    match bytes {
        [] => true,
        [a] => is_plain(*a),
        [a, b] => is_plain(*a) & is_plain(*b),
        [a, b, c] => is_plain(*a) & is_plain(*b) & is_plain(*c),
        _ => piece_is_plain(bytes),
    }
}

/// Whether all of the bytes stand between quotes as they are.
#[tactic(auto, using(crate::proofs::QuoteLemmas::all_stand))]
#[inline(always)]
fn are_plain(bytes: &[u8]) -> bool
    ensures { IsTrue result → flat_map escaped bytes.now ≡ bytes.now }
{
    let len = bytes.len();
    if 16 <= len {
        return pieces_are_plain(bytes);
    }
    if 8 <= len {
        return pair_is_plain(8, bytes);
    }
    if 4 <= len {
        return pair_is_plain(4, bytes);
    }
    few_are_plain(bytes)
}

/// Appends bytes between quotes as they are. After want of memory a front of that was appended.
#[inline(always)]
fn put_plain(bytes: &[u8], out: &mut Bytes) -> Result<(), NoMemory>
    ensures ok { OnOk result (out.new ≡ out.old ++ 34 ∷ bytes.now ++ 34 ∷ []) }
    ensures front { take (length out.old) out.new ≡ out.old }
{
    out.push(b'"')?;
    out.extend(bytes)?;
    out.push(b'"')
}

/// Appends bytes in quotes. After want of memory a front of that was appended.
pub fn put_in_quotes(bytes: &[u8], out: &mut Bytes) -> Result<(), NoMemory>
    ensures ok { OnOk result (out.new ≡ out.old ++ in_quotes bytes.now) }
    ensures front { take (length out.old) out.new ≡ out.old }
{
    if are_plain(bytes) {
        return put_plain(bytes, out);
    }
    atspi_base::put_in_quotes(bytes, out)
}

impl<'a> PathText<'a> {
    /// The text of a path.
    #[tactic(auto, using(crate::proofs::PathLemmas::path_test))]
    #[inline(always)]
    pub fn new(text: &'a str) -> PathText<'a>
        requires { IsPath text.now }
        ensures { result.text.now ≡ text.now }
    {
        PathText { text }
    }
}

/// Appends a path in quotes, without a look at its bytes. After want of memory a front of that was appended.
#[inline(always)]
pub fn put_path(path: PathText<'_>, out: &mut Bytes) -> Result<(), NoMemory>
    ensures ok { OnOk result (out.new ≡ out.old ++ in_quotes path.entry.text.now) }
    ensures front { take (length out.old) out.new ≡ out.old }
{
    put_plain(path.text.as_bytes(), out)
}

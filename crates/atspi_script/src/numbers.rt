//! Numbers as digits: those of a few digits in one piece, without a buffer.

ghost use Rattle.std.specs.Prelude.{◌≡◌, ◌≤◌, ◌<◌, ◌++◌, OnOk, OnErr};
ghost use Rattle.std.specs.Fmt.{decimal, signed_decimal};

use atspi_base::{Bytes, NoMemory, put_decimal};

/// Appends a number in decimal. Most numbers of a message have four digits or fewer. After want of memory nothing was
/// appended.
#[inline(always)]
pub fn put_number(n: u64, out: &mut Bytes) -> Result<(), NoMemory>
    ensures ok { OnOk result (out.new ≡ out.old ++ decimal n) }
    ensures err { OnErr result (out.new ≡ out.old) }
{
    if n < 10 {
        return out.push(b'0' + n as u8);
    }
    if n < 10_000 {
        return put_few_digits(n, out);
    }
    put_decimal(n, out)
}

/// Appends a number of two, three or four digits.
#[tactic(auto, using(crate::proofs::NumberLemmas::two_digits, crate::proofs::NumberLemmas::three_digits, crate::proofs::NumberLemmas::four_digits))]
fn put_few_digits(n: u64, out: &mut Bytes) -> Result<(), NoMemory>
    requires { (10 ≤ n) × (n < 10000) }
    ensures ok { OnOk result (out.new ≡ out.old ++ decimal n) }
    ensures err { OnErr result (out.new ≡ out.old) }
{
    let front = n / 10;
    let last = b'0' + (n % 10) as u8;
    if n < 100 {
        return out.extend(&[b'0' + front as u8, last]);
    }
    let third = b'0' + (front % 10) as u8;
    if n < 1000 {
        return out.extend(&[b'0' + (front / 10) as u8, third, last]);
    }
    let first = b'0' + (front / 10 / 10) as u8;
    let second = b'0' + (front / 10 % 10) as u8;
    out.extend(&[first, second, third, last])
}

/// Appends a number in decimal, behind `-` where it is negative. After want of memory nothing was appended.
#[inline(always)]
pub fn put_signed(n: i64, out: &mut Bytes) -> Result<(), NoMemory>
    ensures ok { OnOk result (out.new ≡ out.old ++ signed_decimal n) }
    ensures err { OnErr result (out.new ≡ out.old) }
{
    if 0 <= n {
        return put_number(n as u64, out);
    }
    atspi_base::put_signed(n, out)
}

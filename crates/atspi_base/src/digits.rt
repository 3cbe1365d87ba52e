//! Numbers as digits, written without memory of their own.

ghost use Rattle.std.specs.Prelude.{◌≡◌, ◌<◌, ◌++◌, OnOk, OnErr};
ghost use Rattle.std.specs.Fmt.{decimal, signed_decimal};
ghost use Rattle.atspi_base.specs.Digits.{hex_digits};
ghost use Rattle.atspi_base.specs.Quoted.{hex_digit};

use crate::{Bytes, NoMemory};
use itoa::Buffer;

/// The digit of a number below 16.
pub fn hex_digit_of(n: u8) -> u8
    requires { n < 16 }
    ensures { result ≡ hex_digit n }
{
    if n < 10 { b'0' + n } else { b'a' + (n - 10) }
}

/// Appends a number as 16 hex digits. After want of memory nothing was appended.
pub fn put_hex(n: u64, out: &mut Bytes) -> Result<(), NoMemory>
    ensures ok { OnOk result (out.new ≡ out.old ++ hex_digits 16 n) }
    ensures err { OnErr result (out.new ≡ out.old) }
{
    let mut digits = [0u8; 16];
    let mut rest = n;
    for i in (0..16usize).rev() {
        digits[i] = hex_digit_of((rest % 16) as u8);
        rest /= 16;
    }
    out.extend(&digits)
}

/// Appends a number in decimal. After want of memory nothing was appended.
pub fn put_decimal(n: u64, out: &mut Bytes) -> Result<(), NoMemory>
    ensures ok { OnOk result (out.new ≡ out.old ++ decimal n) }
    ensures err { OnErr result (out.new ≡ out.old) }
{
    // most numbers of a message are of one digit: they need no buffer
    if n < 10 {
        return out.push(b'0' + n as u8);
    }
    out.extend(Buffer::new().format(n).as_bytes())
}

/// Appends a number in decimal, behind `-` where it is negative. After want of memory nothing was appended.
pub fn put_signed(n: i64, out: &mut Bytes) -> Result<(), NoMemory>
    ensures ok { OnOk result (out.new ≡ out.old ++ signed_decimal n) }
    ensures err { OnErr result (out.new ≡ out.old) }
{
    if 0 <= n {
        return put_decimal(n as u64, out);
    }
    let mut buffer = Buffer::new();
    out.extend(buffer.format(n).as_bytes())
}

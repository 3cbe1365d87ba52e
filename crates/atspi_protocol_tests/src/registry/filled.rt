//! Lines of a script, filled with names and numbers.

use atspi_base::{Bytes, put_decimal};

/// What fills a line: `$W` is the word, `$A` and `$B` are the numbers.
#[derive(Clone, Copy)]
pub(crate) struct Filling<'a> {
    pub(crate) word: &'a str,
    pub(crate) first: u32,
    pub(crate) second: u32,
}

/// Appends what a letter stands for, and what stands behind the letter.
fn put_part(out: &mut Bytes, part: &[u8], filling: Filling) -> Option<()> {
    let [letter, plain @ ..] = part else {
        return None;
    };
    match letter {
        b'W' => out.extend(filling.word.as_bytes()).ok()?,
        b'A' => put_decimal(u64::from(filling.first), out).ok()?,
        _ => put_decimal(u64::from(filling.second), out).ok()?,
    }
    out.extend(plain).ok()
}

/// Appends filled lines.
pub(crate) fn fill(out: &mut Bytes, lines: &str, filling: Filling) -> Option<()> {
    let mut parts = lines.split('$');
    out.extend(parts.next()?.as_bytes()).ok()?;
    for part in parts {
        put_part(out, part.as_bytes(), filling)?;
    }
    Some(())
}

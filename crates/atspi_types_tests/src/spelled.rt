//! Bytes as a text spells them.

use atspi_base::Bytes;

/// The number that a digit of 16 stands for.
fn digit(c: u8) -> u8 {
    match c {
        b'0'..=b'9' => c - b'0',
        b'a'..=b'f' => c - b'a' + 10,
        _ => 0,
    }
}

// What finds no memory is left out; then what is told is not what is due.

/// Appends the byte of two digits, and what stands behind them.
fn put_escaped(bytes: &mut Bytes, escaped: &[u8]) {
    if let [high, low, plain @ ..] = escaped {
        let _ = bytes.push((digit(*high) << 4) | digit(*low));
        let _ = bytes.extend(plain);
    }
}

/// Appends a text in which `%` and two digits of 16 stand for one byte.
fn put_text(bytes: &mut Bytes, text: &str) {
    let mut parts = text.split('%');
    let _ = bytes.extend(parts.next().unwrap_or("").as_bytes());
    for part in parts {
        put_escaped(bytes, part.as_bytes());
    }
}

/// Appends a piece so many times, as `PIECE*COUNT` spells it.
fn put_piece(bytes: &mut Bytes, spelled: &str) {
    let (piece, count) = spelled.split_once('*').unwrap_or((spelled, "1"));
    for _time in 0..count.parse::<u32>().unwrap_or(0) {
        let _ = bytes.extend(piece.as_bytes());
    }
}

/// Appends pieces that stand with a blank between two, one behind another.
fn put_pieces(bytes: &mut Bytes, pieces: &str) {
    for spelled in pieces.split(' ') {
        put_piece(bytes, spelled);
    }
}

/// Appends the bytes that a text spells: pieces behind `* `, and else itself, with `%` and two digits of 16 for one
/// byte.
pub(crate) fn put_spelled(bytes: &mut Bytes, text: &str) {
    match text.strip_prefix("* ") {
        Some(pieces) => put_pieces(bytes, pieces),
        None => put_text(bytes, text),
    }
}

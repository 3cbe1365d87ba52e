//! Words of rows: those that ask for something, and those that tell what came of it.

use std::process::Abort;
use std::str::SplitWhitespace;

/// The number that the next word spells.
pub fn number(rt: &impl Abort, words: &mut SplitWhitespace) -> u32 {
    let word = words.next().expect(rt, "a word");
    word.parse::<u32>().expect(rt, "a number")
}

/// Appends a text.
pub fn put(rt: &impl Abort, told: &mut String, text: &str) {
    told.push_str(text).expect(rt, "memory");
}

/// Appends a number.
pub fn put_number(rt: &impl Abort, told: &mut String, n: u32) {
    write!(told, "{n}").expect(rt, "memory");
}

/// Stops at a row that does not hold, and shows it.
pub fn check(rt: &impl Abort, row: &str, holds: bool) {
    assert!(rt; holds, "{row}");
}

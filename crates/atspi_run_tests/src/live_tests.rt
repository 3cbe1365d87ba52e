//! The live commands through the top call: which words ask for one, and with which status it ends on a host in memory.

use crate::running::{AMPLE, Due, Outside, comes_to};
use std::alloc::Global;

/// The line for words that name no command.
const USAGE: &[u8] = b"usage: atspi replay, check, make, bus, registry, app or read\n";

/// A row a line: the status that is due, how many peers the host has, which have nothing to send and end, and the
/// words. Status 2 writes the line on how the program is used, and no other writes anything.
const ROWS: &str = "8 0 bus /a 1
8 0 bus /a 3
8 2 bus /a 3
7 0 registry /a 1
7 0 app /a 1
7 0 read /a 1
0 1 registry /a 1
0 1 app /a 3
0 1 read /a 1000000000
2 0 bus /a 0
2 0 bus /a 01
2 0 bus /a +1
2 0 bus /a -1
2 0 registry /a 1000000001
2 0 registry /a 4294967297
2 0 app /a
2 0 app /a 1 1
2 0 read  1
2 0 reads /a 1
2 0 Bus /a 1
2 0 read --help
8 0 bus LONG 1
2 0 bus LONGa 1
";

/// A path of 107 bytes, which is as long as one may be.
const LONG: &str = "/atspi/atspi/atspi/atspi/atspi/atspi/atspi/atspi/atspi/atspi/\
atspi/atspi/atspi/atspi/atspi/atspi/atspi/atsp";

/// A word of a row, where LONG stands for the longest path.
fn put_word(alloc: Global, word: &str) -> Option<String> {
    let mut text = String::new(alloc);
    match word.strip_prefix("LONG") {
        Some(rest) => {
            text.push_str(LONG).ok()?;
            text.push_str(rest).ok()?;
        }
        None => text.push_str(word).ok()?,
    }
    Some(text)
}

/// Whether the words of a row come to its status, with an application's name as the input.
fn holds(alloc: Global, row: &str) -> Option<bool> {
    let (status, row) = row.split_once(' ')?;
    let (peers, words) = row.split_once(' ')?;
    let mut owned = Vec::new(alloc);
    for word in words.split(' ') {
        owned.push(put_word(alloc, word)?).ok()?;
    }
    let mut words = Vec::new(alloc);
    for word in &owned {
        words.push(word.as_str()).ok()?;
    }
    let status = status.parse().ok()?;
    let output: &[u8] = if status == 2 { USAGE } else { b"" };
    let outside = Outside {
        peers: peers.parse().ok()?,
        ..AMPLE
    };
    let input = b"app \"A\"\n".to_vec(alloc).ok()?;
    comes_to(alloc, &words, input, outside, Due { status, output })
}

#[test]
fn words_ask_for_an_end_on_a_socket(rt: HostRuntime) {
    for row in ROWS.lines() {
        assert!(rt; holds(rt.alloc(), row) == Some(true), "{}", row);
    }
}

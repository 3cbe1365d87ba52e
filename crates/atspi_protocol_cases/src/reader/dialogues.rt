//! Dialogues with readers, as they are written and as they went.

use crate::reader::follower::Follower;
use crate::reader::shown::push_part;
use std::alloc::Global;

/// A start, up to the return that GetChildren waits for.
const START: &str = "\
start
return 1 bus 1 s=:1.5
return 2 bus 2
return 3 bus 3
return 4 bus 4
return 5 bus 5
return 6 bus 6
return 7 bus 7
return 8 bus 8
return 9 bus 9";

/// So many lines of its start are said to a reader.
fn begin(follower: &mut Follower, lines: usize) -> Option<()> {
    for (k, line) in START.lines().enumerate() {
        if k < lines {
            follower.passes(line)?;
        }
    }
    Some(())
}

/// A reader with so many lines of its start behind it. With 10, GetChildren waits with number 10.
pub fn begun(alloc: Global, lines: usize) -> Option<Follower> {
    let mut follower = Follower::new(alloc)?;
    match begin(&mut follower, lines) {
        Some(()) => Some(follower),
        None => None,
    }
}

/// Appends a line's words, and behind ` -> ` what came of them; `-` where nothing did.
fn push_line(text: &mut String, words: &str, came: &str) -> Option<()> {
    push_part(text, "\n", words)?;
    push_part(text, " -> ", if came.is_empty() { "-" } else { came })
}

/// Appends a line up to its ` -> `, and behind that what came of it.
fn follow_line(
    alloc: Global,
    follower: &mut Follower,
    text: &mut String,
    line: &str,
) -> Option<()> {
    let (words, _) = line.split_once(" -> ")?;
    let mut came = String::new(alloc);
    match follower.does(words, &mut came) {
        Some(()) => push_line(text, words, came.as_str()),
        None => None,
    }
}

/// Appends a dialogue's lines as they went.
fn follow_lines(
    alloc: Global,
    follower: &mut Follower,
    text: &mut String,
    lines: &str,
) -> Option<()> {
    for line in lines.lines() {
        follow_line(alloc, follower, text, line)?;
    }
    Some(())
}

/// Appends a dialogue as it went, with a new reader.
fn follow(alloc: Global, text: &mut String, dialogue: &str) -> Option<()> {
    let (title, lines) = dialogue.split_once('\n')?;
    let (behind, _) = title.split_once(' ')?;
    let behind = behind.parse::<usize>().ok()?;
    push_part(text, "\n", "# ")?;
    text.push_str(title).ok()?;
    let mut follower = begun(alloc, behind)?;
    follow_lines(alloc, &mut follower, text, lines)
}

/// Appends dialogues as they went.
fn follow_all(alloc: Global, text: &mut String, dialogues: &str) -> Option<()> {
    for dialogue in dialogues.strip_prefix("# ")?.split("\n# ") {
        follow(alloc, text, dialogue)?;
    }
    Some(())
}

/// Dialogues as they went. Each begins with a line `# N` and its title: a new reader has N lines of its start behind
/// it. Of each other line stands what is up to its ` -> `, and behind that what came of it. So they are what was given
/// where all went as that says.
pub fn followed(alloc: Global, dialogues: &str) -> Option<String> {
    let mut text = String::new(alloc);
    match follow_all(alloc, &mut text, dialogues) {
        Some(()) => Some(text),
        None => None,
    }
}

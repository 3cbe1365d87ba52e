//! Tables of calls and edits, as conversations.

use crate::plays::{NAMED, goes, goes_on};
use std::alloc::Global;

/// A text `héllo` with its caret at 2, where `él` and `o` are selected; a table of 2 columns with 5 cells, of which the
/// last three are selected; a button with three actions.
const EXAMPLE: &str = "\
edit a0 insert 0 0 text \"E\" text \"héllo\" -> add 1 0 0 text \"E\" text \"héllo\"
edit a0 insert 0 1 table \"T\" columns 2 select -> add 2 0 1 table \"T\" columns 2 select
edit a0 insert 0 2 push-button \"B\" action \"press\" action \"toggle\" action \"drück mich\" -> add 3 0 2 push-button \"B\" action \"press\" action \"toggle\" action \"drück mich\"
edit a0 insert 2 0 table-cell \"1\" -> add 4 2 0 table-cell \"1\"
edit a0 insert 2 1 table-cell \"2\" -> add 5 2 1 table-cell \"2\"
edit a0 insert 2 2 table-cell \"3\" -> add 6 2 2 table-cell \"3\"
edit a0 insert 2 3 table-cell \"4\" -> add 7 2 3 table-cell \"4\"
edit a0 insert 2 4 table-cell \"5\" -> add 8 2 4 table-cell \"5\"
edit a0 state 6 selected on -> state 6 selected on
edit a0 state 7 selected on -> state 7 selected on
edit a0 state 8 selected on -> state 8 selected on
edit a0 caret 1 2 -> caret 1 2
edit a0 mark 1 1 3 -> marks 1 1 3
edit a0 mark 1 4 5 -> marks 1 1 3 4 5
";

/// The signal that tells that the root is focused.
const FOCUSED: &str =
    "sent a0 signal l 1 5 path=/org/a11y/atspi/accessible/root interface=org.a11y.atspi.Event.Object member=StateChanged signature=siiva{sv} [\"focused\" 1 0 <i 0> []]\n";

/// Appends two texts.
fn put(script: &mut String, first: &str, second: &str) -> Option<()> {
    script.push_str(first).ok()?;
    script.push_str(second).ok()
}

/// Appends a number.
fn put_number(alloc: Global, script: &mut String, number: usize) -> Option<()> {
    let digits = format!(in alloc; "{number}").ok()?;
    script.push_str(&digits).ok()
}

/// Appends the reply to a call, by the message of a number: a return's types and values, `-` for one without, or `!`
/// and the last word of an error's name.
fn put_reply(alloc: Global, script: &mut String, number: usize, reply: &str) -> Option<()> {
    let (kind, error) = match reply.strip_prefix("!") {
        Some(word) => ("error", word),
        None => ("return", ""),
    };
    put(script, "sent a0 ", kind)?;
    put(script, " l 1 ", "")?;
    put_number(alloc, script, number)?;
    if !error.is_empty() {
        put(script, " error=org.freedesktop.DBus.Error.", error)?;
    }
    put(script, " reply=5 destination=:1.6", "")?;
    if !error.is_empty() {
        put(script, " signature=s [\"", error)?;
        return put(script, "\"]", "\n");
    }
    if reply != "-" {
        put(script, " signature=", reply)?;
    }
    put(script, "\n", "")
}

/// Appends steps.
fn put_steps(script: &mut String, steps: &str) -> Option<()> {
    for step in steps.split('|') {
        put(script, "step a0 ", step)?;
        put(script, "\n", "")?;
    }
    Some(())
}

/// Appends an edit, and its steps, `-` for none, or `!` and why it is refused.
fn put_edit(script: &mut String, edit: &str, due: &str) -> Option<()> {
    put(script, "> ", edit)?;
    put(script, "\n", "")?;
    if due == "-" {
        return Some(());
    }
    match due.strip_prefix("!") {
        Some(why) => {
            put(script, "the edit is refused: ", why)?;
            put(script, "\n", "")
        }
        None => put_steps(script, due),
    }
}

/// Appends a call, its steps, and the reply to it.
fn put_call(
    alloc: Global,
    script: &mut String,
    number: usize,
    call: &str,
    due: &str,
) -> Option<()> {
    put(script, "> call 5 :1.6 ", call)?;
    put(script, "\n", "")?;
    match due.split_once(" => ") {
        Some((steps, reply)) => {
            put_steps(script, steps)?;
            put_reply(alloc, script, number, reply)
        }
        None => put_reply(alloc, script, number, due),
    }
}

/// Appends the lines of a table, each an edit or a call with what is due behind ` -> `, InvalidArgs where that is not
/// there. The first message has the number 5.
fn put_table(alloc: Global, script: &mut String, table: &str) -> Option<()> {
    let mut number = 5usize;
    for line in table.lines() {
        let (words, due) = line.split_once(" -> ").unwrap_or((line, "!InvalidArgs"));
        if words.starts_with("edit ") {
            put_edit(script, words, due)?;
        } else {
            put_call(alloc, script, number, words, due)?;
            number = number.saturating_add(1);
        }
    }
    Some(())
}

/// The start of an application, and how it gets the example.
pub(crate) fn example(alloc: Global) -> Option<String> {
    let mut script = String::from_str(alloc, NAMED).ok()?;
    match put_table(alloc, &mut script, EXAMPLE) {
        Some(()) => Some(script),
        None => None,
    }
}

/// Whether an application with the root alone does what stands in a table.
pub(crate) fn makes(rt: &HostRuntime, table: &str) -> bool {
    let mut script = String::new(rt.alloc());
    put_table(rt.alloc(), &mut script, table).is_some() && goes_on(rt, &script)
}

/// The same of the example.
pub(crate) fn answers(rt: &HostRuntime, table: &str) -> bool {
    match format!(in rt.alloc(); "{EXAMPLE}{table}") {
        Ok(whole) => makes(rt, &whole),
        Err(_) => false,
    }
}

/// Appends that a listener comes with a pattern, that the root is focused, and the signal where it is told that.
fn put_pattern(script: &mut String, pattern: &str, signal: &str) -> Option<()> {
    put(
        script,
        "> signal 9 :1.0 registry Registry EventListenerRegistered s=:1.2 s=",
        pattern,
    )?;
    put(script, "\nhears a0 :1.2 \"", pattern)?;
    put(
        script,
        "\"\n> edit a0 state 0 focused on\nstep a0 state 0 focused on\n",
        signal,
    )
}

/// Whether a listener with a pattern is told by this signal, or none, that the root is focused.
fn announces_one(rt: &HostRuntime, pattern: &str, signal: &str) -> bool {
    let mut script = String::new(rt.alloc());
    put_pattern(&mut script, pattern, signal).is_some() && goes_on(rt, &script)
}

/// Whether a listener with each of some patterns is told that the root is focused, or is not.
pub(crate) fn announces(rt: &HostRuntime, patterns: &str, told: bool) -> bool {
    let signal = if told { FOCUSED } else { "" };
    for pattern in patterns.lines() {
        if !announces_one(rt, pattern, signal) {
            return false;
        }
    }
    true
}

/// Appends the start up to the call of a number.
fn put_start(script: &mut String, call: usize) -> Option<()> {
    let last = call.saturating_mul(2);
    for (k, line) in NAMED.lines().enumerate() {
        if k < last {
            put(script, line, "\n")?;
        }
    }
    Some(())
}

/// Appends the start up to the call of a number, a reply to it that ends it, a return that comes too late, and a call,
/// which an application answers that has its name.
fn put_stop(alloc: Global, script: &mut String, call: usize, reply: &str) -> Option<()> {
    put_start(script, call)?;
    put(script, "> ", reply)?;
    put(script, "\n> return 9 bus ", "")?;
    put_number(alloc, script, call)?;
    put(script, " s=:1.5\n> call 6 :1.6 root Peer Ping\n", "")?;
    if call > 1 {
        put(script, "sent a0 return l 1 ", "")?;
        put_number(alloc, script, call.saturating_add(1))?;
        put(script, " reply=6 destination=:1.6\n", "")?;
    }
    Some(())
}

/// Whether a reply ends the start at a call.
fn stops_at(rt: &HostRuntime, call: usize, reply: &str) -> bool {
    let mut script = String::new(rt.alloc());
    put_stop(rt.alloc(), &mut script, call, reply).is_some() && goes(rt, &script)
}

/// The number of a call, and a reply to it.
fn reply_of(line: &str) -> Option<(usize, &str)> {
    let (number, reply) = line.split_once(' ')?;
    Some((number.parse::<usize>().ok()?, reply))
}

/// Whether each reply ends the start at the call whose number stands before it.
pub(crate) fn stops(rt: &HostRuntime, replies: &str) -> bool {
    for line in replies.lines() {
        let stopped = match reply_of(line) {
            Some((call, reply)) => stops_at(rt, call, reply),
            None => false,
        };
        if !stopped {
            return false;
        }
    }
    true
}

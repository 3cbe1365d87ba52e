//! What is done to an application.

use atspi_app::{AppFault, Application};
use atspi_base::Bytes;
use atspi_message_cases::{bytes_of, lent};
use atspi_script_lines::{Line, parse_line};
use std::alloc::Global;

/// It is edited, as a line of a script says.
fn edit<A: Application>(alloc: Global, app: &mut A, line: &str) -> Option<Result<(), AppFault>>
    requires app { A.is_app app.old }
    ensures app { A.is_app app.new }
{
    match parse_line(alloc, line.as_bytes()) {
        Ok(Line::Edit { edit, .. }) => Some(app.edit(alloc, &edit)),
        _ => None,
    }
}

/// It takes the message that the bytes are.
pub(crate) fn take<A: Application>(
    alloc: Global,
    app: &mut A,
    bytes: &[u8],
) -> Option<Result<(), AppFault>>
    requires app { A.is_app app.old }
    ensures app { A.is_app app.new }
{
    let message = lent(bytes)?;
    match app.take(alloc, &message) {
        Ok(()) => Some(Ok(())),
        Err(fault) => Some(Err(AppFault::from(fault))),
    }
}

/// It starts.
fn start<A: Application>(alloc: Global, app: &mut A) -> Result<(), AppFault>
    requires app { A.is_app app.old }
    ensures app { A.is_app app.new }
{
    match app.start(alloc) {
        Ok(()) => Ok(()),
        Err(fault) => Err(AppFault::from(fault)),
    }
}

/// It takes a message in words.
fn hear<A: Application>(alloc: Global, app: &mut A, words: &str) -> Option<Result<(), AppFault>>
    requires app { A.is_app app.old }
    ensures app { A.is_app app.new }
{
    let bytes: Bytes = bytes_of(alloc, words)?;
    take(alloc, app, bytes.as_slice())
}

/// It starts, is edited, or takes a message in words.
pub(crate) fn act<A: Application>(
    alloc: Global,
    app: &mut A,
    words: &str,
) -> Option<Result<(), AppFault>>
    requires app { A.is_app app.old }
    ensures app { A.is_app app.new }
{
    if words == "start" {
        return Some(start(alloc, app));
    }
    if words.starts_with("edit ") {
        return edit(alloc, app, words);
    }
    hear(alloc, app, words)
}

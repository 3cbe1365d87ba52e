//! What a reader says.

ghost use Rattle.std.specs.Prelude.{◌≡◌, ◌++◌, ◌∷◌, [], if◌then◌else◌, ℕ, List, chars, map, OnOk};
ghost use Rattle.atspi_protocol.specs.following.ReaderState.{speaks, tells_end};
ghost use Rattle.atspi_base.specs.valid_names.Names.{is_unique_name};
ghost use Rattle.atspi_protocol.specs.following.Known.{closing_of, end_of_connection};
ghost use Rattle.atspi_protocol.specs.following.Takes.{lines_at};
ghost use Rattle.atspi_reader.specs.Doing.{all_done};

use atspi_base::valid_names::{BusName, NameFault};
use atspi_base::{NoMemory, Text, Texts};
use atspi_protocol::following::ReaderEvent;
use atspi_reader_known::App;
use atspi_tree_model::News;
use std::alloc::Global;
use std::collections::VecDeque;

/// Appends a spoken line about an application.
fn say(
    alloc: Global,
    name: &BusName,
    line: &Text,
    events: &mut VecDeque<ReaderEvent>,
) -> Result<(), NoMemory>
    ensures { OnOk result (all_done events.new.items ≡ all_done events.old.items ++ speaks name.now line.now ∷ []) }
{
    let name = name.copy(alloc)?;
    let line = line.copy(alloc)?;
    events.push_back(ReaderEvent::Say(name, line))?;
    Ok(())
}

/// Appends spoken lines about an application.
fn say_all(
    alloc: Global,
    name: &BusName,
    lines: &[Text],
    events: &mut VecDeque<ReaderEvent>,
) -> Result<(), NoMemory>
    ensures { OnOk result
        (all_done events.new.items
        ≡ all_done events.old.items ++ map (λ (line : List ℕ). speaks name.now line) lines.now) }
{
    for line in lines {
        say(alloc, name, line, events)?;
    }
    Ok(())
}

/// Appends what is spoken at a news of an application.
pub(crate) fn say_news(
    alloc: Global,
    app: &App,
    news: &News,
    events: &mut VecDeque<ReaderEvent>,
) -> Result<(), NoMemory>
    ensures { OnOk result (all_done events.new.items ≡ all_done events.old.items ++ lines_at news.now app.now) }
{
    let mut lines = Texts::new(alloc);
    app.lines(news, &mut lines)?;
    say_all(alloc, app.name(), lines.as_slice(), events)
}

/// Appends that an application has ended, where the name is unique.
fn push_end(name: BusName, events: &mut VecDeque<ReaderEvent>) -> Result<(), NoMemory>
    ensures { OnOk result
        (all_done events.new.items
        ≡ all_done events.old.items ++ (if is_unique_name name then tells_end name ∷ [] else [])) }
{
    if name.is_unique() {
        events.push_back(ReaderEvent::Gone(name))?;
    }
    Ok(())
}

/// Appends that an application has ended, where the name is that of a connection.
pub(crate) fn tell_end(
    alloc: Global,
    name: &str,
    events: &mut VecDeque<ReaderEvent>,
) -> Result<(), NoMemory>
    ensures { OnOk result
        (all_done events.new.items ≡ all_done events.old.items ++ end_of_connection (chars name.now)) }
{
    match BusName::read(alloc, name.as_bytes()) {
        Ok(name) => push_end(name, events),
        Err(NameFault::NoMemory) => Err(NoMemory),
        Err(NameFault::Form) => Ok(()),
    }
}

/// Appends what is spoken where an application ends.
pub(crate) fn say_closing(
    alloc: Global,
    app: &App,
    events: &mut VecDeque<ReaderEvent>,
) -> Result<(), NoMemory>
    ensures { OnOk result (all_done events.new.items ≡ all_done events.old.items ++ closing_of app.now) }
{
    let mut lines = Texts::new(alloc);
    app.closing(&mut lines)?;
    say_all(alloc, app.name(), lines.as_slice(), events)
}

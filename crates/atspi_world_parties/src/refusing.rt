//! Why a line is refused before any of it is done.

ghost use Rattle.std.specs.Prelude.{◌≡◌, ◌+◌, ℕ, List, None, length, nat_le, nat_lt};
ghost use Rattle.std.specs.Option.{option_map};
ghost use Rattle.atspi_tree_model.specs.Row.{IsName};
ghost use Rattle.atspi_tree_model.specs.Edits.{is_long_name};
ghost use Rattle.atspi_tree_model.specs.Forest.{first_of};
ghost use Rattle.atspi_tree_model.specs.declared.edit.EditFault.TheVariants as faults;
ghost use Rattle.atspi_trace.specs.World.{End, World};
ghost use Rattle.atspi_trace.specs.Ends.{end_of};
ghost use Rattle.atspi_trace.specs.Work as work;
ghost use Rattle.atspi_trace.specs.Work.{if_here, if_started, no_more};
ghost use Rattle.atspi_world_parties.specs.Refusals.{HasName, first_refusal, refusal_of, HaveSeats, IsOf};

use crate::places::post_of;
use atspi_base::Text;
use atspi_script_lines::{APP_COUNT, Line, Party, READER_COUNT};
use atspi_tree_model::{EditFault, NAME_LIMIT};
use atspi_world_links::{Post, Standing};
use thiserror::Error;

/// Why a line of a script is refused, in the order in which it is looked for.
#[derive(Clone, Copy, Debug, PartialEq, Eq, Error)]
pub enum Refusal {
    #[error("a party was not started")]
    NoParty,
    #[error("a party stopped")]
    Dead,
    #[error("16 applications were started")]
    NoKit,
    #[error("4 readers were started")]
    NoReader,
    #[error("all spare faces are used")]
    NoSpare,
    #[error("an end was started before")]
    Late,
    #[error("the application is not held")]
    NotHeld,
    #[error("the edit is refused: {0}")]
    Edit(EditFault),
}

/// Refused where a party was not started.
fn unless_started(posts: &[Post], who: Party) -> Option<Refusal>
    ensures { (ends : List End) → HaveSeats ends posts.now
        → option_map refusal_of result ≡ if_started (end_of ends who) no_more }
{
    match post_of(posts, who) {
        Some(_) => None,
        None => Some(Refusal::NoParty),
    }
}

/// Refused where a party was not started, or stopped.
fn unless_here(posts: &[Post], who: Party) -> Option<Refusal>
    ensures { (ends : List End) → HaveSeats ends posts.now
        → option_map refusal_of result ≡ if_started (end_of ends who) (λ e. if_here e no_more) }
{
    match post_of(posts, who) {
        Some(post) => match post.standing {
            Standing::Here => None,
            Standing::Stopped => Some(Refusal::Dead),
            Standing::Away => Some(Refusal::Dead),
        },
        None => Some(Refusal::NoParty),
    }
}

/// Refused where the first is, and else where the second is.
fn either(first: Option<Refusal>, second: Option<Refusal>) -> Option<Refusal>
    ensures { option_map refusal_of result ≡ first_of (option_map refusal_of first) (option_map refusal_of second) }
{
    match first {
        Some(why) => Some(why),
        None => second,
    }
}

/// Refused where an end was started.
fn unless_fresh(posts: &[Post]) -> Option<Refusal>
    ensures { (ends : List End) → HaveSeats ends posts.now
        → option_map refusal_of result ≡ work.refusal_if (nat_lt 1 (length ends)) work.late }
{
    if posts.len() > 1 {
        Some(Refusal::Late)
    } else {
        None
    }
}

/// Refused where all kits are used, or the name is too long.
fn unless_room(apps: usize, name: &Text) -> Option<Refusal>
    ensures exact { option_map refusal_of result
        ≡ first_of (work.refusal_if (nat_le 16 apps) work.no_kit)
        (work.refusal_if (is_long_name name.now) (work.of_edit faults.TextFull)) }
    ensures name { result ≡ None → IsName name.now }
{
    if apps >= APP_COUNT as usize {
        return Some(Refusal::NoKit);
    }
    if name.as_str().len() > NAME_LIMIT {
        return Some(Refusal::Edit(EditFault::TextFull));
    }
    None
}

/// Refused where all readers were started.
fn unless_reader(readers: usize) -> Option<Refusal>
    ensures { option_map refusal_of result ≡ work.refusal_if (nat_le 4 readers) work.no_reader }
{
    if readers >= READER_COUNT as usize {
        Some(Refusal::NoReader)
    } else {
        None
    }
}

/// Refused where no spare face is left.
fn unless_spare(spares: usize) -> Option<Refusal>
    ensures { (swaps : ℕ) → swaps + spares ≡ 16
        → option_map refusal_of result ≡ work.refusal_if (nat_le 16 swaps) work.no_spare }
{
    if spares == 0 {
        Some(Refusal::NoSpare)
    } else {
        None
    }
}

/// Why a world over these connections refuses a line, of which so many ends are applications and so many readers, and
/// in which so many spare faces are left; none where it does not refuse it, or only by the edit or the call that it
/// asks for.
pub fn why_refused(
    posts: &[Post],
    apps: usize,
    readers: usize,
    spares: usize,
    line: &Line,
) -> Option<Refusal>
    ensures name { result ≡ None → HasName line.now }
    ensures exact { (w : World) → IsOf w posts.now apps readers spares
        → option_map refusal_of result ≡ first_refusal w line.now }
{
    match line {
        Line::Blank => None,
        Line::Quota(_) => unless_fresh(posts),
        Line::App(name) => unless_room(apps, name),
        Line::Reader => unless_reader(readers),
        Line::Edit { app, .. } => unless_here(posts, Party::App(*app)),
        Line::Call { reader, app, .. } => either(
            either(
                unless_started(posts, Party::Reader(*reader)),
                unless_started(posts, Party::App(*app)),
            ),
            unless_here(posts, Party::Reader(*reader)),
        ),
        Line::Swap(app) => either(unless_here(posts, Party::App(*app)), unless_spare(spares)),
        Line::Exit(app) => unless_here(posts, Party::App(*app)),
        Line::Leave(reader) => unless_here(posts, Party::Reader(*reader)),
        Line::Bytes { party, .. } => unless_started(posts, *party),
        Line::Turns(_) => None,
        Line::Drain => None,
        Line::Show { reader, app } => either(
            unless_started(posts, Party::Reader(*reader)),
            unless_started(posts, Party::App(*app)),
        ),
    }
}

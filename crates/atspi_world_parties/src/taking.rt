//! An end takes what lies at it.

ghost use Rattle.std.specs.Prelude.{◌≡◌, ◌≤◌, Some, [], ◌∷◌, ◌++◌, length, All, IfOk, IfSome, IsErrOf, OnOk};
ghost use Rattle.atspi_message_in_place.specs.View.{envelope_at};
ghost use Rattle.atspi_trace_events.specs.declared.event.Event.TheVariants as events;
ghost use Rattle.atspi_world_links.specs.Named as named;
ghost use Rattle.atspi_world_parties.specs.Spending.{HasSpentAll, SpendsFront};
ghost use Rattle.atspi_world_parties.specs.Taken.{ends_after, ends_of, TakesFront};
ghost use Rattle.atspi_world_parties.specs.inner.Taken.{HandsFront, HandsNothing};
ghost use Rattle.atspi_world_parties.specs.Taken.{TakesNothing};

use crate::cast::Cast;
use atspi_message_in_place::MessageRef;
use atspi_protocol::ends::EndFault;
use atspi_script_lines::Party;
use atspi_trace_events::Event;
use atspi_world_ends::{Application, Follower};
use atspi_world_links::{Link, Post, first_message, note, party_named};
use std::alloc::Global;

/// An end takes a message, and that is told.
fn hand<A: Application, R: Follower>(
    alloc: Global,
    message: &MessageRef<'_>,
    posts: &[Post],
    taker: Party,
    cast: &mut Cast<A, R>,
    trace: &mut Vec<Event>,
) -> Result<(), EndFault>
    requires apps { All A.is_app cast.old.apps.items }
    requires readers { All R.is_follower cast.old.readers.items }
    ensures apps { All A.is_app cast.new.apps.items }
    ensures readers { All R.is_follower cast.new.readers.items }
    ensures told { OnOk result
        (trace.new.items
        ≡ trace.old.items
        ++ events.Got taker (named.party_named (envelope_at message.now).sender posts.now) message.now.serial
        ∷ []) }
    ensures took { OnOk result
        (ends_of A.exporter R.follower cast.new.registry cast.new.apps.items cast.new.readers.items
        ≡ ends_after taker (envelope_at message.now)
        (ends_of A.exporter R.follower cast.old.registry cast.old.apps.items cast.old.readers.items)) }
    ensures spent { IsErrOf result EndFault.Spent
        → (trace.new.items
        ≡ trace.old.items
        ++ events.Got taker (named.party_named (envelope_at message.now).sender posts.now)
        message.now.serial ∷ [])
        × HasSpentAll taker
        (ends_after taker (envelope_at message.now)
        (ends_of A.exporter R.follower cast.old.registry cast.old.apps.items cast.old.readers.items)) }
{
    note(
        trace,
        Event::Got {
            taker,
            sender: party_named(posts, message.sender),
            serial: message.serial,
        },
    )?;
    cast.take(alloc, taker, message)
}

/// An end takes the first message of the bytes that lie at it; answers how many bytes it had, none where there is no
/// message.
fn hand_front<A: Application, R: Follower>(
    alloc: Global,
    at_end: &Link,
    posts: &[Post],
    taker: Party,
    cast: &mut Cast<A, R>,
    trace: &mut Vec<Event>,
) -> Result<Option<usize>, EndFault>
    requires apps { All A.is_app cast.old.apps.items }
    requires readers { All R.is_follower cast.old.readers.items }
    ensures apps { All A.is_app cast.new.apps.items }
    ensures readers { All R.is_follower cast.new.readers.items }
    ensures within { IfOk result (λ len. IfSome len (λ n. n ≤ length at_end.now)) }
    ensures hands { IfOk result
        (λ len. HandsFront at_end.now posts.now taker
        (ends_of A.exporter R.follower cast.old.registry cast.old.apps.items cast.old.readers.items)
        (ends_of A.exporter R.follower cast.new.registry cast.new.apps.items cast.new.readers.items) trace.old.items
        trace.new.items len) }
    ensures nothing { IfOk result
        (λ len. HandsNothing at_end.now
        (ends_of A.exporter R.follower cast.old.registry cast.old.apps.items cast.old.readers.items)
        (ends_of A.exporter R.follower cast.new.registry cast.new.apps.items cast.new.readers.items) trace.old.items
        trace.new.items len) }
    ensures spent { IsErrOf result EndFault.Spent
        → SpendsFront at_end.now posts.now taker
        (ends_of A.exporter R.follower cast.old.registry cast.old.apps.items cast.old.readers.items) trace.old.items
        trace.new.items }
{
    match first_message(at_end.as_slice()) {
        None => Ok(None),
        Some(first) => match hand(alloc, &first.message, posts, taker, cast, trace) {
            Ok(()) => Ok(Some(first.len)),
            Err(fault) => Err(fault),
        },
    }
}

/// An end takes the first message of the bytes that lie at it, if they begin with one, and the others stay; answers
/// whether it did.
pub fn take_front<A: Application, R: Follower>(
    alloc: Global,
    at_end: &mut Link,
    posts: &[Post],
    taker: Party,
    cast: &mut Cast<A, R>,
    trace: &mut Vec<Event>,
) -> Result<bool, EndFault>
    requires apps { All A.is_app cast.old.apps.items }
    requires readers { All R.is_follower cast.old.readers.items }
    ensures apps { All A.is_app cast.new.apps.items }
    ensures readers { All R.is_follower cast.new.readers.items }
    ensures takes { IfOk result
        (λ took. TakesFront at_end.old at_end.new posts.now taker
        (ends_of A.exporter R.follower cast.old.registry cast.old.apps.items cast.old.readers.items)
        (ends_of A.exporter R.follower cast.new.registry cast.new.apps.items cast.new.readers.items) trace.old.items
        trace.new.items took) }
    ensures nothing { IfOk result
        (λ took. TakesNothing at_end.old at_end.new
        (ends_of A.exporter R.follower cast.old.registry cast.old.apps.items cast.old.readers.items)
        (ends_of A.exporter R.follower cast.new.registry cast.new.apps.items cast.new.readers.items) trace.old.items
        trace.new.items took) }
    ensures spent { IsErrOf result EndFault.Spent
        → SpendsFront at_end.old posts.now taker
        (ends_of A.exporter R.follower cast.old.registry cast.old.apps.items cast.old.readers.items) trace.old.items
        trace.new.items }
{
    match hand_front(alloc, at_end, posts, taker, cast, trace) {
        Ok(Some(len)) => {
            at_end.pop(len);
            Ok(true)
        }
        Ok(None) => Ok(false),
        Err(fault) => Err(fault),
    }
}

//! The calls of the start.

ghost use Rattle.std.specs.Prelude.{◌≡◌, ◌<◌, ◌^◌, ◌++◌, ◌∷◌, [], chars, length, IfOk, OnOk};
ghost use Rattle.atspi_base.specs.Text.{HasNoZero};
ghost use Rattle.atspi_protocol.specs.declared.following.question.Question.TheVariants as questions;
ghost use Rattle.atspi_protocol.specs.following.ReaderState as state;
ghost use Rattle.atspi_reader.specs.inner.Begin.{rules, patterns};

use atspi_base::{NoMemory, Text};
use atspi_protocol::following::Question;
use std::alloc::Global;
use std::collections::VecDeque;

/// Appends AddMatch of the bus with a rule.
fn push_rule(alloc: Global, calls: &mut VecDeque<Question>, rule: &str) -> Result<(), NoMemory>
    requires no_zero { HasNoZero rule.now }
    requires counted { length rule.now < 2 ^ 32 }
    ensures { OnOk result (calls.new.items ≡ calls.old.items ++ questions.AddMatch (chars rule.now) ∷ []) }
{
    let text = Text::of(alloc, rule)?;
    calls.push_back(Question::AddMatch(text))?;
    Ok(())
}

/// Appends RegisterEvent of the registry with a pattern.
fn push_pattern(
    alloc: Global,
    calls: &mut VecDeque<Question>,
    pattern: &str,
) -> Result<(), NoMemory>
    requires no_zero { HasNoZero pattern.now }
    requires counted { length pattern.now < 2 ^ 32 }
    ensures { OnOk result (calls.new.items ≡ calls.old.items ++ questions.RegisterEvent (chars pattern.now) ∷ []) }
{
    let text = Text::of(alloc, pattern)?;
    calls.push_back(Question::RegisterEvent(text))?;
    Ok(())
}

/// Appends the rules of the messages that are wanted.
fn push_rules(alloc: Global, calls: &mut VecDeque<Question>) -> Result<(), NoMemory>
    ensures { OnOk result (calls.new.items ≡ calls.old.items ++ rules) }
{
    push_rule(
        alloc,
        calls,
        "type='signal',interface='org.freedesktop.DBus',member='NameOwnerChanged'",
    )?;
    push_rule(
        alloc,
        calls,
        "type='signal',interface='org.a11y.atspi.Cache'",
    )?;
    push_rule(
        alloc,
        calls,
        "type='signal',interface='org.a11y.atspi.Event.Object'",
    )
}

/// Appends the patterns of the events that are wanted.
fn push_patterns(alloc: Global, calls: &mut VecDeque<Question>) -> Result<(), NoMemory>
    ensures { OnOk result (calls.new.items ≡ calls.old.items ++ patterns) }
{
    push_pattern(alloc, calls, "object:children-changed")?;
    push_pattern(alloc, calls, "object:property-change")?;
    push_pattern(alloc, calls, "object:state-changed")?;
    push_pattern(alloc, calls, "object:text-changed")?;
    push_pattern(alloc, calls, "object:text-caret-moved")
}

/// The calls of the start, in order (AT-SPI2's registry, and the bus).
pub(crate) fn start_calls(alloc: Global) -> Result<VecDeque<Question>, NoMemory>
    ensures { IfOk result (λ calls. calls.items ≡ state.start_calls) }
{
    let mut calls = VecDeque::new(alloc);
    calls.push_back(Question::Hello)?;
    push_rules(alloc, &mut calls)?;
    push_patterns(alloc, &mut calls)?;
    calls.push_back(Question::GetChildren)?;
    Ok(calls)
}

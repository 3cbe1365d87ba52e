//! What a registry takes, and what it queues then.

use atspi_base::Bytes;
use atspi_message_cases::{bytes_of, lent};
use atspi_registry::Registry;
use atspi_trace_texts::messages::message_text;
use std::alloc::Global;

/// The registry takes the message that the bytes are.
fn take(registry: &mut Registry, bytes: &[u8]) -> Option<()> {
    let message = lent(bytes)?;
    registry.take(&message).ok()
}

/// The registry starts, or takes a message in words.
fn act(alloc: Global, registry: &mut Registry, words: &str) -> Option<()> {
    if words == "start" {
        return registry.start().ok();
    }
    let bytes = bytes_of(alloc, words)?;
    take(registry, bytes.as_slice())
}

/// How many messages the registry queues where it takes the one that the bytes are; they are handed out.
pub fn said(registry: &mut Registry, bytes: &[u8]) -> Option<u32> {
    take(registry, bytes)?;
    let mut count = 0u32;
    for _message in 0..1_000_000 {
        if registry.next().is_none() {
            return Some(count);
        }
        count = count.saturating_add(1);
    }
    None
}

/// Appends the texts of the messages that are queued, each with its line's end; they are no longer queued.
fn put_told(registry: &mut Registry, out: &mut Bytes) -> Option<()> {
    for _message in 0..1_000_000 {
        let Some(message) = registry.next() else {
            return Some(());
        };
        message_text(&message, out).ok()?;
        out.push(b'\n').ok()?;
    }
    None
}

/// Appends a line.
fn put_line(line: &str, out: &mut Bytes) -> Option<()> {
    out.extend(line.as_bytes()).ok()?;
    out.push(b'\n').ok()
}

/// Plays a script with a registry, and appends the conversation.
fn play(alloc: Global, registry: &mut Registry, script: &str, out: &mut Bytes) -> Option<()> {
    for line in script.lines() {
        if let Some(words) = line.strip_prefix("> ") {
            put_line(line, out)?;
            act(alloc, registry, words)?;
            put_told(registry, out)?;
        }
    }
    Some(())
}

/// A conversation with a new registry: for each line of a script that begins with `> `, the line, `> start` or `> ` and
/// a message in words, and behind it the texts of the messages that the registry queues then. Other lines of the script
/// are passed over, so that a conversation is the script of itself.
pub fn played(alloc: Global, script: &str) -> Option<Bytes> {
    let mut out = Bytes::new(alloc);
    let mut registry = Registry::new(alloc).ok()?;
    play(alloc, &mut registry, script, &mut out)?;
    Some(out)
}

/// A registry that has started, with three messages behind it, and has its name `:1.0`.
pub fn named(alloc: Global) -> Option<Registry> {
    let mut out = Bytes::new(alloc);
    let mut registry = Registry::new(alloc).ok()?;
    play(
        alloc,
        &mut registry,
        "> start\n> return 1 bus 1 s=:1.0",
        &mut out,
    )?;
    Some(registry)
}

/// A conversation with a registry that has its name.
pub fn played_named(alloc: Global, script: &str) -> Option<Bytes> {
    let mut registry = named(alloc)?;
    let mut out = Bytes::new(alloc);
    play(alloc, &mut registry, script, &mut out)?;
    Some(out)
}

//! What a launcher takes, and what it queues then.

use atspi_base::{Bytes, Text};
use atspi_launcher::Launcher;
use atspi_message_cases::{bytes_of, lent};
use atspi_trace_texts::messages::message_text;
use std::alloc::Global;
use std::test::*;

/// The start, and what clients of a desktop call for; a line that begins with `> ` is taken, and the others are queued
/// behind it.
const CALLED: &str = "\
> start
call l 0 1 path=/org/freedesktop/DBus interface=org.freedesktop.DBus member=Hello destination=org.freedesktop.DBus
call l 0 2 path=/org/freedesktop/DBus interface=org.freedesktop.DBus member=RequestName destination=org.freedesktop.DBus signature=su [\"org.a11y.Bus\" 6]
> return 1 bus 1 s=:1.7
> return 2 bus 2 u=1
> call 5 :1.4 /org/a11y/bus org.a11y.Bus GetAddress
return l 1 3 reply=5 destination=:1.4 signature=s [\"unix:path=/tmp/a\"]
> quiet 6 :1.4 /org/a11y/bus org.a11y.Bus GetAddress
> call 7 :1.4 /org/a11y/bus - GetAddress
return l 1 4 reply=7 destination=:1.4 signature=s [\"unix:path=/tmp/a\"]
> call 8 :1.4 /org/a11y/bus Properties Get s=org.a11y.Status s=IsEnabled
return l 1 5 reply=8 destination=:1.4 signature=v [<b true>]
> call 9 :1.4 /org/a11y/bus Properties Set s=org.a11y.Status s=ScreenReaderEnabled vb=0
signal l 1 6 path=/org/a11y/bus interface=org.freedesktop.DBus.Properties member=PropertiesChanged signature=sa{sv}as [\"org.a11y.Status\" [{\"ScreenReaderEnabled\" <b false>}] []]
return l 1 7 reply=9 destination=:1.4
> call 10 :1.4 /org/a11y/bus Properties Set s=org.a11y.Status s=ScreenReaderEnabled vb=0
return l 1 8 reply=10 destination=:1.4
> call 11 :1.4 /org/a11y/bus Properties GetAll s=org.a11y.Status
return l 1 9 reply=11 destination=:1.4 signature=a{sv} [[{\"IsEnabled\" <b true>} {\"ScreenReaderEnabled\" <b false>}]]
> call 12 :1.4 /org/a11y/bus Properties GetAll s=org.a11y.Bus
return l 1 10 reply=12 destination=:1.4 signature=a{sv} [[]]
> call 13 :1.4 /org/a11y/bus Peer Ping
return l 1 11 reply=13 destination=:1.4
> signal 14 :1.4 /org/a11y/bus org.a11y.Bus GetAddress
";

/// What is refused, each with its error.
const REFUSED: &str = "\
> call 1 :1.4 / org.a11y.Bus GetAddress
error l 1 1 error=org.freedesktop.DBus.Error.UnknownObject reply=1 destination=:1.4 signature=s [\"UnknownObject\"]
> call 2 :1.4 /org/a11y/bus a.B GetAddress
error l 1 2 error=org.freedesktop.DBus.Error.UnknownInterface reply=2 destination=:1.4 signature=s [\"UnknownInterface\"]
> call 3 :1.4 /org/a11y/bus org.a11y.Bus Get
error l 1 3 error=org.freedesktop.DBus.Error.UnknownMethod reply=3 destination=:1.4 signature=s [\"UnknownMethod\"]
> call 4 :1.4 /org/a11y/bus org.a11y.Bus GetAddress u=1
error l 1 4 error=org.freedesktop.DBus.Error.InvalidArgs reply=4 destination=:1.4 signature=s [\"InvalidArgs\"]
> call 5 :1.4 /org/a11y/bus Properties Get s=org.a11y.Status
error l 1 5 error=org.freedesktop.DBus.Error.InvalidArgs reply=5 destination=:1.4 signature=s [\"InvalidArgs\"]
> call 6 :1.4 /org/a11y/bus Properties Get s=org.a11y.Status s=isEnabled
error l 1 6 error=org.freedesktop.DBus.Error.UnknownProperty reply=6 destination=:1.4 signature=s [\"UnknownProperty\"]
> call 7 :1.4 /org/a11y/bus Properties Get s=org.a11y.Bus s=IsEnabled
error l 1 7 error=org.freedesktop.DBus.Error.UnknownProperty reply=7 destination=:1.4 signature=s [\"UnknownProperty\"]
> call 8 :1.4 /org/a11y/bus Properties Get s=a.B s=IsEnabled
error l 1 8 error=org.freedesktop.DBus.Error.UnknownInterface reply=8 destination=:1.4 signature=s [\"UnknownInterface\"]
> call 9 :1.4 /org/a11y/bus Properties Set s=org.a11y.Status s=IsEnabled v=x
error l 1 9 error=org.freedesktop.DBus.Error.InvalidArgs reply=9 destination=:1.4 signature=s [\"InvalidArgs\"]
> call 10 :1.4 /org/a11y/bus Properties Set s=org.a11y.Status s=IsEnabled b=0
error l 1 10 error=org.freedesktop.DBus.Error.InvalidArgs reply=10 destination=:1.4 signature=s [\"InvalidArgs\"]
> call 11 :1.4 /org/a11y/bus Properties Get s=org.a11y.Status s=IsEnabled
return l 1 11 reply=11 destination=:1.4 signature=v [<b true>]
";

/// The description names both interfaces.
const DESCRIBED: &str = "\
> call 1 :1.4 /org/a11y/bus org.freedesktop.DBus.Introspectable Introspect
return l 1 1 reply=1 destination=:1.4 signature=s [\"<node><interface name=\\\"org.a11y.Bus\\\"><method name=\\\"GetAddress\\\"><arg type=\\\"s\\\" direction=\\\"out\\\"/></method></interface><interface name=\\\"org.a11y.Status\\\"><property name=\\\"IsEnabled\\\" type=\\\"b\\\" access=\\\"readwrite\\\"/><property name=\\\"ScreenReaderEnabled\\\" type=\\\"b\\\" access=\\\"readwrite\\\"/></interface></node>\"]
";

/// The launcher starts, or takes a message in words.
fn act(alloc: Global, launcher: &mut Launcher, words: &str) -> Option<()> {
    if words == "start" {
        return launcher.start().ok();
    }
    let bytes = bytes_of(alloc, words)?;
    let message = lent(bytes.as_slice())?;
    launcher.take(&message).ok()
}

/// Appends the texts of the messages that are queued, each with its line's end.
fn put_told(launcher: &mut Launcher, out: &mut Bytes) -> Option<()> {
    for _message in 0..1_000_000 {
        let Some(message) = launcher.next() else {
            return Some(());
        };
        message_text(&message, out).ok()?;
        out.push(b'\n').ok()?;
    }
    None
}

/// Appends a line.
fn put_line(line: &str, out: &mut Bytes) -> Option<()> {
    out.extend(line.as_bytes()).ok()?;
    out.push(b'\n').ok()
}

/// The conversation of a script's lines that begin with `> `.
fn played(alloc: Global, script: &str) -> Option<Bytes> {
    let address = Text::of(alloc, "unix:path=/tmp/a").ok()?;
    let mut launcher = Launcher::new(alloc, address);
    let mut out = Bytes::new(alloc);
    for line in script.lines() {
        if let Some(words) = line.strip_prefix("> ") {
            put_line(line, &mut out)?;
            act(alloc, &mut launcher, words)?;
            put_told(&mut launcher, &mut out)?;
        }
    }
    Some(out)
}

/// Whether a conversation is the script; it is shown where it is another.
fn goes(rt: &HostRuntime, script: &str) -> bool {
    let Some(said) = played(rt.alloc(), script) else {
        return false;
    };
    let same = said.as_slice() == script.as_bytes();
    if !same {
        let text = std::str::from_utf8(said.as_slice()).unwrap_or("no text");
        let _ = eprintln!(rt; "{text}");
    }
    same
}

#[test]
fn answers_and_refuses(rt: HostRuntime) {
    assert!(rt; goes(&rt, CALLED));
    assert!(rt; goes(&rt, REFUSED));
    assert!(rt; goes(&rt, DESCRIBED));
}

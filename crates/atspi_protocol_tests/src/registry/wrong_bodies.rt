//! Each member called with values of other types than it takes, with fewer and with more: each call is refused, and
//! changes nothing.

use crate::registry::filled::{Filling, fill};
use crate::registry::plays::goes_on;
use atspi_base::Bytes;
use std::alloc::Global;
use std::test::*;

/// Calls that are wrong by their values alone.
const CALLS: &str = "\
registry Registry RegisterEvent
registry Registry RegisterEvent u=3
registry Registry RegisterEvent o=/a
registry Registry RegisterEvent u=3 s=window
registry Registry DeregisterEvent
registry Registry DeregisterEvent i=3
registry Registry DeregisterEvent s=window u=3
registry Registry DeregisterEvent s=window s=window
registry Registry GetRegisteredEvents u=3
registry Registry GetRegisteredEvents s=
root Socket Embed
root Socket Embed s=:1.6
root Socket Embed s=:1.6 o=/d
root Socket Embed (so)=:1.6@/d s=
root Socket Embed (so)=:1.6@/d (so)=:1.6@/d
root Socket Unembed
root Socket Unembed o=/d
root Socket Unembed v=:1.6
root Socket Unembed (so)=:1.6@/d u=0
root Accessible GetChildren i=0
root Accessible GetChildAtIndex
root Accessible GetChildAtIndex u=0
root Accessible GetChildAtIndex s=0
root Accessible GetChildAtIndex i=0 i=0
root Accessible GetRole u=0
root Accessible GetRoleName s=
root Properties Get
root Properties Get s=org.a11y.atspi.Accessible
root Properties Get s=org.a11y.atspi.Accessible u=0
root Properties Get o=/a s=Name
root Properties Get s=org.a11y.atspi.Accessible s=Name s=
root Properties GetAll
root Properties GetAll u=0
root Properties GetAll s=org.a11y.atspi.Accessible s=
root Properties Set
root Properties Set s=org.a11y.atspi.Accessible s=Name
root Properties Set s=org.a11y.atspi.Accessible s=Name s=x
root Properties Set s=org.a11y.atspi.Accessible s=Name v=x s=
root Peer Ping s=
registry Properties Get s=org.a11y.atspi.Registry
registry Properties GetAll
registry Properties Set s=org.a11y.atspi.Registry s=Name s=x
registry Peer Ping u=0";

/// A call is refused by the message of a number.
const REFUSED: &str = "\
> call 5 :1.6 $W
error l 1 $A error=org.freedesktop.DBus.Error.InvalidArgs reply=5 destination=:1.6 signature=s [\"InvalidArgs\"]
";

/// There is no pair and no child, as the messages of two numbers say.
const NOTHING: &str = "\
> call 6 :1.6 registry Registry GetRegisteredEvents
return l 1 $A reply=6 destination=:1.6 signature=a(ss) [[]]
> call 7 :1.6 root Accessible GetChildren
return l 1 $B reply=7 destination=:1.6 signature=a(so) [[]]
";

/// Each call is refused; then there is nothing.
fn script(alloc: Global) -> Option<Bytes> {
    let mut out = Bytes::new(alloc);
    let mut filling = Filling {
        word: "",
        first: 4,
        second: 5,
    };
    for call in CALLS.lines() {
        filling.word = call;
        fill(&mut out, REFUSED, filling)?;
        filling.first = filling.second;
        filling.second = filling.second.saturating_add(1);
    }
    fill(&mut out, NOTHING, filling)?;
    Some(out)
}

#[test]
fn wrong_bodies_are_refused(rt: HostRuntime) {
    let script = script(rt.alloc()).expect(&rt, "memory");
    let text = std::str::from_utf8(script.as_slice()).expect(&rt, "a text");
    assert!(rt; goes_on(&rt, text));
}

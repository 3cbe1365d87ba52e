//! Listeners register, ask, and leave.

use crate::registry::plays::goes_on;
use std::test::*;

/// A pattern that is registered twice is told once, and returned to twice; a call that wants no reply gets none.
const REGISTERED: &str = "\
> call 5 :1.2 registry Registry RegisterEvent s=object:state-changed
signal l 1 4 path=/org/a11y/atspi/registry interface=org.a11y.atspi.Registry member=EventListenerRegistered signature=ss [\":1.2\" \"object:state-changed\"]
return l 1 5 reply=5 destination=:1.2
> call 6 :1.2 registry Registry RegisterEvent s=object:state-changed
return l 1 6 reply=6 destination=:1.2
> quiet 7 :1.2 registry Registry RegisterEvent s=object:state-changed
> call 8 :1.3 registry Registry RegisterEvent s=object:state-changed
signal l 1 7 path=/org/a11y/atspi/registry interface=org.a11y.atspi.Registry member=EventListenerRegistered signature=ss [\":1.3\" \"object:state-changed\"]
return l 1 8 reply=8 destination=:1.3
> quiet 9 :1.2 registry Registry RegisterEvent s=window u=3
signal l 1 9 path=/org/a11y/atspi/registry interface=org.a11y.atspi.Registry member=EventListenerRegistered signature=ss [\":1.2\" \"window\"]
";

/// Pairs are listed in the order of their arrival.
const LISTED: &str = "\
> call 9 :1.4 registry Registry GetRegisteredEvents
return l 1 4 reply=9 destination=:1.4 signature=a(ss) [[]]
> quiet 1 :1.3 registry Registry RegisterEvent s=window
signal l 1 5 path=/org/a11y/atspi/registry interface=org.a11y.atspi.Registry member=EventListenerRegistered signature=ss [\":1.3\" \"window\"]
> quiet 2 :1.2 registry Registry RegisterEvent s=object:text-changed
signal l 1 6 path=/org/a11y/atspi/registry interface=org.a11y.atspi.Registry member=EventListenerRegistered signature=ss [\":1.2\" \"object:text-changed\"]
> quiet 3 :1.3 registry Registry RegisterEvent s=
signal l 1 7 path=/org/a11y/atspi/registry interface=org.a11y.atspi.Registry member=EventListenerRegistered signature=ss [\":1.3\" \"\"]
> call 9 :1.4 registry Registry GetRegisteredEvents
return l 1 8 reply=9 destination=:1.4 signature=a(ss) [[(\":1.3\" \"window\") (\":1.2\" \"object:text-changed\") (\":1.3\" \"\")]]
";

/// A pair is given back by its listener alone, once.
const GIVEN_BACK: &str = "\
> quiet 1 :1.2 registry Registry RegisterEvent s=window
signal l 1 4 path=/org/a11y/atspi/registry interface=org.a11y.atspi.Registry member=EventListenerRegistered signature=ss [\":1.2\" \"window\"]
> call 2 :1.3 registry Registry DeregisterEvent s=window
return l 1 5 reply=2 destination=:1.3
> call 3 :1.2 registry Registry DeregisterEvent s=windo
return l 1 6 reply=3 destination=:1.2
> call 4 :1.2 registry Registry DeregisterEvent s=window
signal l 1 7 path=/org/a11y/atspi/registry interface=org.a11y.atspi.Registry member=EventListenerDeregistered signature=ss [\":1.2\" \"window\"]
return l 1 8 reply=4 destination=:1.2
> call 5 :1.2 registry Registry DeregisterEvent s=window
return l 1 9 reply=5 destination=:1.2
";

/// A listener leaves with its pairs, and no other: a stranger's news, a name that another connection owns now, and a
/// body that is none change nothing.
const LEAVES: &str = "\
> quiet 1 :1.2 registry Registry RegisterEvent s=window
signal l 1 4 path=/org/a11y/atspi/registry interface=org.a11y.atspi.Registry member=EventListenerRegistered signature=ss [\":1.2\" \"window\"]
> quiet 2 :1.3 registry Registry RegisterEvent s=window
signal l 1 5 path=/org/a11y/atspi/registry interface=org.a11y.atspi.Registry member=EventListenerRegistered signature=ss [\":1.3\" \"window\"]
> quiet 3 :1.2 registry Registry RegisterEvent s=object
signal l 1 6 path=/org/a11y/atspi/registry interface=org.a11y.atspi.Registry member=EventListenerRegistered signature=ss [\":1.2\" \"object\"]
> signal 8 :1.3 bus bus NameOwnerChanged s=:1.2 s=:1.2 s=
> signal 8 - bus bus NameOwnerChanged s=:1.2 s=:1.2 s=
> signal 9 bus bus bus NameOwnerChanged s=:1.2 s=:1.2 s=:1.5
> signal 9 bus bus bus NameOwnerChanged s=:1.2 s=:1.2
> signal 9 bus bus bus NameOwnerChanged s=:1.2 u=0 s=
> signal 9 bus bus bus NameAcquired s=:1.2 s=:1.2 s=
> signal 9 bus bus i.f NameOwnerChanged s=:1.2 s=:1.2 s=
> signal 9 bus bus bus NameOwnerChanged s=:1.9 s=:1.9 s=
> signal 10 bus bus bus NameOwnerChanged s=:1.2 s=:1.2 s=
signal l 1 7 path=/org/a11y/atspi/registry interface=org.a11y.atspi.Registry member=EventListenerDeregistered signature=ss [\":1.2\" \"window\"]
signal l 1 8 path=/org/a11y/atspi/registry interface=org.a11y.atspi.Registry member=EventListenerDeregistered signature=ss [\":1.2\" \"object\"]
> signal 10 bus bus bus NameOwnerChanged s=:1.2 s=:1.2 s=
> call 9 :1.4 registry Registry GetRegisteredEvents
return l 1 9 reply=9 destination=:1.4 signature=a(ss) [[(\":1.3\" \"window\")]]
";

#[test]
fn listeners_register_ask_and_leave(rt: HostRuntime) {
    assert!(rt; goes_on(&rt, REGISTERED));
    assert!(rt; goes_on(&rt, LISTED));
    assert!(rt; goes_on(&rt, GIVEN_BACK));
    assert!(rt; goes_on(&rt, LEAVES));
}

//! Roots are embedded, taken back, and leave.

use crate::registry::plays::goes_on;
use std::test::*;

/// A sender's root is embedded once: the second time it gets the return alone.
const EMBEDDED: &str = "\
> call 5 :1.4 root Socket Embed (so)=:1.4@/d
return l 1 4 reply=5 destination=:1.4 signature=(so) [(\"org.a11y.atspi.Registry\" \"/org/a11y/atspi/accessible/root\")]
call l 0 5 path=/d interface=org.freedesktop.DBus.Properties member=Set destination=:1.4 signature=ssv [\"org.a11y.atspi.Application\" \"Id\" <i 0>]
> call 6 :1.4 root Socket Embed (so)=:1.4@/other
return l 1 6 reply=6 destination=:1.4 signature=(so) [(\"org.a11y.atspi.Registry\" \"/org/a11y/atspi/accessible/root\")]
> quiet 7 :1.4 root Socket Embed (so)=:1.4@/d
> call 8 :1.6 root Accessible GetChildren
return l 1 7 reply=8 destination=:1.6 signature=a(so) [[(\":1.4\" \"/d\")]]
";

/// Who takes its root back and embeds it again gets the next number; one that wants no reply gets its number all the
/// same.
const AGAIN: &str = "\
> quiet 5 :1.4 root Socket Embed (so)=:1.4@/d
call l 0 4 path=/d interface=org.freedesktop.DBus.Properties member=Set destination=:1.4 signature=ssv [\"org.a11y.atspi.Application\" \"Id\" <i 0>]
> quiet 6 :1.4 root Socket Unembed (so)=:1.4@/any
> call 7 :1.4 root Socket Unembed (so)=:1.4@/d
return l 1 5 reply=7 destination=:1.4
> quiet 8 :1.4 root Socket Embed (so)=:1.4@/e
call l 0 6 path=/e interface=org.freedesktop.DBus.Properties member=Set destination=:1.4 signature=ssv [\"org.a11y.atspi.Application\" \"Id\" <i 1>]
> call 9 :1.6 root Accessible GetChildren
return l 1 7 reply=9 destination=:1.6 signature=a(so) [[(\":1.4\" \"/e\")]]
";

/// A root of another is refused, and taking it back too; nothing is embedded.
const ANOTHERS: &str = "\
> call 5 :1.4 root Socket Embed (so)=:1.5@/d
error l 1 4 error=org.freedesktop.DBus.Error.InvalidArgs reply=5 destination=:1.4 signature=s [\"InvalidArgs\"]
> call 6 :1.4 root Socket Unembed (so)=:1.5@/d
error l 1 5 error=org.freedesktop.DBus.Error.InvalidArgs reply=6 destination=:1.4 signature=s [\"InvalidArgs\"]
> quiet 7 :1.4 root Socket Embed (so)=:1.5@/d
> call 8 :1.6 root Accessible GetChildren
return l 1 6 reply=8 destination=:1.6 signature=a(so) [[]]
";

/// Children are told to those who ask.
const TOLD: &str = "\
> quiet 1 :1.2 registry Registry RegisterEvent s=object:children-changed
signal l 1 4 path=/org/a11y/atspi/registry interface=org.a11y.atspi.Registry member=EventListenerRegistered signature=ss [\":1.2\" \"object:children-changed\"]
> call 5 :1.4 root Socket Embed (so)=:1.4@/d
return l 1 5 reply=5 destination=:1.4 signature=(so) [(\"org.a11y.atspi.Registry\" \"/org/a11y/atspi/accessible/root\")]
call l 0 6 path=/d interface=org.freedesktop.DBus.Properties member=Set destination=:1.4 signature=ssv [\"org.a11y.atspi.Application\" \"Id\" <i 0>]
signal l 1 7 path=/org/a11y/atspi/accessible/root interface=org.a11y.atspi.Event.Object member=ChildrenChanged signature=siiva{sv} [\"add\" 0 0 <(so) (\":1.4\" \"/d\")> []]
> call 6 :1.5 root Socket Embed (so)=:1.5@/e
return l 1 8 reply=6 destination=:1.5 signature=(so) [(\"org.a11y.atspi.Registry\" \"/org/a11y/atspi/accessible/root\")]
call l 0 9 path=/e interface=org.freedesktop.DBus.Properties member=Set destination=:1.5 signature=ssv [\"org.a11y.atspi.Application\" \"Id\" <i 1>]
signal l 1 10 path=/org/a11y/atspi/accessible/root interface=org.a11y.atspi.Event.Object member=ChildrenChanged signature=siiva{sv} [\"add\" 1 0 <(so) (\":1.5\" \"/e\")> []]
> call 7 :1.4 root Socket Unembed (so)=:1.4@/any
signal l 1 11 path=/org/a11y/atspi/accessible/root interface=org.a11y.atspi.Event.Object member=ChildrenChanged signature=siiva{sv} [\"remove\" 0 0 <(so) (\":1.4\" \"/d\")> []]
return l 1 12 reply=7 destination=:1.4
> call 8 :1.4 root Socket Unembed (so)=:1.4@/any
return l 1 13 reply=8 destination=:1.4
> call 9 :1.7 root Socket Unembed (so)=:1.7@/any
return l 1 14 reply=9 destination=:1.7
";

/// An application leaves with its child, which is told to those who ask for removals.
const LEAVES: &str = "\
> quiet 1 :1.2 registry Registry RegisterEvent s=Object:ChildrenChanged:remove
signal l 1 4 path=/org/a11y/atspi/registry interface=org.a11y.atspi.Registry member=EventListenerRegistered signature=ss [\":1.2\" \"Object:ChildrenChanged:remove\"]
> call 5 :1.4 root Socket Embed (so)=:1.4@/d
return l 1 5 reply=5 destination=:1.4 signature=(so) [(\"org.a11y.atspi.Registry\" \"/org/a11y/atspi/accessible/root\")]
call l 0 6 path=/d interface=org.freedesktop.DBus.Properties member=Set destination=:1.4 signature=ssv [\"org.a11y.atspi.Application\" \"Id\" <i 0>]
> signal 9 :1.4 bus bus NameOwnerChanged s=:1.4 s=:1.4 s=
> signal 9 bus bus bus NameOwnerChanged s=:1.4 s=:1.4 s=
signal l 1 7 path=/org/a11y/atspi/accessible/root interface=org.a11y.atspi.Event.Object member=ChildrenChanged signature=siiva{sv} [\"remove\" 0 0 <(so) (\":1.4\" \"/d\")> []]
> signal 9 bus bus bus NameOwnerChanged s=:1.4 s=:1.4 s=
> call 8 :1.6 root Accessible GetChildren
return l 1 8 reply=8 destination=:1.6 signature=a(so) [[]]
";

/// Who leaves is not told of its own child: its pairs go first.
const LEAVES_ALONE: &str = "\
> quiet 1 :1.2 registry Registry RegisterEvent s=object
signal l 1 4 path=/org/a11y/atspi/registry interface=org.a11y.atspi.Registry member=EventListenerRegistered signature=ss [\":1.2\" \"object\"]
> call 5 :1.2 root Socket Embed (so)=:1.2@/d
return l 1 5 reply=5 destination=:1.2 signature=(so) [(\"org.a11y.atspi.Registry\" \"/org/a11y/atspi/accessible/root\")]
call l 0 6 path=/d interface=org.freedesktop.DBus.Properties member=Set destination=:1.2 signature=ssv [\"org.a11y.atspi.Application\" \"Id\" <i 0>]
signal l 1 7 path=/org/a11y/atspi/accessible/root interface=org.a11y.atspi.Event.Object member=ChildrenChanged signature=siiva{sv} [\"add\" 0 0 <(so) (\":1.2\" \"/d\")> []]
> signal 9 bus bus bus NameOwnerChanged s=:1.2 s=:1.2 s=
signal l 1 8 path=/org/a11y/atspi/registry interface=org.a11y.atspi.Registry member=EventListenerDeregistered signature=ss [\":1.2\" \"object\"]
";

#[test]
fn roots_are_embedded_taken_back_and_leave(rt: HostRuntime) {
    assert!(rt; goes_on(&rt, EMBEDDED));
    assert!(rt; goes_on(&rt, AGAIN));
    assert!(rt; goes_on(&rt, ANOTHERS));
    assert!(rt; goes_on(&rt, TOLD));
    assert!(rt; goes_on(&rt, LEAVES));
    assert!(rt; goes_on(&rt, LEAVES_ALONE));
}

//! The start, and what the registry reads until it has its name.

use crate::registry::plays::{goes, goes_on};
use std::test::*;

/// Three calls; then nothing is read but the return to the first of them: no call, no news, no return to another call.
const START: &str = "\
> start
call l 0 1 path=/org/freedesktop/DBus interface=org.freedesktop.DBus member=Hello destination=org.freedesktop.DBus
call l 0 2 path=/org/freedesktop/DBus interface=org.freedesktop.DBus member=RequestName destination=org.freedesktop.DBus signature=su [\"org.a11y.atspi.Registry\" 4]
call l 0 3 path=/org/freedesktop/DBus interface=org.freedesktop.DBus member=AddMatch destination=org.freedesktop.DBus signature=s [\"type='signal',interface='org.freedesktop.DBus',member='NameOwnerChanged'\"]
> call 5 :1.2 registry Registry RegisterEvent s=object
> call 6 :1.2 root Peer Ping
> signal 6 bus bus bus NameOwnerChanged s=:1.2 s=:1.2 s=
> return 7 :1.2 2 s=:1.9
> return 7 bus 2 s=:1.9
> return 7 bus 1
> return 7 bus 1 u=9
> error 7 bus 1 org.freedesktop.DBus.Error.Failed s=:1.9
> call 8 :1.2 registry Registry RegisterEvent s=object
> return 9 bus 1 s=:1.0
> call 10 :1.2 registry Registry RegisterEvent s=object
signal l 1 4 path=/org/a11y/atspi/registry interface=org.a11y.atspi.Registry member=EventListenerRegistered signature=ss [\":1.2\" \"object\"]
return l 1 5 reply=10 destination=:1.2
";

/// The return to the first of them names it whoever sent it.
const OF_ANOTHER: &str = "\
> start
call l 0 1 path=/org/freedesktop/DBus interface=org.freedesktop.DBus member=Hello destination=org.freedesktop.DBus
call l 0 2 path=/org/freedesktop/DBus interface=org.freedesktop.DBus member=RequestName destination=org.freedesktop.DBus signature=su [\"org.a11y.atspi.Registry\" 4]
call l 0 3 path=/org/freedesktop/DBus interface=org.freedesktop.DBus member=AddMatch destination=org.freedesktop.DBus signature=s [\"type='signal',interface='org.freedesktop.DBus',member='NameOwnerChanged'\"]
> return 7 :1.2 1 s=:1.7
> return 9 bus 1 s=:1.0
> call 10 :1.2 root Accessible GetChildAtIndex i=0
return l 1 4 reply=10 destination=:1.2 signature=(so) [(\":1.7\" \"/org/a11y/atspi/null\")]
";

/// A second name is not taken: an index without a child is answered by a reference of the first.
const SECOND: &str = "\
> return 9 bus 1 s=:1.9
> call 5 :1.2 root Accessible GetChildAtIndex i=0
return l 1 4 reply=5 destination=:1.2 signature=(so) [(\":1.0\" \"/org/a11y/atspi/null\")]
";

#[test]
fn it_starts_and_has_one_name(rt: HostRuntime) {
    assert!(rt; goes(&rt, START));
    assert!(rt; goes_on(&rt, SECOND));
    assert!(rt; goes(&rt, OF_ANOTHER));
}

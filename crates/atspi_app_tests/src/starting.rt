//! How an application starts, which listeners it hears of, and faces exchanged while it runs.

use crate::plays::{goes, goes_exchanged};
use crate::tables::stops;

/// An application whose start is not answered: its steps are done, and nobody is told.
const FIRST: &str = "\
> start
sent a0 call l 0 1 path=/org/freedesktop/DBus interface=org.freedesktop.DBus member=Hello destination=org.freedesktop.DBus
> edit a0 insert 0 0 push-button \"OK\"
step a0 add 1 0 0 push-button \"OK\"
> edit a0 state 1 focused on
step a0 state 1 focused on
> count
2 nodes
";

/// The four calls of a start, one behind the return to the one before; returns that come twice, to other numbers or
/// from strangers; listeners that come and go.
const HEARD: &str = "\
> start
sent a0 call l 0 1 path=/org/freedesktop/DBus interface=org.freedesktop.DBus member=Hello destination=org.freedesktop.DBus
> signal 9 :1.0 registry Registry EventListenerRegistered s=:1.1 s=object
> call 5 :1.6 root Peer Ping
> return 1 bus 7 s=:1.8
> return 1 bus 1 s=:1.5
sent a0 call l 0 2 path=/org/freedesktop/DBus interface=org.freedesktop.DBus member=AddMatch destination=org.freedesktop.DBus signature=s [\"type='signal',sender='org.a11y.atspi.Registry',interface='org.a11y.atspi.Registry'\"]
> return 1 bus 1 s=:1.8
> signal 9 :1.0 registry Registry EventListenerRegistered s=:1.2 s=window
hears a0 :1.2 \"window\"
> signal 9 :1.3 /any Registry EventListenerRegistered s=:1.4 s=object:text-changed u=7
hears a0 :1.4 \"object:text-changed\"
> signal 9 :1.0 registry Registry EventListenerRegistered s=:1.2 s=window
> return 2 :1.9 2 u=3
sent a0 call l 0 3 path=/org/a11y/atspi/registry interface=org.a11y.atspi.Registry member=GetRegisteredEvents destination=org.a11y.atspi.Registry
> return 3 :1.0 3 a(ss)=:1.7@object:state-changed;:1.2@window;:1.7@object:state-changed;:1.3@
deaf a0 :1.4 \"object:text-changed\"
hears a0 :1.7 \"object:state-changed\"
hears a0 :1.3 \"\"
sent a0 call l 0 4 path=/org/a11y/atspi/accessible/root interface=org.a11y.atspi.Socket member=Embed destination=org.a11y.atspi.Registry signature=(so) [(\":1.5\" \"/org/a11y/atspi/accessible/root\")]
> return 3 :1.0 3 a(ss)=
> return 4 :1.0 4 (so)=org.a11y.atspi.Registry@/org/a11y/atspi/accessible/root
> return 4 :1.0 4 (so)=org.a11y.atspi.Registry@/org/a11y/atspi/accessible/root
> signal 9 :1.0 registry Registry EventListenerDeregistered s=:1.3 s=
deaf a0 :1.3 \"\"
> signal 9 :1.0 registry Registry EventListenerDeregistered s=:1.3 s=
> signal 9 :1.0 registry Registry EventListenerDeregistered s=:1.2 s=object:state-changed
> signal 9 :1.0 registry Registry EventListenerRegistered s=no s=object
> signal 9 :1.0 registry Registry EventListenerRegistered s=:1.3
> signal 9 :1.0 registry Registry EventListenerRegistered s=:1.3 u=1
> signal 9 :1.0 registry Registry EventListenerRegistered
> signal 9 :1.0 registry Registry EventListenerChanged s=:1.3 s=object
> signal 9 :1.0 registry Socket EventListenerRegistered s=:1.3 s=object
> call 9 - root Peer Ping
> quiet 9 :1.6 root Peer Ping
> other 9 :1.6 root Peer Ping
> error 9 :1.6 4 a.b
> quiet 9 :1.6 root Properties Set s=org.a11y.atspi.Application s=Id vi=3
> quiet 9 :1.6 9 Accessible GetRole
> call 9 :1.6 root Properties Get s=org.a11y.atspi.Application s=Id
sent a0 return l 1 5 reply=9 destination=:1.6 signature=v [<i 3>]
> edit a0 state 0 focused on
step a0 state 0 focused on
sent a0 signal l 1 6 path=/org/a11y/atspi/accessible/root interface=org.a11y.atspi.Event.Object member=StateChanged signature=siiva{sv} [\"focused\" 1 0 <i 0> []]
> edit a0 name 0 \"x\"
step a0 name 0 \"x\"
> signal 9 :1.0 registry Registry EventListenerDeregistered s=:1.7 s=object:state-changed
deaf a0 :1.7 \"object:state-changed\"
> edit a0 state 0 focused off
step a0 state 0 focused off
";

/// A text that is exchanged into a gap buffer while it is edited, before the application has its name.
const SWAPPED: &str = "\
> edit a0 insert 0 0 text \"E\" text \"héllo\"
step a0 add 1 0 0 text \"E\" text \"héllo\"
> edit a0 caret 1 5
step a0 caret 1 5
> edit a0 mark 1 4 5
step a0 marks 1 4 5
= swap
> call 6 :1.6 1 Text GetSelection i=0
> edit a0 cut 1 1 3
step a0 caret 1 3
step a0 delete 1 1 \"él\"
> edit a0 put 1 3 \"!\"
step a0 insert 1 3 \"!\"
> start
sent a0 call l 0 1 path=/org/freedesktop/DBus interface=org.freedesktop.DBus member=Hello destination=org.freedesktop.DBus
> return 9 bus 1 s=:1.7
sent a0 call l 0 2 path=/org/freedesktop/DBus interface=org.freedesktop.DBus member=AddMatch destination=org.freedesktop.DBus signature=s [\"type='signal',sender='org.a11y.atspi.Registry',interface='org.a11y.atspi.Registry'\"]
> call 6 :1.6 1 Text GetText i=0 i=-1
sent a0 return l 1 3 reply=6 destination=:1.6 signature=s [\"hlo!\"]
> call 4294967295 :1.6 1 Properties Get s=org.a11y.atspi.Text s=CaretOffset
sent a0 return l 1 4 reply=4294967295 destination=:1.6 signature=v [<i 3>]
> call 7 :1.6 1 Text GetNSelections
sent a0 return l 1 5 reply=7 destination=:1.6 signature=i [0]
";

/// Replies to Hello that end the start: the application gets no name, and answers nobody.
const STOPPED: &str = "\
1 return 1 bus 1
1 return 1 bus 1 u=1
1 return 1 bus 1 s=org.a.b
1 return 1 bus 1 s=:
1 return 1 bus 1 s=:1.5 s=:1.5
1 return 1 bus 1 s=
1 return 1 bus 1 s=:1
1 return 1 bus 1 s=:1.
1 return 1 bus 1 s=1.5
1 return 1 bus 1 o=/a
1 return 1 bus 1 v=:1.5
1 return 1 bus 1 as=:1.5
1 return 1 :1.9 1 u=5
1 error 1 bus 1 a.b
1 error 1 bus 1 a.b s=:1.5
1 error 1 :1.9 1 a.b
";

/// Replies to a later call that end the start: the application has its name and answers; behind each the number of the
/// next message.
const LATER: &str = "\
2 error 2 bus 2 a.b
2 error 2 :1.9 2 a.b s=no
3 error 3 :1.0 3 a.b
3 return 3 :1.0 3
3 return 3 :1.0 3 as=
3 return 3 :1.0 3 a(so)=
3 return 3 :1.0 3 a(ss)=:1.2@object;no@object
3 return 3 :1.0 3 a(ss)=@object
3 return 3 :1.0 3 (ss)=:1.2@object
3 return 3 :1.0 3 v(ss)=:1.2@object
3 return 3 :1.9 3 u=0
3 return 3 :1.0 3 a(ss)= a(ss)=
3 return 3 :1.0 3 s=
4 error 4 :1.0 4 a.b
4 error 4 :1.9 4 a.b s=no
4 return 4 :1.0 4 (so)=:1.0@/x
4 return 4 :1.0 4
4 return 4 :1.0 4 u=3
";

/// A start that ended at its second call: later returns are none, but its name stays, listeners are heard, and it tells
/// them what it does.
const GOES_ON: &str = "\
> start
sent a0 call l 0 1 path=/org/freedesktop/DBus interface=org.freedesktop.DBus member=Hello destination=org.freedesktop.DBus
> return 1 bus 1 s=:1.5
sent a0 call l 0 2 path=/org/freedesktop/DBus interface=org.freedesktop.DBus member=AddMatch destination=org.freedesktop.DBus signature=s [\"type='signal',sender='org.a11y.atspi.Registry',interface='org.a11y.atspi.Registry'\"]
> error 2 bus 2 a.b
> return 2 bus 2
> return 3 :1.0 3 a(ss)=:1.3@object
> signal 9 :1.0 registry Registry EventListenerRegistered s=:1.2 s=object:property-change
hears a0 :1.2 \"object:property-change\"
> edit a0 name 0 \"x\"
step a0 name 0 \"x\"
sent a0 signal l 1 3 path=/org/a11y/atspi/accessible/root interface=org.a11y.atspi.Event.Object member=PropertyChange signature=siiva{sv} [\"accessible-name\" 0 0 <s \"x\"> []]
";

/// Nothing is sent but Hello.
#[test]
fn nobody_is_told(rt: HostRuntime) {
    assert!(rt; goes(&rt, FIRST));
}

/// The list that GetRegisteredEvents returns replaces the pairs that were heard; each pair counts once.
#[test]
fn listeners_are_heard(rt: HostRuntime) {
    assert!(rt; goes(&rt, HEARD));
}

/// What is left where the start has ended.
#[test]
fn a_start_that_ended_goes_no_further(rt: HostRuntime) {
    assert!(rt; goes(&rt, GOES_ON));
}

/// Caret and selections stay; what is cut and put in then is as it would have been.
#[test]
fn faces_are_exchanged(rt: HostRuntime) {
    assert!(rt; goes_exchanged(&rt, SWAPPED));
}

/// Each wrong reply.
#[test]
fn a_start_that_stops_at_hello(rt: HostRuntime) {
    assert!(rt; stops(&rt, STOPPED));
}

/// Each wrong reply to each other call.
#[test]
fn a_start_that_stops_later(rt: HostRuntime) {
    assert!(rt; stops(&rt, LATER));
}

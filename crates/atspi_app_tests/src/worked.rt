//! Worked conversations that show what is easily got wrong.

use crate::plays::{goes, goes_exchanged};
use crate::tables::makes;

/// An application with one child that has its name tells how many children its root has.
const COUNTED: &str = "\
> edit a0 insert 0 0 label \"x\"
step a0 add 1 0 0 label \"x\"
> start
sent a0 call l 0 1 path=/org/freedesktop/DBus interface=org.freedesktop.DBus member=Hello destination=org.freedesktop.DBus
> return 1 bus 1 s=:1.1
sent a0 call l 0 2 path=/org/freedesktop/DBus interface=org.freedesktop.DBus member=AddMatch destination=org.freedesktop.DBus signature=s [\"type='signal',sender='org.a11y.atspi.Registry',interface='org.a11y.atspi.Registry'\"]
> call 9 :1.2 root Properties Get s=org.a11y.atspi.Accessible s=ChildCount
sent a0 return l 1 3 reply=9 destination=:1.2 signature=v [<i 1>]
";

/// The same call where no object is.
const LOST: &str = "\
> start
sent a0 call l 0 1 path=/org/freedesktop/DBus interface=org.freedesktop.DBus member=Hello destination=org.freedesktop.DBus
> return 1 bus 1 s=:1.1
sent a0 call l 0 2 path=/org/freedesktop/DBus interface=org.freedesktop.DBus member=AddMatch destination=org.freedesktop.DBus signature=s [\"type='signal',sender='org.a11y.atspi.Registry',interface='org.a11y.atspi.Registry'\"]
> call 9 :1.2 /x Properties Get s=org.a11y.atspi.Accessible s=ChildCount
sent a0 error l 1 3 error=org.freedesktop.DBus.Error.UnknownObject reply=9 destination=:1.2 signature=s [\"UnknownObject\"]
";

/// A listener of properties alone, known from GetRegisteredEvents: a name is announced, and a new node is not.
const ONE_LISTENER: &str = "\
> start
sent a0 call l 0 1 path=/org/freedesktop/DBus interface=org.freedesktop.DBus member=Hello destination=org.freedesktop.DBus
> return 1 bus 1 s=:1.1
sent a0 call l 0 2 path=/org/freedesktop/DBus interface=org.freedesktop.DBus member=AddMatch destination=org.freedesktop.DBus signature=s [\"type='signal',sender='org.a11y.atspi.Registry',interface='org.a11y.atspi.Registry'\"]
> return 2 bus 2
sent a0 call l 0 3 path=/org/a11y/atspi/registry interface=org.a11y.atspi.Registry member=GetRegisteredEvents destination=org.a11y.atspi.Registry
> return 3 :1.0 3 a(ss)=:1.2@object:property-change
hears a0 :1.2 \"object:property-change\"
sent a0 call l 0 4 path=/org/a11y/atspi/accessible/root interface=org.a11y.atspi.Socket member=Embed destination=org.a11y.atspi.Registry signature=(so) [(\":1.1\" \"/org/a11y/atspi/accessible/root\")]
> return 4 :1.0 4 (so)=org.a11y.atspi.Registry@/org/a11y/atspi/accessible/root
> edit a0 name 0 \"U\"
step a0 name 0 \"U\"
sent a0 signal l 1 5 path=/org/a11y/atspi/accessible/root interface=org.a11y.atspi.Event.Object member=PropertyChange signature=siiva{sv} [\"accessible-name\" 0 0 <s \"U\"> []]
> edit a0 insert 0 0 label \"x\"
step a0 add 1 0 0 label \"x\"
";

/// A selection is emptied by text that is put in, and an empty one is none.
const SELECTED: &str = "\
edit a0 insert 0 0 text \"E\" text \"héllo\" -> add 1 0 0 text \"E\" text \"héllo\"
1 Text AddSelection i=1 i=3 -> marks 1 1 3 => b [true]
1 Text AddSelection i=3 i=3 -> b [false]
1 Text GetNSelections -> i [1]
1 Text GetSelection i=0 -> ii [1 3]
1 Text GetText i=1 i=-1 -> s [\"éllo\"]
1 EditableText InsertText i=0 s=x i=1 -> insert 1 0 \"x\" => b [true]
1 Text GetNSelections -> i [0]
1 Text GetText i=0 i=-1 -> s [\"xhéllo\"]
";

/// Texts go into a gap buffer with their carets and selections.
const KEPT: &str = "\
> edit a0 insert 0 0 text \"E\" text \"héllo\"
step a0 add 1 0 0 text \"E\" text \"héllo\"
> edit a0 mark 1 1 3
step a0 marks 1 1 3
= swap
> start
sent a0 call l 0 1 path=/org/freedesktop/DBus interface=org.freedesktop.DBus member=Hello destination=org.freedesktop.DBus
> return 1 bus 1 s=:1.5
sent a0 call l 0 2 path=/org/freedesktop/DBus interface=org.freedesktop.DBus member=AddMatch destination=org.freedesktop.DBus signature=s [\"type='signal',sender='org.a11y.atspi.Registry',interface='org.a11y.atspi.Registry'\"]
> call 5 :1.6 1 Text GetSelection i=0
sent a0 return l 1 3 reply=5 destination=:1.6 signature=ii [1 3]
> call 5 :1.6 1 Properties Get s=org.a11y.atspi.Text s=CaretOffset
sent a0 return l 1 4 reply=5 destination=:1.6 signature=v [<i 0>]
> call 5 :1.6 1 Text GetText i=0 i=-1
sent a0 return l 1 5 reply=5 destination=:1.6 signature=s [\"héllo\"]
";

/// The first reply of an application, a value or an error.
#[test]
fn a_first_call_is_answered(rt: HostRuntime) {
    assert!(rt; goes(&rt, COUNTED));
    assert!(rt; goes(&rt, LOST));
}

/// One pattern covers a name and no new node.
#[test]
fn one_listener_is_told(rt: HostRuntime) {
    assert!(rt; goes(&rt, ONE_LISTENER));
}

/// What calls do to a selection, and an exchange of faces does not.
#[test]
fn selections_go_and_stay(rt: HostRuntime) {
    assert!(rt; makes(&rt, SELECTED));
    assert!(rt; goes_exchanged(&rt, KEPT));
}

//! What an application announces of its steps.

use crate::plays::goes_on;
use crate::tables::announces;

/// Each kind of step, of an edit or of a call, told to a listener that asks for all of it. A step that nobody can ask
/// for is told nobody.
const ANNOUNCED: &str = "\
> signal 9 :1.0 registry Registry EventListenerRegistered s=:1.2 s=object
hears a0 :1.2 \"object\"
> edit a0 insert 0 0 panel \"A\"
step a0 add 1 0 0 panel \"A\"
sent a0 signal l 1 5 path=/org/a11y/atspi/cache interface=org.a11y.atspi.Cache member=AddAccessible signature=((so)(so)(so)iiassusau) [((\":1.5\" \"/org/a11y/atspi/accessible/1\") (\":1.5\" \"/org/a11y/atspi/accessible/root\") (\":1.5\" \"/org/a11y/atspi/accessible/root\") 0 0 [\"org.a11y.atspi.Accessible\"] \"A\" 39 \"\" [1124073728 0])]
sent a0 signal l 1 6 path=/org/a11y/atspi/accessible/root interface=org.a11y.atspi.Event.Object member=ChildrenChanged signature=siiva{sv} [\"add\" 0 0 <(so) (\":1.5\" \"/org/a11y/atspi/accessible/1\")> []]
> edit a0 insert 0 1 panel \"B\"
step a0 add 2 0 1 panel \"B\"
sent a0 signal l 1 7 path=/org/a11y/atspi/cache interface=org.a11y.atspi.Cache member=AddAccessible signature=((so)(so)(so)iiassusau) [((\":1.5\" \"/org/a11y/atspi/accessible/2\") (\":1.5\" \"/org/a11y/atspi/accessible/root\") (\":1.5\" \"/org/a11y/atspi/accessible/root\") 1 0 [\"org.a11y.atspi.Accessible\"] \"B\" 39 \"\" [1124073728 0])]
sent a0 signal l 1 8 path=/org/a11y/atspi/accessible/root interface=org.a11y.atspi.Event.Object member=ChildrenChanged signature=siiva{sv} [\"add\" 1 0 <(so) (\":1.5\" \"/org/a11y/atspi/accessible/2\")> []]
> edit a0 insert 1 0 text \"x\" text \"né\" action \"press\"
step a0 add 3 1 0 text \"x\" text \"né\" action \"press\"
sent a0 signal l 1 9 path=/org/a11y/atspi/cache interface=org.a11y.atspi.Cache member=AddAccessible signature=((so)(so)(so)iiassusau) [((\":1.5\" \"/org/a11y/atspi/accessible/3\") (\":1.5\" \"/org/a11y/atspi/accessible/root\") (\":1.5\" \"/org/a11y/atspi/accessible/1\") 0 0 [\"org.a11y.atspi.Accessible\" \"org.a11y.atspi.Text\" \"org.a11y.atspi.EditableText\" \"org.a11y.atspi.Action\"] \"x\" 61 \"\" [1124073728 0])]
sent a0 signal l 1 10 path=/org/a11y/atspi/accessible/1 interface=org.a11y.atspi.Event.Object member=ChildrenChanged signature=siiva{sv} [\"add\" 0 0 <(so) (\":1.5\" \"/org/a11y/atspi/accessible/3\")> []]
> edit a0 move 1 2 0
step a0 move 1 2 0
sent a0 signal l 1 11 path=/org/a11y/atspi/cache interface=org.a11y.atspi.Cache member=AddAccessible signature=((so)(so)(so)iiassusau) [((\":1.5\" \"/org/a11y/atspi/accessible/1\") (\":1.5\" \"/org/a11y/atspi/accessible/root\") (\":1.5\" \"/org/a11y/atspi/accessible/2\") 0 1 [\"org.a11y.atspi.Accessible\"] \"A\" 39 \"\" [1124073728 0])]
sent a0 signal l 1 12 path=/org/a11y/atspi/accessible/root interface=org.a11y.atspi.Event.Object member=ChildrenChanged signature=siiva{sv} [\"remove\" 0 0 <(so) (\":1.5\" \"/org/a11y/atspi/accessible/1\")> []]
sent a0 signal l 1 13 path=/org/a11y/atspi/accessible/1 interface=org.a11y.atspi.Event.Object member=PropertyChange signature=siiva{sv} [\"accessible-parent\" 0 0 <(so) (\":1.5\" \"/org/a11y/atspi/accessible/2\")> []]
sent a0 signal l 1 14 path=/org/a11y/atspi/accessible/2 interface=org.a11y.atspi.Event.Object member=ChildrenChanged signature=siiva{sv} [\"add\" 0 0 <(so) (\":1.5\" \"/org/a11y/atspi/accessible/1\")> []]
> edit a0 move 2 0 0
> edit a0 name 3 \"y\"
step a0 name 3 \"y\"
sent a0 signal l 1 15 path=/org/a11y/atspi/accessible/3 interface=org.a11y.atspi.Event.Object member=PropertyChange signature=siiva{sv} [\"accessible-name\" 0 0 <s \"y\"> []]
> edit a0 describe 3 \"z\"
step a0 description 3 \"z\"
sent a0 signal l 1 16 path=/org/a11y/atspi/accessible/3 interface=org.a11y.atspi.Event.Object member=PropertyChange signature=siiva{sv} [\"accessible-description\" 0 0 <s \"z\"> []]
> edit a0 role 3 79
step a0 role 3 entry
sent a0 signal l 1 17 path=/org/a11y/atspi/accessible/3 interface=org.a11y.atspi.Event.Object member=PropertyChange signature=siiva{sv} [\"accessible-role\" 0 0 <u 79> []]
> edit a0 focus 3
step a0 state 3 focused on
sent a0 signal l 1 18 path=/org/a11y/atspi/accessible/3 interface=org.a11y.atspi.Event.Object member=StateChanged signature=siiva{sv} [\"focused\" 1 0 <i 0> []]
> edit a0 focus 2
step a0 state 3 focused off
sent a0 signal l 1 19 path=/org/a11y/atspi/accessible/3 interface=org.a11y.atspi.Event.Object member=StateChanged signature=siiva{sv} [\"focused\" 0 0 <i 0> []]
step a0 state 2 focused on
sent a0 signal l 1 20 path=/org/a11y/atspi/accessible/2 interface=org.a11y.atspi.Event.Object member=StateChanged signature=siiva{sv} [\"focused\" 1 0 <i 0> []]
> edit a0 type 3 \"ü!\"
step a0 insert 3 0 \"ü!\"
sent a0 signal l 1 21 path=/org/a11y/atspi/accessible/3 interface=org.a11y.atspi.Event.Object member=TextChanged signature=siiva{sv} [\"insert\" 0 2 <s \"ü!\"> []]
step a0 caret 3 2
sent a0 signal l 1 22 path=/org/a11y/atspi/accessible/3 interface=org.a11y.atspi.Event.Object member=TextCaretMoved signature=siiva{sv} [\"\" 2 0 <i 0> []]
> edit a0 mark 3 0 4
step a0 marks 3 0 4
> edit a0 relate 3 1 2
step a0 relate 3 1 2
> edit a0 cut 3 1 3
step a0 caret 3 1
sent a0 signal l 1 23 path=/org/a11y/atspi/accessible/3 interface=org.a11y.atspi.Event.Object member=TextCaretMoved signature=siiva{sv} [\"\" 1 0 <i 0> []]
step a0 delete 3 1 \"!n\"
sent a0 signal l 1 24 path=/org/a11y/atspi/accessible/3 interface=org.a11y.atspi.Event.Object member=TextChanged signature=siiva{sv} [\"delete\" 1 2 <s \"!n\"> []]
> edit a0 press 3 0
step a0 state 3 pressed on
sent a0 signal l 1 25 path=/org/a11y/atspi/accessible/3 interface=org.a11y.atspi.Event.Object member=StateChanged signature=siiva{sv} [\"pressed\" 1 0 <i 0> []]
step a0 state 3 pressed off
sent a0 signal l 1 26 path=/org/a11y/atspi/accessible/3 interface=org.a11y.atspi.Event.Object member=StateChanged signature=siiva{sv} [\"pressed\" 0 0 <i 0> []]
> call 5 :1.6 3 EditableText SetTextContents s=ab
step a0 caret 3 0
sent a0 signal l 1 27 path=/org/a11y/atspi/accessible/3 interface=org.a11y.atspi.Event.Object member=TextCaretMoved signature=siiva{sv} [\"\" 0 0 <i 0> []]
step a0 delete 3 0 \"üé\"
sent a0 signal l 1 28 path=/org/a11y/atspi/accessible/3 interface=org.a11y.atspi.Event.Object member=TextChanged signature=siiva{sv} [\"delete\" 0 2 <s \"üé\"> []]
step a0 insert 3 0 \"ab\"
sent a0 signal l 1 29 path=/org/a11y/atspi/accessible/3 interface=org.a11y.atspi.Event.Object member=TextChanged signature=siiva{sv} [\"insert\" 0 2 <s \"ab\"> []]
sent a0 return l 1 30 reply=5 destination=:1.6 signature=b [true]
> quiet 5 :1.6 3 Text SetCaretOffset i=2
step a0 caret 3 2
sent a0 signal l 1 31 path=/org/a11y/atspi/accessible/3 interface=org.a11y.atspi.Event.Object member=TextCaretMoved signature=siiva{sv} [\"\" 2 0 <i 0> []]
> quiet 5 :1.6 3 Text SetCaretOffset i=9
> edit a0 remove 2
step a0 remove 2
sent a0 signal l 1 32 path=/org/a11y/atspi/accessible/root interface=org.a11y.atspi.Event.Object member=ChildrenChanged signature=siiva{sv} [\"remove\" 0 0 <(so) (\":1.5\" \"/org/a11y/atspi/accessible/2\")> []]
sent a0 signal l 1 33 path=/org/a11y/atspi/cache interface=org.a11y.atspi.Cache member=RemoveAccessible signature=(so) [(\":1.5\" \"/org/a11y/atspi/accessible/2\")]
sent a0 signal l 1 34 path=/org/a11y/atspi/cache interface=org.a11y.atspi.Cache member=RemoveAccessible signature=(so) [(\":1.5\" \"/org/a11y/atspi/accessible/1\")]
sent a0 signal l 1 35 path=/org/a11y/atspi/cache interface=org.a11y.atspi.Cache member=RemoveAccessible signature=(so) [(\":1.5\" \"/org/a11y/atspi/accessible/3\")]
> edit a0 remove 2
the edit is refused: no such node
> call 5 :1.6 3 Text GetText i=0 i=-1
sent a0 error l 1 36 error=org.freedesktop.DBus.Error.UnknownObject reply=5 destination=:1.6 signature=s [\"UnknownObject\"]
";

/// Patterns that cover the news of a state that is focused; the last but one is empty.
const COVERING: &str = "\
object:state-changed
Object:StateChanged:Focused
object:statechanged:
:STATE-CHANGED
::focused
object

OBJECT::
";

/// Patterns that do not.
const OTHERS: &str = "\
object:state-changed:checked
object:state-changed:focuse
object:state:focused
objects
window
focus:
object:text-changed
state-changed
";

/// The announcement of each step and its echoes, with the calls that make steps.
#[test]
fn each_step_is_announced(rt: HostRuntime) {
    assert!(rt; goes_on(&rt, ANNOUNCED));
}

/// Parts in both spellings; parts that are missing or empty.
#[test]
fn patterns_that_cover(rt: HostRuntime) {
    assert!(rt; announces(&rt, COVERING, true));
}

/// Another class, another name, another minor word.
#[test]
fn patterns_that_do_not_cover(rt: HostRuntime) {
    assert!(rt; announces(&rt, OTHERS, false));
}

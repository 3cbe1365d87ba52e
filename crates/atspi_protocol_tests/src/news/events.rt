//! The news of events.

use crate::made::stop_unless;
use crate::news::told::tells;

const EVENT: &str = "org.a11y.atspi.Event.Object";

/// Events of `/n` at `:1.7` with the values that they carry, and what is told: each event, then bodies that lack one of
/// the four arguments or have one of another type, and bodies with none or one value behind the four.
const EVENTS: &str = "\
ChildrenChanged|siiva{sv}|s=add|i=2|i=0|v=(so)|(|s=:1.7|s=/c|u=0|( => ChildAdded /c\n\
ChildrenChanged|siiva{sv}|s=remove|i=2|i=0|v=(so)|(|s=:1.7|s=/c|u=0|( => ChildRemoved /n 2 /c\n\
ChildrenChanged|siiva{sv}|s=add|i=2|i=0|v=(so)|(|s=:1.8|s=/c|u=0|( => Nothing\n\
ChildrenChanged|siiva{sv}|s=remove|i=2|i=0|v=(so)|(|s=:1.77|s=/c|u=0|( => Nothing\n\
ChildrenChanged|siiva{sv}|s=added|i=2|i=0|v=(so)|(|s=:1.7|s=/c|u=0|( => Nothing\n\
ChildrenChanged|siiva{sv}|s=add|i=2|i=0|v=s|s=/c|u=0|( => Nothing\n\
ChildrenChanged|siiva{sv}|s=remove|i=-1|i=0|v=(so)|(|s=:1.7|s=/c|u=0|( => ChildRemoved /n -1 /c\n\
PropertyChange|siiva{sv}|s=accessible-name|i=0|i=0|v=s|s=Gr\u{f6}\u{df}e|u=0|( => Name /n <Gr\u{f6}\u{df}e>\n\
PropertyChange|siiva{sv}|s=accessible-description|i=0|i=0|v=s|s=|u=0|( => Description /n <>\n\
PropertyChange|siiva{sv}|s=accessible-role|i=0|i=0|v=u|u=43|u=0|( => Role /n 43\n\
PropertyChange|siiva{sv}|s=accessible-role|i=0|i=0|v=i|i=43|u=0|( => Role /n 43\n\
PropertyChange|siiva{sv}|s=accessible-role|i=0|i=0|v=s|s=43|u=0|( => Nothing\n\
PropertyChange|siiva{sv}|s=accessible-role|i=0|i=0|v=i|i=-1|u=0|( => Nothing\n\
PropertyChange|siiva{sv}|s=accessible-role|i=0|i=0|v=i|i=2147483647|u=0|( => Role /n 2147483647\n\
PropertyChange|siiva{sv}|s=accessible-role|i=0|i=0|v=u|u=4294967295|u=0|( => Role /n 4294967295\n\
PropertyChange|siiva{sv}|s=accessible-parent|i=0|i=0|v=(so)|(|s=:1.7|s=/c|u=0|( => Nothing\n\
PropertyChange|siiva{sv}|s=accessible-name|i=0|i=0|v=i|i=1|u=0|( => Nothing\n\
StateChanged|siiva{sv}|s=focused|i=1|i=0|v=i|i=0|u=0|( => State /n 12 true\n\
StateChanged|siiva{sv}|s=default|i=0|i=0|v=s|s=|u=0|( => State /n 39 false\n\
StateChanged|siiva{sv}|s=invalid|i=-2147483648|i=0|v=i|i=0|u=0|( => State /n 0 true\n\
StateChanged|siiva{sv}|s=read-only|i=-1|i=0|v=i|i=0|u=0|( => State /n 43 true\n\
StateChanged|siiva{sv}|s=Focused|i=1|i=0|v=i|i=0|u=0|( => Nothing\n\
TextChanged|siiva{sv}|s=insert|i=3|i=2|v=s|s=hi|u=0|( => Inserted /n 3 <hi>\n\
TextChanged|siiva{sv}|s=insert\u{e9}|i=0|i=0|v=s|s=x|u=0|( => Inserted /n 0 <x>\n\
TextChanged|siiva{sv}|s=inser|i=0|i=0|v=s|s=x|u=0|( => Nothing\n\
TextChanged|siiva{sv}|s=ins\u{e9}rt|i=0|i=0|v=s|s=x|u=0|( => Nothing\n\
TextChanged|siiva{sv}|s=delete:system|i=3|i=2|v=s|s=hi|u=0|( => Deleted /n 3 2 <hi>\n\
TextChanged|siiva{sv}|s=delete|i=-2147483648|i=-1|v=s|s=\u{e9}|u=0|( => Deleted /n -2147483648 -1 <\u{e9}>\n\
TextCaretMoved|siiva{sv}|s=|i=3|i=0|v=o|s=/x|u=0|( => Caret /n 3\n\
TextCaretMoved|siiva{sv}|s=|i=-2147483648|i=2147483647|v=i|i=0|u=0|( => Caret /n -2147483648\n\
TextCaretMoved|siiva{sv}|s=|i=2147483647|i=-2147483648|v=i|i=0|u=0|( => Caret /n 2147483647\n\
BoundsChanged|siiva{sv}|s=|i=3|i=0|v=i|i=0|u=0|( => Nothing\n\
TextCaretMoved => Nothing\n\
TextCaretMoved|s|s= => Nothing\n\
TextCaretMoved|sii|s=|i=3|i=0 => Nothing\n\
TextCaretMoved|siii|s=|i=3|i=0|i=0 => Nothing\n\
TextCaretMoved|suiv|s=|u=3|i=0|v=i|i=0 => Nothing\n\
TextCaretMoved|siuv|s=|i=3|u=0|v=i|i=0 => Nothing\n\
TextCaretMoved|oiiv|s=/n|i=3|i=0|v=i|i=0 => Nothing\n\
TextCaretMoved|siiv|s=|i=3|i=0|v=i|i=0 => Caret /n 3\n\
TextCaretMoved|siiv(so)|s=|i=3|i=0|v=i|i=0|(|s=:1.7|s=/c => Caret /n 3";

#[test]
fn each_event_tells_its_news(rt: HostRuntime) {
    for row in EVENTS.split('\n') {
        stop_unless(&rt, row, tells(&rt, rt.alloc(), EVENT, 4, row));
    }
}

/// A signal that would move the caret, were it an event.
const MOVED: &str = "TextCaretMoved|siiva{sv}|s=|i=3|i=0|v=i|i=0|u=0|( => Nothing";

#[test]
fn messages_of_other_types_are_no_news(rt: HostRuntime) {
    for kind in 0..=255_u8 {
        assert!(rt; kind == 4 || tells(&rt, rt.alloc(), EVENT, kind, MOVED));
    }
}

#[test]
fn signals_of_other_interfaces_are_no_news(rt: HostRuntime) {
    for interface in "org.a11y.atspi.Event.Window org.a11y.atspi.Cache a.b".split(' ') {
        stop_unless(&rt, interface, tells(&rt, rt.alloc(), interface, 4, MOVED));
    }
}

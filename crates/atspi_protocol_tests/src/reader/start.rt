//! The start of a reader.

use crate::reader::plays::go;

/// A whole start, and returns that are none or of another form.
const STARTS: &str = "\
# 0 The whole start, the first load, and an application that refuses its items
start -> 1 Hello org.freedesktop.DBus /org/freedesktop/DBus
return 1 bus 1 s=:1.5 -> 2 AddMatch org.freedesktop.DBus /org/freedesktop/DBus type='signal',interface='org.freedesktop.DBus',member='NameOwnerChanged'
return 2 bus 2 -> 3 AddMatch org.freedesktop.DBus /org/freedesktop/DBus type='signal',interface='org.a11y.atspi.Cache'
return 3 bus 3 -> 4 AddMatch org.freedesktop.DBus /org/freedesktop/DBus type='signal',interface='org.a11y.atspi.Event.Object'
return 4 bus 4 -> 5 RegisterEvent org.a11y.atspi.Registry /org/a11y/atspi/registry object:children-changed
return 5 :1.0 5 -> 6 RegisterEvent org.a11y.atspi.Registry /org/a11y/atspi/registry object:property-change
return 6 :1.0 6 -> 7 RegisterEvent org.a11y.atspi.Registry /org/a11y/atspi/registry object:state-changed
return 7 :1.0 7 -> 8 RegisterEvent org.a11y.atspi.Registry /org/a11y/atspi/registry object:text-changed
return 8 :1.0 8 -> 9 RegisterEvent org.a11y.atspi.Registry /org/a11y/atspi/registry object:text-caret-moved
return 9 :1.0 9 -> 10 GetChildren org.a11y.atspi.Registry /org/a11y/atspi/accessible/root
return 10 :1.0 10 a(so)=:1.7@/r;none@/r;:1.8@/r;:1.7@/x -> 11 GetItems :1.7 /org/a11y/atspi/cache
return 11 :1.7 11 items=:1.7;/r,/,-1,-,75,Pad -> 12 GetItems :1.8 /org/a11y/atspi/cache
error 12 :1.8 12 a.b -> -
held -> :1.7
rows :1.7 -> /r Pad - - -
rows :1.8 -> none
last :1.7 -> 11
last :1.8 -> none
# 0 Replies to other serials, and replies that come twice, are none. A call of the bus or the registry is answered by anybody
start -> 1 Hello org.freedesktop.DBus /org/freedesktop/DBus
return 1 bus 2 s=:1.5 -> -
error 2 bus 2 a.b -> -
return 3 :1.9 4294967295 s=:1.5 -> -
return 4 :1.9 1 s=:1.5 -> 2 AddMatch org.freedesktop.DBus /org/freedesktop/DBus type='signal',interface='org.freedesktop.DBus',member='NameOwnerChanged'
return 5 :1.9 1 s=:1.5 -> -
error 6 :1.9 1 a.b -> -
return 7 :1.9 2 -> 3 AddMatch org.freedesktop.DBus /org/freedesktop/DBus type='signal',interface='org.a11y.atspi.Cache'
# 1 Returns to the calls behind Hello count whatever is in them, but for that to GetChildren
return 1 bus 1 s=:1.5 -> 2 AddMatch org.freedesktop.DBus /org/freedesktop/DBus type='signal',interface='org.freedesktop.DBus',member='NameOwnerChanged'
return 2 bus 2 u=3 -> 3 AddMatch org.freedesktop.DBus /org/freedesktop/DBus type='signal',interface='org.a11y.atspi.Cache'
return 3 - 3 a(so)=:1.7@/r -> 4 AddMatch org.freedesktop.DBus /org/freedesktop/DBus type='signal',interface='org.a11y.atspi.Event.Object'
return 4 bus 4 s= -> 5 RegisterEvent org.a11y.atspi.Registry /org/a11y/atspi/registry object:children-changed
return 5 :1.9 5 b=true -> 6 RegisterEvent org.a11y.atspi.Registry /org/a11y/atspi/registry object:property-change
return 6 :1.0 6 v=x -> 7 RegisterEvent org.a11y.atspi.Registry /org/a11y/atspi/registry object:state-changed
return 7 :1.0 7 as=a;b -> 8 RegisterEvent org.a11y.atspi.Registry /org/a11y/atspi/registry object:text-changed
return 8 :1.0 8 g=as -> 9 RegisterEvent org.a11y.atspi.Registry /org/a11y/atspi/registry object:text-caret-moved
return 9 :1.0 9 i=-1 s=x -> 10 GetChildren org.a11y.atspi.Registry /org/a11y/atspi/accessible/root
return 10 :1.0 10 a(so)= -> -
# 1 Hello returns another body
return 1 bus 1 o=/a -> -
return 2 bus 1 s=:1.5 -> -
# 1 Hello returns another body
return 1 bus 1 as=:1.5 -> -
return 2 bus 1 s=:1.5 -> -
# 1 Hello returns another body
return 1 bus 1 s=:1 -> -
return 2 bus 1 s=:1.5 -> -
# 1 Hello returns another body
return 1 bus 1 u=15 -> -
return 2 bus 1 s=:1.5 -> -
# 1 Hello returns another body
return 1 bus 1 -> -
return 2 bus 1 s=:1.5 -> -
# 1 Hello returns another body
return 1 bus 1 s=a.b -> -
return 2 bus 1 s=:1.5 -> -
# 1 Hello returns another body
return 1 bus 1 s=: -> -
return 2 bus 1 s=:1.5 -> -
# 1 Hello returns another body
return 1 bus 1 s=:1.5 s=:1.5 s=:1.5 -> -
return 2 bus 1 s=:1.5 -> -
# 1 Hello returns another body
return 1 bus 1 v=:1.5 -> -
return 2 bus 1 s=:1.5 -> -
# 10 GetChildren returns another body
return 10 :1.0 10 a(ss)=:1.7@/r -> -
return 11 :1.0 10 a(so)=:1.7@/r -> -
# 10 GetChildren returns another body
return 10 :1.0 10 a(so)=:1.7@/r a(so)=:1.7@/r -> -
return 11 :1.0 10 a(so)=:1.7@/r -> -
# 10 GetChildren returns another body
return 10 :1.0 10 -> -
return 11 :1.0 10 a(so)=:1.7@/r -> -
# 10 GetChildren returns another body
return 10 :1.0 10 s=:1.7 -> -
return 11 :1.0 10 a(so)=:1.7@/r -> -
# 10 GetChildren returns another body
return 10 :1.0 10 (so)=:1.7@/r -> -
return 11 :1.0 10 a(so)=:1.7@/r -> -
# 10 GetChildren returns another body
return 10 :1.0 10 v(so)=:1.7@/r -> -
return 11 :1.0 10 a(so)=:1.7@/r -> -
# 10 GetChildren returns another body
return 10 :1.0 10 as=:1.7 -> -
return 11 :1.0 10 a(so)=:1.7@/r -> -
# 10 GetChildren returns another body
return 10 :1.0 10 a(so)=:1.7@/r u=1 -> -
return 11 :1.0 10 a(so)=:1.7@/r -> -";

/// What follows an error to a call of the start: a late return, a child that the registry tells, an end.
const AFTER: &str = "\
signal 91 :1.0 root Event.Object ChildrenChanged s=add i=0 i=0 v(so)=:1.7@/r a{sv}= -> -
signal 92 bus bus bus NameOwnerChanged s=:1.7 s=:1.7 s= -> gone :1.7
select :1.7 1 -> NotHeld
held -> -";

/// One call after the other, each behind the return to the one before.
#[test]
fn readers_start(rt: HostRuntime) {
    assert!(rt; go(&rt, STARTS));
}

/// Whether an error to the call of a number ends the start.
fn ends_at(rt: &HostRuntime, call: usize) -> bool {
    let failed = format!(in rt.alloc();
        "# {call} an error\nerror 90 bus {call} a.b -> -\nreturn 91 :1.0 {call} -> -\n{AFTER}"
    );
    match failed {
        Ok(dialogue) => go(rt, &dialogue),
        Err(_) => false,
    }
}

/// An error to any call of the start ends it: no call follows, and nobody becomes known.
#[test]
fn an_error_ends_the_start(rt: HostRuntime) {
    for call in 1..11 {
        assert!(rt; ends_at(&rt, call), "{call}");
    }
}

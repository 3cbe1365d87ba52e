//! Replies of strangers, to other serials, that come twice or late.

use crate::reader::plays::go;
use std::alloc::Global;

/// Replies that are none, and such as come late.
const STRANGERS: &str = "\
# 10 Each reply that is none changes nothing, while a part is asked for; the bus's error is one
return 10 :1.0 10 a(so)=:1.7@/r;:1.8@/r -> 11 GetItems :1.7 /org/a11y/atspi/cache
return 19 :1.8 11 items=:1.8;/r,/,-1,-,75,Other -> -
return 20 :1.7 11 items=:1.7;/r,/,-1,-,75,Pad;/a,/r,0,t,79,Find -> 12 GetText :1.7 /a
return 21 :1.7 11 items=:1.7;/r,/,-1,-,75,Pad -> -
return 22 :1.9 12 s=hi -> -
return 23 - 12 s=hi -> -
error 24 :1.8 12 a.b -> -
return 25 :1.7 13 s=hi -> -
return 26 :1.7 4294967295 s=hi -> -
rows :1.7 -> /r Pad - - -, /a</r@0 Find ? ? -
error 27 bus 12 a.b -> 13 Get :1.7 /a org.a11y.atspi.Text
error 28 bus 12 a.b -> -
return 29 :1.7 12 s=hi -> -
return 30 :1.7 13 vi=4 -> 14 GetItems :1.8 /org/a11y/atspi/cache
return 31 :1.7 13 vi=5 -> -
rows :1.7 -> /r Pad - - -, /a</r@0 Find ? 4 -
last :1.7 -> 31
# 10 A reply that comes once its application was forgotten ends the call, and tells nothing
return 10 :1.0 10 a(so)=:1.7@/r;:1.8@/r -> 11 GetItems :1.7 /org/a11y/atspi/cache
return 20 :1.7 11 items=:1.7;/r,/,-1,-,75,Pad;/a,/r,0,t,79,Find -> 12 GetText :1.7 /a
signal 21 bus bus bus NameOwnerChanged s=:1.7 s=:1.7 s= -> gone :1.7; say :1.7 Pad, closed
signal 22 :1.7 /r Event.Object PropertyChange s=accessible-name i=0 i=0 v=Ghost a{sv}= -> -
return 23 :1.7 12 s=hi -> 13 GetItems :1.8 /org/a11y/atspi/cache
return 24 :1.7 12 s=hi -> -
signal 25 bus bus bus NameOwnerChanged s=:1.8 s=:1.8 s= -> gone :1.8
signal 26 :1.0 /any Event.Object ChildrenChanged s=add i=0 i=0 v(so)=:1.6@/r a{sv}= -> -
return 27 :1.8 13 items=:1.8;/r,/,-1,-,75,Late -> 14 GetItems :1.6 /org/a11y/atspi/cache
held -> -";

/// Nothing changes but at the reply of the one that was asked.
#[test]
fn strangers_and_late_replies(rt: HostRuntime) {
    assert!(rt; go(&rt, STRANGERS));
}

/// Appends a text with a number in it.
fn push_numbered(
    script: &mut String,
    alloc: Global,
    before: &str,
    number: u32,
    behind: &str,
) -> Option<()> {
    let digits = format!(in alloc; "{number}").ok()?;
    script.push_str(before).ok()?;
    script.push_str(&digits).ok()?;
    script.push_str(behind).ok()
}

/// Appends lines of a dialogue: fifty nodes that are added while items are asked for, by a message of a number, and the
/// items, behind which a child comes that is not known.
fn push_storm(script: &mut String, alloc: Global, load: u32) -> Option<()> {
    for node in 0..50_u32 {
        push_numbered(
            script,
            alloc,
            "\nsignal 9 :1.7 /any Cache AddAccessible item=:1.7;/n",
            node,
            ",/r,0,t,7,N -> -",
        )?;
    }
    push_numbered(
        script,
        alloc,
        "\nreturn 9 :1.7 ",
        load,
        " items=:1.7;/r,/,-1,-,75,Pad;/a,/r,0,-,7,A -> -",
    )?;
    script
        .push_str("\nrows :1.7 -> /r Pad - - -, /a</r@0 A - - -")
        .ok()?;
    script
        .push_str(
            "\nsignal 9 :1.7 /r Event.Object ChildrenChanged s=add i=0 i=0 v(so)=:1.7@/x a{sv}= -> ",
        )
        .ok()?;
    push_numbered(
        script,
        alloc,
        "",
        load.saturating_add(1),
        " GetItems :1.7 /org/a11y/atspi/cache",
    )
}

/// Appends a storm at each of four loads.
fn push_storms(script: &mut String, alloc: Global) -> Option<()> {
    script
        .push_str(
            "# 10 a storm\nreturn 10 :1.0 10 a(so)=:1.7@/r -> 11 GetItems :1.7 /org/a11y/atspi/cache",
        )
        .ok()?;
    for load in 11..15_u32 {
        push_storm(script, alloc, load)?;
    }
    Some(())
}

/// An application that answers each GetItems with a storm of AddAccessible, and then with a child that is not known:
/// each of its items is asked for once, and each storm is done with when it was taken.
#[test]
fn a_storm_at_each_load(rt: HostRuntime) {
    let mut script = String::new(rt.alloc());
    let read = push_storms(&mut script, rt.alloc());
    assert!(rt; read.is_some());
    assert!(rt; go(&rt, script.as_str()));
}

//! Worked rows: each with the messages that come of it.

use crate::bus::playing::play;

const ROW_NAMES: &str = r#"join
bus 0 1 Hello
join
bus 1 1 Hello
skip 0
skip 1
bus 0 2 AddMatch member='NameOwnerChanged'
bus 0 3 RequestName x.y 1
read 0
> return l 1 7 reply=2 destination=:1.0 sender=org.freedesktop.DBus
> signal l 1 8 path=/org/freedesktop/DBus interface=org.freedesktop.DBus member=NameAcquired destination=:1.0 sender=org.freedesktop.DBus signature=s ["x.y"]
> signal l 1 9 path=/org/freedesktop/DBus interface=org.freedesktop.DBus member=NameOwnerChanged sender=org.freedesktop.DBus signature=sss ["x.y" "" ":1.0"]
> return l 1 10 reply=3 destination=:1.0 sender=org.freedesktop.DBus signature=u [1]
bus 1 2 RequestName x.y 2
read 0
> signal l 1 11 path=/org/freedesktop/DBus interface=org.freedesktop.DBus member=NameLost destination=:1.0 sender=org.freedesktop.DBus signature=s ["x.y"]
> signal l 1 13 path=/org/freedesktop/DBus interface=org.freedesktop.DBus member=NameOwnerChanged sender=org.freedesktop.DBus signature=sss ["x.y" ":1.0" ":1.1"]
read 1
> signal l 1 12 path=/org/freedesktop/DBus interface=org.freedesktop.DBus member=NameAcquired destination=:1.1 sender=org.freedesktop.DBus signature=s ["x.y"]
> return l 1 14 reply=2 destination=:1.1 sender=org.freedesktop.DBus signature=u [1]
bus 1 3 ListQueuedOwners x.y
bus 1 4 ListNames
read 1
> return l 1 15 reply=3 destination=:1.1 sender=org.freedesktop.DBus signature=as [[":1.1" ":1.0"]]
> return l 1 16 reply=4 destination=:1.1 sender=org.freedesktop.DBus signature=as [["org.freedesktop.DBus" ":1.0" ":1.1" "x.y"]]
bus 1 5 ReleaseName x.y
read 1
> signal l 1 17 path=/org/freedesktop/DBus interface=org.freedesktop.DBus member=NameLost destination=:1.1 sender=org.freedesktop.DBus signature=s ["x.y"]
> return l 1 20 reply=5 destination=:1.1 sender=org.freedesktop.DBus signature=u [1]
read 0
> signal l 1 18 path=/org/freedesktop/DBus interface=org.freedesktop.DBus member=NameAcquired destination=:1.0 sender=org.freedesktop.DBus signature=s ["x.y"]
> signal l 1 19 path=/org/freedesktop/DBus interface=org.freedesktop.DBus member=NameOwnerChanged sender=org.freedesktop.DBus signature=sss ["x.y" ":1.1" ":1.0"]
bus 1 6 GetNameOwner x.y
bus 1 7 NameHasOwner x.z
read 1
> return l 1 21 reply=6 destination=:1.1 sender=org.freedesktop.DBus signature=s [":1.0"]
> return l 1 22 reply=7 destination=:1.1 sender=org.freedesktop.DBus signature=b [false]
leave 0
own
> own 1 2 3 4 5 6 7 8 9 10 11 12 13 14 15 16 17 18 19 20 21 22 23 24
"#;

const ROW_BIG: &str = r#"join
bus 0 1 Hello
bus 0 2 AddMatch type='signal'
skip 0
raw 0 4204010100000000000000070000002a01016f00000000022f610000000000000201730000000003612e62000000000003017300000000014300000000000000
waiting 0
> 80 bytes
read 0
> signal B 1 7 path=/a interface=a.b member=C sender=:1.0
"#;

const ROW_RULES: &str = r#"join
bus 0 1 Hello
skip 0
bus 0 2 RemoveMatch type='signal'
read 0
> error l 1 4 error=org.freedesktop.DBus.Error.MatchRuleNotFound reply=2 destination=:1.0 sender=org.freedesktop.DBus signature=s ["MatchRuleNotFound"]
bus 0 3 AddMatch type='signal',type='error'
read 0
> error l 1 5 error=org.freedesktop.DBus.Error.MatchRuleInvalid reply=3 destination=:1.0 sender=org.freedesktop.DBus signature=s ["MatchRuleInvalid"]
"#;

const ROW_QUOTA_259: &str = r#"join
bus 0 1 Hello
waiting 0
> 258 bytes
closings
> no closing
own
> own 1 2 3
"#;

const ROW_QUOTA_258: &str = r#"join
bus 0 1 Hello
waiting 0
> 258 bytes
closings
> no closing
own
> own 1 2 3
"#;

const ROW_QUOTA_257: &str = r#"join
bus 0 1 Hello
closings
> closed 0 quota 89 169 after 3
> no closing
own
> own 1 2 3 4
waiting 0
> 0 bytes
read 0
> nothing
"#;

#[test]
fn a_name_is_taken_over_and_given_back(rt: HostRuntime) {
    play(&rt, rt.alloc(), 65536, ROW_NAMES);
}

#[test]
fn a_big_endian_signal_keeps_its_order(rt: HostRuntime) {
    play(&rt, rt.alloc(), 65536, ROW_BIG);
}

#[test]
fn rules_that_are_not_there_or_no_rules_are_refused(rt: HostRuntime) {
    play(&rt, rt.alloc(), 65536, ROW_RULES);
}

#[test]
fn a_quota_with_a_byte_to_spare(rt: HostRuntime) {
    play(&rt, rt.alloc(), 259, ROW_QUOTA_259);
}

#[test]
fn a_quota_for_both_messages(rt: HostRuntime) {
    play(&rt, rt.alloc(), 258, ROW_QUOTA_258);
}

#[test]
fn a_quota_a_byte_short(rt: HostRuntime) {
    play(&rt, rt.alloc(), 257, ROW_QUOTA_257);
}

/// A connection joins and says Hello.
const HELLO: &str = "join\nbus 0 1 Hello\nskip 0\n";

const REFUSED: &str =
    r#"> error l 1 516 error=org.freedesktop.DBus.Error.LimitsExceeded reply=900 destination=:1.0 sender=org.freedesktop.DBus signature=s ["LimitsExceeded"]
"#;

const LIMIT: &str =
    r#"> return l 1 7 reply=3 destination=:1.0 sender=org.freedesktop.DBus signature=b [true]
> error l 1 8 error=org.freedesktop.DBus.Error.InvalidArgs reply=4 destination=:1.0 sender=org.freedesktop.DBus signature=s ["InvalidArgs"]
"#;

/// A rule of one connection more than it may have: a line for each serial from 2 on, by which the connection adds a
/// rule of that number.
#[test]
fn the_513th_rule_is_refused(rt: HostRuntime) {
    let mut script = String::from_str(rt.alloc(), HELLO).expect(&rt, "memory");
    for n in 2..514u32 {
        write!(script, "bus 0 {n} AddMatch arg0='{n}'\nskip 0\n").expect(&rt, "memory");
    }
    write!(
        script,
        "bus 0 900 AddMatch type='signal'\nread 0\n{REFUSED}"
    )
    .expect(&rt, "memory");
    play(&rt, rt.alloc(), 65536, script.as_str());
}

/// A name of 255 bytes.
const NAME: &str =
    "a.bbbbbbbbbbbbbbbbbbbbbbbbbbbbbbbbbbbbbbbbbbbbbbbbbbbbbbbbbbbbbbbbbbbbbbbbbbbbbbbbbbbbbbbbbbbbbbbbbbbbbbbbbbbbbbbbbbbbbbbbbbbbbbbbbbbbbbbbbbbbbbbbbbbbbbbbbbbbbbbbbbbbbbbbbbbbbbbbbbbbbbbbbbbbbbbbbbbbbbbbbbbbbbbbbbbbbbbbbbbbbbbbbbbbbbbbbbbbbbbbbbbbbbbbbbbbb";

/// Names of 255 bytes and of one more.
#[test]
fn a_name_has_at_most_255_bytes(rt: HostRuntime) {
    let script = format!(in rt.alloc();
        "{HELLO}bus 0 2 RequestName {NAME} 0\nskip 0\nbus 0 3 NameHasOwner {NAME}\nbus 0 4 RequestName {NAME}b 0\nread 0\n{LIMIT}"
    );
    play(
        &rt,
        rt.alloc(),
        65536,
        script.expect(&rt, "memory").as_str(),
    );
}

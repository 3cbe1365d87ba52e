//! What strangers may do.

use crate::bus::playing::play;

const NO_HELLO: &str = r#"join
bus 0 1 ListNames
join
bus 1 1 Hello x
join
call 2 1 - Hello
join
signal 3 1 org.freedesktop.DBus Hello
join
call 4 1 :1.0 M
closings
> closed 0 not-hello after 0
> closed 1 not-hello after 0
> closed 2 not-hello after 0
> closed 3 not-hello after 0
> closed 4 not-hello after 0
> no closing
own
> own
read 0
> nothing
join
bus 5 1 Hello
read 5
> return l 1 1 reply=1 destination=:1.0 sender=org.freedesktop.DBus signature=s [":1.0"]
> signal l 1 2 path=/org/freedesktop/DBus interface=org.freedesktop.DBus member=NameAcquired destination=:1.0 sender=org.freedesktop.DBus signature=s [":1.0"]
own
> own 1 2 3
"#;

const HELLOS: &str = r#"join
bus-quiet 0 1 Hello
read 0
> signal l 1 1 path=/org/freedesktop/DBus interface=org.freedesktop.DBus member=NameAcquired destination=:1.0 sender=org.freedesktop.DBus signature=s [":1.0"]
own
> own 1 2
bus 0 2 Hello
read 0
> error l 1 3 error=org.freedesktop.DBus.Error.Failed reply=2 destination=:1.0 sender=org.freedesktop.DBus signature=s ["Failed"]
closings
> no closing
"#;

const LEAVING: &str = r#"join
bus 0 1 Hello
join
bus 1 1 Hello
skip 0
skip 1
call 0 2 :1.1 M
call 0 5 :1.1 M
call 0 4 :1.1 M
read 1
> call l 0 2 path=/ member=M destination=:1.1 sender=:1.0
> call l 0 5 path=/ member=M destination=:1.1 sender=:1.0
> call l 0 4 path=/ member=M destination=:1.1 sender=:1.0
leave 1
read 0
> error l 1 7 error=org.freedesktop.DBus.Error.NoReply reply=2 destination=:1.0 sender=org.freedesktop.DBus signature=s ["NoReply"]
> error l 1 8 error=org.freedesktop.DBus.Error.NoReply reply=5 destination=:1.0 sender=org.freedesktop.DBus signature=s ["NoReply"]
> error l 1 9 error=org.freedesktop.DBus.Error.NoReply reply=4 destination=:1.0 sender=org.freedesktop.DBus signature=s ["NoReply"]
call 0 6 :1.1 M
read 0
> error l 1 11 error=org.freedesktop.DBus.Error.ServiceUnknown reply=6 destination=:1.0 sender=org.freedesktop.DBus signature=s ["ServiceUnknown"]
signal 0 7 :1.1 M
return 0 8 :1.1 1
read 0
> nothing
closings
> no closing
"#;

const REPLIES: &str = r#"join
bus 0 1 Hello
join
bus 1 1 Hello
join
bus 2 1 Hello
skip 0
skip 1
skip 2
call 0 2 :1.1 M
return 2 2 :1.0 2
return 1 2 :1.0 77
return 0 3 :1.1 9
leave 1
read 0
> return l 0 2 path=/ reply=2 destination=:1.0 sender=:1.2
> return l 0 2 path=/ reply=77 destination=:1.0 sender=:1.1
> error l 1 10 error=org.freedesktop.DBus.Error.NoReply reply=2 destination=:1.0 sender=org.freedesktop.DBus signature=s ["NoReply"]
call 0 3 :1.2 M
return 2 3 :1.0 3
leave 2
read 0
> return l 0 3 path=/ reply=3 destination=:1.0 sender=:1.2
"#;

const OLDEST: &str = r#"join
bus 0 1 Hello
join
bus 1 1 Hello
skip 0
skip 1
call 0 2 :1.1 M
call 0 2 :1.1 N
return 1 2 :1.0 2
leave 1
read 0
> return l 0 2 path=/ reply=2 destination=:1.0 sender=:1.1
> error l 1 7 error=org.freedesktop.DBus.Error.NoReply reply=2 destination=:1.0 sender=org.freedesktop.DBus signature=s ["NoReply"]
"#;

const ITSELF: &str = r#"join
bus 0 1 Hello
skip 0
call 0 2 :1.0 M
signal 0 3 :1.0 M
read 0
> call l 0 2 path=/ member=M destination=:1.0 sender=:1.0
> signal l 0 3 path=/ interface=i.f member=M destination=:1.0 sender=:1.0
call 0 4 :1.0 M
leave 0
read 0
> nothing
own
> own 1 2 3 4
"#;

const LARGER_TYPES: &str = r#"join
bus 0 1 Hello
join
bus 1 1 Hello
skip 0
skip 1
other 0 2 :1.1 M
waiting 1
> 80 bytes
skip 1
other 0 3 - M
other 0 4 org.freedesktop.DBus M
return 0 5 - 1
waiting 0
> 0 bytes
waiting 1
> 0 bytes
"#;

const QUIET: &str = r#"join
bus 0 1 Hello
join
bus 1 1 Hello
skip 0
skip 1
bus-quiet 0 2 ListNames
call-quiet 0 3 :1.7 M
call-quiet 0 4 :1.1 M
waiting 1
> 80 bytes
leave 1
waiting 0
> 0 bytes
own
> own 1 2 3 4 5 6 7
"#;

const ONCE: &str = r#"join
bus 0 1 Hello
join
bus 1 1 Hello
skip 0
skip 1
bus 0 2 AddMatch member='M'
bus 0 3 AddMatch type='signal'
bus 1 2 AddMatch interface='i.f'
skip 0
skip 1
signal 0 4 - M
read 0
> signal l 0 4 path=/ interface=i.f member=M sender=:1.0
read 1
> signal l 0 4 path=/ interface=i.f member=M sender=:1.0
signal 1 3 - N
read 0
> signal l 0 3 path=/ interface=i.f member=N sender=:1.1
bus 0 5 RemoveMatch type='signal'
skip 0
signal 1 4 - N
read 0
> nothing
"#;

const KEPT_OUT: &str = r#"join
bus 0 1 Hello
join
bus 1 1 Hello
skip 0
call 0 2 :1.1 M
closings
> closed 1 quota 258 80 after 6
> no closing
waiting 1
> 0 bytes
read 0
> error l 1 7 error=org.freedesktop.DBus.Error.NoReply reply=2 destination=:1.0 sender=org.freedesktop.DBus signature=s ["NoReply"]
own
> own 1 2 3 4 5 6 7 8
"#;

const NEVER_READS: &str = r#"join
bus 0 1 Hello
join
bus 1 1 Hello
join
bus 2 1 Hello
skip 0
skip 1
skip 2
bus 1 2 AddMatch member='M'
bus 2 2 AddMatch member='M'
skip 1
skip 2
signal 0 2 - M
read 1
> signal l 0 2 path=/ interface=i.f member=M sender=:1.0
signal 0 3 - M
read 1
> signal l 0 3 path=/ interface=i.f member=M sender=:1.0
signal 0 4 - M
read 1
> signal l 0 4 path=/ interface=i.f member=M sender=:1.0
signal 0 5 - M
read 1
> signal l 0 5 path=/ interface=i.f member=M sender=:1.0
signal 0 6 - M
read 1
> signal l 0 6 path=/ interface=i.f member=M sender=:1.0
waiting 2
> 400 bytes
closings
> no closing
signal 0 7 - M
read 1
> signal l 0 7 path=/ interface=i.f member=M sender=:1.0
closings
> closed 2 quota 400 80 after 11
> no closing
waiting 2
> 0 bytes
call 0 9 :1.1 M
read 1
> call l 0 9 path=/ member=M destination=:1.1 sender=:1.0
call 0 10 :1.2 M
read 0
> error l 1 13 error=org.freedesktop.DBus.Error.ServiceUnknown reply=10 destination=:1.0 sender=org.freedesktop.DBus signature=s ["ServiceUnknown"]
"#;

const BY_ITS_OWN: &str = r#"join
bus 0 1 Hello
bus 0 2 AddMatch member='M'
waiting 0
> 330 bytes
signal 0 3 - M
closings
> closed 0 quota 330 80 after 4
> no closing
read 0
> nothing
own
> own 1 2 3 4 5
"#;

#[test]
fn a_first_message_that_is_no_hello_closes(rt: HostRuntime) {
    play(&rt, rt.alloc(), 65536, NO_HELLO);
}

#[test]
fn a_hello_may_be_quiet_and_comes_once(rt: HostRuntime) {
    play(&rt, rt.alloc(), 65536, HELLOS);
}

#[test]
fn callers_whose_callee_leaves_are_told_in_their_order(rt: HostRuntime) {
    play(&rt, rt.alloc(), 65536, LEAVING);
}

#[test]
fn replies_end_the_call_that_they_answer_and_no_other(rt: HostRuntime) {
    play(&rt, rt.alloc(), 65536, REPLIES);
}

#[test]
fn a_reply_ends_the_oldest_call_alone(rt: HostRuntime) {
    play(&rt, rt.alloc(), 65536, OLDEST);
}

#[test]
fn a_connection_may_call_itself(rt: HostRuntime) {
    play(&rt, rt.alloc(), 65536, ITSELF);
}

#[test]
fn larger_types_go_to_their_destination_and_nowhere_without_one(rt: HostRuntime) {
    play(&rt, rt.alloc(), 65536, LARGER_TYPES);
}

#[test]
fn calls_that_expect_no_reply_get_none(rt: HostRuntime) {
    play(&rt, rt.alloc(), 65536, QUIET);
}

#[test]
fn a_signal_comes_once_to_each_that_asks_for_it(rt: HostRuntime) {
    play(&rt, rt.alloc(), 65536, ONCE);
}

#[test]
fn a_callee_kept_out_by_its_quota_is_closed_and_its_caller_told(rt: HostRuntime) {
    play(&rt, rt.alloc(), 300, KEPT_OUT);
}

#[test]
fn one_that_never_reads_is_closed_and_others_go_on(rt: HostRuntime) {
    play(&rt, rt.alloc(), 400, NEVER_READS);
}

#[test]
fn a_connection_is_closed_by_its_own_message(rt: HostRuntime) {
    play(&rt, rt.alloc(), 330, BY_ITS_OWN);
}

//! How applications become known and end.

use crate::reader::plays::go;

/// Ends and children, and what is none.
const ENDS: &str = "\
# 10 The end of an application, of itself, of the registry and of a well-known name; what strangers tell, and what is no end
return 10 :1.0 10 a(so)=:1.7@/r;:1.8@/r -> 11 GetItems :1.7 /org/a11y/atspi/cache
return 20 :1.7 11 items=:1.7;/r,/,-1,-,75,Pad -> 12 GetItems :1.8 /org/a11y/atspi/cache
signal 40 :1.9 bus bus NameOwnerChanged s=:1.7 s=:1.7 s= -> -
signal 41 bus bus bus NameOwnerChanged s=:1.7 s=:1.7 s=:1.9 -> -
signal 42 bus bus bus NameOwnerChanged s=:1.7 -> -
signal 43 bus bus bus NameLost s=:1.7 s=:1.7 s= -> -
signal 44 bus bus Event.Object NameOwnerChanged s=:1.7 s=:1.7 s= -> -
held -> :1.7
signal 45 bus bus bus NameOwnerChanged s=:1.5 s=:1.5 s= -> gone :1.5
signal 46 bus bus bus NameOwnerChanged s=org.a11y.atspi.Registry s=:1.0 s= -> -
signal 47 bus bus bus NameOwnerChanged s=:1.0 s=:1.0 s= -> gone :1.0
signal 48 bus bus bus NameOwnerChanged s=a.b s=:1.7 s= -> -
signal 49 bus bus bus NameOwnerChanged s=: s=:1.7 s= -> -
signal 50 bus bus bus NameOwnerChanged s= s=:1.7 s= -> -
held -> :1.7
signal 51 bus bus bus NameOwnerChanged s=:1.7 s=:1.7 s= -> gone :1.7; say :1.7 Pad, closed
signal 52 bus bus bus NameOwnerChanged s=:1.7 s=:1.7 s= -> gone :1.7
rows :1.7 -> none
signal 53 bus bus bus NameOwnerChanged s=:1.8 s=:1.8 s= -> gone :1.8
return 54 :1.8 12 items=:1.8;/r,/,-1,-,75,Late -> -
rows :1.8 -> none
held -> -
# 10 Before GetChildren returns there is no registry; then its sender is that, and no other
signal 30 :1.0 root Event.Object ChildrenChanged s=add i=0 i=0 v(so)=:1.6@/r a{sv}= -> -
return 31 :1.0 10 a(so)= -> -
signal 32 :1.9 root Event.Object ChildrenChanged s=add i=0 i=0 v(so)=:1.7@/r a{sv}= -> -
signal 33 org.a11y.atspi.Registry root Event.Object ChildrenChanged s=add i=0 i=0 v(so)=:1.7@/r a{sv}= -> -
signal 34 - root Event.Object ChildrenChanged s=add i=0 i=0 v(so)=:1.7@/r a{sv}= -> -
signal 35 :1.0 root Event.Object ChildrenChanged s=remove i=0 i=0 v(so)=:1.7@/r a{sv}= -> -
signal 36 :1.0 root Event.Object ChildrenChanged s=add i=0 i=0 v(so)=none@/r a{sv}= -> -
signal 36 :1.0 root Event.Object ChildrenChanged s=add i=0 i=0 v(so)=a.b@/r a{sv}= -> -
signal 37 :1.0 root Event.Object ChildrenChanged s=add i=0 i=0 v=:1.7 a{sv}= -> -
signal 38 :1.0 root Event.Object PropertyChange s=add i=0 i=0 v(so)=:1.7@/r a{sv}= -> -
signal 39 :1.0 root Cache ChildrenChanged s=add i=0 i=0 v(so)=:1.7@/r a{sv}= -> -
signal 40 :1.0 /any Event.Object ChildrenChanged s=add i=0 i=0 v(so)=:1.7@/r a{sv}= -> 11 GetItems :1.7 /org/a11y/atspi/cache
signal 41 :1.0 /any Event.Object ChildrenChanged s=add i=0 i=0 v(so)=:1.7@/x a{sv}= -> -
signal 42 :1.0 /any Event.Object ChildrenChanged s=add i=0 i=0 v(so)=:1.8@/r a{sv}= -> -
return 43 :1.7 11 items=:1.7;/r,/,-1,-,75,Pad -> 12 GetItems :1.8 /org/a11y/atspi/cache
# 10 A registry that has no name tells of nobody
return 31 - 10 a(so)=:1.7@/r -> 11 GetItems :1.7 /org/a11y/atspi/cache
signal 32 - /any Event.Object ChildrenChanged s=add i=0 i=0 v(so)=:1.8@/r a{sv}= -> -
signal 33 :1.0 /any Event.Object ChildrenChanged s=add i=0 i=0 v(so)=:1.8@/r a{sv}= -> -
return 34 :1.7 11 items=:1.7;/r,/,-1,-,75,Pad -> -
held -> :1.7";

/// Those that are held, and what is said of those that went.
#[test]
fn applications_come_and_go(rt: HostRuntime) {
    assert!(rt; go(&rt, ENDS));
}

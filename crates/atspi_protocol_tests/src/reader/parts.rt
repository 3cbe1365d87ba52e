//! What a reader asks for, and what comes of replies and errors.

use crate::reader::plays::go;

/// Errors and replies of another form to each wish, and calls of a user.
const PARTS: &str = "\
# 10 Errors and misformed replies to each wish. What was refused is asked for no more until the next load
return 10 :1.0 10 a(so)=:1.7@/r -> 11 GetItems :1.7 /org/a11y/atspi/cache
return 20 :1.7 11 items=:1.7;/a,/r,0,t,79,Find;/b,/r,1,tc,55,Grid;/r,/,-1,-,75,Pad -> 12 GetText :1.7 /a
return 21 :1.7 12 s=hi -> 13 Get :1.7 /a org.a11y.atspi.Text
return 22 :1.7 13 vi=1 -> 14 GetText :1.7 /b
error 23 :1.7 14 a.b -> 15 Get :1.7 /b org.a11y.atspi.Text
return 24 :1.7 15 vi=-1 -> 16 Get :1.7 /b org.a11y.atspi.Table
return 25 :1.7 16 v=3 -> -
rows :1.7 -> /r Pad - - -, /a</r@0 Find =hi 1 -, /b</r@1 Grid ? ? ?
signal 26 :1.7 /r Event.Object ChildrenChanged s=add i=0 i=0 v(so)=:1.7@/c a{sv}= -> 17 GetItems :1.7 /org/a11y/atspi/cache
signal 27 :1.7 /r Event.Object ChildrenChanged s=add i=0 i=0 v(so)=:1.7@/d a{sv}= -> -
return 28 :1.7 17 items=:1.7;/r,/,-1,-,75,Pad;/b,/r,0,tc,55,Grid -> 18 GetText :1.7 /b
return 29 :1.7 18 v=hi -> 19 Get :1.7 /b org.a11y.atspi.Text
error 30 bus 19 a.b -> 20 Get :1.7 /b org.a11y.atspi.Table
return 31 :1.7 20 vi=3 -> -
rows :1.7 -> /r Pad - - -, /b</r@0 Grid ? ? 3
# 10 An error to each wish of a node, and each reply of another form
return 10 :1.0 10 a(so)=:1.7@/r -> 11 GetItems :1.7 /org/a11y/atspi/cache
return 20 :1.7 11 items=:1.7;/r,/,-1,-,75,Pad;/b,/r,0,tc,55,Grid -> 12 GetText :1.7 /b
error 21 :1.7 12 a.b s=hi -> 13 Get :1.7 /b org.a11y.atspi.Text
error 22 :1.7 13 a.b vi=1 -> 14 Get :1.7 /b org.a11y.atspi.Table
error 23 bus 14 a.b vi=2 -> -
rows :1.7 -> /r Pad - - -, /b</r@0 Grid ? ? ?
signal 24 :1.7 /r Event.Object ChildrenChanged s=add i=0 i=0 v(so)=:1.7@/c a{sv}= -> 15 GetItems :1.7 /org/a11y/atspi/cache
return 25 :1.7 15 items=:1.7;/r,/,-1,-,75,Pad;/b,/r,0,tc,55,Grid -> 16 GetText :1.7 /b
return 26 :1.7 16 -> 17 Get :1.7 /b org.a11y.atspi.Text
return 27 :1.7 17 i=1 -> 18 Get :1.7 /b org.a11y.atspi.Table
return 28 :1.7 18 vu=3 -> -
rows :1.7 -> /r Pad - - -, /b</r@0 Grid ? ? ?
signal 29 :1.7 /r Event.Object ChildrenChanged s=add i=0 i=0 v(so)=:1.7@/c a{sv}= -> 19 GetItems :1.7 /org/a11y/atspi/cache
return 30 :1.7 19 items=:1.7;/r,/,-1,-,75,Pad;/b,/r,0,tc,55,Grid -> 20 GetText :1.7 /b
return 31 :1.7 20 s=hi s=ho -> 21 Get :1.7 /b org.a11y.atspi.Text
return 32 :1.7 21 v=1 -> 22 Get :1.7 /b org.a11y.atspi.Table
return 33 :1.7 22 vi=-1 -> -
rows :1.7 -> /r Pad - - -, /b</r@0 Grid ? ? ?
# 10 What was refused is of a row: an item for its path asks anew where there is no row of it, and not where there is one
return 10 :1.0 10 a(so)=:1.7@/r -> 11 GetItems :1.7 /org/a11y/atspi/cache
return 20 :1.7 11 items=:1.7;/r,/,-1,-,75,Pad;/b,/r,0,t,7,B -> 12 GetText :1.7 /b
error 21 :1.7 12 a.b -> 13 Get :1.7 /b org.a11y.atspi.Text
error 22 :1.7 13 a.b -> -
signal 23 :1.7 cache Cache AddAccessible item=:1.7;/b,/r,0,t,7,B -> -
signal 24 :1.7 cache Cache RemoveAccessible (so)=:1.7@/b -> -
signal 25 :1.7 cache Cache AddAccessible item=:1.7;/b,/r,0,t,7,B -> 14 GetText :1.7 /b
error 26 :1.7 14 a.b -> 15 Get :1.7 /b org.a11y.atspi.Text
error 27 :1.7 15 a.b -> -
rows :1.7 -> /r Pad - - -, /b</r@0 B ? ? -
# 10 Items that are refused, or of another form, make an application unknown; the next one is asked
return 10 :1.0 10 a(so)=:1.6@/r;:1.7@/r;:1.8@/r;:1.9@/r -> 11 GetItems :1.6 /org/a11y/atspi/cache
error 20 bus 11 a.b -> 12 GetItems :1.7 /org/a11y/atspi/cache
return 21 :1.7 12 -> 13 GetItems :1.8 /org/a11y/atspi/cache
return 22 :1.8 13 item=:1.8;/r,/,-1,-,75,Pad -> 14 GetItems :1.9 /org/a11y/atspi/cache
return 23 :1.9 14 items=:1.9 -> -
held -> :1.9
rows :1.9 -> -
signal 24 :1.0 root Event.Object ChildrenChanged s=add i=0 i=0 v(so)=:1.7@/r a{sv}= -> 15 GetItems :1.7 /org/a11y/atspi/cache
signal 25 bus bus bus NameOwnerChanged s=:1.9 s=:1.9 s= -> gone :1.9; say :1.9 , closed
# 10 A user's call goes out at once, also while a call of the reader's own waits, and what comes of it is no reply to the reader
return 10 :1.0 10 a(so)=:1.7@/r -> 11 GetItems :1.7 /org/a11y/atspi/cache
select :1.7 1 -> NotHeld
return 20 :1.7 11 items=:1.7;/r,/,-1,-,75,Pad;/a,/r,0,t,79,Find -> 12 GetText :1.7 /a
select :1.7 1 -> 13 SelectAll :1.7 /org/a11y/atspi/accessible/1
select :1.8 1 -> NotHeld
return 21 :1.7 13 s=hi -> -
return 22 :1.7 12 s=hi -> 14 Get :1.7 /a org.a11y.atspi.Text";

/// The next wish behind each reply.
#[test]
fn parts_are_asked_for(rt: HostRuntime) {
    assert!(rt; go(&rt, PARTS));
}

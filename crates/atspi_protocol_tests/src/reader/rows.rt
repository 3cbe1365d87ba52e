//! What a reader keeps of an application `:1.7` whose root is `/r`.

use crate::reader::plays::go;

/// Items, news before they come and behind them, and nodes that are added, moved and removed.
const ROWS: &str = "\
# 10 Stale items: of two of one node the first counts, those that the root does not reach and those of others are left out; and AddAccessible moves a node. A child is removed only where it stands
return 10 :1.0 10 a(so)=:1.7@/r -> 11 GetItems :1.7 /org/a11y/atspi/cache
return 20 :1.7 11 items=:1.7;/r,/,-1,-,75,Root;/2,/r,1,-,7,two;/1,/r,1,-,7,one;/3,/4,0,-,7,three;/4,/3,0,-,7,four;/2,/1,0,-,7,again;!/5,/r,0,-,7,five -> -
rows :1.7 -> /r Root - - -, /2</r@0 two - - -, /1</r@1 one - - -
signal 21 :1.7 cache Cache AddAccessible item=:1.7;/1,/r,0,-,7,one -> -
rows :1.7 -> /r Root - - -, /1</r@0 one - - -, /2</r@1 two - - -
signal 22 :1.7 /r Event.Object ChildrenChanged s=remove i=1 i=0 v(so)=:1.7@/1 a{sv}= -> -
rows :1.7 -> /r Root - - -, /1</r@0 one - - -, /2</r@1 two - - -
signal 23 :1.7 /r Event.Object ChildrenChanged s=remove i=0 i=0 v(so)=:1.7@/1 a{sv}= -> -
rows :1.7 -> /r Root - - -, /2</r@0 two - - -
signal 24 :1.7 /r Event.Object ChildrenChanged s=add i=0 i=0 v(so)=:1.7@/8 a{sv}= -> 12 GetItems :1.7 /org/a11y/atspi/cache
rows :1.7 -> /r Root - - -, /2</r@0 two - - -
last :1.7 -> 24
# 10 News before the items come are not kept, and the items are asked for but once
return 10 :1.0 10 a(so)=:1.7@/r -> 11 GetItems :1.7 /org/a11y/atspi/cache
signal 20 :1.7 cache Cache AddAccessible item=:1.7;/1,/r,0,t,7,one -> -
signal 21 :1.7 /r Event.Object ChildrenChanged s=add i=0 i=0 v(so)=:1.7@/8 a{sv}= -> -
signal 22 :1.7 /r Event.Object PropertyChange s=accessible-name i=0 i=0 v=Other a{sv}= -> -
rows :1.7 -> none
return 23 :1.7 11 items=:1.7;/1,/r,0,-,7,one;/r,/,-1,-,75,Root -> -
rows :1.7 -> /r Root - - -, /1</r@0 one - - -
signal 24 :1.7 /r Event.Object PropertyChange s=accessible-name i=0 i=0 v=Other a{sv}= -> -
rows :1.7 -> /r Other - - -, /1</r@0 one - - -
# 10 An item that adds a node makes its parts wanted, an alert is spoken, and a node that is known is moved with its parts
return 10 :1.0 10 a(so)=:1.7@/r -> 11 GetItems :1.7 /org/a11y/atspi/cache
return 20 :1.7 11 items=:1.7;/a,/r,0,-,7,A;/r,/,-1,-,75,Pad -> -
signal 21 :1.7 cache Cache AddAccessible item=:1.7;/b,/r,0,t,2,Saved -> say :1.7 alert: Saved; 12 GetText :1.7 /b
signal 22 :1.7 cache Cache AddAccessible item=:1.7;/c,/r,0,t,7,C -> -
return 23 :1.7 12 s=hi -> 13 GetText :1.7 /c
return 24 :1.7 13 s=ho -> 14 Get :1.7 /c org.a11y.atspi.Text
return 25 :1.7 14 vi=0 -> 15 Get :1.7 /b org.a11y.atspi.Text
return 26 :1.7 15 vi=2 -> -
signal 27 :1.7 cache Cache AddAccessible item=:1.7;/b,/r,9,t,2,Kept -> -
rows :1.7 -> /r Pad - - -, /c</r@0 C =ho 0 -, /a</r@1 A - - -, /b</r@2 Kept =hi 2 -
signal 28 :1.7 cache Cache AddAccessible item=:1.7;/d,/e,0,t,7,D -> -
signal 29 :1.7 cache Cache AddAccessible item=:1.7;!/d,/r,0,t,7,D -> -
signal 30 :1.9 cache Cache AddAccessible item=:1.9;/d,/r,0,t,7,D -> -
signal 31 :1.7 cache Cache RemoveAccessible (so)=:1.7@/c -> -
signal 32 :1.7 cache Cache RemoveAccessible (so)=:1.9@/b -> -
signal 33 :1.7 cache Cache RemoveAccessible (so)=:1.7@/r -> -
rows :1.7 -> /r Pad - - -, /a</r@0 A - - -, /b</r@1 Kept =hi 2 -
last :1.7 -> 33";

/// The rows behind each message.
#[test]
fn rows_are_kept(rt: HostRuntime) {
    assert!(rt; go(&rt, ROWS));
}

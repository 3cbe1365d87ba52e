//! What the registry's objects answer.

use crate::registry::plays::goes_on;
use std::test::*;

/// The root of two applications.
const ROOT: &str = "\
> quiet 5 :1.4 root Socket Embed (so)=:1.4@/d
call l 0 4 path=/d interface=org.freedesktop.DBus.Properties member=Set destination=:1.4 signature=ssv [\"org.a11y.atspi.Application\" \"Id\" <i 0>]
> quiet 5 :1.5 root Socket Embed (so)=:1.5@/d
call l 0 5 path=/d interface=org.freedesktop.DBus.Properties member=Set destination=:1.5 signature=ssv [\"org.a11y.atspi.Application\" \"Id\" <i 1>]
> call 5 :1.6 root Accessible GetChildren
return l 1 6 reply=5 destination=:1.6 signature=a(so) [[(\":1.4\" \"/d\") (\":1.5\" \"/d\")]]
> call 5 :1.6 root Accessible GetRole
return l 1 7 reply=5 destination=:1.6 signature=u [14]
> call 5 :1.6 root Accessible GetRoleName
return l 1 8 reply=5 destination=:1.6 signature=s [\"desktop frame\"]
> call 5 :1.6 root Accessible GetChildAtIndex i=0
return l 1 9 reply=5 destination=:1.6 signature=(so) [(\":1.4\" \"/d\")]
> call 5 :1.6 root Accessible GetChildAtIndex i=1
return l 1 10 reply=5 destination=:1.6 signature=(so) [(\":1.5\" \"/d\")]
> call 5 :1.6 root Accessible GetChildAtIndex i=2
return l 1 11 reply=5 destination=:1.6 signature=(so) [(\":1.0\" \"/org/a11y/atspi/null\")]
> call 5 :1.6 root Accessible GetChildAtIndex i=-1
return l 1 12 reply=5 destination=:1.6 signature=(so) [(\":1.0\" \"/org/a11y/atspi/null\")]
> call 5 :1.6 root Accessible GetChildAtIndex i=-2147483648
return l 1 13 reply=5 destination=:1.6 signature=(so) [(\":1.0\" \"/org/a11y/atspi/null\")]
> call 5 :1.6 root Accessible GetChildAtIndex i=2147483647
return l 1 14 reply=5 destination=:1.6 signature=(so) [(\":1.0\" \"/org/a11y/atspi/null\")]
> call 5 :1.6 root Properties Get s=org.a11y.atspi.Accessible s=ChildCount
return l 1 15 reply=5 destination=:1.6 signature=v [<i 2>]
";

/// Properties, Ping, and calls without an interface, without a sender, and that want no reply.
const PLAIN: &str = "\
> call 5 :1.6 root Properties Get s=org.a11y.atspi.Accessible s=Name
return l 1 4 reply=5 destination=:1.6 signature=v [<s \"main\">]
> call 5 :1.6 root Properties GetAll s=org.a11y.atspi.Accessible
return l 1 5 reply=5 destination=:1.6 signature=a{sv} [[{\"Name\" <s \"main\">} {\"ChildCount\" <i 0>}]]
> call 5 :1.6 root Properties GetAll s=org.a11y.atspi.Socket
return l 1 6 reply=5 destination=:1.6 signature=a{sv} [[]]
> call 5 :1.6 registry Properties GetAll s=org.a11y.atspi.Registry
return l 1 7 reply=5 destination=:1.6 signature=a{sv} [[]]
> call 5 :1.6 root Peer Ping
return l 1 8 reply=5 destination=:1.6
> call 5 :1.6 registry Peer Ping
return l 1 9 reply=5 destination=:1.6
> call 5 :1.6 root - GetRole
return l 1 10 reply=5 destination=:1.6 signature=u [14]
> call 5 :1.6 registry - GetRegisteredEvents
return l 1 11 reply=5 destination=:1.6 signature=a(ss) [[]]
> call 5 - root Accessible GetRole
> quiet 5 :1.6 root Accessible GetRole
> call 4294967295 :1.6 root Accessible GetRole
return l 1 12 reply=4294967295 destination=:1.6 signature=u [14]
";

/// What is refused, in the order in which errors are looked for: object, interface, member, arguments, the property's
/// interface, the property.
const REFUSED: &str = "\
> call 5 :1.6 /a i.f M u=1
error l 1 4 error=org.freedesktop.DBus.Error.UnknownObject reply=5 destination=:1.6 signature=s [\"UnknownObject\"]
> call 5 :1.6 /org/a11y/atspi/null Accessible GetRole
error l 1 5 error=org.freedesktop.DBus.Error.UnknownObject reply=5 destination=:1.6 signature=s [\"UnknownObject\"]
> call 5 :1.6 root Registry RegisterEvent s=window
error l 1 6 error=org.freedesktop.DBus.Error.UnknownInterface reply=5 destination=:1.6 signature=s [\"UnknownInterface\"]
> call 5 :1.6 registry Accessible GetRole
error l 1 7 error=org.freedesktop.DBus.Error.UnknownInterface reply=5 destination=:1.6 signature=s [\"UnknownInterface\"]
> call 5 :1.6 root Accessible GetState u=1
error l 1 8 error=org.freedesktop.DBus.Error.UnknownMethod reply=5 destination=:1.6 signature=s [\"UnknownMethod\"]
> call 5 :1.6 registry - GetRole
error l 1 9 error=org.freedesktop.DBus.Error.UnknownMethod reply=5 destination=:1.6 signature=s [\"UnknownMethod\"]
> call 5 :1.6 root Properties Get u=1
error l 1 10 error=org.freedesktop.DBus.Error.InvalidArgs reply=5 destination=:1.6 signature=s [\"InvalidArgs\"]
> call 5 :1.6 root Properties Get s=org.a11y.atspi.Text s=Name
error l 1 11 error=org.freedesktop.DBus.Error.UnknownInterface reply=5 destination=:1.6 signature=s [\"UnknownInterface\"]
> call 5 :1.6 root Properties Get s=org.a11y.atspi.Accessible s=Parent
error l 1 12 error=org.freedesktop.DBus.Error.UnknownProperty reply=5 destination=:1.6 signature=s [\"UnknownProperty\"]
> call 5 :1.6 root Properties Get s=org.a11y.atspi.Socket s=Name
error l 1 13 error=org.freedesktop.DBus.Error.UnknownProperty reply=5 destination=:1.6 signature=s [\"UnknownProperty\"]
> call 5 :1.6 root Properties GetAll s=org.a11y.atspi.Text
error l 1 14 error=org.freedesktop.DBus.Error.UnknownInterface reply=5 destination=:1.6 signature=s [\"UnknownInterface\"]
> call 5 :1.6 root Properties Set s=org.a11y.atspi.Accessible s=Name v=x
error l 1 15 error=org.freedesktop.DBus.Error.PropertyReadOnly reply=5 destination=:1.6 signature=s [\"PropertyReadOnly\"]
> call 5 :1.6 root Properties Set s=org.a11y.atspi.Accessible s=Parent v=x
error l 1 16 error=org.freedesktop.DBus.Error.UnknownProperty reply=5 destination=:1.6 signature=s [\"UnknownProperty\"]
> call 5 :1.6 root Properties Set s=org.a11y.atspi.Text s=Name v=x
error l 1 17 error=org.freedesktop.DBus.Error.UnknownInterface reply=5 destination=:1.6 signature=s [\"UnknownInterface\"]
> quiet 5 :1.6 /a i.f M
> signal 5 :1.6 root Accessible GetRole
> return 5 :1.6 9 s=x
> error 5 :1.6 9 i.f s=x
";

#[test]
fn the_objects_answer(rt: HostRuntime) {
    assert!(rt; goes_on(&rt, ROOT));
    assert!(rt; goes_on(&rt, PLAIN));
    assert!(rt; goes_on(&rt, REFUSED));
}

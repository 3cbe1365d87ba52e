//! Properties: they are told, and the application's number is set.

use crate::tables::answers;

/// Properties of the example's nodes.
const PROPERTIES: &str = "\
root Properties Get s=org.a11y.atspi.Accessible s=Name -> v [<s \"Demo\">]
root Properties Get s=org.a11y.atspi.Accessible s=Parent -> v [<(so) (\"org.a11y.atspi.Registry\" \"/org/a11y/atspi/accessible/root\")>]
root Properties Get s=org.a11y.atspi.Accessible s=ChildCount -> v [<i 3>]
root Properties Get s=org.a11y.atspi.Accessible s=AccessibleId -> v [<s \"0\">]
root - Get s=org.a11y.atspi.Application s=Id -> v [<i -1>]
root Properties Get s=org.a11y.atspi.Application s=ToolkitName -> v [<s \"atspi-replay\">]
root Properties Get s=org.a11y.atspi.Application s=Version -> v [<s \"1\">]
root Properties Get s=org.a11y.atspi.Application s=AtspiVersion -> v [<s \"2.1\">]
root Properties GetAll s=org.a11y.atspi.Accessible -> a{sv} [[{\"Name\" <s \"Demo\">} {\"Description\" <s \"\">} {\"Parent\" <(so) (\"org.a11y.atspi.Registry\" \"/org/a11y/atspi/accessible/root\")>} {\"ChildCount\" <i 3>} {\"Locale\" <s \"C\">} {\"AccessibleId\" <s \"0\">}]]
root Properties GetAll s=org.a11y.atspi.Application -> a{sv} [[{\"ToolkitName\" <s \"atspi-replay\">} {\"Version\" <s \"1\">} {\"AtspiVersion\" <s \"2.1\">} {\"Id\" <i -1>}]]
root Properties Set s=org.a11y.atspi.Application s=Id vi=7 -> -
root Properties Get s=org.a11y.atspi.Application s=Id -> v [<i 7>]
root Properties Set s=org.a11y.atspi.Application s=Id vi=-2147483648 -> -
root Properties Get s=org.a11y.atspi.Application s=Id -> v [<i -2147483648>]
root Properties Set s=org.a11y.atspi.Application s=Id vu=7 -> !InvalidArgs
root Properties Set s=org.a11y.atspi.Application s=Id v=7 -> !InvalidArgs
root Properties Set s=org.a11y.atspi.Application s=Version v=2 -> !PropertyReadOnly
root Properties Set s=org.a11y.atspi.Accessible s=Name v=x -> !PropertyReadOnly
root Properties Set s=org.a11y.atspi.Accessible s=Name vi=1 -> !PropertyReadOnly
root Properties Set s=org.a11y.atspi.Application s=ToolkitName v=x -> !PropertyReadOnly
root Properties Set s=org.a11y.atspi.Application s=AtspiVersion v=2.2 -> !PropertyReadOnly
root Properties Set s=org.a11y.atspi.Application s=id vi=7 -> !UnknownProperty
root Properties Set s=org.freedesktop.DBus.Properties s=Id vi=7 -> !UnknownProperty
root Properties Set s=org.freedesktop.DBus.Peer s=Id vi=7 -> !UnknownProperty
root Properties Set s= s=Id vi=7 -> !UnknownInterface
1 Properties Set s=org.a11y.atspi.Application s=Id vi=7 -> !UnknownInterface
1 Properties Set s=org.a11y.atspi.Accessible s=Description v=x -> !PropertyReadOnly
1 Properties Set s=org.a11y.atspi.Accessible s=Parent v(so)=:1.5@/x -> !PropertyReadOnly
1 Properties Set s=org.a11y.atspi.Accessible s=ChildCount vi=0 -> !PropertyReadOnly
1 Properties Set s=org.a11y.atspi.Accessible s=Locale v=de -> !PropertyReadOnly
1 Properties Set s=org.a11y.atspi.Accessible s=AccessibleId v=2 -> !PropertyReadOnly
1 Properties Set s=org.a11y.atspi.Text s=CharacterCount vi=1 -> !PropertyReadOnly
1 Properties Set s=org.a11y.atspi.Text s=CaretOffset vi=1 -> !PropertyReadOnly
1 Properties Set s=org.a11y.atspi.EditableText s=CaretOffset vi=1 -> !UnknownProperty
2 Properties Set s=org.a11y.atspi.Selection s=NSelectedChildren vi=0 -> !PropertyReadOnly
2 Properties Set s=org.a11y.atspi.Table s=NRows vi=1 -> !PropertyReadOnly
2 Properties Set s=org.a11y.atspi.Table s=NColumns vi=1 -> !PropertyReadOnly
3 Properties Set s=org.a11y.atspi.Action s=NActions vi=1 -> !PropertyReadOnly
root Properties Set s=org.a11y.atspi.Accessible s=Id vi=7 -> !UnknownProperty
root Properties Set s=org.a11y.atspi.Text s=CaretOffset vi=1 -> !UnknownInterface
root Properties Get s=org.a11y.atspi.Application s=Id -> v [<i -2147483648>]
1 Properties Get s=org.a11y.atspi.Application s=Id -> !UnknownInterface
1 Properties Get s=org.a11y.atspi.Accessible s=Parent -> v [<(so) (\":1.5\" \"/org/a11y/atspi/accessible/root\")>]
1 Properties Get s=org.a11y.atspi.Accessible s=Locale -> v [<s \"C\">]
1 Properties Get s=org.a11y.atspi.Accessible s=Description -> v [<s \"\">]
1 Properties Get s=org.a11y.atspi.Accessible s=name -> !UnknownProperty
1 Properties Get s=org.a11y.atspi.Accessible s= -> !UnknownProperty
1 Properties Get s= s=Name -> !UnknownInterface
1 Properties Get s=org.a11y.atspi.Text s=CharacterCount -> v [<i 5>]
1 Properties Get s=org.a11y.atspi.Text s=CaretOffset -> v [<i 2>]
1 Properties Get s=org.a11y.atspi.EditableText s=CaretOffset -> !UnknownProperty
1 Properties Get s=org.a11y.atspi.Table s=NRows -> !UnknownInterface
2 Properties Get s=org.a11y.atspi.Table s=NRows -> v [<i 2>]
2 Properties Get s=org.a11y.atspi.Table s=NColumns -> v [<i 2>]
2 Properties Get s=org.a11y.atspi.Selection s=NSelectedChildren -> v [<i 3>]
3 Properties Get s=org.a11y.atspi.Action s=NActions -> v [<i 3>]
7 Properties GetAll s=org.a11y.atspi.Accessible -> a{sv} [[{\"Name\" <s \"4\">} {\"Description\" <s \"\">} {\"Parent\" <(so) (\":1.5\" \"/org/a11y/atspi/accessible/2\")>} {\"ChildCount\" <i 0>} {\"Locale\" <s \"C\">} {\"AccessibleId\" <s \"7\">}]]
1 Properties GetAll s=org.a11y.atspi.Text -> a{sv} [[{\"CharacterCount\" <i 5>} {\"CaretOffset\" <i 2>}]]
1 Properties GetAll s=org.a11y.atspi.EditableText -> a{sv} [[]]
2 Properties GetAll s=org.a11y.atspi.Selection -> a{sv} [[{\"NSelectedChildren\" <i 3>}]]
2 Properties GetAll s=org.a11y.atspi.Table -> a{sv} [[{\"NRows\" <i 2>} {\"NColumns\" <i 2>}]]
3 Properties GetAll s=org.a11y.atspi.Action -> a{sv} [[{\"NActions\" <i 3>}]]
3 Properties GetAll s=org.freedesktop.DBus.Properties -> a{sv} [[]]
3 Properties GetAll s=org.freedesktop.DBus.Peer -> a{sv} [[]]
3 Properties GetAll s=org.a11y.atspi.Text -> !UnknownInterface
3 Properties GetAll s= -> !UnknownInterface
3 Properties GetAll s=Action -> !UnknownInterface
3 Properties GetAll s=org.a11y.atspi.Application -> !UnknownInterface
root Properties GetAll s=org.a11y.atspi.Cache -> !UnknownInterface
root Properties GetAll s=org.a11y.atspi.Socket -> !UnknownInterface
cache Properties GetAll s=org.freedesktop.DBus.Peer -> a{sv} [[]]
9 Properties GetAll s=org.a11y.atspi.Accessible -> !UnknownObject
cache Properties GetAll s=org.a11y.atspi.Cache -> a{sv} [[]]
cache Properties GetAll s=org.a11y.atspi.Accessible -> !UnknownInterface
cache Properties Get s=org.a11y.atspi.Cache s=Name -> !UnknownProperty
cache Properties Set s=org.a11y.atspi.Cache s=Name v=x -> !UnknownProperty
";

/// The interface Properties, on each kind of object.
#[test]
fn properties_are_told(rt: HostRuntime) {
    assert!(rt; answers(&rt, PROPERTIES));
}

//! Each member called with values of other types than it takes, with fewer and with more: each call is refused, and
//! changes nothing.

use crate::tables::answers;

/// Calls that are wrong by their values alone, refused as InvalidArgs; behind them the example as it was.
const WRONG: &str = "\
root Peer Ping s=
root Accessible GetChildAtIndex
root Accessible GetChildAtIndex u=0
root Accessible GetChildAtIndex s=0
root Accessible GetChildAtIndex i=0 i=0
root Accessible GetChildAtIndex vi=0
root Accessible GetChildren i=0
root Accessible GetIndexInParent i=0
root Accessible GetRelationSet u=1
root Accessible GetRole u=0
root Accessible GetRoleName s=
root Accessible GetLocalizedRoleName as=
root Accessible GetState b=true
root Accessible GetAttributes a{sv}=
root Accessible GetApplication o=/
root Accessible GetInterfaces g=as
root Application GetLocale
root Application GetLocale i=0
root Application GetLocale u=0 u=0
cache Cache GetItems s=
cache Cache GetItems as=a;b
1 Text GetText
1 Text GetText i=0
1 Text GetText i=0 u=1
1 Text GetText u=0 i=1
1 Text GetText i=0 i=-1 i=0
1 Text GetText s=0 s=1
1 Text SetCaretOffset
1 Text SetCaretOffset u=1
1 Text SetCaretOffset i=1 i=1
1 Text GetCharacterAtOffset
1 Text GetCharacterAtOffset b=true
1 Text GetStringAtOffset
1 Text GetStringAtOffset i=0
1 Text GetStringAtOffset i=0 i=1
1 Text GetStringAtOffset u=0 u=1
1 Text GetStringAtOffset i=0 u=1 u=1
1 Text GetNSelections i=0
1 Text GetSelection
1 Text GetSelection u=0
1 Text AddSelection i=0
1 Text AddSelection u=0 u=1
1 Text AddSelection i=0 i=1 i=2
1 Text RemoveSelection
1 Text RemoveSelection s=0
1 Text SetSelection i=0 i=1
1 Text SetSelection i=0 i=1 u=2
1 EditableText SetTextContents
1 EditableText SetTextContents o=/a
1 EditableText SetTextContents s=a s=b
1 EditableText SetTextContents v=a
1 EditableText InsertText i=0 s=x
1 EditableText InsertText i=0 s=x u=1
1 EditableText InsertText s=x i=0 i=1
1 EditableText InsertText i=0 o=/x i=1
1 EditableText DeleteText i=0
1 EditableText DeleteText i=0 i=1 i=1
1 EditableText DeleteText u=0 u=1
2 Selection GetSelectedChild
2 Selection GetSelectedChild u=0
2 Selection SelectChild s=0
2 Selection DeselectChild
2 Selection DeselectSelectedChild i=0 i=0
2 Selection IsChildSelected b=false
2 Selection SelectAll i=0
2 Selection ClearSelection b=true
2 Table GetAccessibleAt i=0
2 Table GetAccessibleAt i=0 i=0 i=0
2 Table GetIndexAt u=0 u=0
2 Table GetRowAtIndex
2 Table GetColumnAtIndex s=
2 Table GetSelectedRows i=0
2 Table IsRowSelected u=1
2 Table IsSelected i=1
3 Action GetName
3 Action GetName u=0
3 Action GetDescription s=
3 Action GetKeyBinding i=0 i=0
3 Action GetActions i=0
3 Action DoAction
3 Action DoAction u=0
3 Action DoAction s=press
root Properties Get
root Properties Get s=org.a11y.atspi.Accessible
root Properties Get s=org.a11y.atspi.Accessible u=0
root Properties Get o=/a s=Name
root Properties Get s=org.a11y.atspi.Accessible s=Name s=
root Properties GetAll
root Properties GetAll u=0
root Properties GetAll s=org.a11y.atspi.Accessible s=
root Properties Set
root Properties Set s=org.a11y.atspi.Application s=Id
root Properties Set s=org.a11y.atspi.Application s=Id i=7
root Properties Set s=org.a11y.atspi.Application s=Id vi=7 i=7
1 Text GetText i=0 i=-1 -> s [\"héllo\"]
1 Text GetNSelections -> i [2]
2 Properties Get s=org.a11y.atspi.Selection s=NSelectedChildren -> v [<i 3>]
root Properties Get s=org.a11y.atspi.Application s=Id -> v [<i -1>]
";

/// Each member.
#[test]
fn wrong_bodies_are_refused(rt: HostRuntime) {
    assert!(rt; answers(&rt, WRONG));
}

//! Each member called with values of every other type than it takes, with fewer and with more; of an object that lacks
//! its interface; of a node that was removed; and by paths that nearly name a node.

use crate::tables::answers;

/// Each member with values that it takes, of an object of the example that has it.
pub(crate) const MEMBERS: &str = "\
root Accessible GetChildAtIndex i=0
root Accessible GetChildren
1 Accessible GetIndexInParent
1 Accessible GetRelationSet
1 Accessible GetRole
1 Accessible GetRoleName
1 Accessible GetLocalizedRoleName
1 Accessible GetState
1 Accessible GetAttributes
1 Accessible GetApplication
1 Accessible GetInterfaces
root Application GetLocale u=0
cache Cache GetItems
1 Text GetText i=0 i=1
1 Text SetCaretOffset i=0
1 Text GetCharacterAtOffset i=0
1 Text GetStringAtOffset i=0 u=0
1 Text GetNSelections
1 Text GetSelection i=0
1 Text AddSelection i=0 i=1
1 Text RemoveSelection i=0
1 Text SetSelection i=0 i=0 i=1
1 EditableText SetTextContents s=x
1 EditableText InsertText i=0 s=x i=1
1 EditableText DeleteText i=0 i=1
2 Selection GetSelectedChild i=0
2 Selection SelectChild i=0
2 Selection DeselectChild i=0
2 Selection DeselectSelectedChild i=0
2 Selection IsChildSelected i=0
2 Selection SelectAll
2 Selection ClearSelection
2 Table GetAccessibleAt i=0 i=0
2 Table GetIndexAt i=0 i=0
2 Table GetRowAtIndex i=0
2 Table GetColumnAtIndex i=0
2 Table GetSelectedRows
2 Table IsRowSelected i=0
2 Table IsSelected i=0 i=0
3 Action GetName i=0
3 Action GetDescription i=0
3 Action GetKeyBinding i=0
3 Action GetActions
3 Action DoAction i=0
root Properties Get s=org.a11y.atspi.Accessible s=Name
root Properties GetAll s=org.a11y.atspi.Accessible
root Properties Set s=org.a11y.atspi.Application s=Id vi=7
root Peer Ping
";

/// A value of each type that words can say.
const VALUES: &str = "b=true i=0 u=0 s=x o=/x g=as (so)=:1.6@/x (ss)=a@b v=x as=x;y ai=0 a{sv}=";

/// The example as it was.
const UNCHANGED: &str = "\
1 Text GetText i=0 i=-1 -> s [\"héllo\"]
1 Text GetNSelections -> i [2]
1 Properties Get s=org.a11y.atspi.Text s=CaretOffset -> v [<i 2>]
2 Properties Get s=org.a11y.atspi.Selection s=NSelectedChildren -> v [<i 3>]
3 Accessible GetState -> au [[1124073728 0]]
root Properties Get s=org.a11y.atspi.Application s=Id -> v [<i -1>]
";

/// Paths that name no node, though nearly.
const NEAR: &str = "\
9
01
4294967296
4294967297
1/1
1a
/org/a11y/atspi/accessible
/org/a11y/atspi/null
/";

/// The code of the type that a word gives a value of.
fn type_of(word: &str) -> &str {
    match word.split_once('=') {
        Some((ty, _)) => { if ty.starts_with("v") { "v" } else { ty } }
        None => "",
    }
}

/// Appends a word, and a space before all but the first.
fn put_word(table: &mut String, number: usize, word: &str) -> Option<()> {
    if number > 0 {
        table.push_str(" ").ok()?;
    }
    table.push_str(word).ok()
}

/// Appends a line with another word at a place, and what is due.
fn put_with(table: &mut String, line: &str, place: usize, other: &str, due: &str) -> Option<()> {
    for (number, word) in line.split(' ').enumerate() {
        put_word(table, number, if number == place { other } else { word })?;
    }
    table.push_str(due).ok()
}

/// Appends a line's words up to a number of them.
pub(crate) fn put_front(table: &mut String, line: &str, count: usize) -> Option<()> {
    for (number, word) in line.split(' ').take(count).enumerate() {
        put_word(table, number, word)?;
    }
    table.push_str("\n").ok()
}

/// Appends a line with each value of another type at the place of one of its words.
fn put_values_at(table: &mut String, line: &str, place: usize, word: &str) -> Option<()> {
    let ty = type_of(word);
    for value in VALUES.split(' ') {
        if type_of(value) != ty {
            put_with(table, line, place, value, "\n")?;
        }
    }
    Some(())
}

/// Appends a line with one value more, of each type.
fn put_more(table: &mut String, line: &str) -> Option<()> {
    for value in VALUES.split(' ') {
        table.push_str(line).ok()?;
        put_word(table, 1, value)?;
        table.push_str("\n").ok()?;
    }
    Some(())
}

/// Appends a line without its last values, up to all of them, and with each of them of another type.
fn put_wrong(table: &mut String, line: &str) -> Option<()> {
    for (place, word) in line.split(' ').enumerate().skip(3) {
        put_front(table, line, place)?;
        put_values_at(table, line, place, word)?;
    }
    Some(())
}

/// Appends all calls with wrong values, and then what is there.
fn put_all_wrong(table: &mut String) -> Option<()> {
    for line in MEMBERS.lines() {
        put_wrong(table, line)?;
        put_more(table, line)?;
    }
    table.push_str(UNCHANGED).ok()
}

/// The path of an object of the example that lacks an interface; none where each object has it.
fn lacking(interface: &str) -> Option<&str> {
    match interface {
        "Properties" | "Peer" => None,
        "Accessible" => Some("cache"),
        _ => Some("4"),
    }
}

/// Appends a call of a member to an object that lacks its interface.
fn put_lacking(table: &mut String, line: &str) -> Option<()> {
    match lacking(line.split(' ').nth(1)?) {
        Some(path) => put_with(table, line, 0, path, " -> !UnknownInterface\n"),
        None => Some(()),
    }
}

/// Appends a call of each member to an object that lacks its interface, and then what is there.
fn put_all_lacking(table: &mut String) -> Option<()> {
    for line in MEMBERS.lines() {
        put_lacking(table, line)?;
    }
    table.push_str(UNCHANGED).ok()
}

/// Appends a call of each member by a path that names no node.
fn put_gone(table: &mut String, path: &str) -> Option<()> {
    for line in MEMBERS.lines() {
        put_with(table, line, 0, path, " -> !UnknownObject\n")?;
    }
    Some(())
}

/// Appends calls of each member by paths that nearly name a node, and then of nodes that were removed.
fn put_all_gone(table: &mut String) -> Option<()> {
    for path in NEAR.lines() {
        put_gone(table, path)?;
    }
    table.push_str(UNCHANGED).ok()?;
    table.push_str("edit a0 remove 2 -> remove 2\n").ok()?;
    put_gone(table, "2")?;
    put_gone(table, "7")
}

/// Each other type at each value of each member, and a value more.
#[test]
fn other_values_are_refused(rt: HostRuntime) {
    let mut table = String::new(rt.alloc());
    let put = put_all_wrong(&mut table);
    assert!(rt; put.is_some());
    assert!(rt; answers(&rt, &table));
}

/// Each member where its interface is not.
#[test]
fn members_of_other_objects_are_refused(rt: HostRuntime) {
    let mut table = String::new(rt.alloc());
    let put = put_all_lacking(&mut table);
    assert!(rt; put.is_some());
    assert!(rt; answers(&rt, &table));
}

/// Each member where no node is.
#[test]
fn members_of_no_node_are_refused(rt: HostRuntime) {
    let mut table = String::new(rt.alloc());
    let put = put_all_gone(&mut table);
    assert!(rt; put.is_some());
    assert!(rt; answers(&rt, &table));
}

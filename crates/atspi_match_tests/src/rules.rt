//! Which messages a rule matches, and who receives them.

use crate::made::{lent, signal_of};
use atspi_base::valid_names::BusName;
use atspi_base::{Nums, Steps};
use atspi_match::{Rule, RuleAdd, RuleIndex};
use atspi_names::Names;
use std::alloc::Global;
use std::process::Abort;
use std::test::*;

/// Gives the connection its unique name, where it has none.
fn greet(names: &mut Names, conn: u32) {
    if names.unique_name(conn).is_none() {
        let _ = names.hello(conn);
    }
}

/// Asks for a name for a connection, where it is a well-known one and not that of the bus.
fn request(names: &mut Names, conn: u32, name: &BusName, flags: u32) {
    if !name.is_unique() && name.as_str() != "org.freedesktop.DBus" {
        let _ = names.request(conn, name, flags);
    }
}

/// Asks for `org.example.Backend` for a connection.
fn request_backend(alloc: Global, names: &mut Names, conn: u32, flags: u32) {
    if let Ok(name) = BusName::read(alloc, b"org.example.Backend") {
        request(names, conn, &name, flags);
    }
}

/// Names in which connection 0 is `:1.0` and owns `org.example.Backend`, and connection 1 is `:1.1`.
pub(crate) fn two_connections(alloc: Global) -> Names {
    let mut names = Names::new(alloc);
    greet(&mut names, 0);
    greet(&mut names, 1);
    request_backend(alloc, &mut names, 0, 1);
    names
}

/// `yes` where a rule matches the message that bytes are, taken for one of a type, and `no` where it does not.
fn answer(rule: &Rule, names: &Names, bytes: &[u8], kind: u8) -> &'static str {
    match lent(bytes, kind) {
        Some(message) => {
            if rule.matches(&message, names) {
                "yes"
            } else {
                "no"
            }
        }
        None => "no message",
    }
}

/// The same of the rule of a text and bytes.
fn matching(alloc: Global, names: &Names, text: &str, bytes: &[u8], kind: u8) -> &'static str {
    match Rule::parse(alloc, text.as_bytes()) {
        Ok(rule) => answer(&rule, names, bytes, kind),
        Err(_) => "no rule",
    }
}

/// The same of the rule of a text and the signal of a connection that words spell.
fn told(
    alloc: Global,
    names: &Names,
    text: &str,
    sender: &str,
    words: &str,
    kind: u8,
) -> &'static str {
    let bytes = signal_of(alloc, sender, words);
    matching(alloc, names, text, bytes.as_slice(), kind)
}

/// Whether the rule of a row matches a signal of `:1.0`, and else does not, as is due.
fn holds(alloc: Global, names: &Names, row: &str) -> bool {
    let (asked, due) = row.split_once(" => ").unwrap_or((row, ""));
    let (rule, words) = asked.split_once(" on ").unwrap_or((asked, ""));
    told(alloc, names, rule, ":1.0", words, 4) == due
}

/// Each row of a table holds.
fn try_rows(rt: &impl Abort, alloc: Global, names: &Names, rows: &str) {
    for row in rows.lines() {
        assert!(rt; holds(alloc, names, row), "{row}");
    }
}

/// Whether a rule matches the types 0 to 5 as is due: the one with this number alone.
fn is_of_type(alloc: Global, names: &Names, text: &str, number: u8) -> bool {
    for kind in 0..6_u8 {
        let due = if kind == number { "yes" } else { "no" };
        if told(alloc, names, text, ":1.0", "/", kind) != due {
            return false;
        }
    }
    true
}

/// Whether each rule for a type matches its number (D-Bus Specification, "Message Protocol": 1 call, 2 return, 3 error,
/// 4 signal).
fn types_match_their_numbers(alloc: Global, names: &Names) -> bool {
    is_of_type(alloc, names, "type='method_call'", 1)
        && is_of_type(alloc, names, "type='method_return'", 2)
        && is_of_type(alloc, names, "type='error'", 3)
        && is_of_type(alloc, names, "type='signal'", 4)
}

/// Fields of a message: a name matches whoever owns it.
const FIELDS: &str = "\
sender=':1.0' on /com/example/foo => yes
sender=':1.1' on /com/example/foo => no
sender='org.example.Backend' on /com/example/foo => yes
sender='org.example.Back' on /com/example/foo => no
sender='org.freedesktop.DBus' on /com/example/foo => no
destination=':1.1' on /com/example/foo => yes
destination=':1.0' on /com/example/foo => no
destination='org.example.Backend' on /com/example/foo => no
interface='org.example.Events' on /com/example/foo => yes
interface='org.example.Event' on /com/example/foo => no
member='Changed' on /com/example/foo => yes
member='Change' on /com/example/foo => no
path='/com/example/foo' on /com/example/foo => yes
path='/com/example' on /com/example/foo => no";

/// Namespaces of paths (rows of the D-Bus Specification, "Match Rules").
const NAMESPACES: &str = "\
path_namespace='/com/example/foo' on /com/example/foo => yes
path_namespace='/com/example/foo' on /com/example/foo/bar => yes
path_namespace='/com/example/foo' on /com/example/foobar => no
path_namespace='/com/example/foo' on /com/example => no
path_namespace='/a/b' on / => no
path_namespace='/' on / => yes
path_namespace='/' on /com/example => yes";

/// Arguments as paths, from either side (rows of the same section).
const ARGUMENT_PATHS: &str = "\
arg0path='/aa/bb/' on /|s|s=/ => yes
arg0path='/aa/bb/' on /|s|s=/aa/ => yes
arg0path='/aa/bb/' on /|s|s=/aa/bb/ => yes
arg0path='/aa/bb/' on /|s|s=/aa/bb/cc/ => yes
arg0path='/aa/bb/' on /|s|s=/aa/bb/cc => yes
arg0path='/aa/bb/' on /|s|s=/aa/b => no
arg0path='/aa/bb/' on /|s|s=/aa => no
arg0path='/aa/bb/' on /|s|s=/aa/bb => no
arg0path='/a/b' on /|s|s=/a/bc => no
arg0path='/a/b' on /|s|s=/a/b/c => no
arg0path='/a/b/c' on /|s|s=/a/ => yes";

/// Arguments as names in a namespace (rows of the same section).
const ARGUMENT_NAMES: &str = "\
arg0namespace='com.example.backend1' on /|s|s=com.example.backend1 => yes
arg0namespace='com.example.backend1' on /|s|s=com.example.backend1.foo => yes
arg0namespace='com.example.backend1' on /|s|s=com.example.backend1.foo.bar => yes
arg0namespace='com.example.backend1' on /|s|s=com.example.backend2 => no
arg0namespace='com.example.backend1' on /|s|s=com.example.backend10 => no
arg0namespace='com.example.backend1' on /|s|s=com.example => no
arg0namespace='com' on /|s|s=com.example => yes
arg0namespace='com' on /|s|s=community.example => no";

/// Arguments as the texts that they are: a text, a path, a number and an empty text.
const ARGUMENTS: &str = "\
arg0='caf\u{e9}' on /|sous|s=caf\u{e9}|s=/a/b|u=7|s= => yes
arg0='cafe' on /|sous|s=caf\u{e9}|s=/a/b|u=7|s= => no
arg0='' on /|sous|s=caf\u{e9}|s=/a/b|u=7|s= => no
arg1='/a/b' on /|sous|s=caf\u{e9}|s=/a/b|u=7|s= => no
arg2='7' on /|sous|s=caf\u{e9}|s=/a/b|u=7|s= => no
arg3='' on /|sous|s=caf\u{e9}|s=/a/b|u=7|s= => yes
arg4='' on /|sous|s=caf\u{e9}|s=/a/b|u=7|s= => no
arg63='' on /|sous|s=caf\u{e9}|s=/a/b|u=7|s= => no
arg0path='caf\u{e9}' on /|sous|s=caf\u{e9}|s=/a/b|u=7|s= => yes
arg1path='/a/b' on /|sous|s=caf\u{e9}|s=/a/b|u=7|s= => yes
arg1path='/a/' on /|sous|s=caf\u{e9}|s=/a/b|u=7|s= => yes
arg1path='/a' on /|sous|s=caf\u{e9}|s=/a/b|u=7|s= => no
arg2path='/' on /|sous|s=caf\u{e9}|s=/a/b|u=7|s= => no
arg4path='/' on /|sous|s=caf\u{e9}|s=/a/b|u=7|s= => no";

/// Each row of each table holds.
fn try_all(rt: &impl Abort, alloc: Global, names: &Names) {
    assert!(rt; types_match_their_numbers(alloc, names));
    try_rows(rt, alloc, names, FIELDS);
    try_rows(rt, alloc, names, NAMESPACES);
    try_rows(rt, alloc, names, ARGUMENT_PATHS);
    try_rows(rt, alloc, names, ARGUMENT_NAMES);
    try_rows(rt, alloc, names, ARGUMENTS);
}

#[test]
fn types_fields_paths_and_arguments_match(rt: HostRuntime) {
    let names = two_connections(rt.alloc());
    try_all(&rt, rt.alloc(), &names);
}

/// Whether a rule for signals of `org.example.Backend` matches one of this sender.
fn of_backend(alloc: Global, names: &Names, sender: &str) -> &'static str {
    told(alloc, names, "sender='org.example.Backend'", sender, "/", 4)
}

/// Whether a rule with a well-known name, which connection 0 owns, matches whoever owns it: connection 1 once that has
/// asked for it, and nobody once that is gone.
fn follows_owner(alloc: Global, names: &mut Names) -> bool {
    let first = of_backend(alloc, names, ":1.0");
    request_backend(alloc, names, 1, 2);
    let before = of_backend(alloc, names, ":1.0");
    let now = of_backend(alloc, names, ":1.1");
    names.gone(1);
    let gone = of_backend(alloc, names, ":1.1");
    let without = of_backend(alloc, names, "");
    first == "yes" && before == "no" && now == "yes" && gone == "no" && without == "no"
}

/// The same of names that are made anew.
fn owner_is_followed(alloc: Global) -> bool {
    let mut names = two_connections(alloc);
    follows_owner(alloc, &mut names)
}

#[test]
fn a_name_stands_for_whoever_owns_it_now(rt: HostRuntime) {
    assert!(rt; owner_is_followed(rt.alloc()));
}

/// The rule that asks for nothing.
fn any(alloc: Global) -> Rule {
    Rule::of(Vec::new(alloc))
}

/// Adds a rule, and tells how that went: 0 added, 1 refused for the limit, 2 for want of memory.
pub(crate) fn added(index: &mut RuleIndex, conn: u32, rule: Rule) -> u32 {
    match index.add(conn, rule) {
        Ok(()) => 0,
        Err((_, RuleAdd::Limit)) => 1,
        Err((_, RuleAdd::NoMemory)) => 2,
    }
}

/// How many conditions the rule of a text has that is handed back for the limit.
fn handed_back(alloc: Global, index: &mut RuleIndex, conn: u32, text: &[u8]) -> Option<usize> {
    let rule = Rule::parse(alloc, text).ok()?;
    match index.add(conn, rule) {
        Err((rule, RuleAdd::Limit)) => Some(rule.conditions().len()),
        _ => None,
    }
}

/// Adds so many rules that ask for nothing, and tells how many were added.
fn add_any(alloc: Global, index: &mut RuleIndex, conn: u32, count: u32) -> u32 {
    let mut done = 0u32;
    for _rule in 0..count {
        if added(index, conn, any(alloc)) == 0 {
            done = done.saturating_add(1);
        }
    }
    done
}

/// Whether connection 7 may have 512 rules, and one for each that goes.
fn are_limited(alloc: Global, index: &mut RuleIndex) -> bool {
    let all = add_any(alloc, index, 7, 512);
    let back = handed_back(alloc, index, 7, b"eavesdrop=true");
    let other = add_any(alloc, index, 8, 1);
    let is_removed = index.remove(7, &any(alloc));
    let again = add_any(alloc, index, 7, 1);
    let over = added(index, 7, any(alloc));
    index.drop_conn(7);
    let anew = add_any(alloc, index, 7, 1);
    is_removed && back == Some(1) && [all, other, again, over, anew] == [512, 1, 1, 1, 1]
}

/// The same of a new index.
fn rules_are_limited(alloc: Global) -> bool {
    let mut index = RuleIndex::new(alloc);
    are_limited(alloc, &mut index)
}

#[test]
fn a_connection_may_have_512_rules(rt: HostRuntime) {
    assert!(rt; rules_are_limited(rt.alloc()));
}

/// How many rules are looked at for the message that bytes are, taken for one of a type; who receives it is appended to
/// a list. `u64::MAX` where it is none.
pub(crate) fn received(
    index: &RuleIndex,
    names: &Names,
    bytes: &[u8],
    kind: u8,
    out: &mut Nums,
) -> u64 {
    let mut steps = Steps::new();
    let Some(message) = lent(bytes, kind) else {
        return u64::MAX;
    };
    match index.receivers(&message, names, out, &mut steps) {
        Ok(()) => steps.count(),
        Err(_) => u64::MAX,
    }
}

/// Whether just these receive a signal, behind a first number 99 that was there, and so many rules are looked at at the
/// most.
pub(crate) fn hear(
    alloc: Global,
    index: &RuleIndex,
    names: &Names,
    bytes: &[u8],
    due: &[u32],
    most: u64,
) -> bool {
    let mut out = Nums::new(alloc);
    let _ = out.push(99);
    let steps = received(index, names, bytes, 4, &mut out);
    out.as_slice() == due && steps <= most
}

/// Adds the rule of a text.
pub(crate) fn add_rule(alloc: Global, index: &mut RuleIndex, conn: u32, text: &[u8]) -> bool {
    match Rule::parse(alloc, text) {
        Ok(rule) => added(index, conn, rule) == 0,
        Err(_) => false,
    }
}

/// Takes out the rule of a text.
pub(crate) fn remove_rule(alloc: Global, index: &mut RuleIndex, conn: u32, text: &[u8]) -> bool {
    match Rule::parse(alloc, text) {
        Ok(rule) => index.remove(conn, &rule),
        Err(_) => false,
    }
}

/// Adds rules of the connections 5, 2 and 3, of which two are equal and one asks for nothing.
fn add_all(alloc: Global, index: &mut RuleIndex) -> bool {
    add_rule(alloc, index, 5, b"path='/a'")
        && add_rule(alloc, index, 2, b"path='/a'")
        && add_rule(alloc, index, 5, b"path='/b'")
        && add_rule(alloc, index, 2, b"path='/a'")
        && add_rule(alloc, index, 3, b"path='/c'")
        && added(index, 5, any(alloc)) == 0
}

/// Whether each connection receives a signal once, in order, while rules go: one of the two equal rules, then the
/// other, then there is none.
fn go_one_by_one(alloc: Global, index: &mut RuleIndex, names: &Names) -> bool {
    let signal = signal_of(alloc, ":1.0", "/a");
    let other = signal_of(alloc, ":1.0", "/c");
    let all = hear(alloc, index, names, signal.as_slice(), &[99, 2, 5], 6);
    let first = remove_rule(alloc, index, 2, b"path='/a'");
    let one = hear(alloc, index, names, signal.as_slice(), &[99, 2, 5], 1000);
    let second = remove_rule(alloc, index, 2, b"path='/a'");
    let none = hear(alloc, index, names, signal.as_slice(), &[99, 5], 1000);
    let third = remove_rule(alloc, index, 2, b"path='/a'");
    let still = hear(alloc, index, names, signal.as_slice(), &[99, 5], 1000);
    index.drop_conn(5);
    let last = hear(alloc, index, names, other.as_slice(), &[99, 3], 1);
    all && first && one && second && none && !third && still && last
}

/// The same of a new index of these rules.
fn all_go(alloc: Global, names: &Names) -> bool {
    let mut index = RuleIndex::new(alloc);
    let is_full = add_all(alloc, &mut index);
    let is_told = go_one_by_one(alloc, &mut index, names);
    is_full && is_told
}

/// The same where nobody has a name.
fn all_go_without_names(alloc: Global) -> bool {
    let names = Names::new(alloc);
    all_go(alloc, &names)
}

#[test]
fn each_receiver_is_told_once_in_order(rt: HostRuntime) {
    assert!(rt; all_go_without_names(rt.alloc()));
}

//! Indexes of many rules, of which few are looked at for a message.

use crate::made::{Header, signal_with};
use crate::rules::{add_rule, added, hear, received, remove_rule, two_connections};
use atspi_base::Nums;
use atspi_match::{Rule, RuleIndex};
use atspi_names::Names;
use std::alloc::Global;
use std::test::*;

/// The rule with the key and a value that ends in a number.
fn numbered(alloc: Global, front: &str, number: u32) -> Option<Rule> {
    let text = format!(in alloc; "{front}{number}'").ok()?;
    Rule::parse(alloc, text.as_bytes()).ok()
}

/// Adds such a rule.
fn add(alloc: Global, index: &mut RuleIndex, conn: u32, front: &str, number: u32) -> bool {
    match numbered(alloc, front, number) {
        Some(rule) => added(index, conn, rule) == 0,
        None => false,
    }
}

/// Takes out such a rule.
fn remove(alloc: Global, index: &mut RuleIndex, conn: u32, front: &str, number: u32) -> bool {
    match numbered(alloc, front, number) {
        Some(rule) => index.remove(conn, &rule),
        None => false,
    }
}

/// Adds so many rules that differ in one value alone for each of four connections.
fn add_all(alloc: Global, index: &mut RuleIndex, front: &str, count: u32) -> bool {
    for number in 0..count {
        for conn in 0..4u32 {
            if !add(alloc, index, conn, front, number) {
                return false;
            }
        }
    }
    true
}

/// Takes out the rules of a connection whose numbers are these.
fn remove_all(
    alloc: Global,
    index: &mut RuleIndex,
    conn: u32,
    front: &str,
    numbers: (u32, u32),
) -> bool {
    for number in numbers.0..numbers.1 {
        if !remove(alloc, index, conn, front, number) {
            return false;
        }
    }
    true
}

/// How many rules are looked at for a message, where each of four connections has so many that differ in one value;
/// each connection receives it.
fn looked_at(alloc: Global, names: &Names, bytes: &[u8], front: &str, count: u32) -> u64 {
    let mut index = RuleIndex::new(alloc);
    let mut out = Nums::new(alloc);
    let is_full = add_all(alloc, &mut index, front, count);
    let steps = received(&index, names, bytes, 4, &mut out);
    if is_full && out.as_slice() == [0, 1, 2, 3].as_slice() {
        steps
    } else {
        u64::MAX
    }
}

/// The names of a message that the rules with the number 0 match, whichever key they ask for.
const NAMES: Header<'static> = Header {
    path: Some("/a/n0"),
    interface: Some("org.example.N0"),
    member: Some("N0"),
    destination: Some(":1.1"),
    sender: Some(":1.0"),
};

/// Rules of one key, a line each, which differ in its value.
const OF_ONE_KEY: &str = "\
sender=':1.
interface='org.example.N
member='N
path='/a/n
arg0='n";

/// Rules of five keys, which differ in the value of the last, a line each.
const OF_FIVE_KEYS: &str = "\
interface='org.example.N0',member='N0',path='/a/n0',arg0='n0',sender=':1.
sender=':1.0',member='N0',path='/a/n0',arg0='n0',interface='org.example.N
sender=':1.0',interface='org.example.N0',path='/a/n0',arg0='n0',member='N
sender=':1.0',interface='org.example.N0',member='N0',arg0='n0',path='/a/n
sender=':1.0',interface='org.example.N0',member='N0',path='/a/n0',arg0='n";

/// Whether for a message that the rules with the number 0 match four rules are looked at where there is one of each
/// connection, and no more than so many where there are 500:
/// for rules of each line.
fn many_cost_little(alloc: Global, names: &Names, bytes: &[u8], fronts: &str, most: u64) -> bool {
    for front in fronts.lines() {
        let one = looked_at(alloc, names, bytes, front, 1);
        let many = looked_at(alloc, names, bytes, front, 500);
        if one != 4 || many < 4 || many > most {
            return false;
        }
    }
    true
}

/// The same of rules of one key and of five, where two connections have names.
fn all_cost_little(alloc: Global, bytes: &[u8]) -> bool {
    let names = two_connections(alloc);
    let of_one = many_cost_little(alloc, &names, bytes, OF_ONE_KEY, 4);
    let of_five = many_cost_little(alloc, &names, bytes, OF_FIVE_KEYS, 8);
    of_one && of_five
}

#[test]
fn many_rules_that_differ_cost_no_more_than_one_or_two(rt: HostRuntime) {
    let bytes = signal_with(rt.alloc(), NAMES, "s", "s=n0");
    assert!(rt; all_cost_little(rt.alloc(), bytes.as_slice()));
}

/// Whether each of four connections hears a message, until its rule with the number 0 goes out; then all others do, and
/// none is looked at.
fn go_out(alloc: Global, index: &mut RuleIndex, names: &Names, bytes: &[u8], front: &str) -> bool {
    let is_full = add_all(alloc, index, front, 20);
    let first = remove_all(alloc, index, 1, front, (0, 1));
    let third = remove_all(alloc, index, 3, front, (0, 20));
    let left = hear(alloc, index, names, bytes, &[99, 0, 2], 1000);
    let zeroth = remove_all(alloc, index, 0, front, (0, 20));
    let others = remove_all(alloc, index, 1, front, (1, 20));
    let last = hear(alloc, index, names, bytes, &[99, 2], 2);
    let second = remove_all(alloc, index, 2, front, (0, 20));
    let none = hear(alloc, index, names, bytes, &[99], 0);
    is_full && first && third && left && zeroth && others && last && second && none
}

/// Whether they do so with rules of each line.
fn all_go_out(alloc: Global, index: &mut RuleIndex, names: &Names, bytes: &[u8]) -> bool {
    for front in OF_FIVE_KEYS.lines() {
        if !go_out(alloc, index, names, bytes, front) {
            return false;
        }
    }
    true
}

/// The same of a new index.
fn rules_go_out(alloc: Global, names: &Names, bytes: &[u8]) -> bool {
    let mut index = RuleIndex::new(alloc);
    all_go_out(alloc, &mut index, names, bytes)
}

/// The same where two connections have names.
fn rules_go_out_with_names(alloc: Global, bytes: &[u8]) -> bool {
    let names = two_connections(alloc);
    rules_go_out(alloc, &names, bytes)
}

#[test]
fn rules_of_five_keys_go_out_again(rt: HostRuntime) {
    let bytes = signal_with(rt.alloc(), NAMES, "s", "s=n0");
    assert!(rt; rules_go_out_with_names(rt.alloc(), bytes.as_slice()));
}

/// Adds 511 rules of one interface for a connection.
fn add_of_another_interface(alloc: Global, index: &mut RuleIndex) -> bool {
    for number in 1..512 {
        if !add(alloc, index, 0, "interface='x.y',member='M", number) {
            return false;
        }
    }
    true
}

/// A big-endian signal of the interface `a.b`.
const OF_A_B: &[u8] =
    b"B\x04\x01\x01\0\0\0\0\0\0\0\x07\0\0\0\x2a\x01\x01o\0\0\0\0\x02/a\0\0\0\0\0\0\x02\x01s\0\0\0\0\x03a.b\0\0\0\0\0\x03\x01s\0\0\0\0\x01C\0\0\0\0\0\0\0";

/// Whether of 511 rules of one interface and one of another that one alone is looked at, and none once it is gone.
fn one_is_looked_at(alloc: Global, index: &mut RuleIndex, names: &Names) -> bool {
    let is_full = add_of_another_interface(alloc, index);
    let is_added = add_rule(alloc, index, 0, b"interface='a.b'");
    let one = hear(alloc, index, names, OF_A_B, &[99, 0], 1);
    let is_removed = remove_rule(alloc, index, 0, b"interface='a.b'");
    let none = hear(alloc, index, names, OF_A_B, &[99], 0);
    is_full && is_added && one && is_removed && none
}

/// The same of a new index.
fn others_are_left_out(alloc: Global, names: &Names) -> bool {
    let mut index = RuleIndex::new(alloc);
    one_is_looked_at(alloc, &mut index, names)
}

/// The same where nobody has a name.
fn others_are_left_out_without_names(alloc: Global) -> bool {
    let names = Names::new(alloc);
    others_are_left_out(alloc, &names)
}

#[test]
fn rules_of_another_interface_are_not_looked_at(rt: HostRuntime) {
    assert!(rt; others_are_left_out_without_names(rt.alloc()));
}

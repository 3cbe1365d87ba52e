//! Drawn rules in the index and in a plain list of rules, each of which is asked whether it matches: the same
//! connections receive the same messages.

ghost use Rattle.std.specs.Prelude.{◌<◌};

use crate::made::{Header, lent, signal_with};
use crate::rules::{added, received, two_connections};
use atspi_base::Nums;
use atspi_match::{Condition, Rule, RuleIndex};
use atspi_message_in_place::MessageRef;
use atspi_names::Names;
use std::alloc::Global;
use std::process::Abort;
use std::test::*;

/// Rules of each kind, a line each; the first asks for nothing.
const RULES: &str = "
type='signal'
type='method_call'
sender=':1.0'
sender=':1.1'
sender='org.example.Backend'
interface='org.example.Events'
interface='org.example.Other'
member='Changed'
member='Other'
path='/'
path='/a/b'
path_namespace='/a'
destination=':1.1'
destination=':1.0'
arg0='a'
arg0='caf\u{e9}'
arg0=''
arg1='a'
arg0path='/a/'
arg0namespace='a'
eavesdrop='true'
type='signal',sender=':1.0',member='Changed'
type='signal',sender=':1.1',member='Changed'
interface='org.example.Events',member='Changed',path='/a/b'
interface='org.example.Events',member='Other',path='/a/b'
member='Changed',path_namespace='/a',arg0='a'
sender='org.example.Backend',arg0='a'
sender=':1.0',interface='org.example.Other',member='Other',path='/',arg0='caf\u{e9}'";

/// A number below a limit that is not 0, drawn from a state that goes on.
fn draw(state: &mut u64, below: u32) -> u32
    ensures { 0 < below → result < below }
{
    *state = state
        .wrapping_mul(6_364_136_223_846_793_005)
        .wrapping_add(1_442_695_040_888_963_407);
    ((*state >> 33) % u64::from(below.max(1))) as u32
}

/// One of a few texts, drawn.
fn one_of<'a>(state: &mut u64, texts: &'a str) -> Option<&'a str> {
    let number = draw(state, 3) as usize;
    texts.split(' ').nth(number)
}

/// The rules of all lines; a line that is none is left out.
fn all_rules(alloc: Global) -> Vec<Rule> {
    let mut rules = Vec::new(alloc);
    for text in RULES.split('\n') {
        if let Ok(rule) = Rule::parse(alloc, text.as_bytes()) {
            let _ = rules.push(rule).ok();
        }
    }
    rules
}

/// Whether the rule of a line matches the message.
fn is_met(rules: &[Rule], line: usize, m: &MessageRef, names: &Names) -> bool {
    match rules.get(line) {
        Some(rule) => rule.matches(m, names),
        None => false,
    }
}

/// The connections with a rule that matches the message, by rising number, each once: each rule is asked.
fn asked_each(
    alloc: Global,
    rules: &[Rule],
    plain: &[(u32, usize)],
    m: &MessageRef,
    names: &Names,
) -> Vec<u32> {
    let mut found = Vec::new(alloc);
    for (conn, line) in plain {
        if is_met(rules, *line, m, names) {
            let _ = found.push(*conn);
        }
    }
    found.sort_unstable();
    found.dedup();
    found
}

/// Whether the rule of a line asks for no interface, or for that of the message.
fn is_near(rules: &[Rule], line: usize, m: &MessageRef) -> bool {
    let Some(rule) = rules.get(line) else {
        return false;
    };
    for condition in rule.conditions() {
        if let Condition::Interface(name) = condition {
            return m.interface == Some(name.as_str());
        }
    }
    true
}

/// How many rules ask for no interface, or for that of the message.
fn nearby(rules: &[Rule], plain: &[(u32, usize)], m: &MessageRef) -> u64 {
    let mut count = 0u64;
    for (_, line) in plain {
        if is_near(rules, *line, m) {
            count = count.saturating_add(1);
        }
    }
    count
}

/// Whether the plain list tells these receivers of a message, and no fewer rules of it ask for no interface, or for
/// that of the message, than were looked at.
fn is_due(
    alloc: Global,
    rules: &[Rule],
    plain: &[(u32, usize)],
    names: &Names,
    bytes: &[u8],
    kind: u8,
    out: &[u32],
    steps: u64,
) -> bool {
    match lent(bytes, kind) {
        Some(m) => {
            let due = asked_each(alloc, rules, plain, &m, names);
            out == due.as_slice() && steps <= nearby(rules, plain, &m)
        }
        None => false,
    }
}

/// Whether both forms tell the same receivers, and the index counts no more rules than ask for no interface, or for
/// that of the message.
fn is_same(
    alloc: Global,
    rules: &[Rule],
    index: &RuleIndex,
    plain: &[(u32, usize)],
    names: &Names,
    bytes: &[u8],
    kind: u8,
) -> bool {
    let mut out = Nums::new(alloc);
    let steps = received(index, names, bytes, kind, &mut out);
    is_due(
        alloc,
        rules,
        plain,
        names,
        bytes,
        kind,
        out.as_slice(),
        steps,
    )
}

/// Adds the rule of a line to both, and tells whether both took it.
fn add(
    alloc: Global,
    rules: &[Rule],
    index: &mut RuleIndex,
    plain: &mut Vec<(u32, usize)>,
    pair: (u32, usize),
) -> bool {
    let Some(rule) = rules.get(pair.1) else {
        return false;
    };
    match rule.copy(alloc) {
        Ok(rule) => added(index, pair.0, rule) == 0 && plain.push(pair).is_ok(),
        Err(_) => false,
    }
}

/// Takes the first such pair out of the plain list, and tells whether there was one.
fn take_out(plain: &mut Vec<(u32, usize)>, pair: (u32, usize)) -> bool {
    for place in 0..plain.len() {
        if plain[place] == pair {
            plain.remove(place);
            return true;
        }
    }
    false
}

/// Takes the rule of a line out of both, and tells whether both had it or both had not.
fn remove(
    rules: &[Rule],
    index: &mut RuleIndex,
    plain: &mut Vec<(u32, usize)>,
    pair: (u32, usize),
) -> bool {
    match rules.get(pair.1) {
        Some(rule) => index.remove(pair.0, rule) == take_out(plain, pair),
        None => false,
    }
}

/// Goes on with a copy of the index.
fn renew(index: &mut RuleIndex) -> bool {
    match index.copy() {
        Ok(copy) => {
            *index = copy;
            true
        }
        Err(_) => false,
    }
}

/// Changes both in a way that is drawn, and tells whether both answered alike.
fn change(
    alloc: Global,
    rules: &[Rule],
    state: &mut u64,
    index: &mut RuleIndex,
    plain: &mut Vec<(u32, usize)>,
) -> bool {
    let way = draw(state, 40);
    let conn = draw(state, 5);
    let line = draw(state, 29) as usize;
    if way == 0 {
        index.drop_conn(conn);
        plain.retain(|pair| pair.0 != conn);
        return true;
    }
    if way == 1 {
        return renew(index);
    }
    if way < 20 {
        return remove(rules, index, plain, (conn, line));
    }
    add(alloc, rules, index, plain, (conn, line))
}

/// Names that are drawn.
fn drawn_header(state: &mut u64) -> Header<'static> {
    Header {
        path: one_of(state, "/ /a/b /a/b/c"),
        interface: one_of(
            state,
            "org.example.Events org.example.Other org.example.Third",
        ),
        member: one_of(state, "Changed Other Third"),
        destination: one_of(state, ":1.1 :1.0 org.example.Backend"),
        sender: one_of(state, ":1.0 :1.1 org.example.Backend"),
    }
}

/// Whether both forms go together over 250 drawn changes, with messages whose type and names are drawn, and whose first
/// argument is spelled by a word.
fn go_on(
    alloc: Global,
    rules: &[Rule],
    names: &Names,
    state: &mut u64,
    index: &mut RuleIndex,
    plain: &mut Vec<(u32, usize)>,
    word: &str,
) -> bool {
    for _change in 0..250_u32 {
        let bytes = signal_with(alloc, drawn_header(state), "s", word);
        let kind = if draw(state, 2) == 0 { 1 } else { 4 };
        if !change(alloc, rules, state, index, plain)
            || !is_same(alloc, rules, index, plain, names, bytes.as_slice(), kind)
        {
            return false;
        }
    }
    true
}

/// The same of a new index, from a seed.
fn go_with(alloc: Global, rules: &[Rule], names: &Names, seed: u64, word: &str) -> bool {
    let mut state = seed;
    let mut index = RuleIndex::new(alloc);
    let mut plain = Vec::new(alloc);
    go_on(
        alloc, rules, names, &mut state, &mut index, &mut plain, word,
    )
}

/// The same of four seeds, each with another first argument.
fn all_go(alloc: Global, rules: &[Rule], names: &Names) -> bool {
    go_with(alloc, rules, names, 1, "s=a")
        && go_with(alloc, rules, names, 2, "s=caf\u{e9}")
        && go_with(alloc, rules, names, 3, "s=")
        && go_with(alloc, rules, names, 4, "s=/a/b")
}

/// The same where two connections have names.
fn all_go_with_names(alloc: Global, rules: &[Rule]) -> bool {
    let names = two_connections(alloc);
    all_go(alloc, rules, &names)
}

#[test]
fn receivers_are_those_whose_rules_match(rt: HostRuntime) {
    let rules = all_rules(rt.alloc());
    assert!(rt; rules.len() == 29 && all_go_with_names(rt.alloc(), &rules));
}

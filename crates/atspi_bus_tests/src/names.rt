//! Who owns a name and who waits for it, after each call.

ghost use Rattle.std.specs.Prelude.{◌≡◌, ◌≢◌, false, None};
ghost use Rattle.std.specs.FinMap as finmap;
ghost use Rattle.atspi_base.specs.valid_names.Names.{is_unique_name};
ghost use Rattle.atspi_names.specs.Owners as owners;

use crate::words::{check, number, put, put_number};
use atspi_base::valid_names::BusName;
use atspi_names::{NameList, Names, OwnerChange};
use std::alloc::Global;
use std::process::Abort;
use std::str::SplitWhitespace;

/// The name that the next word is.
fn any_name(rt: &impl Abort, alloc: Global, words: &mut SplitWhitespace) -> BusName {
    let word = words.next().expect(rt, "a word");
    BusName::read(alloc, word.as_bytes()).expect(rt, "a name")
}

/// The well-known name that the next word is.
fn known(rt: &impl Abort, alloc: Global, words: &mut SplitWhitespace) -> BusName
    ensures not_unique { is_unique_name result ≡ false }
    ensures not_the_bus { result ≢ owners.own_name }
{
    let name = any_name(rt, alloc, words);
    assert!(rt; !name.is_unique() && name.as_str() != "org.freedesktop.DBus");
    name
}

/// Says hello for a connection that has no unique name yet, and tells which one it got.
fn hello(rt: &impl Abort, names: &mut Names, conn: u32, told: &mut String) {
    assert!(rt; names.unique_name(conn).is_none());
    put(rt, told, names.hello(conn).expect(rt, "memory").as_str());
}

/// Tells a connection, or a dash for nobody.
fn put_owner(rt: &impl Abort, told: &mut String, owner: Option<u32>) {
    match owner {
        Some(conn) => put_number(rt, told, conn),
        None => put(rt, told, "-"),
    }
}

/// Tells an answer with the owners before and after it.
fn put_change(rt: &impl Abort, told: &mut String, change: OwnerChange) {
    put_number(rt, told, change.answer);
    put(rt, told, " ");
    put_owner(rt, told, change.before);
    put(rt, told, " ");
    put_owner(rt, told, change.after);
}

/// A connection asks for a name, as `CONNECTION NAME FLAGS` spells it.
fn request(
    rt: &impl Abort,
    alloc: Global,
    names: &mut Names,
    words: &mut SplitWhitespace,
) -> OwnerChange {
    let conn = number(rt, words);
    let name = known(rt, alloc, words);
    let flags = number(rt, words);
    names.request(conn, &name, flags).expect(rt, "memory")
}

/// A connection gives a name back, as `CONNECTION NAME` spells it.
fn release(
    rt: &impl Abort,
    alloc: Global,
    names: &mut Names,
    words: &mut SplitWhitespace,
) -> OwnerChange {
    let conn = number(rt, words);
    let name = known(rt, alloc, words);
    names.release(conn, &name)
}

/// Tells a queue, as `CONNECTION/FLAGS` for each that stands in it.
fn put_queue(rt: &impl Abort, told: &mut String, queue: &[(u32, u32)]) {
    for (conn, flags) in queue {
        put_number(rt, told, *conn);
        put(rt, told, "/");
        put_number(rt, told, *flags);
        put(rt, told, " ");
    }
}

/// Tells the names of a list.
fn put_list(rt: &impl Abort, told: &mut String, list: &NameList) {
    if list.len() == 0 {
        put(rt, told, "none");
    }
    for name in list.as_slice() {
        put(rt, told, name.as_str());
        put(rt, told, " ");
    }
}

/// The names that a connection owns, in a list that is made of its parts and put together again.
fn owned(rt: &impl Abort, names: &Names, conn: u32) -> NameList {
    let list = names.owned(conn).expect(rt, "memory");
    NameList::from_vec(list.into_vec())
}

/// Tells what is asked of the names by a word and those behind it.
fn look(
    rt: &impl Abort,
    alloc: Global,
    names: &Names,
    word: &str,
    words: &mut SplitWhitespace,
    told: &mut String,
) {
    match word {
        "list" => put_list(rt, told, &names.list().expect(rt, "memory")),
        "owned" => put_list(rt, told, &owned(rt, names, number(rt, words))),
        "unique" if names.unique_name(number(rt, words)).is_some() => put(rt, told, "yes"),
        "unique" => put(rt, told, "no"),
        "owner" => put_owner(rt, told, names.owner(&any_name(rt, alloc, words))),
        "queue" => put_queue(rt, told, names.queue(&any_name(rt, alloc, words))),
        _ => put(rt, told, "?"),
    }
}

/// Does what words ask for, and tells what comes of it.
fn ask(rt: &impl Abort, alloc: Global, names: &mut Names, asked: &str, told: &mut String) {
    let mut words = asked.split_whitespace();
    match words.next().unwrap_or("") {
        "hello" => hello(rt, names, number(rt, &mut words), told),
        "request" => put_change(rt, told, request(rt, alloc, names, &mut words)),
        "release" => put_change(rt, told, release(rt, alloc, names, &mut words)),
        "gone" => names.gone(number(rt, &mut words)),
        word => look(rt, alloc, names, word, &mut words, told),
    }
}

/// Whether a row `WORDS => DUE` comes to what is due.
fn holds(rt: &impl Abort, alloc: Global, names: &mut Names, row: &str) -> bool {
    let (asked, due) = row.split_once(" =>").expect(rt, "a row");
    let mut told = String::new(alloc);
    ask(rt, alloc, names, asked, &mut told);
    told.as_str().trim() == due.trim()
}

/// Each row holds, one behind another.
fn play(rt: &impl Abort, alloc: Global, names: &mut Names, rows: &str) {
    for row in rows.lines() {
        check(rt, row, holds(rt, alloc, names, row));
    }
}

/// The same of names that nobody has yet: some rows, and others behind them.
fn play_anew(rt: &impl Abort, alloc: Global, before: &str, rows: &str) {
    let mut names = Names::new(alloc);
    play(rt, alloc, &mut names, before);
    play(rt, alloc, &mut names, rows);
}

/// Cases with a blank line between two. A name goes to the one that replaces its owner, and back: who gave it back
/// stands nowhere, and a name that nobody has is not there. Unique names count on, also behind one that left.
/// Well-known names are in the order of their bytes, and one that is not there owns nothing. Then connections that wait
/// and ask again with other flags.
const CASES: &str = "\
hello 0 => :1.0
hello 1 => :1.1
request 0 x.y 1 => 1 - 0
request 1 x.y 2 => 1 0 1
queue x.y => 1/2 0/1
list => org.freedesktop.DBus :1.0 :1.1 x.y
release 1 x.y => 1 1 0
owner x.y => 0
release 1 x.y => 3 0 0
release 0 x.y => 1 0 -
release 0 x.y => 2 - -
list => org.freedesktop.DBus :1.0 :1.1

hello 0 => :1.0
hello 1 => :1.1
hello 2 => :1.2
gone 1 =>
hello 7 => :1.3
hello 5 => :1.4
queue :1.3 => 7/0
owner :1.4 => 5
unique 7 => yes
unique 1 => no
list => org.freedesktop.DBus :1.0 :1.2 :1.4 :1.3

hello 0 => :1.0
hello 1 => :1.1
request 1 b.a 0 => 1 - 1
request 1 a.c 0 => 1 - 1
request 1 _.z 0 => 1 - 1
request 1 a.b.c 0 => 1 - 1
request 1 -x.y 0 => 1 - 1
request 1 A.b 0 => 1 - 1
list => org.freedesktop.DBus :1.0 :1.1 -x.y A.b _.z a.b.c a.c b.a
release 1 a.c => 1 1 -
owned 1 => -x.y A.b _.z a.b.c b.a
gone 1 =>
owned 1 => none
list => org.freedesktop.DBus :1.0

hello 0 => :1.0
hello 1 => :1.1
hello 2 => :1.2
request 0 a.b 0 => 1 - 0
request 1 a.b 0 => 2 0 0
request 2 a.b 0 => 2 0 0
request 1 a.b 3 => 2 0 0
queue a.b => 0/0 1/3 2/0

hello 0 => :1.0
hello 1 => :1.1
hello 2 => :1.2
request 0 a.b 0 => 1 - 0
request 1 a.b 0 => 2 0 0
request 2 a.b 0 => 2 0 0
request 1 a.b 4 => 3 0 0
queue a.b => 0/0 2/0

hello 0 => :1.0
hello 1 => :1.1
hello 2 => :1.2
request 0 a.b 1 => 1 - 0
request 1 a.b 0 => 2 0 0
request 2 a.b 0 => 2 0 0
request 1 a.b 2 => 1 0 1
queue a.b => 1/2 0/1 2/0

hello 0 => :1.0
hello 1 => :1.1
hello 2 => :1.2
request 0 a.b 1 => 1 - 0
request 1 a.b 0 => 2 0 0
request 2 a.b 0 => 2 0 0
request 1 a.b 6 => 1 0 1
queue a.b => 1/6 0/1 2/0

hello 0 => :1.0
hello 1 => :1.1
hello 2 => :1.2
request 0 a.b 5 => 1 - 0
request 1 a.b 1 => 2 0 0
request 2 a.b 0 => 2 0 0
request 1 a.b 7 => 1 0 1
queue a.b => 1/7 2/0";

#[test]
fn names_go_from_one_to_another(rt: HostRuntime) {
    for rows in CASES.split("\n\n") {
        play_anew(&rt, rt.alloc(), "", rows);
    }
}

/// D-Bus Specification, RequestName: a row for each flags of the owner, a column for each of the requester.
const ANSWERS: [&[u8; 8]; 8] = [
    b"22223333",
    b"22113311",
    b"22223333",
    b"22113311",
    b"22223333",
    b"22113311",
    b"22223333",
    b"22113311",
];

/// Whether the queue behind an answer is what is due: a replaced owner with flag 4 does not wait.
fn is_queue_after(queue: &[(u32, u32)], answer: u8, owner: u32, requester: u32) -> bool {
    match answer {
        b'1' if owner >= 4 => queue == [(1, requester)].as_slice(),
        b'1' => queue == [(1, requester), (0, owner)].as_slice(),
        b'2' => queue == [(0, owner), (1, requester)].as_slice(),
        _ => queue == [(0, owner)].as_slice(),
    }
}

/// Whether a connection that asks for a name is answered so.
fn is_answered(
    rt: &impl Abort,
    names: &mut Names,
    name: &BusName,
    asking: (u32, u32),
    due: (u32, Option<u32>, Option<u32>),
) -> bool
    requires not_unique { is_unique_name name.now ≡ false }
    requires not_the_bus { name.now ≢ owners.own_name }
{
    let (conn, flags) = asking;
    let change = names.request(conn, name, flags).expect(rt, "memory");
    (change.answer, change.before, change.after) == due
}

/// Whether the second of two connections that ask for a name with these flags is answered so.
fn is_pair(rt: &impl Abort, alloc: Global, answer: u8, owner: u32, requester: u32) -> bool {
    let mut names = Names::new(alloc);
    play(rt, alloc, &mut names, "hello 0 => :1.0\nhello 1 => :1.1");
    let name = known(rt, alloc, &mut "a.b".split_whitespace());
    let digit = u32::from(answer.wrapping_sub(b'0'));
    let after = u32::from(answer == b'1');
    is_answered(rt, &mut names, &name, (0, owner), (1, None, Some(0)))
        && is_answered(
            rt,
            &mut names,
            &name,
            (1, requester),
            (digit, Some(0), Some(after)),
        )
        && is_queue_after(names.queue(&name), answer, owner, requester)
        && is_answered(
            rt,
            &mut names,
            &name,
            (after, 0),
            (4, Some(after), Some(after)),
        )
}

#[test]
fn each_pair_of_flags_has_its_answer(rt: HostRuntime) {
    for owner in 0..8_u32 {
        for requester in 0..8_u32 {
            let answer = ANSWERS[owner as usize][requester as usize];
            assert!(rt; is_pair(&rt, rt.alloc(), answer, owner, requester));
        }
    }
}

/// Five connections, of which the first owns a name and the others wait for it.
const FIVE: &str = "\
hello 0 => :1.0
hello 1 => :1.1
hello 2 => :1.2
hello 3 => :1.3
hello 4 => :1.4
request 0 org.example.Long-Name 0 => 1 - 0
request 1 org.example.Long-Name 1 => 2 0 0
request 2 org.example.Long-Name 0 => 2 0 0
request 3 org.example.Long-Name 3 => 2 0 0
request 4 org.example.Long-Name 1 => 2 0 0
queue org.example.Long-Name => 0/0 1/1 2/0 3/3 4/1";

/// One of them leaves the queue; who owns the name then, and the queue. A blank line stands between two cases.
const LEFT: &str = "\
release 0 org.example.Long-Name => 1 0 1
owner org.example.Long-Name => 1
queue org.example.Long-Name => 1/1 2/0 3/3 4/1

release 1 org.example.Long-Name => 1 0 0
owner org.example.Long-Name => 0
queue org.example.Long-Name => 0/0 2/0 3/3 4/1

release 2 org.example.Long-Name => 1 0 0
owner org.example.Long-Name => 0
queue org.example.Long-Name => 0/0 1/1 3/3 4/1

release 3 org.example.Long-Name => 1 0 0
owner org.example.Long-Name => 0
queue org.example.Long-Name => 0/0 1/1 2/0 4/1

release 4 org.example.Long-Name => 1 0 0
owner org.example.Long-Name => 0
queue org.example.Long-Name => 0/0 1/1 2/0 3/3

gone 0 =>
owner org.example.Long-Name => 1
queue org.example.Long-Name => 1/1 2/0 3/3 4/1

gone 1 =>
owner org.example.Long-Name => 0
queue org.example.Long-Name => 0/0 2/0 3/3 4/1

gone 2 =>
owner org.example.Long-Name => 0
queue org.example.Long-Name => 0/0 1/1 3/3 4/1

gone 3 =>
owner org.example.Long-Name => 0
queue org.example.Long-Name => 0/0 1/1 2/0 4/1

gone 4 =>
owner org.example.Long-Name => 0
queue org.example.Long-Name => 0/0 1/1 2/0 3/3";

#[test]
fn one_leaves_a_queue_from_each_place(rt: HostRuntime) {
    for rows in LEFT.split("\n\n") {
        play_anew(&rt, rt.alloc(), FIVE, rows);
    }
}

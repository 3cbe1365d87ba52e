//! The rules that well-known clients write, the faults one by one, and printing.

use crate::spelled::put_spelled;
use atspi_base::{Bytes, put_decimal};
use atspi_match::{Condition, MessageType, Rule, RuleRead};
use std::alloc::Global;
use std::process::Abort;
use std::test::*;

/// What is asked of the bytes of a rule.
#[derive(Clone, Copy)]
enum Asked {
    /// Reading it: 0 and the number of conditions, or the reason and the place.
    Read,
    /// Printing it.
    Printed,
}

/// What reading tells.
fn told(alloc: Global, bytes: &[u8]) -> (u32, u32) {
    match Rule::parse(alloc, bytes) {
        Ok(rule) => (0, rule.conditions().len().min(999) as u32),
        Err(RuleRead::Bad(fault)) => (fault.reason as u32, fault.place),
        Err(RuleRead::NoMemory) => (99, 0),
    }
}

// What finds no memory is left out; then what is told is not what is due.

/// Appends two numbers.
fn put_pair(out: &mut Bytes, pair: (u32, u32)) {
    let _ = put_decimal(u64::from(pair.0), out);
    let _ = out.push(b' ');
    let _ = put_decimal(u64::from(pair.1), out);
}

/// Appends the rule that bytes are, printed, behind the word `rule`.
fn put_printed(alloc: Global, out: &mut Bytes, bytes: &[u8]) {
    if let Ok(rule) = Rule::parse(alloc, bytes) {
        let _ = out.extend(b"rule ");
        let _ = rule.print(out);
    }
}

/// Appends what is told of bytes.
fn put_told(alloc: Global, out: &mut Bytes, asked: Asked, bytes: &[u8]) {
    match asked {
        Asked::Read => put_pair(out, told(alloc, bytes)),
        Asked::Printed => put_printed(alloc, out, bytes),
    }
}

/// Whether of the bytes of a row is told what is due, as `BYTES => DUE`.
fn holds(alloc: Global, asked: Asked, row: &str) -> bool {
    let (spelled, due) = row.split_once(" => ").unwrap_or((row, ""));
    let mut bytes = Bytes::new(alloc);
    let mut out = Bytes::new(alloc);
    put_spelled(&mut bytes, spelled);
    put_told(alloc, &mut out, asked, bytes.as_slice());
    out.as_slice() == due.as_bytes()
}

/// Each row of a table is told as is due.
fn try_rows(rt: &impl Abort, alloc: Global, asked: Asked, rows: &str) {
    for row in rows.split('\n') {
        assert!(rt; holds(alloc, asked, row), "{row}");
    }
}

/// The empty rule, and rules of libdbus.
const LIBDBUS: &str = "\
\x20=> 0 0
type='signal' => 0 1
type='signal',interface='org.freedesktop.DBus' => 0 2
type='method_call' => 0 1
type='method_return' => 0 1
type='error' => 0 1
type=signal => 0 1
eavesdrop=true => 0 1
eavesdrop='false' => 0 1
type='signal',sender='org.freedesktop.DBus',path='/org/freedesktop/DBus',interface='org.freedesktop.DBus',member='NameOwnerChanged' => 0 5
type='signal',sender='org.freedesktop.DBus',member='NameOwnerChanged',arg0='org.a11y.Bus' => 0 4
type='signal', interface='org.a11y.atspi.Event.Object' => 0 2
type='signal',interface='org.a11y.atspi.Event.Object', => 0 2
interface='org.a11y.atspi.Event.Object' => 0 1
interface=org.a11y.atspi.Event.Object,member=StateChanged => 0 2";

/// Rules of GDBus.
const GDBUS: &str = "\
type='signal',sender=':1.4',interface='org.gtk.Actions',member='Changed',path='/org/gnome/Clocks' => 0 5
type='signal',sender='org.freedesktop.DBus',interface='org.freedesktop.DBus',member='NameOwnerChanged',path='/org/freedesktop/DBus',arg0='org.gnome.Shell' => 0 6
type='signal',path_namespace='/org/freedesktop/NetworkManager' => 0 2
type='signal',arg0namespace='org.mpris.MediaPlayer2' => 0 2
type='signal',arg0namespace='mpris' => 0 2
type='signal',arg0path='/org/gnome/desktop/' => 0 2
type='signal',interface='org.freedesktop.DBus.Properties',member='PropertiesChanged',path='/org/bluez',arg0='org.bluez.Adapter1' => 0 5";

/// Rules of sd-bus.
const SD_BUS: &str = "\
type='signal',sender='org.freedesktop.systemd1',path='/org/freedesktop/systemd1',interface='org.freedesktop.systemd1.Manager',member='JobRemoved' => 0 5
sender='org.freedesktop.login1',path='/org/freedesktop/login1' => 0 2
type='signal',sender='org.freedesktop.DBus',path='/org/freedesktop/DBus',interface='org.freedesktop.DBus',member='NameOwnerChanged',arg0=':1.7',arg1=':1.7',arg2='' => 0 8
destination=':1.2' => 0 1
type='method_call',destination=':1.2',path='/',interface='org.freedesktop.DBus.Peer',member='Ping' => 0 5";

/// Rules of at-spi2-core and Orca.
const ATSPI: &str = "\
type='signal',interface='org.a11y.atspi.Event.Window' => 0 2
type='signal',interface='org.a11y.atspi.Event.Object',member='ChildrenChanged' => 0 3
type='signal',interface='org.a11y.atspi.Event.Object',member='PropertyChange',arg0path='accessible-name/' => 0 4
type='signal',interface='org.a11y.atspi.Event.Object',member='PropertyChange',arg0='accessible-name' => 0 4
type='signal',interface='org.a11y.atspi.Cache',member='AddAccessible' => 0 3
type='signal',interface='org.a11y.atspi.Registry',member='EventListenerRegistered',sender='org.a11y.atspi.Registry' => 0 4
type='signal', interface='org.a11y.atspi.Socket', member='Available' => 0 3
arg0path='accessible-name/' => 0 1";

/// Keys and values at their ends.
const ENDS: &str = "\
arg0='',arg63='',arg63path='' => 0 3
arg9=a,arg10=b,arg62path=c => 0 3
 %09type=signal,%09 member=a => 0 2
arg0='a,b=c',arg1=d\\e,arg2=\\' => 0 3
arg0=%c3%a9,arg1='%c3'%a9 => 0 2";

#[test]
fn rules_of_clients_are_read(rt: HostRuntime) {
    try_rows(&rt, rt.alloc(), Asked::Read, LIBDBUS);
    try_rows(&rt, rt.alloc(), Asked::Read, GDBUS);
    try_rows(&rt, rt.alloc(), Asked::Read, SD_BUS);
    try_rows(&rt, rt.alloc(), Asked::Read, ATSPI);
    try_rows(&rt, rt.alloc(), Asked::Read, ENDS);
}

/// Reason 1: no `=`.
const NO_EQUALS: &str = "\
, => 1 0
type => 1 0
   => 1 2
  type => 1 2
type='signal',,member=a => 1 14
type='signal',  => 1 15
type='signal',, => 1 14
type='signal',x,member=a => 1 14
'a,b'=c => 1 0";

/// Reason 2: no such key.
const NO_KEY: &str = "\
=a => 2 0
Type='signal' => 2 0
type ='signal' => 2 0
arg00='a' => 2 0
arg64='a' => 2 0
arg100='a' => 2 0
arg=a => 2 0
arg1namespace=a => 2 0
type='signal',arg='a',member=b => 2 14
type='signal',x=' => 2 14";

/// Reason 3: twice.
const TWICE: &str = "\
type='signal',type='error' => 3 14
arg1=a,member=b,arg1=c => 3 16
arg1=a,arg1=' => 3 7";

/// Reason 4: not closed.
const NOT_CLOSED: &str = "\
member='a => 4 7
arg0='a'b'c,arg1=d => 4 9
type='signal',arg0=\\'' => 4 21
type='none,x => 4 5
arg0='\\'',arg1=a => 4 8";

/// Reason 5: no such type.
const NO_TYPE: &str = "\
type='' => 5 5
type='Signal',x => 5 5
member=a, type=signals => 5 15
type='%ff' => 5 5";

/// Reason 6: no such value.
const NO_VALUE: &str = "\
path='a' => 6 5
sender='a',member=b => 6 7
destination=:1 => 6 12
interface=a => 6 10
member=a.b => 6 7
path_namespace='/a/' => 6 15
arg0namespace=a..b => 6 14
arg0namespace=1a => 6 14
eavesdrop=yes => 6 10
arg0=%ff => 6 5
type=signal,arg3='a%00' => 6 17";

/// Reason 7: both paths.
const BOTH_PATHS: &str = "\
path='/',path_namespace='/' => 7 9
path_namespace=/,member=a,path=b => 7 26";

#[test]
fn faults_are_told_at_their_place(rt: HostRuntime) {
    try_rows(&rt, rt.alloc(), Asked::Read, NO_EQUALS);
    try_rows(&rt, rt.alloc(), Asked::Read, NO_KEY);
    try_rows(&rt, rt.alloc(), Asked::Read, TWICE);
    try_rows(&rt, rt.alloc(), Asked::Read, NOT_CLOSED);
    try_rows(&rt, rt.alloc(), Asked::Read, NO_TYPE);
    try_rows(&rt, rt.alloc(), Asked::Read, NO_VALUE);
    try_rows(&rt, rt.alloc(), Asked::Read, BOTH_PATHS);
}

/// Rules of 1024 bytes and more, as pieces.
const LONG: &str = "\
* arg0='*1 a*1017 '*1 => 0 1
* arg0='*1 a*1018 '*1 => 8 1024
* arg0='*1 a*1016 ',*1 => 0 1
* arg0='*1 a*1017 ',*1 => 8 1024
* arg0='*1 a*1016 ',x*1 => 1 1024
* arg0='*1 a*1017 ',x*1 => 8 1024
* arg0='*1 a*1015 ',x=abc*1 => 2 1023";

/// Rules, and what they are printed as.
const PRINTED: &str = "\
\x20=> rule 
arg0='it'\\''s' => rule arg0='it'\\''s'
member=a, type=signal => rule type='signal',member='a'
eavesdrop=true,arg0namespace=a.b,arg63path=/a,arg10='',destination=a.b,path=/,sender=:1.2 => rule sender=':1.2',path='/',destination='a.b',arg10='',arg63path='/a',arg0namespace='a.b',eavesdrop='true'
arg1=\\',interface=a.b,path_namespace=/a => rule interface='a.b',path_namespace='/a',arg1=''\\'''";

#[test]
fn rules_have_at_most_1024_bytes_and_are_printed_in_order(rt: HostRuntime) {
    try_rows(&rt, rt.alloc(), Asked::Read, LONG);
    try_rows(&rt, rt.alloc(), Asked::Printed, PRINTED);
}

/// Whether these are the type `error` and the first argument `it's`.
fn are_due(conditions: &[Condition]) -> bool {
    let [first, second] = conditions else {
        return false;
    };
    matches!(first, Condition::Kind(MessageType::Error))
        && matches!(second, Condition::Arg { index: 0, .. })
        && first.value() == b"error".as_slice()
        && second.value() == b"it's".as_slice()
}

#[test]
fn a_value_is_what_its_spelling_means(rt: HostRuntime) {
    let read = Rule::parse(rt.alloc(), b"arg0='it'\\''s',type=error");
    assert!(rt; read.is_ok_and(|rule| are_due(rule.conditions())));
}

//! What replies tell.

use crate::made::{lent, put, returned, stop_unless};
use crate::news::shown::{put_item, put_what};
use atspi_base::valid_names::Path;
use atspi_base::{Bytes, put_decimal};
use atspi_protocol::news::PartName;
use atspi_reader_news::{items_told, part_told};
use atspi_tree_model::Item;
use std::alloc::Global;
use std::process::Abort;

/// The bytes of a return, and the type for whose it is taken. It is spelled by that type, `|`, and what it carries.
fn reply(rt: &impl Abort, alloc: Global, spelled: &str) -> (Bytes, u8) {
    let (kind, carried) = spelled.split_once('|').unwrap_or((spelled, ""));
    let kind = kind.parse::<u8>().expect(rt, "a type");
    (returned(rt, alloc, carried), kind)
}

/// Whether a message tells so many items and this one as the last, or `none`.
fn tells_list(rt: &impl Abort, alloc: Global, row: &str) -> bool {
    let (spelled, due) = row.split_once(" => ").expect(rt, "a row");
    let (bytes, kind) = reply(rt, alloc, spelled);
    let message = lent(rt, bytes.as_slice(), kind);
    let mut out = Bytes::new(alloc);
    match &items_told(alloc, &message).expect(rt, "memory") {
        Some(items) => put_last(rt, &mut out, items.as_slice()),
        None => put(rt, &mut out, b"none"),
    }
    out.as_slice() == due.as_bytes()
}

/// Appends how many items there are, and the last of them.
fn put_last(rt: &impl Abort, out: &mut Bytes, items: &[Item]) {
    put_decimal(items.len() as u64, out).expect(rt, "memory");
    put(rt, out, b" ");
    if let Some(last) = items.last() {
        put_item(rt, out, last);
    }
}

/// Messages with the values that they carry, and the items that they tell: how many, and the last.
const LISTS: &str = "\
2|a((so)(so)(so)iiassusau)|items=0 => 0 \n\
2|a((so)(so)(so)iiassusau)|items=1 => 1 :1.7/a :1.7/r é/p 0 0 +a.B+ <OK> 43 <Does it> 1\n\
2|a((so)(so)(so)iiassusau)|items=2 => 2 :1.7/a :1.7/r é/p 1 0 +a.B+ <OK> 43 <Does it> 1\n\
2|a((so)(so)(so)iiassusau)|items=40 => 40 :1.7/a :1.7/r é/p 39 0 +a.B+ <OK> 43 <Does it> 1\n\
3|a((so)(so)(so)iiassusau)|items=1 => none\n\
2 => none\n\
2|as|u=0 => none\n\
2|((so)(so)(so)iiassusau)|(|(|s=:1.7|s=/a|(|s=:1.7|s=/r|(|s=é|s=/p|i=1|i=0|u=13|s=a.B|s=|s=OK|u=43|s=Does it|u=0 => none\n\
2|a((so)(so)(so)iiassusau)s|items=1|s= => none";

#[test]
fn items_are_told(rt: HostRuntime) {
    for row in LISTS.split('\n') {
        stop_unless(&rt, row, tells_list(&rt, rt.alloc(), row));
    }
}

/// The part of a name.
fn part_of(rt: &impl Abort, name: &str) -> PartName {
    match name {
        "Text" => PartName::Text,
        "Caret" => PartName::Caret,
        other => {
            stop_unless(rt, other, other == "Columns");
            PartName::Columns
        }
    }
}

/// Parts, messages with the values that they carry, and what they tell of the part.
const PARTS: &str = "\
Text 2|s|s=hé => TextIs /a <hé>\n\
Caret 2|v|v=i|i=3 => CaretIs /a 3\n\
Caret 2|v|v=i|i=0 => CaretIs /a 0\n\
Caret 2|v|v=i|i=2147483647 => CaretIs /a 2147483647\n\
Columns 2|v|v=i|i=3 => ColumnsIs /a 3\n\
Caret 2|v|v=i|i=-1 => none\n\
Columns 2|v|v=i|i=-2147483648 => none\n\
Caret 2|v|v=u|u=3 => none\n\
Columns 2|v|v=u|u=3 => none\n\
Text 2|v|v=s|s=hi => none\n\
Text 2 => none\n\
Text 2|i|i=3 => none\n\
Text 2|ss|s=a|s=b => none\n\
Text 2|vv|v=i|i=3|v=i|i=3 => none\n\
Caret 2 => none\n\
Caret 2|i|i=3 => none\n\
Caret 2|ss|s=a|s=b => none\n\
Caret 2|vv|v=i|i=3|v=i|i=3 => none\n\
Columns 2 => none\n\
Columns 2|i|i=3 => none\n\
Columns 2|ss|s=a|s=b => none\n\
Columns 2|vv|v=i|i=3|v=i|i=3 => none\n\
Text 3|s|s=hi => none\n\
Caret 3|v|v=i|i=3 => none";

/// Whether the message of a row tells what is due of a part of the row `/a`, or `none`.
fn tells_part(rt: &impl Abort, alloc: Global, row: &str) -> bool {
    let (asked, due) = row.split_once(" => ").expect(rt, "a row");
    let (name, spelled) = asked.split_once(' ').expect(rt, "a part");
    let (bytes, kind) = reply(rt, alloc, spelled);
    let message = lent(rt, bytes.as_slice(), kind);
    let path = Path::read(alloc, b"/a").expect(rt, "a path");
    let mut out = Bytes::new(alloc);
    let told = part_told(alloc, part_of(rt, name), &path, &message).expect(rt, "memory");
    put_what(rt, &mut out, told);
    out.as_slice() == due.as_bytes()
}

#[test]
fn parts_are_told(rt: HostRuntime) {
    for row in PARTS.split('\n') {
        stop_unless(&rt, row, tells_part(&rt, rt.alloc(), row));
    }
}

//! Bytes that spell no line, and the first reason of each. What is due was worked out by hand.

use crate::lines::forms::FORMS;
use atspi_base::{Bytes, NoMemory};
use atspi_script_lines::{LineFault, parse_line};
use std::alloc::Global;
use std::test::*;

/// Why the bytes are no line, where they are none.
fn fault(alloc: Global, bytes: &[u8]) -> Option<LineFault> {
    parse_line(alloc, bytes).err()
}

/// Appends texts one behind another.
fn put_pieces(out: &mut Bytes, front: &str, middle: &str, back: &str) -> Result<(), NoMemory> {
    out.extend(front.as_bytes())?;
    out.extend(middle.as_bytes())?;
    out.extend(back.as_bytes())
}

/// Whether a line of three pieces is refused as out of its form.
fn is_formless(alloc: Global, front: &str, middle: &str, back: &str) -> bool {
    let mut line = Bytes::new(alloc);
    let put = put_pieces(&mut line, front, middle, back);
    let fault = fault(alloc, line.as_slice());
    put.is_ok() && fault == Some(LineFault::Form)
}

/// Lines that are none, since one word or number is out of its form, with `|` between any two.
const WRONG: &str = "\
readers|\
Reader|\
blank|\
turns|\
turns |\
turns 01|\
turns 00|\
turns +1|\
turns -1|\
turns 1.0|\
turns 4294967296|\
turns 99999999999999999999|\
turns \u{661}|\
turns \"1\"|\
quota 1023|\
quota 0|\
quota 16777217|\
app Demo|\
app \"Demo|\
app Demo\"|\
app \"De\"mo\"|\
app \"\\\"|\
app \"\\x1F\"|\
app \"\\x41\"|\
app \"\\n\"|\
app \"\\x1\"|\
app \"\u{1}\"|\
app \"\u{7f}\"|\
app \"\\x00\"|\
app \"x\"y|\
app|\
edit a16 focus 0|\
edit a00 focus 0|\
edit a focus 0|\
edit r0 focus 0|\
edit reg focus 0|\
edit a0|\
edit a0 jump 0|\
edit a0 role 1 Static|\
edit a0 role 1 push button|\
edit a0 role 1 4294967296|\
edit a0 state 1 44 on|\
edit a0 state 1 checked yes|\
edit a0 state 1 checked|\
edit a0 insert 0 0 frame|\
edit a0 insert 0 0 frame \"x\" columns|\
edit a0 insert 0 0 frame \"x\" text|\
edit a0 insert 0 0 frame \"x\" text \"a\" static \"b\"|\
edit a0 insert 0 0 frame \"x\" columns 2 text \"a\"|\
edit a0 insert 0 0 frame \"x\" select columns 2|\
edit a0 insert 0 0 frame \"x\" select select|\
edit a0 insert 0 0 frame \"x\" action \"a\" select|\
edit a0 insert 0 0 frame \"x\" action|\
edit a0 insert 0 0 0 \"\" action \"1\" action \"2\" action \"3\" action \"4\" action \"5\" action \"6\" action \"7\" action \"8\" action \"9\"|\
call r0 a0 2147483648 select-all|\
call r0 a0 1 set-caret 2147483648|\
call r0 a0 1 do-action 4294967295|\
call r0 a0 1 delete-text 0 2147483648|\
call r0 a0 1 insert-text 2147483648 \"x\"|\
call a0 r0 1 select-all|\
call r4 a0 1 select-all|\
call r0 a0 1|\
call r0 a0 1 jump|\
swap r0|\
exit r0|\
leave a0|\
leave r4|\
bytes bus up 1|\
bytes a0 sideways 1|\
bytes a0 up|\
show a0 r0|\
show r0|\
drain\n|\
# \u{e9}\nx drain x\u{0}y";

/// Why a line that begins as a comment is refused, or any other.
fn due_of(spelled: &str) -> Option<LineFault> {
    if spelled.starts_with("#") {
        return None;
    }
    Some(LineFault::Form)
}

#[test]
fn words_out_of_their_form_are_refused(rt: HostRuntime) {
    for spelled in WRONG.split('|') {
        let fault = fault(rt.alloc(), spelled.as_bytes());
        assert!(rt; fault == due_of(spelled), "line {spelled:?}");
    }
}

/// What stands behind a line that ends before it, with `|` between any two.
const ENDS: &str = " 7| |\r|\0|\t|\n";

/// Whether a line is refused with each of these behind it, and with a blank before it.
fn is_refused_with_more(alloc: Global, spelled: &str) -> bool {
    for end in ENDS.split('|') {
        if !is_formless(alloc, spelled, end, "") {
            return false;
        }
    }
    is_formless(alloc, " ", spelled, "")
}

/// Whether a line of more than one word is refused without its last one. A list of which no child can be selected is a
/// form too.
fn is_refused_without_last(alloc: Global, spelled: &str) -> bool {
    match spelled.rsplit_once(' ') {
        Some((front, last)) => last == "select" || is_formless(alloc, front, "", ""),
        None => true,
    }
}

/// What may not stand in place of a blank, with `|` between any two.
const BLANKS: &str = "  |\t|| \t";

/// Whether a line of these two pieces is refused with each of them between, and without the second piece.
fn is_refused_between(alloc: Global, front: &str, back: &str) -> bool {
    for blank in BLANKS.split('|') {
        if !is_formless(alloc, front, blank, back) {
            return false;
        }
    }
    is_formless(alloc, front, "", "")
}

/// Whether a line of more than one word is refused with another blank behind the first one.
fn is_refused_with_another_blank(alloc: Global, spelled: &str) -> bool {
    match spelled.split_once(' ') {
        Some((front, back)) => is_refused_between(alloc, front, back),
        None => true,
    }
}

/// Whether the line of a row of the forms, where it is not blank, is refused with a word too many or too few and with
/// another blank.
fn is_refused_otherwise(alloc: Global, row: &str) -> bool {
    match row.split_once(" => ") {
        Some((_, "Blank")) => true,
        Some((spelled, _)) => {
            is_refused_with_more(alloc, spelled)
                && is_refused_without_last(alloc, spelled)
                && is_refused_with_another_blank(alloc, spelled)
        }
        None => false,
    }
}

#[test]
fn each_form_is_refused_with_other_words_or_blanks(rt: HostRuntime) {
    for row in FORMS.split('\n') {
        assert!(rt; is_refused_otherwise(rt.alloc(), row), "{row}");
    }
}

/// A front, so many of one byte, and a back, and why they are no line: the length is looked at first, then whether they
/// are UTF-8.
const LONG: &str = "\
#,120,65535, => fine
#,120,65536, => long
#,255,65536, => long
app \",120,65530,\" => fine
app \",120,65531,\" => long
,120,65536, => form
,120,65537, => long
,255,65536, => no UTF-8
turns ,48,65530, => form";

/// The fault that a row says; none where it is fine.
fn fault_of(said: &str) -> Option<LineFault> {
    match said {
        "long" => Some(LineFault::Long),
        "no UTF-8" => Some(LineFault::NotUtf8),
        "form" => Some(LineFault::Form),
        _ => None,
    }
}

/// Appends a byte so many times.
fn put_many(out: &mut Bytes, byte: u8, count: u32) -> Result<(), NoMemory> {
    for _ in 0..count {
        out.push(byte)?;
    }
    Ok(())
}

/// Appends the bytes that are spelled `FRONT,BYTE,COUNT,BACK`.
fn put_filled(out: &mut Bytes, spelled: &str) -> Result<(), NoMemory> {
    let mut words = spelled.split(',');
    let front = words.next().unwrap_or("");
    let byte = words.next().unwrap_or("").parse::<u8>().unwrap_or(0);
    let count = words.next().unwrap_or("").parse::<u32>().unwrap_or(0);
    out.extend(front.as_bytes())?;
    put_many(out, byte, count)?;
    out.extend(words.next().unwrap_or("").as_bytes())
}

/// Whether the bytes of a row have the fault that it says.
fn has_fault(alloc: Global, row: &str) -> bool {
    let (spelled, said) = row.split_once(" => ").unwrap_or((row, ""));
    let mut line = Bytes::new(alloc);
    let put = put_filled(&mut line, spelled);
    let fault = fault(alloc, line.as_slice());
    put.is_ok() && fault == fault_of(said)
}

#[test]
fn long_lines_are_refused_first(rt: HostRuntime) {
    for row in LONG.lines() {
        assert!(rt; has_fault(rt.alloc(), row), "{row}");
    }
}

/// Whether bytes are refused since they are no UTF-8.
fn is_no_utf8(alloc: Global, bytes: &[u8]) -> bool {
    fault(alloc, bytes) == Some(LineFault::NotUtf8)
}

#[test]
fn bytes_that_are_no_utf8_are_refused_next(rt: HostRuntime) {
    assert!(rt; is_no_utf8(rt.alloc(), b"#\xff"));
    assert!(rt; is_no_utf8(rt.alloc(), b"#\xc3"));
    assert!(rt; is_no_utf8(rt.alloc(), b"#\xed\xa0\x80"));
    assert!(rt; is_no_utf8(rt.alloc(), b"#\xf4\x90\x80\x80"));
    assert!(rt; fault(rt.alloc(), b"#\xf0\x9f\x98\x80 \0").is_none());
    assert!(rt; is_no_utf8(rt.alloc(), b"app \"\xc3\x28\""));
    assert!(rt; is_no_utf8(rt.alloc(), b"turns 1\xff"));
    assert!(rt; fault(rt.alloc(), b"app \"\0\"") == Some(LineFault::Form));
}

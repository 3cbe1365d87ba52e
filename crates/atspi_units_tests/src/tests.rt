//! Pieces of texts, worked out by hand: words from the rules WB1 to WB999 of Unicode Standard Annex 29.

use crate::rows::{holds, text_of};
use crate::windows::{hold_in_windows, told_inside};
use atspi_units::Grain;
use std::alloc::Global;
use std::test::*;

const WORDS: &str = "\
The÷ ÷quick÷ ÷(÷\"÷brown÷\"÷)÷ ÷fox
can't÷ ÷stop
can\u{2019}t÷ ÷stop
'÷a÷'
a÷'÷ ÷b
a÷\"÷b
3.2÷,÷ ÷4
1,000.5÷ ÷m
1÷,÷a
a÷,÷b
a.b÷.
a:b÷:÷ ÷:÷a
1÷:÷2
1;2÷;
a÷;÷b
a_b÷ ÷_1_÷.
__a__÷-÷b
3a4÷ ÷x2
$÷3.5÷%
e.g÷.÷ ÷i
.÷.÷.
1÷.÷.÷2
1÷.÷a
a÷@÷b.c
http÷:÷/÷/÷a.b
a÷  ÷b
a÷\t÷ ÷b
\t÷\t
a÷\u{a0}÷\u{a0}÷b
\u{3000}\u{3000}÷a
a÷␍␊÷b
a÷␊÷␍÷b
␊÷␊
a÷\u{2028}÷b
a÷\u{85}÷b
e\u{301}t÷ 
 \u{301}÷a
␊÷\u{301}÷a
\u{301}÷a
n\u{303}'o÷ ÷n'\u{303}o
a\u{ad}b÷ ÷a\u{200d}b÷ ÷a\u{200c}b
a÷\u{200b}÷b
\u{5d0}\"\u{5d1}÷ ÷a
\u{5d0}÷\"÷ 
\u{5d0}'÷ ÷a
\u{5d0}÷\"÷a
\u{5d0}\u{5d1}÷ ÷\u{5d0}'\u{5d1}
中÷文÷字
ひ÷ら
カタカナ÷の
カー÷と
カ_カ÷ ÷1_カ
한국÷ ÷어
ก\u{e31}÷ก÷า
\u{633}\u{644}÷ ÷\u{661}\u{66c}\u{662}
\u{928}\u{92e}\u{938}\u{94d}\u{924}\u{947}÷ 
\u{1f1f7}\u{1f1fa}÷\u{1f1f8}\u{1f1f9}
a÷\u{1f1f7}\u{1f1fa}÷\u{1f1f8}÷b
\u{1f1f7}\u{200d}\u{1f1fa}÷\u{1f1f8}
\u{1f469}\u{200d}\u{1f52c}÷a
\u{1f469}\u{200d}÷a÷\u{1f469}
a\u{200d}\u{1f469}÷ 
\u{1f476}\u{1f3ff}÷\u{1f476}
\u{2764}\u{fe0f}÷ ÷1\u{fe0f}\u{20e3}
\u{10400}\u{10401}÷ 
x";

const LINES: &str = "\
one
one␊
one␊÷two
one␊÷␊÷two␊
␊÷␊
a␍␊÷b
a\u{2028}b\u{85}c
é\u{301}␊÷中␊÷🇷";

const CHARACTERS: &str = "\
a
a÷b÷␍÷␊
e÷\u{301}÷🇷÷🇺
中÷\u{200d}÷字";

/// Whether a row says what is told of its text, in the whole and in each window.
fn is_right(alloc: Global, unit: Grain, row: &str) -> Option<bool> {
    let text = text_of(alloc, row)?;
    let text = text.as_str();
    Some(holds(unit, text, row) && hold_in_windows(unit, text))
}

/// The first row of a table that does not.
fn wrong_row(alloc: Global, unit: Grain, table: &str) -> Option<&str> {
    for row in table.lines() {
        if is_right(alloc, unit, row) != Some(true) {
            return Some(row);
        }
    }
    None
}

#[test]
fn pieces_are_those_of_the_rules(rt: HostRuntime) {
    assert_eq!(rt; wrong_row(rt.alloc(), Grain::Word, WORDS), None);
    assert_eq!(rt; wrong_row(rt.alloc(), Grain::Line, LINES), None);
    assert_eq!(rt; wrong_row(rt.alloc(), Grain::Char, CHARACTERS), None);
}

/// A window tells a piece where it shows what stands around it: of a word a blank, punctuation or an ideograph before it,
/// and another with the character that follows it; of a line the line feeds, and what follows its own.
const SEEN: &str = "\
word 2 = 1 5 = \u{20}stop now
word 2 = none = \u{20}stop\u{20}
word 0 = none = stop\u{20}
word 3 = none = \u{20}stop
word 1 = 1 2 = 中文字
word 5 = 5 10 = said can't, or 3
line 3 = 2 5 = a␊bc␊d
line 0 = none = a␊b
line 2 = none = a␊b
char 1 = 1 2 = abc";

/// What is told at a place of a window that reaches no end of the text, as a row says it.
fn is_seen(alloc: Global, row: &str) -> Option<bool> {
    let (asked, rest) = row.split_once(" = ")?;
    let (due, window) = rest.split_once(" = ")?;
    let (word, at) = asked.split_once(' ')?;
    let unit = match word {
        "char" => Grain::Char,
        "word" => Grain::Word,
        _ => Grain::Line,
    };
    let text = text_of(alloc, window)?;
    let told = told_inside(unit, text.as_str(), at.parse::<u32>().ok()?);
    match due.split_once(' ') {
        None => Some(told.is_none()),
        Some((start, end)) => {
            Some(told == Some((start.parse::<u32>().ok()?, end.parse::<u32>().ok()?)))
        }
    }
}

#[test]
fn windows_tell_what_they_show(rt: HostRuntime) {
    for row in SEEN.lines() {
        assert!(rt; is_seen(rt.alloc(), row) == Some(true), "{row}");
    }
}

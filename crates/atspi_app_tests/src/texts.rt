//! Calls of the interfaces Text and EditableText, of a node with the text `héllo`.

use crate::tables::{answers, makes};

/// What is told of a text, with its caret at 2 and `él` and `o` selected, and what calls do to it; each call meets what
/// those before it left.
const TEXTS: &str = "\
1 Text GetText i=0 i=-1 -> s [\"héllo\"]
1 Text GetText i=0 i=5 -> s [\"héllo\"]
1 Text GetText i=0 i=6 -> s [\"héllo\"]
1 Text GetText i=0 i=2147483647 -> s [\"héllo\"]
1 Text GetText i=-2147483648 i=-2147483648 -> s [\"héllo\"]
1 Text GetText i=0 i=-2147483648 -> s [\"héllo\"]
1 Text GetText i=2147483647 i=-2147483648 -> s [\"\"]
1 Text GetText i=-1 i=2 -> s [\"hé\"]
1 Text GetText i=1 i=-1 -> s [\"éllo\"]
1 - GetText i=1 i=3 -> s [\"él\"]
1 Text GetText i=4 i=5 -> s [\"o\"]
1 Text GetText i=0 i=0 -> s [\"\"]
1 Text GetText i=3 i=3 -> s [\"\"]
1 Text GetText i=4 i=2 -> s [\"\"]
1 Text GetText i=5 i=-1 -> s [\"\"]
1 Text GetText i=6 i=-1 -> s [\"\"]
1 Text GetText i=2147483647 i=-1 -> s [\"\"]
1 Text GetText i=2147483647 i=2147483647 -> s [\"\"]
1 Text GetCharacterAtOffset i=-2147483648 -> i [0]
1 Text GetCharacterAtOffset i=-1 -> i [0]
1 Text GetCharacterAtOffset i=0 -> i [104]
1 Text GetCharacterAtOffset i=1 -> i [233]
1 Text GetCharacterAtOffset i=4 -> i [111]
1 Text GetCharacterAtOffset i=5 -> i [0]
1 Text GetCharacterAtOffset i=2147483647 -> i [0]
1 Text GetNSelections -> i [2]
1 Text GetSelection i=-2147483648 -> ii [-1 -1]
1 Text GetSelection i=-1 -> ii [-1 -1]
1 Text GetSelection i=0 -> ii [1 3]
1 Text GetSelection i=1 -> ii [4 5]
1 Text GetSelection i=2 -> ii [-1 -1]
1 Text GetSelection i=2147483647 -> ii [-1 -1]
1 Text GetStringAtOffset i=0 u=0 -> sii [\"h\" 0 1]
1 Text GetStringAtOffset i=4 u=0 -> sii [\"o\" 4 5]
1 Text GetStringAtOffset i=5 u=0 -> sii [\"\" -1 -1]
1 Text GetStringAtOffset i=-1 u=0 -> sii [\"\" -1 -1]
1 Text GetStringAtOffset i=-2147483648 u=4 -> sii [\"\" -1 -1]
1 Text GetStringAtOffset i=2147483647 u=3 -> sii [\"\" -1 -1]
1 Text GetStringAtOffset i=3 u=1 -> sii [\"héllo\" 0 5]
1 Text GetStringAtOffset i=3 u=3 -> sii [\"héllo\" 0 5]
1 Text GetStringAtOffset i=0 u=2 -> !InvalidArgs
1 Text GetStringAtOffset i=9 u=5 -> !InvalidArgs
1 Text GetStringAtOffset i=0 u=4294967295 -> !InvalidArgs
1 Text GetTextAtOffset i=0 u=1 -> !UnknownMethod
1 Text SetCaretOffset i=2 -> b [true]
1 Text SetCaretOffset i=0 -> caret 1 0 => b [true]
1 Text SetCaretOffset i=5 -> caret 1 5 => b [true]
1 Text SetCaretOffset i=6 -> b [false]
1 Text SetCaretOffset i=-1 -> b [false]
1 Text SetCaretOffset i=-2147483648 -> b [false]
1 Text SetCaretOffset i=2147483647 -> b [false]
1 Text AddSelection i=0 i=2 -> marks 1 1 3 4 5 0 2 => b [true]
1 Text AddSelection i=0 i=5 -> marks 1 1 3 4 5 0 2 0 5 => b [true]
1 Text AddSelection i=1 i=3 -> marks 1 1 3 4 5 0 2 0 5 1 3 => b [true]
1 Text AddSelection i=3 i=3 -> b [false]
1 Text AddSelection i=3 i=1 -> b [false]
1 Text AddSelection i=0 i=6 -> b [false]
1 Text AddSelection i=-1 i=3 -> b [false]
1 Text AddSelection i=0 i=-1 -> b [false]
1 Text AddSelection i=-2147483648 i=2147483647 -> b [false]
1 Text AddSelection i=-2147483648 i=3 -> b [false]
1 Text AddSelection i=0 i=2147483647 -> b [false]
1 Text AddSelection i=5 i=5 -> b [false]
1 Text AddSelection i=2147483647 i=-1 -> b [false]
1 Text RemoveSelection i=4 -> marks 1 1 3 4 5 0 2 0 5 => b [true]
1 Text RemoveSelection i=2 -> marks 1 1 3 4 5 0 5 => b [true]
1 Text RemoveSelection i=2 -> marks 1 1 3 4 5 => b [true]
1 Text RemoveSelection i=2 -> b [false]
1 Text RemoveSelection i=-1 -> b [false]
1 Text RemoveSelection i=-2147483648 -> b [false]
1 Text RemoveSelection i=2147483647 -> b [false]
1 Text SetSelection i=0 i=1 i=3 -> b [true]
1 Text SetSelection i=0 i=2 i=4 -> marks 1 2 4 4 5 => b [true]
1 Text SetSelection i=1 i=0 i=5 -> marks 1 2 4 0 5 => b [true]
1 Text SetSelection i=2 i=0 i=1 -> b [false]
1 Text SetSelection i=0 i=3 i=3 -> b [false]
1 Text SetSelection i=0 i=0 i=6 -> b [false]
1 Text SetSelection i=0 i=-1 i=3 -> b [false]
1 Text SetSelection i=-1 i=0 i=1 -> b [false]
1 Text SetSelection i=2147483647 i=0 i=1 -> b [false]
1 Text SetSelection i=-2147483648 i=0 i=1 -> b [false]
1 Text SetSelection i=0 i=3 i=1 -> b [false]
1 Text SetSelection i=0 i=-2147483648 i=2147483647 -> b [false]
1 Text GetSelection i=1 -> ii [0 5]
1 EditableText DeleteText i=2 i=2 -> b [true]
1 EditableText DeleteText i=5 i=5 -> b [true]
1 EditableText DeleteText i=3 i=2 -> b [false]
1 EditableText DeleteText i=0 i=6 -> b [false]
1 EditableText DeleteText i=-1 i=2 -> b [false]
1 EditableText DeleteText i=0 i=-1 -> b [false]
1 EditableText DeleteText i=-2147483648 i=2147483647 -> b [false]
1 EditableText DeleteText i=-2147483648 i=3 -> b [false]
1 EditableText DeleteText i=0 i=2147483647 -> b [false]
1 EditableText DeleteText i=5 i=6 -> b [false]
1 EditableText DeleteText i=2147483647 i=2147483647 -> b [false]
1 Text GetNSelections -> i [2]
1 EditableText DeleteText i=0 i=1 -> caret 1 4|delete 1 0 \"h\" => b [true]
1 Text GetNSelections -> i [0]
1 EditableText DeleteText i=2 i=4 -> caret 1 2|delete 1 2 \"lo\" => b [true]
1 Text GetText i=0 i=-1 -> s [\"él\"]
1 EditableText InsertText i=0 s=x i=1 -> insert 1 0 \"x\"|caret 1 3 => b [true]
1 EditableText InsertText i=3 s=yz i=2147483647 -> insert 1 3 \"yz\" => b [true]
1 EditableText InsertText i=5 s=é i=0 -> insert 1 5 \"é\" => b [true]
1 EditableText InsertText i=0 s= i=0 -> b [true]
1 EditableText InsertText i=7 s=x i=1 -> b [false]
1 EditableText InsertText i=-1 s=x i=1 -> b [false]
1 EditableText InsertText i=-2147483648 s=x i=1 -> b [false]
1 EditableText InsertText i=7 s= i=0 -> b [false]
1 EditableText InsertText i=2147483647 s=x i=1 -> b [false]
1 Text GetText i=0 i=-1 -> s [\"xélyzé\"]
1 EditableText SetTextContents s=hi -> caret 1 0|delete 1 0 \"xélyzé\"|insert 1 0 \"hi\" => b [true]
1 - SetTextContents s= -> delete 1 0 \"hi\" => b [true]
1 EditableText SetTextContents s= -> b [true]
1 EditableText SetTextContents s=ü\"ü\\ -> insert 1 0 \"ü\\\"ü\\\\\" => b [true]
1 Text GetText i=0 i=-1 -> s [\"ü\\\"ü\\\\\"]
edit a0 insert 0 0 label \"S\" static \"fixed\" -> add 9 0 0 label \"S\" static \"fixed\"
9 Text GetText i=0 i=-1 -> s [\"fixed\"]
9 Text SetCaretOffset i=1 -> caret 9 1 => b [true]
9 EditableText SetTextContents s=hi -> !UnknownInterface
";

/// Characters, words and lines of a text with a line feed: before its first character, at it, at the last one and behind
/// that, and between; and of a text whose words stand far from its ends.
const PIECES: &str = "\
edit a0 insert 0 0 text \"E\" text \"can't stop\\x0anow\" -> add 1 0 0 text \"E\" text \"can't stop\\x0anow\"
1 Text GetStringAtOffset i=-1 u=0 -> sii [\"\" -1 -1]
1 Text GetStringAtOffset i=0 u=0 -> sii [\"c\" 0 1]
1 Text GetStringAtOffset i=13 u=0 -> sii [\"w\" 13 14]
1 Text GetStringAtOffset i=14 u=0 -> sii [\"\" -1 -1]
1 Text GetStringAtOffset i=-1 u=1 -> sii [\"\" -1 -1]
1 Text GetStringAtOffset i=0 u=1 -> sii [\"can't\" 0 5]
1 Text GetStringAtOffset i=13 u=1 -> sii [\"now\" 11 14]
1 Text GetStringAtOffset i=14 u=1 -> sii [\"\" -1 -1]
1 Text GetStringAtOffset i=-1 u=3 -> sii [\"\" -1 -1]
1 Text GetStringAtOffset i=0 u=3 -> sii [\"can't stop\\x0a\" 0 11]
1 Text GetStringAtOffset i=13 u=3 -> sii [\"now\" 11 14]
1 Text GetStringAtOffset i=14 u=3 -> sii [\"\" -1 -1]
1 Text GetStringAtOffset i=-1 u=4 -> sii [\"\" -1 -1]
1 Text GetStringAtOffset i=0 u=4 -> sii [\"can't stop\\x0a\" 0 11]
1 Text GetStringAtOffset i=13 u=4 -> sii [\"now\" 11 14]
1 Text GetStringAtOffset i=14 u=4 -> sii [\"\" -1 -1]
1 Text GetStringAtOffset i=7 u=1 -> sii [\"stop\" 6 10]
1 Text GetStringAtOffset i=4 u=1 -> sii [\"can't\" 0 5]
1 Text GetStringAtOffset i=5 u=1 -> sii [\" \" 5 6]
1 Text GetStringAtOffset i=10 u=1 -> sii [\"\\x0a\" 10 11]
1 Text GetStringAtOffset i=3 u=0 -> sii [\"'\" 3 4]
1 Text GetStringAtOffset i=10 u=0 -> sii [\"\\x0a\" 10 11]
1 Text GetStringAtOffset i=7 u=3 -> sii [\"can't stop\\x0a\" 0 11]
1 Text GetStringAtOffset i=10 u=4 -> sii [\"can't stop\\x0a\" 0 11]
1 Text GetStringAtOffset i=11 u=3 -> sii [\"now\" 11 14]
1 Text GetStringAtOffset i=-1 u=2 -> !InvalidArgs
1 Text GetStringAtOffset i=1 u=2 -> !InvalidArgs
1 Text GetStringAtOffset i=14 u=2 -> !InvalidArgs
1 Text GetStringAtOffset i=-1 u=5 -> !InvalidArgs
1 Text GetStringAtOffset i=1 u=5 -> !InvalidArgs
1 Text GetStringAtOffset i=14 u=5 -> !InvalidArgs
1 Text GetStringAtOffset i=-1 u=4294967295 -> !InvalidArgs
1 Text GetStringAtOffset i=1 u=4294967295 -> !InvalidArgs
1 Text GetStringAtOffset i=14 u=4294967295 -> !InvalidArgs
edit a0 insert 0 0 text \"L\" static \"aaaaaaaaaaaaaaaaaaaaaaaaaaaaaaaaaaaaaaaaaaaaaaaaaaaaaaaaaaaa\
aaaaaaaaaaaaaaaaaaaaaaaaaaaaaaaaaaaaaaaaaaaaaaaaaaaaaaaaaaaaaaaaaaaaaaaaaaaaaaaa\
aaaaaaaaaaaaaaaaaaaaaaaaaaaaaaaaaaaaaaaaaaaaaaaaaaaaaaaaaaaa no\" \
-> add 2 0 0 text \"L\" static \"aaaaaaaaaaaaaaaaaaaaaaaaaaaaaaaaaaaaaaaaaaaaaaaaaaaaaaaaaaaa\
aaaaaaaaaaaaaaaaaaaaaaaaaaaaaaaaaaaaaaaaaaaaaaaaaaaaaaaaaaaaaaaaaaaaaaaaaaaaaaaa\
aaaaaaaaaaaaaaaaaaaaaaaaaaaaaaaaaaaaaaaaaaaaaaaaaaaaaaaaaaaa no\"
2 Text GetStringAtOffset i=202 u=1 -> sii [\"no\" 201 203]
2 Text GetStringAtOffset i=200 u=1 -> sii [\" \" 200 201]
2 Text GetStringAtOffset i=199 u=0 -> sii [\"a\" 199 200]
2 Text GetStringAtOffset i=120 u=1 -> sii [\"aaaaaaaaaaaaaaaaaaaaaaaaaaaaaaaaaaaaaaaaaaaaaaaaaaaaaaaaaaaa\
aaaaaaaaaaaaaaaaaaaaaaaaaaaaaaaaaaaaaaaaaaaaaaaaaaaaaaaaaaaaaaaaaaaaaaaaaaaaaaaa\
aaaaaaaaaaaaaaaaaaaaaaaaaaaaaaaaaaaaaaaaaaaaaaaaaaaaaaaaaaaa\" 0 200]
2 Text GetStringAtOffset i=90 u=3 -> sii [\"aaaaaaaaaaaaaaaaaaaaaaaaaaaaaaaaaaaaaaaaaaaaaaaaaaaaaaaaaaaa\
aaaaaaaaaaaaaaaaaaaaaaaaaaaaaaaaaaaaaaaaaaaaaaaaaaaaaaaaaaaaaaaaaaaaaaaaaaaaaaaa\
aaaaaaaaaaaaaaaaaaaaaaaaaaaaaaaaaaaaaaaaaaaaaaaaaaaaaaaaaaaa no\" 0 203]
";

/// A text has at most sixteen selections.
const SIXTEEN: &str = "\
edit a0 insert 0 0 text \"E\" text \"héllo\" -> add 1 0 0 text \"E\" text \"héllo\"
1 Text AddSelection i=0 i=1 -> marks 1 0 1 => b [true]
1 Text AddSelection i=1 i=2 -> marks 1 0 1 1 2 => b [true]
1 Text AddSelection i=2 i=3 -> marks 1 0 1 1 2 2 3 => b [true]
1 Text AddSelection i=3 i=4 -> marks 1 0 1 1 2 2 3 3 4 => b [true]
1 Text AddSelection i=4 i=5 -> marks 1 0 1 1 2 2 3 3 4 4 5 => b [true]
1 Text AddSelection i=0 i=2 -> marks 1 0 1 1 2 2 3 3 4 4 5 0 2 => b [true]
1 Text AddSelection i=1 i=3 -> marks 1 0 1 1 2 2 3 3 4 4 5 0 2 1 3 => b [true]
1 Text AddSelection i=2 i=4 -> marks 1 0 1 1 2 2 3 3 4 4 5 0 2 1 3 2 4 => b [true]
1 Text AddSelection i=3 i=5 -> marks 1 0 1 1 2 2 3 3 4 4 5 0 2 1 3 2 4 3 5 => b [true]
1 Text AddSelection i=0 i=3 -> marks 1 0 1 1 2 2 3 3 4 4 5 0 2 1 3 2 4 3 5 0 3 => b [true]
1 Text AddSelection i=1 i=4 -> marks 1 0 1 1 2 2 3 3 4 4 5 0 2 1 3 2 4 3 5 0 3 1 4 => b [true]
1 Text AddSelection i=2 i=5 -> marks 1 0 1 1 2 2 3 3 4 4 5 0 2 1 3 2 4 3 5 0 3 1 4 2 5 => b [true]
1 Text AddSelection i=0 i=4 -> marks 1 0 1 1 2 2 3 3 4 4 5 0 2 1 3 2 4 3 5 0 3 1 4 2 5 0 4 => b [true]
1 Text AddSelection i=1 i=5 -> marks 1 0 1 1 2 2 3 3 4 4 5 0 2 1 3 2 4 3 5 0 3 1 4 2 5 0 4 1 5 => b [true]
1 Text AddSelection i=0 i=5 -> marks 1 0 1 1 2 2 3 3 4 4 5 0 2 1 3 2 4 3 5 0 3 1 4 2 5 0 4 1 5 0 5 => b [true]
1 Text AddSelection i=0 i=5 -> marks 1 0 1 1 2 2 3 3 4 4 5 0 2 1 3 2 4 3 5 0 3 1 4 2 5 0 4 1 5 0 5 0 5 => b [true]
1 Text AddSelection i=0 i=1 -> b [false]
edit a0 mark 1 0 1 -> !no such place in the text
1 Text GetNSelections -> i [16]
1 Text GetSelection i=15 -> ii [0 5]
1 Text GetSelection i=16 -> ii [-1 -1]
1 Text RemoveSelection i=16 -> b [false]
1 Text RemoveSelection i=14 -> marks 1 0 1 1 2 2 3 3 4 4 5 0 2 1 3 2 4 3 5 0 3 1 4 2 5 0 4 1 5 0 5 => b [true]
1 Text AddSelection i=2 i=3 -> marks 1 0 1 1 2 2 3 3 4 4 5 0 2 1 3 2 4 3 5 0 3 1 4 2 5 0 4 1 5 0 5 2 3 => b [true]
";

/// Offsets inside and outside of a text, and numbers at both ends of their range.
#[test]
fn texts_are_told_and_changed(rt: HostRuntime) {
    assert!(rt; answers(&rt, TEXTS));
}

/// The piece that holds a character, however far its ends are.
#[test]
fn pieces_are_told(rt: HostRuntime) {
    assert!(rt; makes(&rt, PIECES));
}

/// The seventeenth is refused, and the next one behind a removal is not.
#[test]
fn sixteen_selections(rt: HostRuntime) {
    assert!(rt; makes(&rt, SIXTEEN));
}

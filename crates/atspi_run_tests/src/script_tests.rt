//! Scripts as worked out by hand, and words that are no command.

use crate::rows::ROWS;
use crate::running::{AMPLE, Due, NEVER, Outside, comes_to};
use std::alloc::Global;

/// Whether a row, without its name, comes to what is due.
fn holds(alloc: Global, row: &str) -> Option<bool> {
    let (words, row) = row.split_once('\n')?;
    let (input, row) = row.split_once("=> ")?;
    let (status, output) = row.split_once('\n')?;
    let due = Due {
        status: status.parse::<u8>().ok()?,
        output: output.as_bytes(),
    };
    let mut list = Vec::new(alloc);
    for word in words.split(' ') {
        list.push(word).ok()?;
    }
    let input = input.as_bytes().to_vec(alloc).ok()?;
    comes_to(alloc, &list, input, AMPLE, due)
}

#[test]
fn runs_are_as_worked_out_by_hand(rt: HostRuntime) {
    for row in ROWS.split('~').skip(1) {
        let (name, row) = row.split_once('\n').unwrap_or((row, ""));
        assert!(rt; holds(rt.alloc(), row) == Some(true), "{name}");
    }
}

/// A script, how the outside behaves, and the status and the output that are due.
type Broken = (&'static str, Outside, u8, &'static str);

/// Scripts with a read or a write that fails: the script, the outside, and what is due.
const BROKEN: [Broken; 3] = [
    (
        "app \"Demo\"\nshow",
        Outside {
            most: usize::MAX,
            failing_read: 0,
            failing_write: NEVER,
            peers: 0,
        },
        3,
        "",
    ),
    (
        "app \"Demo\"\nshow",
        Outside {
            most: usize::MAX,
            failing_read: 1,
            failing_write: NEVER,
            peers: 0,
        },
        3,
        "start a0 \"Demo\"\nsent a0 call l 0 1 path=/org/freedesktop/DBus interface=org.freedesktop.DBus member=Hello destination=org.freedesktop.DBus\n",
    ),
    (
        "app \"Demo\"\nreader\nexit a0\nleave r0\n",
        Outside {
            most: usize::MAX,
            failing_read: NEVER,
            failing_write: 0,
            peers: 0,
        },
        4,
        "",
    ),
];

/// Whether such a script comes to what is due.
fn breaks_off(alloc: Global, broken: &Broken) -> Option<bool> {
    let (script, outside, status, output) = broken;
    let due = Due {
        status: *status,
        output: output.as_bytes(),
    };
    let input = script.as_bytes().to_vec(alloc).ok()?;
    comes_to(alloc, &["replay"], input, *outside, due)
}

#[test]
fn what_was_written_before_a_fault_stands(rt: HostRuntime) {
    for broken in &BROKEN {
        assert!(rt;
            breaks_off(rt.alloc(), broken) == Some(true),
            "{}",
            broken.0
        );
    }
}

/// Words without an input, and what is due.
struct Told {
    words: &'static [&'static str],
    status: u8,
    text: &'static [u8],
}

/// The line for words that name no command.
const USAGE: &[u8] = b"usage: atspi replay, check, make, bus, registry, app or read\n";

/// The words that are told a text, and words that are none's.
const TOLD: [Told; 21] = [
    Told {
        words: &["replay"],
        status: 0,
        text: b"",
    },
    Told {
        words: &["replay", "--wire", "--brief"],
        status: 2,
        text: USAGE,
    },
    Told {
        words: &["make", "20001", "0"],
        status: 2,
        text: USAGE,
    },
    Told {
        words: &["make", "1", "2147483648"],
        status: 2,
        text: USAGE,
    },
    Told {
        words: &["make", "01", "0"],
        status: 2,
        text: USAGE,
    },
    Told {
        words: &["--brief"],
        status: 2,
        text: USAGE,
    },
    Told {
        words: &["replay --brief"],
        status: 2,
        text: USAGE,
    },
    Told {
        words: &["checks"],
        status: 2,
        text: USAGE,
    },
    Told {
        words: &[],
        status: 2,
        text: USAGE,
    },
    Told {
        words: &["--help", "check"],
        status: 2,
        text: USAGE,
    },
    Told {
        words: &["check", "--version"],
        status: 2,
        text: USAGE,
    },
    Told {
        words: &["make", "--help"],
        status: 0,
        text: b"atspi make N SEED\n\
Draws N edits from SEED, does them in an application that a reader follows, and writes\n\
`made N SEED steps S nodes M says K`: S steps of the tree, M nodes that the reader holds at the end,\n\
K lines that it spoke. The same words write the same line.\n\
\n\
N is 1 to 20000, SEED 0 to 2147483647.\n\
\n\
Status 0: the line was written. 4: writing failed. 5: no memory is left. 1, 9, 13: as of replay.\n",
    },
    Told {
        words: &["check --help"],
        status: 2,
        text: USAGE,
    },
    Told {
        words: &["check", "--help", "--help"],
        status: 2,
        text: USAGE,
    },
    Told {
        words: &["check"],
        status: 0,
        text: b"",
    },
    Told {
        words: &["--version"],
        status: 0,
        text: b"atspi 0.1.0\n",
    },
    Told {
        words: &["--help"],
        status: 0,
        text: b"atspi replay [--brief] [--wire]  a script on standard input: what happens, line by line\n\
atspi replay --help              the lines of a script, and the statuses of replay\n\
atspi make N SEED                a script of N edits is drawn and done: a line on what came of it\n\
atspi make --help                its limits, and its statuses\n\
atspi check                      D-Bus messages on standard input: a line for each, or the first fault\n\
atspi check --help               the lines that check writes, and its statuses\n\
atspi hit                        edits and rectangles on standard input: points, cells and relations\n\
atspi hit --help                 the lines that hit reads, and its statuses\n\
atspi bus PATH ROUNDS            a message bus on the Unix socket PATH, for so many rounds\n\
atspi registry PATH ROUNDS       the registry of accessible applications, on the bus at PATH\n\
atspi app PATH ROUNDS            an application there, which does the lines on standard input\n\
atspi read PATH ROUNDS           a reader there: what it speaks and, once the bus ends, what it holds\n\
atspi --help                     this text\n\
atspi --version                  the version\n",
    },
    Told {
        words: &["replay", "--help"],
        status: 0,
        text: b"atspi replay [--brief] [--wire]\n\
Does the lines of the script on standard input, and writes what happens: each start, step, message,\n\
spoken line and end. --brief keeps what readers say and show, who is dropped, and how turns end;\n\
--wire adds the bytes of messages.\n\
\n\
app Q                      the next application starts: a0 to a15\n\
reader                     the next reader starts: r0 to r3\n\
quota N                    each queue holds N bytes, 1024 to 16777216; before the first start\n\
edit A insert P I ROLE Q   a new node below node P, before its child I; behind it `text Q` or\n\
\x20                          `static Q`, `columns K`, `select`, `action Q` up to 8 times\n\
edit A remove N            N goes, with all below it\n\
edit A move N P I          N goes below P, before its child I\n\
edit A name N Q            also: describe N Q, role N ROLE, state N STATE on|off, focus N\n\
edit A put N O Q           Q stands in N's text at O; also: type N Q, cut N O J, caret N O,\n\
\x20                          mark N O J, unmark N\n\
edit A select N I          also: deselect N I, press N I, relate N K M, unrelate N K M\n\
call R A N CALL            R calls node N of A: set-caret I, insert-text I Q, delete-text I J,\n\
\x20                          set-text Q, select-child I, deselect-child I, select-all,\n\
\x20                          clear-selection, do-action I\n\
swap A                     A's texts go into another face\n\
exit A, leave R            that end stops\n\
bytes P up N, bytes P down N   N bytes of P's link move; P is A, R or reg\n\
turns N                    N times the first thing that waits moves; busy N: something waits still\n\
drain                      until nothing waits: quiet\n\
show R A                   writes what R holds of A\n\
# TEXT                     nothing; so does an empty line\n\
\n\
Q stands in double quotes; in it a quote and a backslash are written behind a backslash, and a\n\
control character as x and two hexadecimal digits behind one. ROLE is a word, as push-button, or a\n\
number. A script has at most 16777216 bytes, and a line 65536.\n\
\n\
Status 0: all lines of the script were done. 1: a line is refused, which `refused LINE WHY` tells.\n\
3: reading failed, behind whole lines that were done. 4: writing failed. 5: no memory is left.\n\
8: the script is longer than its limit, and the whole lines inside it were done. 9: the registry was\n\
dropped at its quota. 13: a message would pass number 4294967295.\n",
    },
    Told {
        words: &["check", "--help"],
        status: 0,
        text: b"atspi check\n\
Reads D-Bus messages on standard input, and writes a line for each before it reads on.\n\
\n\
START TEXT                  a message, with START bytes of input before it\n\
fault START PLACE REASON    the first fault: REASON at PLACE of the message at START\n\
\n\
The input has at most 1073741824 bytes.\n\
\n\
Status 0: the input was read to its end, and is whole messages. 3: reading failed, behind whole\n\
messages that were told. 4: writing failed. 5: no memory is left. 6: a message is malformed, or the\n\
input ends inside one (reason 36). 8: the input is longer than its limit.\n",
    },
    Told {
        words: &["hit"],
        status: 0,
        text: b"",
    },
    Told {
        words: &["hit", "--help"],
        status: 0,
        text: b"atspi hit\n\
Does edits of an application's tree, and tells which node is at a point, where nodes stand, which cell is\n\
beside a cell, and what relations name. The first line that is no comment is `app Q`.\n\
\n\
app Q                  the application starts, with the name of its root\n\
insert P I ROLE Q      an edit of a script (atspi replay --help), without the words `edit A`\n\
place N X Y W H        node N stands in this rectangle from now on\n\
extents N              where N stands, as the reply of Component that an application gives\n\
inside N X Y           whether the point is in N's rectangle, in the same way\n\
point N X Y            which node is at the point, of N and those below it, in the same way\n\
cell N I WAY           cell M: the node beside cell I of table N; WAY is up, down, left or right\n\
follow N K             follow M ..: the targets of N's relation of kind K, 1 to 18\n\
# TEXT                 nothing; so does an empty line\n\
\n\
X and Y may begin with `-`. Of a rectangle they are -1000000 to 1000000, W and H 0 to 1000000. The input\n\
has at most 16777216 bytes, and a line 65536.\n\
\n\
Status 0: all lines were done. 1: a line is refused, which `refused LINE WHY` tells. 3: reading failed,\n\
behind whole lines that were done. 4: writing failed. 5: no memory is left. 8: the input is longer than\n\
its limit, and the whole lines inside it were done.\n",
    },
];

/// Whether the words come to the status and the text that are due.
fn is_told(alloc: Global, told: &Told) -> Option<bool> {
    let due = Due {
        status: told.status,
        output: told.text,
    };
    comes_to(alloc, told.words, Vec::new(alloc), AMPLE, due)
}

#[test]
fn words_are_told_their_text(rt: HostRuntime) {
    for told in &TOLD {
        assert!(rt; is_told(rt.alloc(), told) == Some(true));
    }
}

#[test]
fn a_text_that_cannot_be_written_gives_status_4(rt: HostRuntime) {
    let outside = Outside {
        most: 5,
        failing_read: NEVER,
        failing_write: 1,
        peers: 0,
    };
    let due = Due {
        status: 4,
        output: b"atspi",
    };
    let none = Vec::new(rt.alloc());
    let holds = comes_to(rt.alloc(), &["check", "--help"], none, outside, due);
    assert!(rt; holds == Some(true));
}

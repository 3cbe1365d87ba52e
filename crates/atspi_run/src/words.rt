//! What the words of a command line ask for, and the texts that are told to who asks.

ghost use Rattle.std.specs.Prelude.{◌≡◌, ◌⊎◌, ◌↔◌, ◌&&◌, ℕ, List, [], ◌∷◌, IsTrue, MatchOption, MatchResult, map};
ghost use Rattle.std.specs.Prelude.{string_bytes};
ghost use Rattle.atspi_trace_texts.specs.declared.options.TraceOptions.{TraceOptions};
ghost use Rattle.atspi_run_replay.specs.Causes.{Causes};
ghost use Rattle.atspi_run.specs.Words.{AreOf, Asks, IsAllowed, IsMake, IsReplay, IsTask, IsTold, Tells, usage};
ghost use Rattle.atspi_run.specs.declared.words.Task.{Task};

use atspi_base::{Failed, Sink, write_all};
use atspi_run_replay::{MAKE_LIMIT, SEED_LIMIT};
use atspi_script_lines::read_number;
use atspi_trace_texts::TraceOptions;

/// The line that is written for words that name no command.
const USAGE: &[u8] = b"usage: atspi replay, check, make, bus, registry, app or read\n";

/// What `--help` writes: the commands. Those on a socket are the program's own.
const HELP: &[u8] =
    b"atspi replay [--brief] [--wire]  a script on standard input: what happens, line by line\n\
atspi replay --help              the lines of a script, and the statuses of replay\n\
atspi make N SEED                a script of N edits is drawn and done: a line on what came of it\n\
atspi make --help                its limits, and its statuses\n\
atspi check                      D-Bus messages on standard input: a line for each, or the first fault\n\
atspi check --help               the lines that check writes, and its statuses\n\
atspi hit                        edits and rectangles on standard input: points, cells and relations\n\
atspi hit --help                 the lines that hit reads, and its statuses\n\
atspi bus PATH ROUNDS            a message bus on the Unix socket PATH, for so many rounds\n\
atspi registry PATH ROUNDS       the registry of accessible applications, on the bus at PATH\n\
atspi app PATH ROUNDS            an application there, which does the lines on standard input\n\
atspi read PATH ROUNDS           a reader there: what it speaks and, once the bus ends, what it holds\n\
atspi --help                     this text\n\
atspi --version                  the version\n";

/// What `--version` writes.
const VERSION: &[u8] = b"atspi 0.1.0\n";

/// What `replay --help` writes: the lines of a script, and the statuses.
const REPLAY_HELP: &[u8] = b"atspi replay [--brief] [--wire]\n\
Does the lines of the script on standard input, and writes what happens: each start, step, message,\n\
spoken line and end. --brief keeps what readers say and show, who is dropped, and how turns end;\n\
--wire adds the bytes of messages.\n\
\n\
app Q                      the next application starts: a0 to a15\n\
reader                     the next reader starts: r0 to r3\n\
quota N                    each queue holds N bytes, 1024 to 16777216; before the first start\n\
edit A insert P I ROLE Q   a new node below node P, before its child I; behind it `text Q` or\n\
\x20                          `static Q`, `columns K`, `select`, `action Q` up to 8 times\n\
edit A remove N            N goes, with all below it\n\
edit A move N P I          N goes below P, before its child I\n\
edit A name N Q            also: describe N Q, role N ROLE, state N STATE on|off, focus N\n\
edit A put N O Q           Q stands in N's text at O; also: type N Q, cut N O J, caret N O,\n\
\x20                          mark N O J, unmark N\n\
edit A select N I          also: deselect N I, press N I, relate N K M, unrelate N K M\n\
call R A N CALL            R calls node N of A: set-caret I, insert-text I Q, delete-text I J,\n\
\x20                          set-text Q, select-child I, deselect-child I, select-all,\n\
\x20                          clear-selection, do-action I\n\
swap A                     A's texts go into another face\n\
exit A, leave R            that end stops\n\
bytes P up N, bytes P down N   N bytes of P's link move; P is A, R or reg\n\
turns N                    N times the first thing that waits moves; busy N: something waits still\n\
drain                      until nothing waits: quiet\n\
show R A                   writes what R holds of A\n\
# TEXT                     nothing; so does an empty line\n\
\n\
Q stands in double quotes; in it a quote and a backslash are written behind a backslash, and a\n\
control character as x and two hexadecimal digits behind one. ROLE is a word, as push-button, or a\n\
number. A script has at most 16777216 bytes, and a line 65536.\n\
\n\
Status 0: all lines of the script were done. 1: a line is refused, which `refused LINE WHY` tells.\n\
3: reading failed, behind whole lines that were done. 4: writing failed. 5: no memory is left.\n\
8: the script is longer than its limit, and the whole lines inside it were done. 9: the registry was\n\
dropped at its quota. 13: a message would pass number 4294967295.\n";

/// What `make --help` writes: its limits and its statuses.
const MAKE_HELP: &[u8] = b"atspi make N SEED\n\
Draws N edits from SEED, does them in an application that a reader follows, and writes\n\
`made N SEED steps S nodes M says K`: S steps of the tree, M nodes that the reader holds at the end,\n\
K lines that it spoke. The same words write the same line.\n\
\n\
N is 1 to 20000, SEED 0 to 2147483647.\n\
\n\
Status 0: the line was written. 4: writing failed. 5: no memory is left. 1, 9, 13: as of replay.\n";

/// What `check --help` writes: its lines and its statuses.
const CHECK_HELP: &[u8] = b"atspi check\n\
Reads D-Bus messages on standard input, and writes a line for each before it reads on.\n\
\n\
START TEXT                  a message, with START bytes of input before it\n\
fault START PLACE REASON    the first fault: REASON at PLACE of the message at START\n\
\n\
The input has at most 1073741824 bytes.\n\
\n\
Status 0: the input was read to its end, and is whole messages. 3: reading failed, behind whole\n\
messages that were told. 4: writing failed. 5: no memory is left. 6: a message is malformed, or the\n\
input ends inside one (reason 36). 8: the input is longer than its limit.\n";

/// What `hit --help` writes: its lines and its statuses.
const HIT_HELP: &[u8] = b"atspi hit\n\
Does edits of an application's tree, and tells which node is at a point, where nodes stand, which cell is\n\
beside a cell, and what relations name. The first line that is no comment is `app Q`.\n\
\n\
app Q                  the application starts, with the name of its root\n\
insert P I ROLE Q      an edit of a script (atspi replay --help), without the words `edit A`\n\
place N X Y W H        node N stands in this rectangle from now on\n\
extents N              where N stands, as the reply of Component that an application gives\n\
inside N X Y           whether the point is in N's rectangle, in the same way\n\
point N X Y            which node is at the point, of N and those below it, in the same way\n\
cell N I WAY           cell M: the node beside cell I of table N; WAY is up, down, left or right\n\
follow N K             follow M ..: the targets of N's relation of kind K, 1 to 18\n\
# TEXT                 nothing; so does an empty line\n\
\n\
X and Y may begin with `-`. Of a rectangle they are -1000000 to 1000000, W and H 0 to 1000000. The input\n\
has at most 16777216 bytes, and a line 65536.\n\
\n\
Status 0: all lines were done. 1: a line is refused, which `refused LINE WHY` tells. 3: reading failed,\n\
behind whole lines that were done. 4: writing failed. 5: no memory is left. 8: the input is longer than\n\
its limit, and the whole lines inside it were done.\n";

/// Whether the words are this one alone.
pub fn is_alone(words: &[String], word: &str) -> bool
    ensures { IsTrue result ↔ (map string_bytes words.now ≡ word.now ∷ []) }
{
    match words {
        [only] => only.as_str() == word,
        _ => false,
    }
}

/// Whether the words are these two.
pub fn are_two(words: &[String], one: &str, two: &str) -> bool
    ensures { IsTrue result ↔ (map string_bytes words.now ≡ one.now ∷ two.now ∷ []) }
{
    match words {
        [first, second] => first.as_str() == one && second.as_str() == two,
        _ => false,
    }
}

/// Whether a word is this text.
fn is_text(word: &String, text: &str) -> bool
    ensures { IsTrue result ↔ (string_bytes word.now ≡ text.now) }
{
    word.as_str() == text
}

/// Whether all three hold.
fn all_three(first: bool, second: bool, third: bool) -> bool
    ensures { result ≡ first && (second && third) }
{
    first && second && third
}

/// Whether the words are these three.
fn are_three(words: &[String], one: &str, two: &str, three: &str) -> bool
    ensures { IsTrue result ↔ (map string_bytes words.now ≡ one.now ∷ two.now ∷ three.now ∷ []) }
{
    match words {
        [first, second, third] => all_three(
            is_text(first, one),
            is_text(second, two),
            is_text(third, three),
        ),
        _ => false,
    }
}

/// What of a trace the words ask for, where they ask for a replay.
fn asked_options(words: &[String]) -> Option<TraceOptions>
    ensures { MatchOption result ((options : TraceOptions) → IsReplay (map string_bytes words.now) options → ⊥)
        (λ options. IsReplay (map string_bytes words.now) options) }
{
    if is_alone(words, "replay") {
        return Some(TraceOptions {
            brief: false,
            wire: false,
        });
    }
    if are_two(words, "replay", "--brief") {
        return Some(TraceOptions {
            brief: true,
            wire: false,
        });
    }
    if are_two(words, "replay", "--wire") {
        return Some(TraceOptions {
            brief: false,
            wire: true,
        });
    }
    if are_three(words, "replay", "--brief", "--wire") {
        return Some(TraceOptions {
            brief: true,
            wire: true,
        });
    }
    None
}

/// How many edits are to be made, and from which seed.
#[derive(Clone, Copy, Debug, PartialEq, Eq)]
pub struct Script {
    pub count: u32,
    pub seed: u32,
}

impl Script {
    /// Whether both keep within their limits.
    fn is_allowed(self) -> bool
        ensures { IsTrue result ↔ IsAllowed self }
    {
        all_three(
            self.count > 0,
            self.count <= MAKE_LIMIT,
            self.seed < SEED_LIMIT,
        )
    }
}

/// The two numbers of a script that is to be made, where they are spelled as numbers and keep within their limits.
fn script_numbers(count: &str, seed: &str) -> Option<Script>
    ensures { MatchOption result ((n k : ℕ) → AreOf count.now seed.now n k → ⊥)
        (λ script. AreOf count.now seed.now script.count script.seed) }
{
    let Some(count) = read_number(count.as_bytes()) else {
        return None;
    };
    let Some(seed) = read_number(seed.as_bytes()) else {
        return None;
    };
    let script = Script { count, seed };
    if script.is_allowed() {
        return Some(script);
    }
    None
}

/// How many edits are to be made from which seed, where the words ask for that.
fn asked_script(words: &[String]) -> Option<Script>
    ensures { MatchOption result ((count seed : ℕ) → IsMake (map string_bytes words.now) count seed → ⊥)
        (λ script. IsMake (map string_bytes words.now) script.count script.seed) }
{
    match words {
        [make, count, seed] => {
            if is_text(make, "make") {
                script_numbers(count.as_str(), seed.as_str())
            } else {
                None
            }
        }
        _ => None,
    }
}

/// What is done in a world.
#[derive(Clone, Copy, Debug, PartialEq, Eq)]
pub enum Task {
    /// A script is read and done.
    Replay(TraceOptions),
    /// A script is drawn and done.
    Make(Script),
}

/// What the words ask for, where they ask for something in a world.
pub fn asked_task(words: &[String]) -> Option<Task>
    ensures { MatchOption result ((task : Task) → IsTask (map string_bytes words.now) task → ⊥)
        (λ task. IsTask (map string_bytes words.now) task) }
{
    match asked_options(words) {
        Some(options) => Some(Task::Replay(options)),
        None => match asked_script(words) {
            Some(script) => Some(Task::Make(script)),
            None => None,
        },
    }
}

/// The status that is due for words without an input, and the text.
fn text_for(words: &[String]) -> (u8, &'static [u8])
    ensures told { (text : List ℕ) → Asks (map string_bytes words.now) text → (result.0 ≡ 0) × (result.1.now ≡ text) }
    ensures usage { (IsTold (map string_bytes words.now) → ⊥) → (result.0 ≡ 2) × (result.1.now ≡ usage) }
    ensures due { (result.0 ≡ 0) ⊎ (result.0 ≡ 2) }
{
    if is_alone(words, "--help") {
        return (0, HELP);
    }
    if is_alone(words, "--version") {
        return (0, VERSION);
    }
    if are_two(words, "replay", "--help") {
        return (0, REPLAY_HELP);
    }
    if are_two(words, "make", "--help") {
        return (0, MAKE_HELP);
    }
    if are_two(words, "check", "--help") {
        return (0, CHECK_HELP);
    }
    if are_two(words, "hit", "--help") {
        return (0, HIT_HELP);
    }
    (2, USAGE)
}

/// The status that is due where a text was written, else 4.
fn status_of(due: u8, written: Result<(), Failed>) -> u8
    ensures { MatchResult written (λ _. result ≡ due) (λ _. result ≡ 4) }
{
    match written {
        Ok(()) => due,
        Err(_) => 4,
    }
}

/// Writes the text that the words ask for, or else how the program is used.
pub fn tell<K: Sink>(words: &[String], sink: &mut K) -> u8
    ensures told { (text : List ℕ) → Asks (map string_bytes words.now) text
        → Tells 0 text result (K.written sink.old) (K.written sink.new) }
    ensures usage { (IsTold (map string_bytes words.now) → ⊥)
        → Tells 2 usage result (K.written sink.old) (K.written sink.new) }
    ensures causes { (source : ℕ) → Causes result source source (K.faults sink.old) (K.faults sink.new) }
{
    let (due, text) = text_for(words);
    status_of(due, write_all(sink, text))
}

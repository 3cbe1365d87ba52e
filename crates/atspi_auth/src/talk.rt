//! One end of the conversation, fed in pieces.

ghost use Rattle.std.specs.Prelude.{◌≡◌, ◌+◌, ◌-◌, ◌≤◌, ◌++◌, ◌↔◌, [], drop, length, take, IfOk, IsTrue, IsNone};
ghost use Rattle.std.specs.Prelude.{option_to_list};
ghost use Rattle.atspi_auth.specs.Lines.{HasNoEnd};
ghost use Rattle.atspi_auth.specs.Replies.{answer};
ghost use Rattle.atspi_auth.specs.Talk.{IsTidy, Tells, heard, hears_bytes, left_at, taken_of};

use crate::hearing::{Hearing, hear_on};
use crate::line_end::line_end;
use crate::reply::{LINE_LIMIT, Reply, Waiting, answer};
use crate::stage::Stage;
use crate::{AuthFault, AuthLine};
use atspi_base::NoMemory;
use std::alloc::Global;
use std::collections::VecDeque;
use std::marker::Model;

/// One end: where it stands, what has come of a line that is not whole, and the lines that are still to be handed out.
#[derive(Drop)]
pub(crate) struct Talk {
    alloc: Global,
    stage: Stage,
    line: Vec<u8>,
    unsent: VecDeque<AuthLine>,
}

impl Model for Talk {
    ghost use Rattle.atspi_auth.specs.Talk.{Standing, IsTidy};

    ghost Value = { Standing };

    ghost view = { λ t. record { stage = t.stage; line = t.line.items; unsent = t.unsent.items } };

    ghost invariant = { λ t. IsTidy t.stage t.line.items };
}

/// The part of some bytes that an end keeps which stands here: a line that is not whole.
fn unfinished(stage: Stage, left: &[u8]) -> &[u8]
    ensures { result.now ≡ (left_at [] stage left.now).line }
{
    match stage {
        Stage::Waits(_) => left,
        _ => &[],
    }
}

/// What feeding answers an end that then stands here: it took all of `len` bytes, or those before `at`.
fn taken(stage: Stage, at: usize, len: usize) -> Result<usize, AuthFault>
    ensures { result ≡ taken_of stage at len }
{
    match stage {
        Stage::Over => Ok(at),
        Stage::Failed(fault) => Err(fault),
        _ => Ok(len),
    }
}

/// What a line brings that `held` began and `last` ends, CR LF and all.
fn answer_joined(
    alloc: Global,
    waiting: Waiting,
    held: &[u8],
    last: &[u8],
) -> Result<Reply, NoMemory>
    requires { 2 ≤ length held.now + length last.now }
    ensures { IfOk result
        (λ r. r ≡ answer waiting (take (length held.now + length last.now - 2) (held.now ++ last.now))) }
{
    if held.len() + last.len() > LINE_LIMIT {
        return Ok(Reply::Fail(AuthFault::TooLong));
    }
    let mut line = Vec::from_slice(alloc, held)?;
    line.extend_from_slice(last)?;
    answer(alloc, waiting, &line[..line.len() - 2])
}

impl Talk {
    /// An end that stands here, before the first byte.
    pub fn new(alloc: Global, stage: Stage) -> Talk
        requires { IsTidy stage [] }
        ensures { result ≡ record { stage = stage; line = []; unsent = [] } }
    {
        Talk {
            alloc,
            stage,
            line: Vec::new(alloc),
            unsent: VecDeque::new(alloc),
        }
    }

    /// Takes over what was heard.
    fn keep(&mut self, hearing: Hearing, bytes: &[u8]) -> Result<usize, AuthFault>
        requires within { hearing.at ≤ length bytes.now }
        requires tidy { IsTidy hearing.stage (left_at [] hearing.stage (drop hearing.at bytes.now)).line }
        ensures { Tells result self.old self.new
            (left_at hearing.said.items hearing.stage (drop hearing.at bytes.now)) bytes.now }
    {
        let mut said = hearing.said;
        let line = Vec::from_slice(self.alloc, unfinished(hearing.stage, &bytes[hearing.at..]))?;
        self.unsent.append(&mut said)?;
        self.line = line;
        self.stage = hearing.stage;
        taken(hearing.stage, hearing.at, bytes.len())
    }

    /// Keeps bytes in which no line ends.
    fn hold(&mut self, waiting: Waiting, bytes: &[u8]) -> Result<usize, AuthFault>
        requires { HasNoEnd (self.old.line ++ bytes.now) }
        ensures { Tells result self.old self.new (hears_bytes waiting (self.old.line ++ bytes.now)) bytes.now }
    {
        if self.line.len() + bytes.len() >= LINE_LIMIT {
            self.stage = Stage::Failed(AuthFault::TooLong);
            self.line.clear();
            return Err(AuthFault::TooLong);
        }
        self.line.extend_from_slice(bytes)?;
        self.stage = Stage::Waits(waiting);
        Ok(bytes.len())
    }

    /// Hears bytes behind what has come of a line.
    fn hear(&mut self, waiting: Waiting, bytes: &[u8]) -> Result<usize, AuthFault>
        ensures { Tells result self.old self.new (hears_bytes waiting (self.old.line ++ bytes.now)) bytes.now }
    {
        let Some(end) = line_end(&self.line, bytes) else {
            return self.hold(waiting, bytes);
        };
        let reply = answer_joined(self.alloc, waiting, &self.line, &bytes[..end])?;
        let hearing = hear_on(self.alloc, reply, bytes, end)?;
        self.keep(hearing, bytes)
    }

    /// Hears the zero byte, and lines behind it.
    fn open(&mut self, piece: &[u8]) -> Result<usize, AuthFault>
        requires zero { self.old.stage ≡ Stage.Zero }
        requires fresh { self.old.line ≡ [] }
        ensures { Tells result self.old self.new (heard self.old.stage self.old.line piece.now) piece.now }
    {
        if piece.is_empty() {
            return Ok(0);
        }
        if piece[0] != 0 {
            self.stage = Stage::Failed(AuthFault::NoZero);
            return Err(AuthFault::NoZero);
        }
        match self.hear(Waiting::ForAuth, &piece[1..]) {
            Ok(taken) => Ok(taken + 1),
            Err(fault) => Err(fault),
        }
    }

    /// Hears bytes, and answers how many it took.
    pub fn feed(&mut self, piece: &[u8]) -> Result<usize, AuthFault>
        ensures { Tells result self.old self.new (heard self.old.stage self.old.line piece.now) piece.now }
    {
        match self.stage {
            Stage::Zero => self.open(piece),
            Stage::Waits(waiting) => self.hear(waiting, piece),
            Stage::Over => Ok(0),
            Stage::Failed(fault) => Err(fault),
        }
    }

    /// The next line to send, oldest first.
    pub fn out(&mut self) -> Option<AuthLine>
        ensures line { self.old.unsent ≡ option_to_list result ++ self.new.unsent }
        ensures none { IsNone result ↔ (self.old.unsent ≡ []) }
        ensures stage { self.new.stage ≡ self.old.stage }
        ensures rest { self.new.line ≡ self.old.line }
    {
        self.unsent.pop_front()
    }

    /// Whether the lines are over.
    pub fn ready(&self) -> bool
        ensures { IsTrue result ↔ (self.now.stage ≡ Stage.Over) }
    {
        matches!(self.stage, Stage::Over)
    }
}

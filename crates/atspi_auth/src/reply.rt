//! What an end makes of a whole line.

ghost use Rattle.std.specs.Prelude.{◌≡◌, IfOk};
ghost use Rattle.atspi_auth.specs.Replies.{answer, reply_to, server_reply};

use crate::request::{Request, is, is_grant, read_request};
use crate::{AuthFault, AuthLine};
use atspi_base::NoMemory;
use std::alloc::Global;

/// How many bytes a line may have, its CR LF among them.
pub(crate) const LINE_LIMIT: usize = 16_384;

/// The line that an end waits for. The first three are a server's states, the others a client's.
#[derive(Clone, Copy)]
pub(crate) enum Waiting {
    /// `AUTH`.
    ForAuth,
    /// `DATA`, with the client's uid or without.
    ForData,
    /// `BEGIN`.
    ForBegin,
    /// The server's `DATA`.
    ForChallenge,
    /// The server's `OK`.
    ForOk,
}

/// What a line brings.
#[derive(Clone, Copy)]
pub(crate) enum Reply {
    /// This is said, and that awaited.
    Say(AuthLine, Waiting),
    /// The lines are over, perhaps after one more.
    End(Option<AuthLine>),
    Fail(AuthFault),
}

/// The server's table of states and commands.
#[tactic(auto, unfolding(crate::specs::Replies::server_reply))]
fn server_reply(waiting: Waiting, request: Request) -> Reply
    ensures { result ≡ server_reply waiting request }
{
    match (waiting, request) {
        (Waiting::ForAuth, Request::Login) => Reply::Say(AuthLine::Granted, Waiting::ForBegin),
        (Waiting::ForAuth, Request::Ask) => Reply::Say(AuthLine::Data, Waiting::ForData),
        (Waiting::ForAuth, Request::OtherAuth) => Reply::Say(AuthLine::Rejected, Waiting::ForAuth),
        (Waiting::ForData, Request::Uid) => Reply::Say(AuthLine::Granted, Waiting::ForBegin),
        (Waiting::ForData, Request::OtherData) => Reply::Say(AuthLine::Rejected, Waiting::ForAuth),
        (Waiting::ForData, Request::Cancel) => Reply::Say(AuthLine::Rejected, Waiting::ForAuth),
        (Waiting::ForBegin, Request::Begin) => Reply::End(None),
        (Waiting::ForBegin, Request::Cancel) => Reply::Say(AuthLine::Rejected, Waiting::ForAuth),
        (_, Request::Error) => Reply::Say(AuthLine::Rejected, Waiting::ForAuth),
        (_, Request::Begin) => Reply::Fail(AuthFault::Early),
        (_, _) => Reply::Say(AuthLine::Error, waiting),
    }
}

/// What a line brings, whatever its length.
#[tactic(auto, unfolding(crate::specs::Replies::reply_to))]
fn reply_to(alloc: Global, waiting: Waiting, line: &[u8]) -> Result<Reply, NoMemory>
    ensures { IfOk result (λ r. r ≡ reply_to waiting line.now) }
{
    match waiting {
        Waiting::ForChallenge => Ok(if is(line, b"DATA") {
            Reply::Say(AuthLine::Data, Waiting::ForOk)
        } else {
            Reply::Fail(AuthFault::Rejected)
        }),
        Waiting::ForOk => Ok(if is_grant(line) {
            Reply::End(Some(AuthLine::Begin))
        } else {
            Reply::Fail(AuthFault::Rejected)
        }),
        _ => Ok(server_reply(waiting, read_request(alloc, line)?)),
    }
}

/// What a whole line brings, given without its CR LF.
#[tactic(auto, unfolding(crate::specs::Replies::answer))]
pub(crate) fn answer(alloc: Global, waiting: Waiting, line: &[u8]) -> Result<Reply, NoMemory>
    ensures { IfOk result (λ r. r ≡ answer waiting line.now) }
{
    if line.len() > LINE_LIMIT - 2 {
        return Ok(Reply::Fail(AuthFault::TooLong));
    }
    reply_to(alloc, waiting, line)
}

//! Whole lines, answered one after another.

ghost use Rattle.std.specs.Prelude.{◌≡◌, ◌≤◌, length, drop, nat_lt, if◌then◌else◌, IfOk};
ghost use Rattle.atspi_auth.specs.Talk.{goes_on, hears_bytes, left_at};

use crate::line_end::line_end;
use crate::reply::{LINE_LIMIT, Reply, Waiting, answer};
use crate::stage::Stage;
use crate::{AuthFault, AuthLine};
use atspi_base::NoMemory;
use std::alloc::Global;
use std::collections::VecDeque;

/// What was heard in some bytes: what is said to it, where the end then stands, and where the last whole line ends.
#[derive(Drop)]
pub(crate) struct Hearing {
    pub said: VecDeque<AuthLine>,
    pub stage: Stage,
    pub at: usize,
}

/// Where an end stands that waits, with so many bytes of a line that is not whole.
pub(crate) fn unless_too_long(waiting: Waiting, len: usize) -> Stage
    ensures { result ≡ (if nat_lt len 16384 then Stage.Waits waiting else Stage.Failed AuthFault.TooLong) }
{
    if len < LINE_LIMIT {
        Stage::Waits(waiting)
    } else {
        Stage::Failed(AuthFault::TooLong)
    }
}

/// What follows a reply, where the lines behind it begin at `start`.
pub(crate) fn hear_on(
    alloc: Global,
    first: Reply,
    bytes: &[u8],
    start: usize,
) -> Result<Hearing, NoMemory>
    requires { start ≤ length bytes.now }
    ensures heard { IfOk result
        (λ h. goes_on first (λ next. hears_bytes next (drop start bytes.now)) (drop start bytes.now)
        ≡ left_at h.said.items h.stage (drop h.at bytes.now)) }
    ensures within { IfOk result (λ h. h.at ≤ length bytes.now) }
{
    let mut said = VecDeque::new(alloc);
    let mut reply = first;
    let mut at = start;
    'lines: loop {
        match reply {
            Reply::Say(line, waiting) => {
                said.push_back(line)?;
                let rest = &bytes[at..];
                let Some(n) = line_end(&[], rest) else {
                    let stage = unless_too_long(waiting, rest.len());
                    return Ok(Hearing { said, stage, at });
                };
                reply = answer(alloc, waiting, &rest[..n - 2])?;
                at += n;
            }
            Reply::End(None) => {
                return Ok(Hearing {
                    said,
                    stage: Stage::Over,
                    at,
                });
            }
            Reply::End(Some(line)) => {
                said.push_back(line)?;
                return Ok(Hearing {
                    said,
                    stage: Stage::Over,
                    at,
                });
            }
            Reply::Fail(fault) => {
                return Ok(Hearing {
                    said,
                    stage: Stage::Failed(fault),
                    at,
                });
            }
        }
    }
}

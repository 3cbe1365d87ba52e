//! What a call comes to, and what is sent back for it.

ghost use Rattle.std.specs.Prelude.{◌≡◌, IfOk};
ghost use Rattle.atspi_message_in_place.specs.View.{envelope_at};
ghost use Rattle.atspi_app_answers.specs.Replies as replies;
ghost use Rattle.atspi_types.specs.DataView.{all_data};
ghost use Rattle.atspi_protocol.specs.ends.Messages.{error_word, returns, fails};
ghost use Rattle.atspi_app.specs.called.Called.{reply_of};

use atspi_app_answers::{refusal, reply};
use atspi_base::NoMemory;
use atspi_message_in_place::MessageRef;
use atspi_protocol::ends::{CallError, Mail};
use atspi_tree_model::StepList;
use atspi_types::Values;
use std::alloc::Global;

/// What a call comes to.
#[derive(Drop)]
pub struct Called {
    /// The values that it returns, or the error that it gets.
    pub reply: Result<Values, CallError>,
    /// The steps that are done before the reply.
    pub steps: StepList,
    /// The application's number after it.
    pub id: i32,
}

/// The return of values.
fn returned(alloc: Global, call: &MessageRef, values: Values) -> Result<Mail, NoMemory>
    ensures { IfOk result (λ mail. mail ≡ replies.sent_back (envelope_at call.now) (returns (all_data values))) }
{
    let mut mail = Mail::new(alloc);
    reply(alloc, call, values, &mut mail)?;
    Ok(mail)
}

/// An error.
fn refused(alloc: Global, call: &MessageRef, error: CallError) -> Result<Mail, NoMemory>
    ensures { IfOk result (λ mail. mail ≡ replies.sent_back (envelope_at call.now) (fails (error_word error))) }
{
    let mut mail = Mail::new(alloc);
    refusal(alloc, call, error, &mut mail)?;
    Ok(mail)
}

/// The reply that is sent back for a call, none where its caller waits for none (D-Bus Specification, "Method Calls").
/// The one refusal is want of memory.
pub fn sent_back(
    alloc: Global,
    call: &MessageRef,
    reply: Result<Values, CallError>,
) -> Result<Mail, NoMemory>
    ensures { IfOk result (λ mail. mail ≡ replies.sent_back (envelope_at call.now) (reply_of reply)) }
{
    match reply {
        Ok(values) => returned(alloc, call, values),
        Err(error) => refused(alloc, call, error),
    }
}

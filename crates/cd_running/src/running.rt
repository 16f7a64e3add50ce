//! What is said of how a run ended.
ghost use Rattle.std.specs.Prelude.{◌≢◌, length, IfOk};
ghost use Rattle.cd_cells.specs.Table.{table};
ghost use Rattle.cd_evaluation.specs.Runs.{Stuck};
ghost use Rattle.cd_machine.specs.PlainRan.{plain_outcome, IsOutcome};
ghost use Rattle.cd_replies.specs.Message.{reply_of};
ghost use Rattle.cd_running.specs.Ending.{Reports};

use cd_cells::Values;
use cd_machine::Outcome;
use cd_print::print_value;
use cd_replies::message::{Message, overflow, printed, spent, uncaught};
use std::alloc::{AllocError, Global};

/// What is said of an outcome other than that of a run which is stuck.
pub(crate) fn reported(
    alloc: Global,
    values: &Values,
    outcome: Outcome,
) -> Result<Message, AllocError>
    requires within { IsOutcome (length (table values.now)) outcome }
    requires goes { plain_outcome (table values.now) outcome ≢ Stuck }
    ensures { IfOk result (λ message. Reports (plain_outcome (table values.now) outcome)
        (reply_of message)) }
{
    match outcome {
        Outcome::Done(value) => printed(print_value(alloc, values, value)?),
        Outcome::Raised(value) => {
            let text = print_value(alloc, values, value)?;
            uncaught(alloc, text.as_str())
        }
        Outcome::Overflow => overflow(alloc),
        Outcome::Spent => spent(alloc),
        Outcome::Stuck => unreachable!(),
    }
}

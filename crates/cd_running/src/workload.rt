//! The command `work`: a program that is run on a document of any size, and queries on types.
ghost use Rattle.std.specs.Prelude.{◌≡◌, ◌≤◌, IfOk};
ghost use Rattle.cd_running.specs.WorkAnswer.{WorkAnswer, summary};
ghost use Rattle.cd_replies.specs.Message.{reply_of};
ghost use Rattle.cd_replies.specs.Reply as reply;

use cd_replies::message::{Message, printed};
use queries::count_yes;
use runs::{Ended, run_document};
use std::alloc::{AllocError, Global};

mod document;
mod queries;
mod query;
mod runs;

/// What is said of the workload of this size, at most 100,000: how many units a run of its program
/// on the document of so many entries takes, how many bytes the text of the result has, and how
/// many of as many queries are answered with yes.
///
/// # Errors
///
/// Want of memory.
pub fn work(alloc: Global, size: u32) -> Result<Message, AllocError>
    requires most { size ≤ 100000 }
    ensures { IfOk result (λ message. WorkAnswer size (reply_of message)) }
{
    let ended = run_document(alloc, size)?;
    let yes = count_yes(alloc, size)?;
    said(alloc, size, ended, yes)
}

// The line that says so much of the run and of the queries.
fn said(alloc: Global, size: u32, ended: Ended, yes: u32) -> Result<Message, AllocError>
    ensures { IfOk result (λ message.
        reply_of message ≡ reply.printed (summary size ended.used ended.length yes)) }
{
    let (used, length) = (ended.used, ended.length);
    printed(format!(in alloc; "entries {size} units {used} bytes {length} yes {yes}")?)
}

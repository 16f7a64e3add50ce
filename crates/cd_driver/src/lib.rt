//! The top call of the program: from words to a status and a text.
#![tactic(auto)]

ghost use Rattle.std.specs.Prelude.{◌≡◌, false, IsTrue, string_bytes};
ghost use Rattle.cd_driver.specs.Causes.{Cause};
ghost use Rattle.cd_driver.specs.Command.{texts};
ghost use Rattle.cd_driver.specs.Ending.{Completes};
ghost use Rattle.cd_driver.specs.FilesRead.{ReadsFilesOf};
ghost use Rattle.cd_driver.specs.Headline.{Headline};
ghost use Rattle.cd_driver.specs.Inner.Delivering.{Put};
ghost use Rattle.cd_driver.specs.Outside.{outside};

use answer::answer;
use cd_base::files::Files;
use cd_base::sink::{PutError, Sink};
use cd_base::status::Status;
use cd_replies::message::Message;
pub use cd_replies::position::place;
use std::alloc::Global;

mod answer;
pub mod exit;
pub mod laws;
mod request;

/// Does what the words ask, which are the program's arguments without its name, and answers the
/// status that the program ends with. An answer has a text for `out` or for `err`, which is made
/// whole before it is put. A put that the sink refuses makes the status [`Status::WriteFault`], and
/// want of memory makes it [`Status::NoMemory`].
pub fn cduce<F: Files, S: Sink>(
    alloc: Global,
    words: &[String],
    files: &mut F,
    out: &mut S,
    err: &mut S,
) -> Status
    // Where no read and no write failed, the status and the texts are an answer, memory aside.
    ensures headline { Headline (texts words.now)
        (outside (F.state files.old) (S.state out.old) (S.state err.old))
        (outside (F.state files.new) (S.state out.new) (S.state err.new)) result }

    // Whatever failed: an answer was written whole, or a prefix of one where a sink refused it or
    // memory ran out, or nothing was written for want of memory.
    ensures complete { Completes (texts words.now)
        (outside (F.state files.old) (S.state out.old) (S.state err.old))
        (outside (F.state files.new) (S.state out.new) (S.state err.new)) result }

    // Each status has its cause, whatever the files and sinks do.
    ensures cause { Cause (texts words.now)
        (outside (F.state files.old) (S.state out.old) (S.state err.old))
        (outside (F.state files.new) (S.state out.new) (S.state err.new)) result }

    // What is known of files stays as it was; and a fault was counted only at a file that the
    // words' command reads, which is the last at which one came.
    ensures known { (F.state files.new).known ≡ (F.state files.old).known }
    ensures files { ReadsFilesOf (texts words.now) (F.state files.old) (F.state files.new) }
{
    match answer(alloc, words, files) {
        Ok(message) => deliver(&message, out, err),
        Err(_) => Status::NoMemory,
    }
}

// Puts the text of a message to its sink.
fn deliver<S: Sink>(message: &Message, out: &mut S, err: &mut S) -> Status
    ensures output { IsTrue message.now.on_output
        → Put (string_bytes message.now.text) message.now.status (S.state out.old)
        (S.state out.new) result × (S.state err.new ≡ S.state err.old) }
    ensures errors { message.now.on_output ≡ false
        → Put (string_bytes message.now.text) message.now.status (S.state err.old)
        (S.state err.new) result × (S.state out.new ≡ S.state out.old) }
{
    if message.on_output {
        put(out, message)
    } else {
        put(err, message)
    }
}

fn put<S: Sink>(sink: &mut S, message: &Message) -> Status
    ensures { Put (string_bytes message.now.text) message.now.status (S.state sink.old)
        (S.state sink.new) result }
{
    match sink.put(message.text.as_bytes()) {
        Ok(()) => message.status,
        Err(PutError::Failed) => Status::WriteFault,
        Err(PutError::Memory) => Status::NoMemory,
    }
}

ghost use Rattle.cd_driver.specs.Answer.{Answer};
ghost use Rattle.cd_driver.specs.Command.{texts};
ghost use Rattle.cd_driver.specs.FilesRead.{ReadsFilesOf};
ghost use Rattle.cd_replies.specs.Message.{IsAnswer};
ghost use Rattle.std.specs.Prelude.{◌≡◌};

use crate::request::{Request, request_of};
use cd_base::files::Files;
use cd_checking::check;
use cd_member::member;
use cd_replies::message::{Message, usage};
use cd_running::{run, work};
use cd_sub::{sub, sub_types};
use std::alloc::{AllocError, Global};

/// The answer to words.
pub(crate) fn answer<F: Files>(
    alloc: Global,
    words: &[String],
    files: &mut F,
) -> Result<Message, AllocError>
    ensures answer { IsAnswer (λ disk. Answer (texts words.now) disk) (F.state files.old)
        (F.state files.new) result }
    ensures known { (F.state files.new).known ≡ (F.state files.old).known }
    ensures files { ReadsFilesOf (texts words.now) (F.state files.old) (F.state files.new) }
{
    match request_of(words) {
        None => usage(alloc),
        Some(Request::Sub(first, second)) => sub(alloc, first, second),
        Some(Request::SubTypes(file, first, second)) => {
            sub_types(alloc, files, file, first, second)
        }
        Some(Request::Member(file, document, text)) => member(alloc, files, file, document, text),
        Some(Request::Check(file)) => check(alloc, files, file),
        Some(Request::Run(file, document, units)) => run(alloc, files, file, document, units),
        Some(Request::Work(size)) => work(alloc, size),
    }
}

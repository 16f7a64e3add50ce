//! What the process exits with.
ghost use Rattle.std.specs.Prelude.{◌≡◌, ◌⊎◌, [], IfOk, IfErr};
ghost use Rattle.std.specs.Process.{exit_status};
ghost use Rattle.cd_driver.specs.Command.{texts};
ghost use Rattle.cd_driver.specs.Outside.{outside};
ghost use Rattle.cd_base.specs.Status.{status_number};
ghost use Rattle.cd_driver.specs.Exit.{Exits};

use crate::cduce;
use cd_base::files::Files;
use cd_base::sink::Sink;
use cd_base::status::Status;
use std::alloc::Global;
use std::io;
use std::io::ErrorKind;
use std::process::ExitCode;

/// Does what the words ask, and gives what the process exits with. Words that are not UTF-8 have no
/// listed form, as no words have none.
pub fn exit_on<F: Files, S: Sink>(
    alloc: Global,
    words: io::Result<Vec<String>>,
    files: &mut F,
    out: &mut S,
    err: &mut S,
) -> ExitCode
    ensures words { IfOk words (λ words. Exits (texts words.items)
        (outside (F.state files.old) (S.state out.old) (S.state err.old))
        (outside (F.state files.new) (S.state out.new) (S.state err.new)) result) }

    // Where the words could not be had, the process exits as with none, or for want of memory.
    ensures no_words { IfErr words (λ _. (exit_status result ≡ 5) ⊎ Exits []
        (outside (F.state files.old) (S.state out.old) (S.state err.old))
        (outside (F.state files.new) (S.state out.new) (S.state err.new)) result) }
{
    match words {
        Ok(words) => exit_with(cduce(alloc, words.as_slice(), files, out, err)),
        Err(error) if error.kind() == ErrorKind::OutOfMemory => exit_with(Status::NoMemory),
        Err(_) => exit_with(cduce(alloc, &[], files, out, err)),
    }
}

// The exit code of a status is its number.
fn exit_with(status: Status) -> ExitCode
    ensures { exit_status result ≡ status_number status }
{
    ExitCode::from(status.number())
}

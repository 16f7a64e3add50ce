//! Laws of the top call's definitions. Each is the contract of a function that does nothing.
ghost use Rattle.std.specs.Prelude.{◌≡◌, List};
ghost use Rattle.std.specs.Str.{IsUtf8};
ghost use Rattle.cd_base.specs.FilesState.{FilesState};
ghost use Rattle.cd_base.specs.declared.status.Status.{Status};
ghost use Rattle.cd_program.specs.Expr.{Program};
ghost use Rattle.cd_typing.specs.Kept.{Kept};
ghost use Rattle.cd_typing.specs.Typed.{IsTyped, IsTypedWithin};
ghost use Rattle.cd_safety.specs.ComesWithin.{KeepsTypes, StaysWithin};
ghost use Rattle.cd_safety.specs.SafeProgram.{IsSafeProgram};
ghost use Rattle.cd_replies.specs.Bytes.{Bytes};
ghost use Rattle.cd_replies.specs.Disk.{Disk};
ghost use Rattle.cd_replies.specs.File.{ReadsThere, ReadsAmong};
ghost use Rattle.cd_replies.specs.Reply.{Reply};
ghost use Rattle.cd_replies.specs.Texts.{ReadsAsProgram};
ghost use Rattle.cd_driver.specs.Answer.{Answer, FileIsKnown};
ghost use Rattle.cd_driver.specs.Command.{Command, SubTypes, ParseAs, files_of};
ghost use Rattle.cd_driver.specs.Outside.{Outside};
ghost use Rattle.cd_driver.specs.FilesRead.{ReadsFilesOf, NamesNoFile};
ghost use Rattle.cd_driver.specs.Causes.{Cause};
ghost use Rattle.cd_driver.specs.Reasons.{Reason};

use cd_texts::laws::{written_programs_are_safe, written_programs_stay_within};

/// The words and the files decide the status of an answer, where each file that the words' command
/// reads can't be read, or is known. So each status comes exactly where its rule holds, want of
/// memory and faults of writing aside.
pub fn status_is_decided()
    ensures { (words : List Bytes) (disk : Disk) → FileIsKnown words disk → (first second : Reply)
        → Answer words disk first → Answer words disk second
        → first.status ≡ second.status }
{}

/// What each status says of the words, the files and the sinks.
pub fn causes()
    ensures { (words : List Bytes) (before after : Outside) (status : Status)
        → Cause words before after status → Reason words before after status }
{}

/// Where the words' command reads files, what is known of files stays as it was, or the count of
/// faults rose and the last fault came at one of these; where it reads none, it stays as it was.
pub fn files_are_named()
    ensures read { (words : List Bytes) (old new : FilesState) → ReadsFilesOf words old new
        → (file text1 text2 : Bytes) → ParseAs words (SubTypes file text1 text2)
        → ReadsThere old new file }
    ensures among { (words : List Bytes) (old new : FilesState) → ReadsFilesOf words old new
        → (command : Command) → ParseAs words command → ReadsAmong old new (files_of command) }
    ensures unread { (words : List Bytes) (old new : FilesState) → ReadsFilesOf words old new
        → NamesNoFile words → new ≡ old }
{}

/// A program that a text reads as, and that has types, is safe: on each document in the argument of
/// an arrow of its `main` no run of it is stuck, with however many units; what a run ends with is
/// data in the result of the arrow, and what it raises is data. No run of code is a premise.
pub fn typed_programs_are_safe()
    ensures { (text : Bytes) (program : Program) → IsUtf8 text → ReadsAsProgram text program
        → IsTyped program → IsSafeProgram program }
{
    // The contract of this call says so of each text of Unicode characters.
    written_programs_are_safe();
}

/// Where such a program has types within those that are kept for its matches, each run on such a
/// document asks a pattern only of values in a type that is kept for it: what the program comes to,
/// it comes to also where its patterns answer for such values alone.
pub fn typed_programs_stay_within()
    ensures { (text : Bytes) (program : Program) → IsUtf8 text → ReadsAsProgram text program
        → IsTyped program → (kept : Kept) → KeepsTypes kept → IsTypedWithin kept program
        → StaysWithin kept program }
{
    // The contract of this call says so of each text of Unicode characters.
    written_programs_stay_within();
}

//! The command `check`: whether the typing rules type a program.
#![tactic(auto)]

ghost use Rattle.std.specs.Prelude.{◌≡◌, IfOk, IfNone, MatchOption};
ghost use Rattle.cd_program.specs.PlainProgram.{plain_program};
ghost use Rattle.cd_program.specs.WellMade.{IsWellMadeProgram};
ghost use Rattle.cd_typing.specs.Typed.{IsTyped};
ghost use Rattle.cd_resolved.specs.Resolved.{program_of, IsResolved, Extends};
ghost use Rattle.cd_replies.specs.Bytes.{Bytes};
ghost use Rattle.cd_replies.specs.Disk.{Disk, HasText};
ghost use Rattle.cd_replies.specs.File.{ReadsThere};
ghost use Rattle.cd_replies.specs.Message.{IsAnswer, reply_of};
ghost use Rattle.cd_replies.specs.Texts.{ReadsAsProgram};
ghost use Rattle.cd_empty.specs.Seen.{graph_of, table_of};
ghost use Rattle.cd_checking.specs.CheckAnswer.{CheckAnswer, ProgramAnswer, ReportsFault};
ghost use Rattle.cd_checking.specs.Inner.FaultSaid.{IsNamed, IsSaid};

use cd_base::files::Files;
use cd_check::{CheckError, check_types, world_of};
use cd_empty::World;
use cd_placed::laws::places_differ;
use cd_program::program::Program;
use cd_replies::file::read_file;
use cd_replies::message::{Message, accepted, ill_typed, no_text, refused};
use cd_replies::reader::read_program;
use cd_resolved::{Resolved, resolve_program};
use std::alloc::{AllocError, Global};

/// What is said of the program of a file: that it is accepted, where the typing rules type it, or
/// else a fault of typing.
///
/// # Errors
///
/// Want of memory.
pub fn check<F: Files>(alloc: Global, files: &mut F, file: &str) -> Result<Message, AllocError>
    ensures answer { IsAnswer (λ disk. CheckAnswer disk file.now) (F.state files.old)
        (F.state files.new) result }
    ensures known { (F.state files.new).known ≡ (F.state files.old).known }
    ensures read { ReadsThere (F.state files.old) (F.state files.new) file.now }
{
    match read_file(files, file) {
        Ok(text) => of_text(alloc, file, text.as_str()),
        Err(error) => no_text(alloc, file, error),
    }
}

// What is said of the program, where the file has this text.
fn of_text(alloc: Global, file: &str, text: &str) -> Result<Message, AllocError>
    ensures { IfOk result (λ message. (disk : Disk) → HasText disk file.now text.now
        → CheckAnswer disk file.now (reply_of message)) }
{
    match read_program(alloc, text) {
        Ok(program) => of_program(alloc, file, text, &program),
        Err(error) => refused(alloc, file, text, error),
    }
}

// What is said of a program that the file's text reads as.
fn of_program(
    alloc: Global,
    file: &str,
    text: &str,
    program: &Program,
) -> Result<Message, AllocError>
    requires reads { ReadsAsProgram text.now (plain_program program.now) }
    requires well_made { IsWellMadeProgram (plain_program program.now) }
    ensures { IfOk result (λ message.
        ProgramAnswer file.now text.now (plain_program program.now) (reply_of message)) }
{
    let program = resolved(alloc, program)?;
    of_resolved(alloc, file, text, &program)
}

// The same, where the program is resolved.
fn of_resolved(
    alloc: Global,
    file: &str,
    text: &str,
    program: &Resolved<'_>,
) -> Result<Message, AllocError>
    requires resolved { IsResolved program.now }
    ensures { IfOk result (λ message.
        ProgramAnswer file.now text.now (program_of program.now) (reply_of message)) }
{
    let mut world = world_of(alloc, program)?;
    in_world(alloc, &mut world, file, text, program)
}

// The same, in a world of its nodes.
fn in_world(
    alloc: Global,
    world: &mut World,
    file: &str,
    text: &str,
    program: &Resolved<'_>,
) -> Result<Message, AllocError>
    requires resolved { IsResolved program.now }
    requires begins { Extends program.now (graph_of world.old) }
    ensures { IfOk result (λ message.
        ProgramAnswer file.now text.now (program_of program.now) (reply_of message)) }
{
    match no_types(alloc, world, file, text, program)? {
        None => accepted(alloc),
        Some(message) => Ok(message),
    }
}

/// A program that was read, with the nodes of its written types.
///
/// # Errors
///
/// Want of memory.
pub fn resolved<'p>(alloc: Global, program: &'p Program) -> Result<Resolved<'p>, AllocError>
    requires read { (text : Bytes) × ReadsAsProgram text (plain_program program.now) }
    requires well_made { IsWellMadeProgram (plain_program program.now) }
    ensures program { IfOk result (λ resolved. program_of resolved ≡ plain_program program.now) }
    ensures resolved { IfOk result IsResolved }
{
    // The contract of this call says that no two functions, nor patterns, of a program that a text
    // writes begin at one place.
    places_differ();
    resolve_program(alloc, program)
}

/// What is said of a program if the typing rules do not type it: the place in this text of a file,
/// the rule and the element of a fault of typing. The world begins with the nodes of the program,
/// and still does so where the program has types.
///
/// # Errors
///
/// Want of memory.
pub fn no_types(
    alloc: Global,
    world: &mut World,
    file: &str,
    text: &str,
    program: &Resolved<'_>,
) -> Result<Option<Message>, AllocError>
    requires resolved { IsResolved program.now }
    requires begins { Extends program.now (graph_of world.old) }
    ensures types { IfOk result (λ found. MatchOption found (IsTyped (program_of program.now))
        (λ message. ReportsFault file.now text.now (program_of program.now)
        (reply_of message))) }
    ensures begins { IfOk result
        (λ found. IfNone found (Extends program.now (graph_of world.new))) }
{
    match check_types(alloc, world, program) {
        Ok(matched) => {
            drop(matched);
            Ok(None)
        }
        Err(error) => Ok(Some(unmet(alloc, file, text, world, error)?)),
    }
}

// What is said of a rule that is not met.
fn unmet(
    alloc: Global,
    file: &str,
    text: &str,
    world: &World,
    error: CheckError,
) -> Result<Message, AllocError>
    requires { IsNamed (table_of world.now) error }
    ensures { IfOk result (λ message.
        IsSaid file.now text.now (table_of world.now) error (reply_of message)) }
{
    match error {
        CheckError::IllTyped(fault) => {
            let element = world.elements().text(fault.element)?;
            let rule = fault.rule.text();
            ill_typed(alloc, file, text, fault.at, rule, element.as_str())
        }
        CheckError::Memory => Err(AllocError),
    }
}

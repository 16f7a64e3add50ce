//! The commands `run` and `work`: what a program comes to on a document, and on one of any size.
#![tactic(auto)]

ghost use Rattle.std.specs.Prelude.{◌≡◌, ◌<◌, [], ◌∷◌, length, IfOk};
ghost use Rattle.std.specs.Str.{IsUtf8};
ghost use Rattle.cd_cells.specs.Cells.{thing_at};
ghost use Rattle.cd_cells.specs.Table.{table};
ghost use Rattle.cd_empty.specs.Seen.{graph_of};
ghost use Rattle.cd_resolved.specs.Resolved.{program_of, IsResolved, Extends};
ghost use Rattle.cd_safety.specs.SafeProgram.{IsDocument};
ghost use Rattle.cd_replies.specs.Disk.{Disk, HasText};
ghost use Rattle.cd_replies.specs.File.{ReadsAmong};
ghost use Rattle.cd_replies.specs.Finishing.{Finishes};
ghost use Rattle.cd_replies.specs.Message.{IsAnswer, reply_of};
ghost use Rattle.cd_replies.specs.Texts.{ReadsAsProgram};
ghost use Rattle.cd_running.specs.RunAnswer.{RunAnswer};
ghost use Rattle.cd_running.specs.Inner.OnDocument.{OnDocument, OnValue};
ghost use Rattle.cd_running.specs.TypedProgram.{IsTypedProgram};

use cd_base::files::Files;
use cd_cells::{ValueId, Values};
use cd_check::world_of;
use cd_checking::{no_types, resolved};
use cd_empty::World;
use cd_replies::document::read_document;
use cd_replies::file::read_file;
use cd_replies::message::{Message, no_text, not_input, refused};
use cd_replies::reader::read_program;
use cd_resolved::Resolved;
use cd_safety::laws::typed_programs_have_main;
use on_value::run_on;
use running::reported;
use std::alloc::{AllocError, Global};

mod input;
mod on_value;
mod running;
mod workload;

pub use workload::work;

// The name of a file, and its text.
#[derive(Clone, Copy)]
struct Source<'a> {
    file: &'a str,
    text: &'a str,
}

/// What the program of a file comes to on the value of a document, with so many units: the value
/// that its `main` gives, an exception that is not caught, an integer beyond 128 bits, or that more
/// units are wanted. The file of the program is read first; the document is read where the program
/// has types.
///
/// # Errors
///
/// Want of memory.
pub fn run<F: Files>(
    alloc: Global,
    files: &mut F,
    file: &str,
    document: &str,
    units: u64,
) -> Result<Message, AllocError>
    ensures answer { IsAnswer (λ disk. RunAnswer disk units file.now document.now)
        (F.state files.old) (F.state files.new) result }
    ensures known { (F.state files.new).known ≡ (F.state files.old).known }
    ensures read { ReadsAmong (F.state files.old) (F.state files.new)
        (file.now ∷ document.now ∷ []) }
{
    match read_file(files, file) {
        Ok(text) => with_file(alloc, files, file, text.as_str(), document, units),
        Err(error) => no_text(alloc, file, error),
    }
}

// The answer where the file has this text.
fn with_file<F: Files>(
    alloc: Global,
    files: &mut F,
    file: &str,
    text: &str,
    document: &str,
    units: u64,
) -> Result<Message, AllocError>
    ensures { Finishes (λ disk reply. HasText disk file.now text.now
        → RunAnswer disk units file.now document.now reply)
        (F.state files.old) (F.state files.new) document.now result }
{
    let program = match read_program(alloc, text) {
        Ok(program) => program,
        Err(error) => return refused(alloc, file, text, error),
    };
    let program = resolved(alloc, &program)?;
    with_program(alloc, files, file, text, program, document, units)
}

// The answer where the text reads as this program.
fn with_program<F: Files>(
    alloc: Global,
    files: &mut F,
    file: &str,
    text: &str,
    program: Resolved<'_>,
    document: &str,
    units: u64,
) -> Result<Message, AllocError>
    requires reads { ReadsAsProgram text.now (program_of program) }
    requires resolved { IsResolved program }
    ensures { Finishes (λ disk reply. HasText disk file.now text.now
        → RunAnswer disk units file.now document.now reply)
        (F.state files.old) (F.state files.new) document.now result }
{
    let mut world = world_of(alloc, &program)?;
    let source = Source { file, text };
    in_world(alloc, files, &mut world, source, program, document, units)
}

// The same, in a world that begins with the nodes of the program.
fn in_world<F: Files>(
    alloc: Global,
    files: &mut F,
    world: &mut World,
    source: Source<'_>,
    program: Resolved<'_>,
    document: &str,
    units: u64,
) -> Result<Message, AllocError>
    requires utf8 { IsUtf8 source.text.now }
    requires reads { ReadsAsProgram source.text.now (program_of program) }
    requires resolved { IsResolved program }
    requires begins { Extends program (graph_of world.old) }
    ensures { Finishes (λ disk reply. HasText disk source.entry.file.now source.entry.text.now
        → RunAnswer disk units source.entry.file.now document.now reply)
        (F.state files.old) (F.state files.new) document.now result }
{
    match no_types(alloc, world, source.file, source.text, &program)? {
        None => with_types(alloc, files, world, program, document, units),
        Some(message) => Ok(message),
    }
}

// The answer where the program has types, in a world that begins with its nodes.
fn with_types<F: Files>(
    alloc: Global,
    files: &mut F,
    world: &mut World,
    program: Resolved<'_>,
    document: &str,
    units: u64,
) -> Result<Message, AllocError>
    requires typed { IsTypedProgram (program_of program) }
    requires resolved { IsResolved program }
    requires begins { Extends program (graph_of world.old) }
    ensures { Finishes (OnDocument (program_of program.entry) units document.now)
        (F.state files.old) (F.state files.new) document.now result }
{
    match read_file(files, document) {
        Ok(text) => of_text(alloc, world, program, document, text.as_str(), units),
        Err(error) => no_text(alloc, document, error),
    }
}

// The answer on a document that has this text.
fn of_text(
    alloc: Global,
    world: &mut World,
    program: Resolved<'_>,
    document: &str,
    text: &str,
    units: u64,
) -> Result<Message, AllocError>
    requires typed { IsTypedProgram (program_of program) }
    requires resolved { IsResolved program }
    requires begins { Extends program (graph_of world.old) }
    ensures { IfOk result (λ message. (disk : Disk) → HasText disk document.now text.now
        → OnDocument (program_of program.entry) units document.now disk (reply_of message)) }
{
    let mut values = Values::new(alloc);
    match read_document(alloc, &mut values, text) {
        Ok(value) => of_value(alloc, world, program, document, &mut values, value, units),
        Err(error) => refused(alloc, document, text, error),
    }
}

// The answer on a document with this value.
fn of_value(
    alloc: Global,
    world: &mut World,
    program: Resolved<'_>,
    document: &str,
    values: &mut Values,
    value: ValueId,
    units: u64,
) -> Result<Message, AllocError>
    requires typed { IsTypedProgram (program_of program) }
    requires resolved { IsResolved program }
    requires begins { Extends program (graph_of world.old) }
    requires value { value.0 < length (table values.old) }
    requires document { IsDocument (thing_at (table values.old) value.0) }
    ensures { IfOk result (λ message. OnValue (program_of program.entry) units document.now
        (thing_at (table values.old) value.0) (reply_of message)) }
{
    // The contract of this call says that the program has a `main`.
    typed_programs_have_main();
    match run_on(alloc, world, program, values, value, units)? {
        None => not_input(alloc, document),
        Some(ran) => reported(alloc, values, ran.outcome),
    }
}

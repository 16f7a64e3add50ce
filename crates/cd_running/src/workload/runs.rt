//! The run of the workload's program.
ghost use Rattle.std.specs.Prelude.{◌≡◌, ◌<◌, ◌≤◌, ◌+◌, IfOk, OnOk, length};
ghost use Rattle.cd_cells.specs.Cells.{thing_at};
ghost use Rattle.cd_cells.specs.Table.{table};
ghost use Rattle.cd_empty.specs.Seen.{graph_of};
ghost use Rattle.cd_evaluation.specs.Runs.{Done};
ghost use Rattle.cd_machine.specs.PlainRan.{plain_outcome, IsOutcome};
ghost use Rattle.cd_model.specs.Thing.{Thing};
ghost use Rattle.cd_program.specs.PlainProgram.{plain_program};
ghost use Rattle.cd_program.specs.WellMade.{IsWellMadeProgram};
ghost use Rattle.cd_resolved.specs.Resolved.{program_of, IsResolved, Extends};
ghost use Rattle.cd_running.specs.Ending.{text_of};
ghost use Rattle.cd_running.specs.Inner.WorkCounted.{IsOfRun};
ghost use Rattle.cd_running.specs.Inner.WorkProgram.{work_program};
ghost use Rattle.cd_running.specs.Inner.WorkValues.{document};

use crate::on_value::run_on;
use crate::workload::document::work_document;
use cd_cells::{ValueId, Values};
use cd_check::world_of;
use cd_checking::{no_types, resolved};
use cd_empty::World;
use cd_machine::{Outcome, Ran};
use cd_print::print_value;
use cd_program::program::Program;
use cd_replies::document::read_document;
use cd_replies::reader::read_program;
use cd_replies::refusal::RefusalError;
use cd_resolved::Resolved;
use std::alloc::{AllocError, Global};

const PROGRAM: &str = "\
type Log = <log>[Entry*]
type Entry = <e n=Int>[Int*]
let fun main (Log -> [Int*])
  <log>c -> transform c with <e n=k>[x::Int _*] -> x | _ -> [0]
";

// The units that a run may take.
const UNITS: u64 = 1_000_000_000;

/// How many units a run took, and how many bytes the text of its value has.
#[derive(Clone, Copy)]
pub(crate) struct Ended {
    pub(crate) used: u64,
    pub(crate) length: usize,
}

/// The run of the program on the document of so many entries.
pub(crate) fn run_document(alloc: Global, size: u32) -> Result<Ended, AllocError>
    requires most { size ≤ 100000 }
    ensures { IfOk result (IsOfRun size) }
{
    let program = workload_program(alloc)?;
    let program = resolved(alloc, &program)?;
    run_program(alloc, program, size)
}

// The same, where the program is resolved.
fn run_program(alloc: Global, program: Resolved<'_>, size: u32) -> Result<Ended, AllocError>
    requires most { size ≤ 100000 }
    requires is { program_of program ≡ work_program }
    requires resolved { IsResolved program }
    ensures { IfOk result (IsOfRun size) }
{
    let mut world = world_of(alloc, &program)?;
    in_world(alloc, &mut world, program, size)
}

// The same, in a world that begins with the nodes of the program.
fn in_world(
    alloc: Global,
    world: &mut World,
    program: Resolved<'_>,
    size: u32,
) -> Result<Ended, AllocError>
    requires most { size ≤ 100000 }
    requires is { program_of program ≡ work_program }
    requires resolved { IsResolved program }
    requires begins { Extends program (graph_of world.old) }
    ensures { IfOk result (IsOfRun size) }
{
    has_types(alloc, world, &program)?;
    on_document(alloc, world, program, size)
}

// Asks for the types of the program, which has types.
fn has_types(alloc: Global, world: &mut World, program: &Resolved<'_>) -> Result<(), AllocError>
    requires is { program_of program.now ≡ work_program }
    requires resolved { IsResolved program.now }
    requires begins { Extends program.now (graph_of world.old) }
    ensures { OnOk result (Extends program.now (graph_of world.new)) }
{
    match no_types(alloc, world, "work", PROGRAM, program)? {
        None => Ok(()),
        Some(_) => unreachable!(),
    }
}

// The same, after the program was asked for its types.
fn on_document(
    alloc: Global,
    world: &mut World,
    program: Resolved<'_>,
    size: u32,
) -> Result<Ended, AllocError>
    requires most { size ≤ 100000 }
    requires is { program_of program ≡ work_program }
    requires resolved { IsResolved program }
    requires begins { Extends program (graph_of world.old) }
    ensures { IfOk result (IsOfRun size) }
{
    let mut values = Values::new(alloc);
    let value = document_value(alloc, &mut values, size)?;
    match run_on(alloc, world, program, &mut values, value, UNITS)? {
        Some(ran) => counted(alloc, &values, ran),
        None => unreachable!(),
    }
}

// What is counted of a run that gave a value.
fn counted(alloc: Global, values: &Values, ran: Ran) -> Result<Ended, AllocError>
    requires within { IsOutcome (length (table values.now)) ran.outcome }
    requires gave { (v : Thing) × (plain_outcome (table values.now) ran.outcome ≡ Done v) }
    requires left { ran.left ≤ 1000000000 }
    ensures used { IfOk result (λ ended. ended.used + ran.left ≡ 1000000000) }
    ensures length { IfOk result (λ ended. (v : Thing)
        → plain_outcome (table values.now) ran.outcome ≡ Done v
        → ended.length ≡ length (text_of v)) }
{
    match ran.outcome {
        Outcome::Done(value) => Ok(Ended {
            used: UNITS - ran.left,
            length: print_value(alloc, values, value)?.len(),
        }),
        _ => unreachable!(),
    }
}

// The program.
fn workload_program(alloc: Global) -> Result<Program, AllocError>
    ensures is { IfOk result (λ program. plain_program program ≡ work_program) }
    ensures well_made { IfOk result (λ program. IsWellMadeProgram (plain_program program)) }
{
    match read_program(alloc, PROGRAM) {
        Ok(program) => Ok(program),
        Err(RefusalError::Memory) => Err(AllocError),
        Err(RefusalError::Refused(_)) => unreachable!(),
    }
}

// The value of the document of so many entries, which is added to the values.
fn document_value(alloc: Global, values: &mut Values, size: u32) -> Result<ValueId, AllocError>
    requires most { size ≤ 100000 }
    ensures within { IfOk result (λ id. id.0 < length (table values.new)) }
    ensures is { IfOk result (λ id. thing_at (table values.new) id.0 ≡ document size) }
{
    let text = work_document(alloc, size)?;
    match read_document(alloc, values, text.as_str()) {
        Ok(value) => Ok(value),
        Err(RefusalError::Memory) => Err(AllocError),
        Err(RefusalError::Refused(_)) => unreachable!(),
    }
}

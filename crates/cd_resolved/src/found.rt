//! Where the functions and the patterns of a program begin.
ghost use Rattle.std.specs.Prelude.{◌≡◌, map, IfOk};
ghost use Rattle.cd_program.specs.PlainProgram.{plain_program};
ghost use Rattle.cd_evaluation.specs.ProgramFunctions.{all_functions};
ghost use Rattle.cd_placed.specs.Patterns.{all_patterns, start_of};
ghost use Rattle.cd_resolved.specs.Inner.Found.{IsFound};
ghost use Rattle.cd_resolved.specs.Inner.Numbers.{AreNumbers};
ghost use Rattle.cd_resolved.specs.Inner.PlainParts.{functions_of, trees_of};

use crate::numbers::numbers_of;
use crate::parts::{Functions, Parts};
use crate::starts::starts_of;
use cd_cells::Slots;
use cd_program::program::Program;
use cd_syntax::type_tree::Tree;
use std::alloc::{AllocError, Global};

/// The functions and the patterns of a program, by their places.
#[derive(Drop)]
pub(crate) struct Found<'p> {
    /// The program and its functions.
    pub(crate) functions: Functions<'p>,
    /// The numbers of its patterns by the places where they begin.
    pub(crate) starts: Slots<usize>,
}

/// Those of a program of which these are all functions and all patterns.
pub(crate) fn find<'p>(
    alloc: Global,
    program: &'p Program,
    parts: &Parts<'p>,
) -> Result<Found<'p>, AllocError>
    requires functions { functions_of parts.now.functions.items
        ≡ all_functions (plain_program program.now) }
    requires patterns { trees_of parts.now.patterns.items
        ≡ all_patterns (plain_program program.now) }
    ensures { IfOk result (IsFound (plain_program program.now)) }
{
    let functions = Functions::new(alloc, program, parts.functions.as_slice())?;
    let starts = by_start(alloc, parts.patterns.as_slice())?;
    Ok(Found { functions, starts })
}

// The numbers of patterns by the places where they begin.
fn by_start(alloc: Global, patterns: &[&Tree]) -> Result<Slots<usize>, AllocError>
    ensures { IfOk result (AreNumbers (map start_of (trees_of patterns.now))) }
{
    let starts = starts_of(alloc, patterns)?;
    numbers_of(alloc, starts.as_slice())
}

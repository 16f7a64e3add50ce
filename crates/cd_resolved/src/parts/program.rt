//! The functions, the patterns and the sites of a program.
ghost use Rattle.std.specs.Prelude.{◌≡◌, map, IfOk, OnOk};
ghost use Rattle.cd_program.specs.PlainExpr.{plain_function};
ghost use Rattle.cd_program.specs.PlainProgram.{plain_program};
ghost use Rattle.cd_evaluation.specs.ProgramFunctions.{all_functions};
ghost use Rattle.cd_resolved.specs.Inner.Collecting.{with_functions, with_parts_of_all};
ghost use Rattle.cd_resolved.specs.Inner.Collecting.{parts_of};
ghost use Rattle.cd_resolved.specs.Inner.PlainParts.{plain_parts, functions_of, trees_of};
ghost use Rattle.cd_resolved.specs.Inner.PlainParts.{sites_of};
ghost use Rattle.cd_placed.specs.Patterns.{all_patterns};
ghost use Rattle.cd_typing.specs.Sites.{all_sites};

use crate::parts::collected::Parts;
use crate::parts::function::walk_function;
use cd_program::expr::FunctionTree;
use cd_program::program::Program;
use std::alloc::{AllocError, Global};

/// All functions of a program, those that are declared first, all its patterns, and all its sites.
///
/// # Errors
///
/// Want of memory.
pub fn parts_of<'p>(alloc: Global, program: &'p Program) -> Result<Parts<'p>, AllocError>
    ensures functions { IfOk result (λ parts.
        functions_of parts.functions.items ≡ all_functions (plain_program program.now)) }
    ensures patterns { IfOk result (λ parts.
        trees_of parts.patterns.items ≡ all_patterns (plain_program program.now)) }
    ensures sites { IfOk result (λ parts.
        sites_of parts.sites.items ≡ all_sites (plain_program program.now)) }
{
    collect(alloc, program)
}

fn collect<'p>(alloc: Global, program: &'p Program) -> Result<Parts<'p>, AllocError>
    ensures { IfOk result (λ parts. plain_parts parts ≡ parts_of (plain_program program.now)) }
{
    let mut parts = Parts::new(alloc);
    let functions = program.functions.items();
    add_functions(functions, &mut parts)?;
    walk_functions(functions, &mut parts)?;
    Ok(parts)
}

fn add_functions<'p>(functions: &'p [FunctionTree], parts: &mut Parts<'p>) -> Result<(), AllocError>
    ensures { OnOk result (plain_parts parts.new
        ≡ with_functions (map plain_function functions.now) (plain_parts parts.old)) }
{
    for function in functions {
        parts.add_function(function)?;
    }
    Ok(())
}

fn walk_functions<'p>(
    functions: &'p [FunctionTree],
    parts: &mut Parts<'p>,
) -> Result<(), AllocError>
    ensures { OnOk result (plain_parts parts.new
        ≡ with_parts_of_all (map plain_function functions.now) (plain_parts parts.old)) }
{
    for function in functions {
        walk_function(function, parts)?;
    }
    Ok(())
}

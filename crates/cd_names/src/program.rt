//! The naming fault of a program.
ghost use Rattle.std.specs.Prelude.{◌≡◌, ◌++◌, [], ◌∷◌, map, IfOk, OnOk, IfErr, codes};
ghost use Rattle.cd_program.specs.PlainExpr.{plain_function};
ghost use Rattle.cd_program.specs.PlainProgram.{plain_program, plain_functions};
ghost use Rattle.cd_program.specs.WellMade.{IsWellMadeProgram};
ghost use Rattle.cd_resolve.specs.Errors.{IsReportedError};
ghost use Rattle.cd_resolve.specs.Faults.{Fault};
ghost use Rattle.cd_names.specs.ProgramFaults.{IsFaultOfProgram, declared_names, is_seen};
ghost use Rattle.cd_names.specs.Inner.FindingInPrograms.{found_in_program, found_in_functions};
ghost use Rattle.cd_names.specs.Inner.FindingInPrograms.{again, main_found, names_declared};
ghost use Rattle.cd_names.specs.Inner.PlainFound.{plain_found};

use crate::base::Base;
use crate::found::Found;
use crate::function::walk_function;
use crate::locals::Locals;
use crate::trees::check_trees;
use cd_program::expr::FunctionTree;
use cd_program::program::{FunctionTrees, Program};
use cd_resolve::error::NameError;
use cd_resolve::least::{first_of, report_least};
use cd_resolve::{NameIndex, check_declarations, names_of};
use cd_syntax::name::Name;
use std::alloc::{AllocError, Global};

/// Looks for naming faults in a program.
///
/// # Errors
///
/// Of all naming faults of the program the one with the least place, at one place in the order of
/// `NameFault`; or want of memory.
pub fn check_program(alloc: Global, program: &Program) -> Result<(), NameError>
    requires { IsWellMadeProgram (plain_program program.now) }
    ensures sound { OnOk result ((fault : Fault)
        → IsFaultOfProgram (plain_program program.now) fault → ⊥) }
    ensures fault { IfErr result
        (λ error. IsReportedError (IsFaultOfProgram (plain_program program.now)) error) }
{
    let found = walk_program(alloc, program)?;
    let names = names_of(alloc, &program.types)?;
    let declared = check_declarations(alloc, &program.types);
    let reported = first_of(declared, report_least(alloc, found.faults.as_slice()));
    first_of(reported, check_trees(alloc, &names, found.trees.as_slice()))
}

// What a walk over a program finds.
fn walk_program<'t>(alloc: Global, program: &'t Program) -> Result<Found<'t>, AllocError>
    ensures { IfOk result (λ found.
        plain_found found ≡ found_in_program (plain_program program.now)) }
{
    let mut found = Found::new(alloc);
    let mut functions = NameIndex::new(alloc);
    declare_all(&program.functions, &mut functions, &mut found)?;
    look_for_main(alloc, &functions, program.end, &mut found)?;
    let base = Base {
        alloc,
        functions: &functions,
    };
    walk_functions(&base, &program.functions, &mut found)?;
    Ok(found)
}

// Adds the names of functions to these, and reports those that are declared again.
fn declare_all<'t>(
    declared: &'t FunctionTrees,
    functions: &mut NameIndex<'t>,
    found: &mut Found<'t>,
) -> Result<(), AllocError>
    ensures functions { OnOk result (functions.new
        ≡ functions.old ++ names_declared (plain_functions declared.now)) }
    ensures found { OnOk result (plain_found found.new
        ≡ again functions.old (declared_names (plain_functions declared.now))
        (plain_found found.old)) }
{
    for function in declared.items() {
        declare(function, functions, found)?;
    }
    Ok(())
}

fn declare<'t>(
    function: &'t FunctionTree,
    functions: &mut NameIndex<'t>,
    found: &mut Found<'t>,
) -> Result<(), AllocError>
    ensures functions { OnOk result (functions.new
        ≡ functions.old ++ names_declared (plain_function function.now ∷ [])) }
    ensures found { OnOk result (plain_found found.new
        ≡ again functions.old (declared_names (plain_function function.now ∷ []))
        (plain_found found.old)) }
{
    let Some(name) = &function.name else {
        return Ok(());
    };
    let again = functions.add(name)?;
    found.report_twice(again, name, function.name_at)
}

// Reports where no function `main` is declared, at the end of the program.
fn look_for_main<'t>(
    alloc: Global,
    functions: &NameIndex<'_>,
    end: usize,
    found: &mut Found<'t>,
) -> Result<(), AllocError>
    ensures { OnOk result (plain_found found.new
        ≡ main_found (is_seen functions.now (codes "main")) end (plain_found found.old)) }
{
    let name = Name::of_characters(alloc, &['m', 'a', 'i', 'n'])?;
    if functions.find(&name).is_some() {
        return Ok(());
    }
    found.report_no_main(end)
}

// Walks over functions in turn.
fn walk_functions<'t>(
    base: &Base<'_, 't>,
    functions: &'t FunctionTrees,
    found: &mut Found<'t>,
) -> Result<(), AllocError>
    ensures { OnOk result (plain_found found.new
        ≡ found_in_functions base.now.functions.now (plain_functions functions.now)
        (plain_found found.old)) }
{
    for function in functions.items() {
        let mut locals = Locals::new(base.alloc);
        walk_function(base, function, &mut locals, found)?;
    }
    Ok(())
}

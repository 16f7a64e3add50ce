//! All names that a pattern binds.
ghost use Rattle.std.specs.Prelude.{◌≡◌, map, IfOk};
ghost use Rattle.cd_syntax.specs.Name.{IsLabel};
ghost use Rattle.cd_syntax.specs.PlainTree.{plain};
ghost use Rattle.cd_syntax.specs.WellMadePattern.{IsWellMadePattern};
ghost use Rattle.cd_model.specs.AllOf.{AllOf};
ghost use Rattle.cd_cells.specs.Table.{names, Grows};
ghost use Rattle.cd_names.specs.ProgramFaults.{names_of};
ghost use Rattle.cd_code.specs.Inner.Bindings.{all_named, HaveLabels};
ghost use Rattle.cd_code.specs.Inner.Numbered.{numbered};

use crate::binding::{Binding, bind};
use cd_cells::Values;
use cd_syntax::name::Name;
use cd_syntax::type_tree::Tree;
use cd_variables::check_variables;
use cd_variables::occurrence::Occurrence;
use std::alloc::{AllocError, Global};

/// The names that a pattern binds, the innermost first, by the numbers of these variables and of a
/// table of values.
pub(crate) fn bindings_of(
    alloc: Global,
    values: &mut Values,
    variables: &[Name],
    pattern: &Tree,
) -> Result<Vec<Binding>, AllocError>
    requires { IsWellMadePattern (plain pattern.now) }
    ensures bound { IfOk result (λ all. all_named (names values.new) all.items
        ≡ numbered variables.now (names_of (plain pattern.now))) }
    ensures labels { IfOk result (λ all. HaveLabels (names values.new) all.items) }
    ensures grows { Grows values.old values.new }
{
    let mut bound = Vec::new(alloc);
    let mut faults = Vec::new(alloc);
    check_variables(alloc, pattern, &mut bound, &mut faults)?;
    bind_all(alloc, values, variables, bound.as_slice())
}

// These names.
fn bind_all(
    alloc: Global,
    values: &mut Values,
    variables: &[Name],
    bound: &[Occurrence<'_>],
) -> Result<Vec<Binding>, AllocError>
    requires { AllOf (λ one. IsLabel one.name.now) bound.now }
    ensures bound { IfOk result (λ all. all_named (names values.new) all.items
        ≡ numbered variables.now (map (λ one. one.name.now) bound.now)) }
    ensures labels { IfOk result (λ all. HaveLabels (names values.new) all.items) }
    ensures grows { Grows values.old values.new }
{
    let mut bindings = Vec::new(alloc);
    for one in bound {
        bind(values, variables, one.name, &mut bindings)?;
    }
    Ok(bindings)
}

//! Alternatives, of which one binds.
ghost use Rattle.std.specs.Prelude.{◌≡◌, ◌++◌, IfOk, map};
ghost use Rattle.cd_syntax.specs.TypeTree.{trees_of};
ghost use Rattle.cd_syntax.specs.PlainTree.{plain, plain_trees};
ghost use Rattle.cd_variables.specs.Occurrences.{bound as bound_by, bound_by_all};
ghost use Rattle.cd_variables.specs.VariableFaults.{begins, differs};
ghost use Rattle.cd_variables.specs.FindingVariables.{union_faults, alternative_faults};
ghost use Rattle.cd_variables.specs.FindingVariables.{reported_if, differ, names_among};
ghost use Rattle.cd_variables.specs.FindingVariables.{variable_faults};
ghost use Rattle.cd_variables.specs.PlainOccurrences.{plain_occurrence};
ghost use Rattle.cd_resolve.specs.PlainReported.{plain_reported};

use crate::name_set::{NameSet, report_if_differs};
use crate::occurrence::Occurrence;
use crate::pattern::check_variables;
use crate::seen::since;
use cd_resolve::reported::Reported;
use cd_syntax::type_tree::{Tree, Trees};
use std::alloc::{AllocError, Global};

/// The variables of a union, whose alternatives have to bind the same.
#[cycle(check)]
pub(crate) fn check_union<'t>(
    alloc: Global,
    trees: &'t Trees,
    bound: &mut Vec<Occurrence<'t>>,
    faults: &mut Vec<Reported<'t>>,
) -> Result<(), AllocError>
    ensures bound { IfOk result (λ _. map plain_occurrence bound.new.items
        ≡ map plain_occurrence bound.old.items ++ bound_by_all (plain_trees trees.now)) }
    ensures faults { IfOk result (λ _. map plain_reported faults.new.items
        ≡ union_faults (plain_trees trees.now) (map plain_reported faults.old.items)) }
{
    match trees.items() {
        [] => Ok(()),
        [first, rest @ ..] => {
            let from = bound.len();
            check_variables(alloc, first, bound, faults)?;
            let names = NameSet::of(alloc, since(bound, from))?;
            check_others(alloc, &names, rest, bound, faults)
        }
    }
}

// Adds the alternatives after the first, which binds these names.
#[cycle(check)]
fn check_others<'t>(
    alloc: Global,
    names: &NameSet<'t>,
    rest: &'t [Tree],
    bound: &mut Vec<Occurrence<'t>>,
    faults: &mut Vec<Reported<'t>>,
) -> Result<(), AllocError>
    ensures bound { IfOk result (λ _. map plain_occurrence bound.new.items
        ≡ map plain_occurrence bound.old.items ++ bound_by_all (trees_of (map plain rest.now))) }
    ensures faults { IfOk result (λ _. map plain_reported faults.new.items
        ≡ alternative_faults names.now (trees_of (map plain rest.now))
        (map plain_reported faults.old.items)) }
{
    for tree in rest {
        check_other(alloc, names, tree, bound, faults)?;
    }
    Ok(())
}

// Adds one of these, and reports it if it binds other names.
#[cycle(check)]
fn check_other<'t>(
    alloc: Global,
    names: &NameSet<'t>,
    tree: &'t Tree,
    bound: &mut Vec<Occurrence<'t>>,
    faults: &mut Vec<Reported<'t>>,
) -> Result<(), AllocError>
    ensures bound { IfOk result (λ _. map plain_occurrence bound.new.items
        ≡ map plain_occurrence bound.old.items ++ bound_by (plain tree.now)) }
    ensures faults { IfOk result (λ _. map plain_reported faults.new.items
        ≡ reported_if (differ names.now (names_among (bound_by (plain tree.now))))
        (differs (begins (plain tree.now)))
        (variable_faults (plain tree.now) (map plain_reported faults.old.items))) }
{
    let from = bound.len();
    check_variables(alloc, tree, bound, faults)?;
    report_if_differs(alloc, names, since(bound, from), tree.span.from, faults)
}

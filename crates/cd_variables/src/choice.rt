//! Alternatives of a regular expression, whose plain variables have to be the same.
ghost use Rattle.std.specs.Prelude.{◌≡◌, ◌++◌, IfOk, map};
ghost use Rattle.cd_syntax.specs.TypeTree.{regulars_of};
ghost use Rattle.cd_syntax.specs.PlainTree.{plain_regular, plain_regulars};
ghost use Rattle.cd_variables.specs.Occurrences.{plain as plain_ones, plain_of_all};
ghost use Rattle.cd_variables.specs.Occurrences.{gathered as gathered_ones, gathered_of_all};
ghost use Rattle.cd_variables.specs.VariableFaults.{regular_begins, differs};
ghost use Rattle.cd_variables.specs.FindingVariables.{choice_faults, other_faults};
ghost use Rattle.cd_variables.specs.FindingVariables.{reported_if, differ, names_among};
ghost use Rattle.cd_variables.specs.FindingVariables.{regular_faults};
ghost use Rattle.cd_variables.specs.PlainOccurrences.{plain_occurrence};
ghost use Rattle.cd_resolve.specs.PlainReported.{plain_reported};

use crate::name_set::{NameSet, report_if_differs};
use crate::occurrence::Occurrence;
use crate::regular::check_regular;
use crate::seen::since;
use cd_resolve::reported::Reported;
use cd_syntax::type_tree::{RegTree, RegTrees};
use std::alloc::{AllocError, Global};

/// The variables of alternatives.
#[cycle(check)]
pub(crate) fn check_choice<'t>(
    alloc: Global,
    all: &'t RegTrees,
    plain: &mut Vec<Occurrence<'t>>,
    gathered: &mut Vec<Occurrence<'t>>,
    faults: &mut Vec<Reported<'t>>,
) -> Result<(), AllocError>
    ensures plain { IfOk result (λ _. map plain_occurrence plain.new.items
        ≡ map plain_occurrence plain.old.items ++ plain_of_all (plain_regulars all.now)) }
    ensures gathered { IfOk result (λ _. map plain_occurrence gathered.new.items
        ≡ map plain_occurrence gathered.old.items ++ gathered_of_all (plain_regulars all.now)) }
    ensures faults { IfOk result (λ _. map plain_reported faults.new.items
        ≡ choice_faults (plain_regulars all.now) (map plain_reported faults.old.items)) }
{
    match all.items() {
        [] => Ok(()),
        [first, rest @ ..] => {
            let from = plain.len();
            check_regular(alloc, first, plain, gathered, faults)?;
            let names = NameSet::of(alloc, since(plain, from))?;
            check_others(alloc, &names, rest, plain, gathered, faults)
        }
    }
}

// Adds the alternatives after the first, whose plain variables have these names.
#[cycle(check)]
fn check_others<'t>(
    alloc: Global,
    names: &NameSet<'t>,
    rest: &'t [RegTree],
    plain: &mut Vec<Occurrence<'t>>,
    gathered: &mut Vec<Occurrence<'t>>,
    faults: &mut Vec<Reported<'t>>,
) -> Result<(), AllocError>
    ensures plain { IfOk result (λ _. map plain_occurrence plain.new.items
        ≡ map plain_occurrence plain.old.items
        ++ plain_of_all (regulars_of (map plain_regular rest.now))) }
    ensures gathered { IfOk result (λ _. map plain_occurrence gathered.new.items
        ≡ map plain_occurrence gathered.old.items
        ++ gathered_of_all (regulars_of (map plain_regular rest.now))) }
    ensures faults { IfOk result (λ _. map plain_reported faults.new.items
        ≡ other_faults names.now (regulars_of (map plain_regular rest.now))
        (map plain_reported faults.old.items)) }
{
    for expression in rest {
        check_other(alloc, names, expression, plain, gathered, faults)?;
    }
    Ok(())
}

// Adds one of these, and reports it if its plain variables have other names.
#[cycle(check)]
fn check_other<'t>(
    alloc: Global,
    names: &NameSet<'t>,
    expression: &'t RegTree,
    plain: &mut Vec<Occurrence<'t>>,
    gathered: &mut Vec<Occurrence<'t>>,
    faults: &mut Vec<Reported<'t>>,
) -> Result<(), AllocError>
    ensures plain { IfOk result (λ _. map plain_occurrence plain.new.items
        ≡ map plain_occurrence plain.old.items ++ plain_ones (plain_regular expression.now)) }
    ensures gathered { IfOk result (λ _. map plain_occurrence gathered.new.items
        ≡ map plain_occurrence gathered.old.items
        ++ gathered_ones (plain_regular expression.now)) }
    ensures faults { IfOk result (λ _. map plain_reported faults.new.items
        ≡ reported_if (differ names.now (names_among (plain_ones (plain_regular expression.now))))
        (differs (regular_begins (plain_regular expression.now)))
        (regular_faults (plain_regular expression.now) (map plain_reported faults.old.items))) }
{
    let from = plain.len();
    check_regular(alloc, expression, plain, gathered, faults)?;
    let at = expression.span.from;
    report_if_differs(alloc, names, since(plain, from), at, faults)
}

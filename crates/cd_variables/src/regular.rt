//! The variables of the regular expression of a sequence: the plain ones, which its items bind, and
//! those that gather its items.
ghost use Rattle.std.specs.Prelude.{◌≡◌, ◌++◌, ◌∷◌, [], IfOk, map};
ghost use Rattle.cd_syntax.specs.PlainTree.{plain_regular, plain_regular_kind, plain_regulars};
ghost use Rattle.cd_variables.specs.Occurrences.{plain as plain_ones, plain_in};
ghost use Rattle.cd_variables.specs.Occurrences.{gathered as gathered_ones, gathered_in};
ghost use Rattle.cd_variables.specs.VariableFaults.{repeats};
ghost use Rattle.cd_variables.specs.FindingVariables.{regular_faults, regular_kind_faults};
ghost use Rattle.cd_variables.specs.FindingVariables.{reported_again, reported_of_each};
ghost use Rattle.cd_variables.specs.PlainOccurrences.{plain_occurrence};
ghost use Rattle.cd_resolve.specs.PlainReported.{plain_reported};

use crate::choice::check_choice;
use crate::occurrence::Occurrence;
use crate::pattern::check_variables;
use crate::seen::{report_inside, report_repeats, since};
use crate::turn::check_turn;
use cd_resolve::reported::Reported;
use cd_syntax::name::Name;
use cd_syntax::type_tree::{RegKind, RegTree};
use std::alloc::{AllocError, Global};

/// Puts the variables that an expression binds after those that are bound, and the faults of its
/// variables after these.
#[cycle(check)]
pub(crate) fn check_regular<'t>(
    alloc: Global,
    expression: &'t RegTree,
    plain: &mut Vec<Occurrence<'t>>,
    gathered: &mut Vec<Occurrence<'t>>,
    faults: &mut Vec<Reported<'t>>,
) -> Result<(), AllocError>
    ensures plain { IfOk result (λ _. map plain_occurrence plain.new.items
        ≡ map plain_occurrence plain.old.items ++ plain_ones (plain_regular expression.now)) }
    ensures gathered { IfOk result (λ _. map plain_occurrence gathered.new.items
        ≡ map plain_occurrence gathered.old.items
        ++ gathered_ones (plain_regular expression.now)) }
    ensures faults { IfOk result (λ _. map plain_reported faults.new.items
        ≡ regular_faults (plain_regular expression.now) (map plain_reported faults.old.items)) }
{
    check_regular_kind(
        alloc,
        expression.span.from,
        &expression.kind,
        plain,
        gathered,
        faults,
    )
}

// Those of a kind, whose expression begins at this place.
#[cycle(check)]
fn check_regular_kind<'t>(
    alloc: Global,
    at: usize,
    kind: &'t RegKind,
    plain: &mut Vec<Occurrence<'t>>,
    gathered: &mut Vec<Occurrence<'t>>,
    faults: &mut Vec<Reported<'t>>,
) -> Result<(), AllocError>
    ensures plain { IfOk result (λ _. map plain_occurrence plain.new.items
        ≡ map plain_occurrence plain.old.items ++ plain_in (plain_regular_kind kind.now)) }
    ensures gathered { IfOk result (λ _. map plain_occurrence gathered.new.items
        ≡ map plain_occurrence gathered.old.items
        ++ gathered_in at (plain_regular_kind kind.now)) }
    ensures faults { IfOk result (λ _. map plain_reported faults.new.items
        ≡ regular_kind_faults (plain_regular_kind kind.now) (map plain_reported faults.old.items)) }
{
    match kind {
        RegKind::Nothing => Ok(()),
        RegKind::Item(tree) => check_variables(alloc, tree, plain, faults),
        RegKind::Seq(all) => check_turn(alloc, all, plain, gathered, faults),
        RegKind::Alt(all) => check_choice(alloc, all, plain, gathered, faults),
        RegKind::Repeat(inner, _) => check_repeated(alloc, inner, plain, gathered, faults),
        RegKind::Capture(name, inner) => {
            check_gathered(
                alloc,
                Occurrence { name, at },
                inner,
                plain,
                gathered,
                faults,
            )
        }
    }
}

// An expression under a postfix, where no plain variable may stand.
#[cycle(check)]
fn check_repeated<'t>(
    alloc: Global,
    inner: &'t RegTree,
    plain: &mut Vec<Occurrence<'t>>,
    gathered: &mut Vec<Occurrence<'t>>,
    faults: &mut Vec<Reported<'t>>,
) -> Result<(), AllocError>
    ensures plain { IfOk result (λ _. map plain_occurrence plain.new.items
        ≡ map plain_occurrence plain.old.items ++ plain_ones (plain_regular inner.now)) }
    ensures gathered { IfOk result (λ _. map plain_occurrence gathered.new.items
        ≡ map plain_occurrence gathered.old.items ++ gathered_ones (plain_regular inner.now)) }
    ensures faults { IfOk result (λ _. map plain_reported faults.new.items
        ≡ reported_of_each repeats (plain_ones (plain_regular inner.now))
        (regular_faults (plain_regular inner.now) (map plain_reported faults.old.items))) }
{
    let from = plain.len();
    check_regular(alloc, inner, plain, gathered, faults)?;
    report_repeats(since(plain, from), faults)
}

// An expression whose items this variable gathers. It may not stand in the expression.
#[cycle(check)]
fn check_gathered<'t>(
    alloc: Global,
    variable: Occurrence<'t>,
    inner: &'t RegTree,
    plain: &mut Vec<Occurrence<'t>>,
    gathered: &mut Vec<Occurrence<'t>>,
    faults: &mut Vec<Reported<'t>>,
) -> Result<(), AllocError>
    ensures plain { IfOk result (λ _. map plain_occurrence plain.new.items
        ≡ map plain_occurrence plain.old.items ++ plain_ones (plain_regular inner.now)) }
    ensures gathered { IfOk result (λ _. map plain_occurrence gathered.new.items
        ≡ map plain_occurrence gathered.old.items
        ++ (plain_occurrence variable.entry ∷ gathered_ones (plain_regular inner.now))) }
    ensures faults { IfOk result (λ _. map plain_reported faults.new.items
        ≡ reported_again (variable.entry.name.now ∷ []) (gathered_ones (plain_regular inner.now))
        (reported_again (variable.entry.name.now ∷ []) (plain_ones (plain_regular inner.now))
        (regular_faults (plain_regular inner.now) (map plain_reported faults.old.items)))) }
{
    gathered.push(variable)?;
    let from = plain.len();
    let after = gathered.len();
    check_regular(alloc, inner, plain, gathered, faults)?;
    report_inside(variable.name, since(plain, from), faults)?;
    report_inside(variable.name, since(gathered, after), faults)
}

//! Expressions in turn, which all bind.
ghost use Rattle.std.specs.Prelude.{◌≡◌, ◌++◌, [], IfOk, map};
ghost use Rattle.cd_syntax.specs.PlainTree.{plain_regular, plain_regulars};
ghost use Rattle.cd_variables.specs.Occurrences.{plain as plain_ones, plain_of_all};
ghost use Rattle.cd_variables.specs.Occurrences.{gathered as gathered_ones, gathered_of_all};
ghost use Rattle.cd_variables.specs.FindingVariables.{names_among, reported_again};
ghost use Rattle.cd_variables.specs.FindingVariables.{regular_faults, turn_faults};
ghost use Rattle.cd_variables.specs.PlainOccurrences.{plain_occurrence};
ghost use Rattle.cd_resolve.specs.PlainReported.{plain_reported};

use crate::occurrence::Occurrence;
use crate::regular::check_regular;
use crate::seen::{add_names, report_again, since};
use cd_resolve::NameIndex;
use cd_resolve::reported::Reported;
use cd_syntax::type_tree::{RegTree, RegTrees};
use std::alloc::{AllocError, Global};

// The names of the expressions that were met, and those of them that are plain.
#[derive(Drop)]
struct Seen<'t> {
    all: NameIndex<'t>,
    plain: NameIndex<'t>,
}

impl<'t> Seen<'t> {
    // No names.
    fn new(alloc: Global) -> Seen<'t>
        ensures all { result.all ≡ [] }
        ensures plain { result.plain ≡ [] }
    {
        Seen {
            all: NameIndex::new(alloc),
            plain: NameIndex::new(alloc),
        }
    }

    // Adds those of the next expression, and reports its variables that stand again.
    fn add(
        &mut self,
        plain: &[Occurrence<'t>],
        gathered: &[Occurrence<'t>],
        faults: &mut Vec<Reported<'t>>,
    ) -> Result<(), AllocError>
        ensures all { IfOk result (λ _. self.new.all
            ≡ self.old.all ++ names_among (map plain_occurrence plain.now)
            ++ names_among (map plain_occurrence gathered.now)) }
        ensures plain { IfOk result (λ _. self.new.plain
            ≡ self.old.plain ++ names_among (map plain_occurrence plain.now)) }
        ensures faults { IfOk result (λ _. map plain_reported faults.new.items
            ≡ reported_again self.old.plain (map plain_occurrence gathered.now)
            (reported_again self.old.all (map plain_occurrence plain.now)
            (map plain_reported faults.old.items))) }
    {
        report_again(&self.all, plain, faults)?;
        report_again(&self.plain, gathered, faults)?;
        add_names(&mut self.all, plain)?;
        add_names(&mut self.all, gathered)?;
        add_names(&mut self.plain, plain)
    }
}

/// The variables of expressions in turn.
#[cycle(check)]
pub(crate) fn check_turn<'t>(
    alloc: Global,
    all: &'t RegTrees,
    plain: &mut Vec<Occurrence<'t>>,
    gathered: &mut Vec<Occurrence<'t>>,
    faults: &mut Vec<Reported<'t>>,
) -> Result<(), AllocError>
    ensures plain { IfOk result (λ _. map plain_occurrence plain.new.items
        ≡ map plain_occurrence plain.old.items ++ plain_of_all (plain_regulars all.now)) }
    ensures gathered { IfOk result (λ _. map plain_occurrence gathered.new.items
        ≡ map plain_occurrence gathered.old.items ++ gathered_of_all (plain_regulars all.now)) }
    ensures faults { IfOk result (λ _. map plain_reported faults.new.items
        ≡ turn_faults [] [] (plain_regulars all.now) (map plain_reported faults.old.items)) }
{
    let mut seen = Seen::new(alloc);
    check_each(alloc, all, &mut seen, plain, gathered, faults)
}

// Adds those of each, after expressions with these names.
#[cycle(check)]
fn check_each<'t>(
    alloc: Global,
    all: &'t RegTrees,
    seen: &mut Seen<'t>,
    plain: &mut Vec<Occurrence<'t>>,
    gathered: &mut Vec<Occurrence<'t>>,
    faults: &mut Vec<Reported<'t>>,
) -> Result<(), AllocError>
    ensures plain { IfOk result (λ _. map plain_occurrence plain.new.items
        ≡ map plain_occurrence plain.old.items ++ plain_of_all (plain_regulars all.now)) }
    ensures gathered { IfOk result (λ _. map plain_occurrence gathered.new.items
        ≡ map plain_occurrence gathered.old.items ++ gathered_of_all (plain_regulars all.now)) }
    ensures faults { IfOk result (λ _. map plain_reported faults.new.items
        ≡ turn_faults seen.old.all seen.old.plain (plain_regulars all.now)
        (map plain_reported faults.old.items)) }
{
    for expression in all.items() {
        check_next(alloc, expression, seen, plain, gathered, faults)?;
    }
    Ok(())
}

// Adds those of one more.
#[cycle(check)]
fn check_next<'t>(
    alloc: Global,
    expression: &'t RegTree,
    seen: &mut Seen<'t>,
    plain: &mut Vec<Occurrence<'t>>,
    gathered: &mut Vec<Occurrence<'t>>,
    faults: &mut Vec<Reported<'t>>,
) -> Result<(), AllocError>
    ensures plain { IfOk result (λ _. map plain_occurrence plain.new.items
        ≡ map plain_occurrence plain.old.items ++ plain_ones (plain_regular expression.now)) }
    ensures gathered { IfOk result (λ _. map plain_occurrence gathered.new.items
        ≡ map plain_occurrence gathered.old.items
        ++ gathered_ones (plain_regular expression.now)) }
    ensures seen { IfOk result (λ _. seen.new.all
        ≡ seen.old.all ++ names_among (plain_ones (plain_regular expression.now))
        ++ names_among (gathered_ones (plain_regular expression.now))) }
    ensures seen_plain { IfOk result (λ _. seen.new.plain
        ≡ seen.old.plain ++ names_among (plain_ones (plain_regular expression.now))) }
    ensures faults { IfOk result (λ _. map plain_reported faults.new.items
        ≡ reported_again seen.old.plain (gathered_ones (plain_regular expression.now))
        (reported_again seen.old.all (plain_ones (plain_regular expression.now))
        (regular_faults (plain_regular expression.now) (map plain_reported faults.old.items)))) }
{
    let from = plain.len();
    let after = gathered.len();
    check_regular(alloc, expression, plain, gathered, faults)?;
    seen.add(since(plain, from), since(gathered, after), faults)
}

//! The names of some variables, to compare with those of others.
ghost use Rattle.std.specs.Prelude.{◌≡◌, ◌++◌, IfOk, map};
ghost use Rattle.std.specs.List.{list_all};
ghost use Rattle.cd_variables.specs.VariableFaults.{differs};
ghost use Rattle.cd_variables.specs.FindingVariables.{has_name, names_among, differ, reported_if};
ghost use Rattle.cd_variables.specs.FindingVariables.{HaveSameNames};
ghost use Rattle.cd_variables.specs.PlainOccurrences.{plain_occurrence};
ghost use Rattle.cd_resolve.specs.PlainReported.{plain_reported};

use crate::occurrence::Occurrence;
use crate::seen::has;
use cd_resolve::NameIndex;
use cd_resolve::fault::NameFault;
use cd_resolve::reported::Reported;
use cd_syntax::name::Name;
use std::alloc::{AllocError, Global};
use std::marker::Model;

/// Names, each of them once in a list. A contract sees them as often as they were met.
#[derive(Drop)]
pub(crate) struct NameSet<'t> {
    distinct: Vec<&'t Name>,
    index: NameIndex<'t>,
}

impl<'t> Model for NameSet<'t> {
    ghost use Rattle.std.specs.Prelude.{List, map};
    ghost use Rattle.cd_syntax.specs.Name.{Name as AName};
    ghost use Rattle.cd_variables.specs.FindingVariables.{HaveSameNames};

    ghost Value = { List AName };

    ghost view = { λ set. set.index };

    ghost invariant = { λ set.
        HaveSameNames (map (λ name. name.now) set.distinct.items) set.index };
}

impl<'t> NameSet<'t> {
    /// The names of these variables.
    pub(crate) fn of(alloc: Global, variables: &[Occurrence<'t>]) -> Result<NameSet<'t>, AllocError>
        ensures { IfOk result (λ set. set ≡ names_among (map plain_occurrence variables.now)) }
    {
        let mut distinct = Vec::new(alloc);
        let mut index = NameIndex::new(alloc);
        collect(variables, &mut distinct, &mut index)?;
        Ok(NameSet { distinct, index })
    }

    /// Whether some name is one of the ones and none of the others.
    pub(crate) fn differs_from(&self, other: &NameSet<'_>) -> bool
        ensures { result ≡ differ self.now other.now }
    {
        let within = are_within(self.distinct.as_slice(), &other.index);
        !(within && are_within(other.distinct.as_slice(), &self.index))
    }
}

// Adds the names of variables to these, and each that is new to the distinct ones.
fn collect<'t>(
    variables: &[Occurrence<'t>],
    distinct: &mut Vec<&'t Name>,
    index: &mut NameIndex<'t>,
) -> Result<(), AllocError>
    requires { HaveSameNames (map (λ name. name.now) distinct.old.items) index.old }
    ensures names { IfOk result (λ _. index.new
        ≡ index.old ++ names_among (map plain_occurrence variables.now)) }
    ensures same { IfOk result (λ _.
        HaveSameNames (map (λ name. name.now) distinct.new.items) index.new) }
{
    for variable in variables {
        let again = index.add(variable.name)?;
        if !again {
            distinct.push(variable.name)?;
        }
    }
    Ok(())
}

// Whether each of these names is one of the others.
fn are_within(names: &[&Name], others: &NameIndex<'_>) -> bool
    ensures { result ≡ list_all (has_name others.now) (map (λ name. name.now) names.now) }
{
    for name in names {
        if !has(others, name) {
            return false;
        }
    }
    true
}

/// Reports that the alternative at this place binds other variables than the first, which binds
/// these names, if it does.
pub(crate) fn report_if_differs<'t>(
    alloc: Global,
    names: &NameSet<'t>,
    alternative: &[Occurrence<'t>],
    at: usize,
    faults: &mut Vec<Reported<'t>>,
) -> Result<(), AllocError>
    ensures { IfOk result (λ _. map plain_reported faults.new.items
        ≡ reported_if (differ names.now (names_among (map plain_occurrence alternative.now)))
        (differs at) (map plain_reported faults.old.items)) }
{
    if differ_from(alloc, alternative, names)? {
        let fault = NameFault::VariablesDiffer;
        let name = None;
        faults.push(Reported { fault, name, at })?;
    }
    Ok(())
}

// Whether some name is one of the variables' and none of the others, or the other way round.
fn differ_from(
    alloc: Global,
    variables: &[Occurrence<'_>],
    names: &NameSet<'_>,
) -> Result<bool, AllocError>
    ensures { IfOk result (λ answer. answer
        ≡ differ names.now (names_among (map plain_occurrence variables.now))) }
{
    let own = NameSet::of(alloc, variables)?;
    Ok(names.differs_from(&own))
}

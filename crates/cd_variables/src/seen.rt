//! The names of variables that were met.
ghost use Rattle.std.specs.Prelude.{◌≡◌, ◌++◌, ◌∷◌, [], IfOk, map, drop};
ghost use Rattle.cd_variables.specs.VariableFaults.{repeats};
ghost use Rattle.cd_variables.specs.FindingVariables.{has_name, names_among, reported_again};
ghost use Rattle.cd_variables.specs.FindingVariables.{reported_of_each};
ghost use Rattle.cd_variables.specs.PlainOccurrences.{plain_occurrence};
ghost use Rattle.cd_resolve.specs.PlainReported.{plain_reported};

use crate::occurrence::Occurrence;
use cd_resolve::NameIndex;
use cd_resolve::fault::NameFault;
use cd_resolve::reported::Reported;
use cd_syntax::name::Name;
use std::alloc::AllocError;

/// The variables from this place on.
pub(crate) fn since<'a, 't>(all: &'a Vec<Occurrence<'t>>, from: usize) -> &'a [Occurrence<'t>]
    ensures { result.now ≡ drop from all.now.items }
{
    let all = all.as_slice();
    if from > all.len() {
        return &[];
    }
    &all[from..]
}

/// Whether a name is one of these.
pub(crate) fn has(names: &NameIndex<'_>, name: &Name) -> bool
    ensures { result ≡ has_name names.now name.now }
{
    names.find(name).is_some()
}

/// Adds the names of some variables.
pub(crate) fn add_names<'t>(
    names: &mut NameIndex<'t>,
    variables: &[Occurrence<'t>],
) -> Result<(), AllocError>
    ensures { IfOk result (λ _. names.new
        ≡ names.old ++ names_among (map plain_occurrence variables.now)) }
{
    for variable in variables {
        names.add(variable.name)?;
    }
    Ok(())
}

/// Reports that each variable whose name is one of these stands again.
pub(crate) fn report_again<'t>(
    seen: &NameIndex<'_>,
    variables: &[Occurrence<'t>],
    faults: &mut Vec<Reported<'t>>,
) -> Result<(), AllocError>
    ensures { IfOk result (λ _. map plain_reported faults.new.items
        ≡ reported_again seen.now (map plain_occurrence variables.now)
        (map plain_reported faults.old.items)) }
{
    for variable in variables {
        if has(seen, variable.name) {
            report(NameFault::VariableTwice, variable, faults)?;
        }
    }
    Ok(())
}

/// Reports that each variable with this name stands again.
pub(crate) fn report_inside<'t>(
    name: &Name,
    variables: &[Occurrence<'t>],
    faults: &mut Vec<Reported<'t>>,
) -> Result<(), AllocError>
    ensures { IfOk result (λ _. map plain_reported faults.new.items
        ≡ reported_again (name.now ∷ []) (map plain_occurrence variables.now)
        (map plain_reported faults.old.items)) }
{
    for variable in variables {
        if name == variable.name {
            report(NameFault::VariableTwice, variable, faults)?;
        }
    }
    Ok(())
}

/// Reports that each variable stands under a postfix.
pub(crate) fn report_repeats<'t>(
    variables: &[Occurrence<'t>],
    faults: &mut Vec<Reported<'t>>,
) -> Result<(), AllocError>
    ensures { IfOk result (λ _. map plain_reported faults.new.items
        ≡ reported_of_each repeats (map plain_occurrence variables.now)
        (map plain_reported faults.old.items)) }
{
    for variable in variables {
        report(NameFault::VariableRepeats, variable, faults)?;
    }
    Ok(())
}

// Reports a fault of a variable.
fn report<'t>(
    fault: NameFault,
    variable: &Occurrence<'t>,
    faults: &mut Vec<Reported<'t>>,
) -> Result<(), AllocError>
    ensures { IfOk result (λ _. map plain_reported faults.new.items
        ≡ map plain_reported faults.old.items ++ record {
          fault = fault;
          name = variable.now.name.now;
          at = variable.now.at;
        } ∷ []) }
{
    let Occurrence { name, at } = *variable;
    let name = Some(name);
    faults.push(Reported { fault, name, at })?;
    Ok(())
}

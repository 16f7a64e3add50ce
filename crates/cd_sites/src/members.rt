//! The members of unions.
ghost use Rattle.std.specs.Prelude.{◌≡◌, ◌++◌, map, IfOk, OnOk};
ghost use Rattle.cd_model.specs.Formula.{formulas_of};
ghost use Rattle.cd_graph.specs.PlainFormula.{plain, plain_list};
ghost use Rattle.cd_sites.specs.Inner.Members.{members_of, other_members, all_other_members};
ghost use Rattle.cd_sites.specs.Inner.Members.{basic_members, all_basic_members, with_union};

use cd_graph::{Formula, Formulas};
use std::alloc::{AllocError, Global};

/// Copies of the members of a formula: where it is a union, of those of each of its own. Basic sets
/// are one member together.
pub(crate) fn members_of(alloc: Global, formula: &Formula) -> Result<Vec<Formula>, AllocError>
    ensures { IfOk result (λ members. map plain members.items ≡ members_of (plain formula.now)) }
{
    let mut others = Vec::new(alloc);
    let mut basic = Vec::new(alloc);
    add_members(formula, &mut others, &mut basic)?;
    with_union(others, basic)
}

// Formulas, and the union of others after them if there are any.
fn with_union(mut others: Vec<Formula>, basic: Vec<Formula>) -> Result<Vec<Formula>, AllocError>
    ensures { IfOk result (λ members. map plain members.items
        ≡ with_union (map plain others.items) (map plain basic.items)) }
{
    if !basic.as_slice().is_empty() {
        others.push(Formula::or(Formulas::of(basic)?))?;
    }
    Ok(others)
}

#[cycle(add_members)]
fn add_members(
    formula: &Formula,
    others: &mut Vec<Formula>,
    basic: &mut Vec<Formula>,
) -> Result<(), AllocError>
    ensures others { OnOk result (map plain others.new.items
        ≡ map plain others.old.items ++ other_members (plain formula.now)) }
    ensures basic { OnOk result (map plain basic.new.items
        ≡ map plain basic.old.items ++ basic_members (plain formula.now)) }
{
    match formula {
        Formula::None => Ok(()),
        Formula::Ints(_) | Formula::Chars(_) | Formula::Atoms(_) => {
            Ok(basic.push(formula.copy()?)?)
        }
        Formula::Or(all) => add_members_of_all(all, others, basic),
        Formula::All
        | Formula::Pair(_, _)
        | Formula::Xml(_, _, _)
        | Formula::Record(_)
        | Formula::Arrow(_, _)
        | Formula::And(_)
        | Formula::Not(_) => Ok(others.push(formula.copy()?)?),
    }
}

#[cycle(add_members)]
fn add_members_of_all(
    all: &Formulas,
    others: &mut Vec<Formula>,
    basic: &mut Vec<Formula>,
) -> Result<(), AllocError>
    ensures others { OnOk result (map plain others.new.items
        ≡ map plain others.old.items ++ all_other_members (formulas_of (plain_list all.now))) }
    ensures basic { OnOk result (map plain basic.new.items
        ≡ map plain basic.old.items ++ all_basic_members (formulas_of (plain_list all.now))) }
{
    for formula in all.items() {
        add_members(formula, others, basic)?;
    }
    Ok(())
}

//! Parts of a pattern that all bind.
ghost use Rattle.std.specs.Prelude.{◌≡◌, ◌++◌, [], IfOk, map};
ghost use Rattle.cd_syntax.specs.TypeTree.{Meet, Xml};
ghost use Rattle.cd_syntax.specs.PlainTree.{plain, plain_trees, plain_signs, plain_fields};
ghost use Rattle.cd_variables.specs.Occurrences.{bound as bound_by, bound_in, bound_by_all};
ghost use Rattle.cd_variables.specs.Occurrences.{bound_by_signs, bound_by_fields};
ghost use Rattle.cd_variables.specs.FindingVariables.{names_among, reported_again};
ghost use Rattle.cd_variables.specs.FindingVariables.{variable_faults, kind_faults};
ghost use Rattle.cd_variables.specs.FindingVariables.{row_faults, sign_faults};
ghost use Rattle.cd_variables.specs.FindingVariables.{field_faults, sides_in};
ghost use Rattle.cd_variables.specs.PlainOccurrences.{plain_occurrence};
ghost use Rattle.cd_resolve.specs.PlainReported.{plain_reported};

use crate::misplaced::report_misplaced;
use crate::occurrence::Occurrence;
use crate::pattern::check_variables;
use crate::seen::{add_names, report_again, since};
use cd_resolve::NameIndex;
use cd_resolve::reported::Reported;
use cd_syntax::type_tree::{FieldTrees, Signed, Tree, Trees};
use std::alloc::{AllocError, Global};

/// The variables of a tuple, after parts whose variables have these names.
#[cycle(check)]
pub(crate) fn check_tuple<'t>(
    alloc: Global,
    trees: &'t Trees,
    names: &mut NameIndex<'t>,
    bound: &mut Vec<Occurrence<'t>>,
    faults: &mut Vec<Reported<'t>>,
) -> Result<(), AllocError>
    ensures bound { IfOk result (λ _. map plain_occurrence bound.new.items
        ≡ map plain_occurrence bound.old.items ++ bound_by_all (plain_trees trees.now)) }
    ensures faults { IfOk result (λ _. map plain_reported faults.new.items
        ≡ row_faults names.old (plain_trees trees.now) (map plain_reported faults.old.items)) }
{
    for tree in trees.items() {
        add_part(alloc, tree, names, bound, faults)?;
    }
    Ok(())
}

// Adds the variables of a part and their names, and reports those that stand again.
#[cycle(check)]
fn add_part<'t>(
    alloc: Global,
    part: &'t Tree,
    names: &mut NameIndex<'t>,
    bound: &mut Vec<Occurrence<'t>>,
    faults: &mut Vec<Reported<'t>>,
) -> Result<(), AllocError>
    ensures bound { IfOk result (λ _. map plain_occurrence bound.new.items
        ≡ map plain_occurrence bound.old.items ++ bound_by (plain part.now)) }
    ensures names { IfOk result (λ _. names.new
        ≡ names.old ++ names_among (bound_by (plain part.now))) }
    ensures faults { IfOk result (λ _. map plain_reported faults.new.items
        ≡ reported_again names.old (bound_by (plain part.now))
        (variable_faults (plain part.now) (map plain_reported faults.old.items))) }
{
    let from = bound.len();
    check_variables(alloc, part, bound, faults)?;
    let own = since(bound, from);
    report_again(names, own, faults)?;
    add_names(names, own)
}

/// The variables of a record, after parts whose variables have these names. Those of its optional
/// fields are misplaced.
#[cycle(check)]
pub(crate) fn check_record<'t>(
    alloc: Global,
    fields: &'t FieldTrees,
    names: &mut NameIndex<'t>,
    bound: &mut Vec<Occurrence<'t>>,
    faults: &mut Vec<Reported<'t>>,
) -> Result<(), AllocError>
    ensures bound { IfOk result (λ _. map plain_occurrence bound.new.items
        ≡ map plain_occurrence bound.old.items ++ bound_by_fields (plain_fields fields.now)) }
    ensures faults { IfOk result (λ _. map plain_reported faults.new.items
        ≡ field_faults names.old (plain_fields fields.now) (map plain_reported faults.old.items)) }
{
    for field in fields.items() {
        if field.optional {
            report_misplaced(&field.tree, faults)?;
        } else {
            add_part(alloc, &field.tree, names, bound, faults)?;
        }
    }
    Ok(())
}

/// The variables of an XML pattern. `names` is empty.
#[cycle(check)]
pub(crate) fn check_xml<'t>(
    alloc: Global,
    tag: &'t Tree,
    attributes: &'t Tree,
    content: &'t Tree,
    names: &mut NameIndex<'t>,
    bound: &mut Vec<Occurrence<'t>>,
    faults: &mut Vec<Reported<'t>>,
) -> Result<(), AllocError>
    requires { names.old ≡ [] }
    ensures bound { IfOk result (λ _. map plain_occurrence bound.new.items
        ≡ map plain_occurrence bound.old.items
        ++ bound_in 0 (Xml (plain tag.now) (plain attributes.now) (plain content.now))) }
    ensures faults { IfOk result (λ _. map plain_reported faults.new.items
        ≡ kind_faults (Xml (plain tag.now) (plain attributes.now) (plain content.now))
        (map plain_reported faults.old.items)) }
{
    add_part(alloc, tag, names, bound, faults)?;
    add_part(alloc, attributes, names, bound, faults)?;
    add_part(alloc, content, names, bound, faults)
}

/// The variables of a chain of `&` and `\`. Those on a side of a `\` are misplaced. `names` is
/// empty.
#[cycle(check)]
pub(crate) fn check_meet<'t>(
    alloc: Global,
    first: &'t Tree,
    signs: &'t Signed,
    names: &mut NameIndex<'t>,
    bound: &mut Vec<Occurrence<'t>>,
    faults: &mut Vec<Reported<'t>>,
) -> Result<(), AllocError>
    requires { names.old ≡ [] }
    ensures bound { IfOk result (λ _. map plain_occurrence bound.new.items
        ≡ map plain_occurrence bound.old.items
        ++ bound_in 0 (Meet (plain first.now) (plain_signs signs.now))) }
    ensures faults { IfOk result (λ _. map plain_reported faults.new.items
        ≡ kind_faults (Meet (plain first.now) (plain_signs signs.now))
        (map plain_reported faults.old.items)) }
{
    let sides = count_sides(signs);
    if sides > 0 {
        report_misplaced(first, faults)?;
    } else {
        add_part(alloc, first, names, bound, faults)?;
    }
    check_signs(alloc, signs, sides, names, bound, faults)
}

// Adds the trees after the first, of which the first so many are on a side of a `\`.
#[cycle(check)]
fn check_signs<'t>(
    alloc: Global,
    signs: &'t Signed,
    sides: usize,
    names: &mut NameIndex<'t>,
    bound: &mut Vec<Occurrence<'t>>,
    faults: &mut Vec<Reported<'t>>,
) -> Result<(), AllocError>
    requires { sides ≡ sides_in (plain_signs signs.now) }
    ensures bound { IfOk result (λ _. map plain_occurrence bound.new.items
        ≡ map plain_occurrence bound.old.items ++ bound_by_signs (plain_signs signs.now)) }
    ensures faults { IfOk result (λ _. map plain_reported faults.new.items
        ≡ sign_faults names.old (plain_signs signs.now) (map plain_reported faults.old.items)) }
{
    let mut left = sides;
    for sign in signs.items() {
        if left > 0 {
            left -= 1;
            report_misplaced(&sign.tree, faults)?;
        } else {
            add_part(alloc, &sign.tree, names, bound, faults)?;
        }
    }
    Ok(())
}

// How many trees after the first are on a side of a `\`: all up to the last that is taken away.
fn count_sides(signs: &Signed) -> usize
    ensures { result ≡ sides_in (plain_signs signs.now) }
{
    let items = signs.items();
    let mut sides = items.len();
    while sides > 0 && items[sides - 1].kept {
        sides -= 1;
    }
    sides
}

//! The variables of a pattern, and their faults.
ghost use Rattle.std.specs.Prelude.{◌≡◌, ◌++◌, [], IfOk, map};
ghost use Rattle.cd_syntax.specs.TypeTree.{Sequence, Where};
ghost use Rattle.cd_syntax.specs.PlainTree.{plain, plain_kind, plain_declarations};
ghost use Rattle.cd_syntax.specs.PlainTree.{plain_regular};
ghost use Rattle.cd_variables.specs.Occurrences.{bound as bound_by, bound_in, one};
ghost use Rattle.cd_variables.specs.FindingVariables.{variable_faults, kind_faults};
ghost use Rattle.cd_variables.specs.PlainOccurrences.{plain_occurrence};
ghost use Rattle.cd_resolve.specs.PlainReported.{plain_reported};

use crate::alternatives::check_union;
use crate::misplaced::{report_in_declarations, report_in_rest, report_in_trees, report_misplaced};
use crate::occurrence::Occurrence;
use crate::regular::check_regular;
use crate::row::{check_meet, check_record, check_tuple, check_xml};
use cd_resolve::NameIndex;
use cd_resolve::reported::Reported;
use cd_syntax::name::Name;
use cd_syntax::type_tree::{Declarations, RegTree, Tree, TreeKind};
use std::alloc::{AllocError, Global};

/// Puts the variables that a pattern binds after those that are bound, and the faults of its
/// variables after these.
#[cycle(check)]
pub fn check_variables<'t>(
    alloc: Global,
    pattern: &'t Tree,
    bound: &mut Vec<Occurrence<'t>>,
    faults: &mut Vec<Reported<'t>>,
) -> Result<(), AllocError>
    ensures bound { IfOk result (λ _. map plain_occurrence bound.new.items
        ≡ map plain_occurrence bound.old.items ++ bound_by (plain pattern.now)) }
    ensures faults { IfOk result (λ _. map plain_reported faults.new.items
        ≡ variable_faults (plain pattern.now) (map plain_reported faults.old.items)) }
{
    let mut names = NameIndex::new(alloc);
    check_kind(
        alloc,
        pattern.span.from,
        &pattern.kind,
        &mut names,
        bound,
        faults,
    )
}

// Those of a kind, whose pattern begins at this place. `names` is empty: the parts of a row enter
// theirs.
#[cycle(check)]
fn check_kind<'t>(
    alloc: Global,
    at: usize,
    kind: &'t TreeKind,
    names: &mut NameIndex<'t>,
    bound: &mut Vec<Occurrence<'t>>,
    faults: &mut Vec<Reported<'t>>,
) -> Result<(), AllocError>
    requires { names.old ≡ [] }
    ensures bound { IfOk result (λ _. map plain_occurrence bound.new.items
        ≡ map plain_occurrence bound.old.items ++ bound_in at (plain_kind kind.now)) }
    ensures faults { IfOk result (λ _. map plain_reported faults.new.items
        ≡ kind_faults (plain_kind kind.now) (map plain_reported faults.old.items)) }
{
    match kind {
        TreeKind::Tuple(trees) => check_tuple(alloc, trees, names, bound, faults),
        TreeKind::Arrows(trees) => report_in_trees(trees, faults),
        TreeKind::Union(trees) => check_union(alloc, trees, bound, faults),
        TreeKind::Meet(first, signs) => check_meet(alloc, first, signs, names, bound, faults),
        TreeKind::Sequence(expression) => check_sequence(alloc, expression, bound, faults),
        TreeKind::Record(fields, rest) => {
            report_in_rest(rest, faults)?;
            check_record(alloc, fields, names, bound, faults)
        }
        TreeKind::Xml(tag, attributes, content) => {
            check_xml(alloc, tag, attributes, content, names, bound, faults)
        }
        TreeKind::Where(body, declarations) => report_in_where(body, declarations, faults),
        TreeKind::Variable(name) | TreeKind::Default(name, _) => add_one(name, at, bound),
        TreeKind::Builtin(_)
        | TreeKind::Ints(_, _)
        | TreeKind::Chars(_, _)
        | TreeKind::Atom(_)
        | TreeKind::Text(_)
        | TreeKind::Named(_) => Ok(()),
    }
}

// A sequence: the plain variables, and after them those that gather.
#[cycle(check)]
fn check_sequence<'t>(
    alloc: Global,
    expression: &'t RegTree,
    bound: &mut Vec<Occurrence<'t>>,
    faults: &mut Vec<Reported<'t>>,
) -> Result<(), AllocError>
    ensures bound { IfOk result (λ _. map plain_occurrence bound.new.items
        ≡ map plain_occurrence bound.old.items
        ++ bound_in 0 (Sequence (plain_regular expression.now))) }
    ensures faults { IfOk result (λ _. map plain_reported faults.new.items
        ≡ kind_faults (Sequence (plain_regular expression.now))
        (map plain_reported faults.old.items)) }
{
    let mut gathered = Vec::new(alloc);
    check_regular(alloc, expression, bound, &mut gathered, faults)?;
    bound.extend_from_slice(gathered.as_slice())?;
    Ok(())
}

// A pattern under declarations, whose variables are misplaced.
fn report_in_where<'t>(
    body: &'t Tree,
    declarations: &'t Declarations,
    faults: &mut Vec<Reported<'t>>,
) -> Result<(), AllocError>
    ensures { IfOk result (λ _. map plain_reported faults.new.items
        ≡ kind_faults (Where (plain body.now) (plain_declarations declarations.now))
        (map plain_reported faults.old.items)) }
{
    report_misplaced(body, faults)?;
    report_in_declarations(declarations, faults)
}

// One variable.
fn add_one<'t>(name: &'t Name, at: usize, bound: &mut Vec<Occurrence<'t>>) -> Result<(), AllocError>
    ensures { IfOk result (λ _. map plain_occurrence bound.new.items
        ≡ map plain_occurrence bound.old.items ++ one name.now at) }
{
    bound.push(Occurrence { name, at })?;
    Ok(())
}

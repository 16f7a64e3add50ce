//! Variables where none may stand.
ghost use Rattle.std.specs.Prelude.{◌≡◌, IfOk, map};
ghost use Rattle.cd_syntax.specs.PlainTree.{plain, plain_kind, plain_trees, plain_signs};
ghost use Rattle.cd_syntax.specs.PlainTree.{plain_fields, plain_declarations, plain_regular};
ghost use Rattle.cd_syntax.specs.PlainTree.{plain_regular_kind, plain_regulars, plain_rest};
ghost use Rattle.cd_variables.specs.FindingMisplaced.{misplaced_in, misplaced_in_kind};
ghost use Rattle.cd_variables.specs.FindingMisplaced.{misplaced_in_trees, misplaced_in_signs};
ghost use Rattle.cd_variables.specs.FindingMisplaced.{misplaced_in_fields, misplaced_in_rest};
ghost use Rattle.cd_variables.specs.FindingMisplaced.{misplaced_in_declarations};
ghost use Rattle.cd_variables.specs.FindingMisplaced.{misplaced_in_regular};
ghost use Rattle.cd_variables.specs.FindingMisplaced.{misplaced_in_regular_kind};
ghost use Rattle.cd_variables.specs.FindingMisplaced.{misplaced_in_regulars, one_misplaced};
ghost use Rattle.cd_resolve.specs.PlainReported.{plain_reported};

use cd_resolve::fault::NameFault;
use cd_resolve::reported::Reported;
use cd_syntax::name::Name;
use cd_syntax::type_tree::{
    Declarations, FieldTrees, RegKind, RegTree, RegTrees, Rest, Signed, Tree, TreeKind, Trees,
};
use std::alloc::AllocError;

/// Reports that each variable of a tree is misplaced.
#[cycle(misplaced)]
pub(crate) fn report_misplaced<'t>(
    tree: &'t Tree,
    faults: &mut Vec<Reported<'t>>,
) -> Result<(), AllocError>
    ensures { IfOk result (λ _. map plain_reported faults.new.items
        ≡ misplaced_in (plain tree.now) (map plain_reported faults.old.items)) }
{
    report_in_kind(&tree.kind, tree.span.from, faults)
}

// Those of a kind, whose tree begins at this place.
#[cycle(misplaced)]
fn report_in_kind<'t>(
    kind: &'t TreeKind,
    at: usize,
    faults: &mut Vec<Reported<'t>>,
) -> Result<(), AllocError>
    ensures { IfOk result (λ _. map plain_reported faults.new.items
        ≡ misplaced_in_kind at (plain_kind kind.now) (map plain_reported faults.old.items)) }
{
    match kind {
        TreeKind::Tuple(trees) | TreeKind::Arrows(trees) | TreeKind::Union(trees) => {
            report_in_trees(trees, faults)
        }
        TreeKind::Meet(first, signs) => {
            report_misplaced(first, faults)?;
            report_in_signs(signs, faults)
        }
        TreeKind::Sequence(expression) => report_in_regular(expression, faults),
        TreeKind::Record(fields, rest) => {
            report_in_fields(fields, faults)?;
            report_in_rest(rest, faults)
        }
        TreeKind::Xml(tag, attributes, content) => {
            report_misplaced(tag, faults)?;
            report_misplaced(attributes, faults)?;
            report_misplaced(content, faults)
        }
        TreeKind::Where(body, declarations) => {
            report_misplaced(body, faults)?;
            report_in_declarations(declarations, faults)
        }
        TreeKind::Variable(name) | TreeKind::Default(name, _) => report_one(name, at, faults),
        TreeKind::Builtin(_)
        | TreeKind::Ints(_, _)
        | TreeKind::Chars(_, _)
        | TreeKind::Atom(_)
        | TreeKind::Text(_)
        | TreeKind::Named(_) => Ok(()),
    }
}

#[cycle(misplaced)]
pub(crate) fn report_in_trees<'t>(
    trees: &'t Trees,
    faults: &mut Vec<Reported<'t>>,
) -> Result<(), AllocError>
    ensures { IfOk result (λ _. map plain_reported faults.new.items
        ≡ misplaced_in_trees (plain_trees trees.now) (map plain_reported faults.old.items)) }
{
    for tree in trees.items() {
        report_misplaced(tree, faults)?;
    }
    Ok(())
}

#[cycle(misplaced)]
fn report_in_signs<'t>(signs: &'t Signed, faults: &mut Vec<Reported<'t>>) -> Result<(), AllocError>
    ensures { IfOk result (λ _. map plain_reported faults.new.items
        ≡ misplaced_in_signs (plain_signs signs.now)
        (map plain_reported faults.old.items)) }
{
    for sign in signs.items() {
        report_misplaced(&sign.tree, faults)?;
    }
    Ok(())
}

#[cycle(misplaced)]
fn report_in_fields<'t>(
    fields: &'t FieldTrees,
    faults: &mut Vec<Reported<'t>>,
) -> Result<(), AllocError>
    ensures { IfOk result (λ _. map plain_reported faults.new.items
        ≡ misplaced_in_fields (plain_fields fields.now)
        (map plain_reported faults.old.items)) }
{
    for field in fields.items() {
        report_misplaced(&field.tree, faults)?;
    }
    Ok(())
}

#[cycle(misplaced)]
pub(crate) fn report_in_rest<'t>(
    rest: &'t Rest,
    faults: &mut Vec<Reported<'t>>,
) -> Result<(), AllocError>
    ensures { IfOk result (λ _. map plain_reported faults.new.items
        ≡ misplaced_in_rest (plain_rest rest.now) (map plain_reported faults.old.items)) }
{
    match rest {
        Rest::Closed | Rest::Open => Ok(()),
        Rest::Typed(tree) => report_misplaced(tree, faults),
    }
}

#[cycle(misplaced)]
pub(crate) fn report_in_declarations<'t>(
    declarations: &'t Declarations,
    faults: &mut Vec<Reported<'t>>,
) -> Result<(), AllocError>
    ensures { IfOk result (λ _. map plain_reported faults.new.items
        ≡ misplaced_in_declarations (plain_declarations declarations.now)
        (map plain_reported faults.old.items)) }
{
    for declaration in declarations.items() {
        report_misplaced(&declaration.tree, faults)?;
    }
    Ok(())
}

#[cycle(misplaced)]
fn report_in_regular<'t>(
    expression: &'t RegTree,
    faults: &mut Vec<Reported<'t>>,
) -> Result<(), AllocError>
    ensures { IfOk result (λ _. map plain_reported faults.new.items
        ≡ misplaced_in_regular (plain_regular expression.now)
        (map plain_reported faults.old.items)) }
{
    report_in_regular_kind(&expression.kind, expression.span.from, faults)
}

#[cycle(misplaced)]
fn report_in_regular_kind<'t>(
    kind: &'t RegKind,
    at: usize,
    faults: &mut Vec<Reported<'t>>,
) -> Result<(), AllocError>
    ensures { IfOk result (λ _. map plain_reported faults.new.items
        ≡ misplaced_in_regular_kind at (plain_regular_kind kind.now)
        (map plain_reported faults.old.items)) }
{
    match kind {
        RegKind::Nothing => Ok(()),
        RegKind::Item(tree) => report_misplaced(tree, faults),
        RegKind::Seq(all) | RegKind::Alt(all) => report_in_regulars(all, faults),
        RegKind::Repeat(inner, _) => report_in_regular(inner, faults),
        RegKind::Capture(name, inner) => {
            report_one(name, at, faults)?;
            report_in_regular(inner, faults)
        }
    }
}

#[cycle(misplaced)]
fn report_in_regulars<'t>(
    all: &'t RegTrees,
    faults: &mut Vec<Reported<'t>>,
) -> Result<(), AllocError>
    ensures { IfOk result (λ _. map plain_reported faults.new.items
        ≡ misplaced_in_regulars (plain_regulars all.now)
        (map plain_reported faults.old.items)) }
{
    for expression in all.items() {
        report_in_regular(expression, faults)?;
    }
    Ok(())
}

// Reports that a variable is misplaced.
fn report_one<'t>(
    name: &'t Name,
    at: usize,
    faults: &mut Vec<Reported<'t>>,
) -> Result<(), AllocError>
    ensures { IfOk result (λ _. map plain_reported faults.new.items
        ≡ one_misplaced name.now at (map plain_reported faults.old.items)) }
{
    let fault = NameFault::VariableMisplaced;
    let name = Some(name);
    faults.push(Reported { fault, name, at })?;
    Ok(())
}

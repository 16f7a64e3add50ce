//! Whether a variable stands in a tree.
ghost use Rattle.std.specs.Prelude.{◌≡◌};
ghost use Rattle.cd_syntax.specs.PlainTree.{plain, plain_kind, plain_trees, plain_signs};
ghost use Rattle.cd_syntax.specs.PlainTree.{plain_fields, plain_declarations, plain_regular};
ghost use Rattle.cd_syntax.specs.PlainTree.{plain_regular_kind, plain_regulars, plain_rest};
ghost use Rattle.cd_matching.specs.WrittenPattern as written;

use cd_syntax::type_tree::{
    Declarations, FieldTrees, RegKind, RegTree, RegTrees, Rest, Signed, Tree, TreeKind, Trees,
};

/// Whether a variable stands in a tree: as a pattern, with a constant, or before `::`.
#[cycle(has_variable)]
pub(crate) fn has_variable(tree: &Tree) -> bool
    ensures { result ≡ written.has_variable (plain tree.now) }
{
    kind_has(&tree.kind)
}

#[cycle(has_variable)]
fn kind_has(kind: &TreeKind) -> bool
    ensures { result ≡ written.kind_has (plain_kind kind.now) }
{
    match kind {
        TreeKind::Tuple(trees) | TreeKind::Arrows(trees) | TreeKind::Union(trees) => {
            trees_have(trees)
        }
        TreeKind::Meet(first, signs) => has_variable(first) || signs_have(signs),
        TreeKind::Sequence(expression) => regular_has(expression),
        TreeKind::Record(fields, rest) => fields_have(fields) || rest_has(rest),
        TreeKind::Xml(tag, attributes, content) => {
            has_variable(tag) || has_variable(attributes) || has_variable(content)
        }
        TreeKind::Where(body, declarations) => {
            has_variable(body) || declarations_have(declarations)
        }
        TreeKind::Variable(_) | TreeKind::Default(_, _) => true,
        TreeKind::Builtin(_)
        | TreeKind::Ints(_, _)
        | TreeKind::Chars(_, _)
        | TreeKind::Atom(_)
        | TreeKind::Text(_)
        | TreeKind::Named(_) => false,
    }
}

#[cycle(has_variable)]
fn trees_have(trees: &Trees) -> bool
    ensures { result ≡ written.trees_have (plain_trees trees.now) }
{
    for tree in trees.items() {
        if has_variable(tree) {
            return true;
        }
    }
    false
}

#[cycle(has_variable)]
fn signs_have(signs: &Signed) -> bool
    ensures { result ≡ written.signs_have (plain_signs signs.now) }
{
    for sign in signs.items() {
        if has_variable(&sign.tree) {
            return true;
        }
    }
    false
}

#[cycle(has_variable)]
fn fields_have(fields: &FieldTrees) -> bool
    ensures { result ≡ written.fields_have (plain_fields fields.now) }
{
    for field in fields.items() {
        if has_variable(&field.tree) {
            return true;
        }
    }
    false
}

#[cycle(has_variable)]
fn rest_has(rest: &Rest) -> bool
    ensures { result ≡ written.rest_has (plain_rest rest.now) }
{
    match rest {
        Rest::Closed | Rest::Open => false,
        Rest::Typed(tree) => has_variable(tree),
    }
}

#[cycle(has_variable)]
fn declarations_have(declarations: &Declarations) -> bool
    ensures { result ≡ written.declarations_have (plain_declarations declarations.now) }
{
    for declaration in declarations.items() {
        if has_variable(&declaration.tree) {
            return true;
        }
    }
    false
}

#[cycle(has_variable)]
fn regular_has(expression: &RegTree) -> bool
    ensures { result ≡ written.regular_has (plain_regular expression.now) }
{
    regular_kind_has(&expression.kind)
}

#[cycle(has_variable)]
fn regular_kind_has(kind: &RegKind) -> bool
    ensures { result ≡ written.regular_kind_has (plain_regular_kind kind.now) }
{
    match kind {
        RegKind::Nothing => false,
        RegKind::Item(tree) => has_variable(tree),
        RegKind::Seq(all) | RegKind::Alt(all) => regulars_have(all),
        RegKind::Repeat(inner, _) => regular_has(inner),
        RegKind::Capture(_, _) => true,
    }
}

#[cycle(has_variable)]
fn regulars_have(all: &RegTrees) -> bool
    ensures { result ≡ written.regulars_have (plain_regulars all.now) }
{
    for expression in all.items() {
        if regular_has(expression) {
            return true;
        }
    }
    false
}

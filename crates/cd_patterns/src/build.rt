//! The pattern that a tree writes, over nodes of its types.
ghost use Rattle.std.specs.Prelude.{◌≡◌, [], ◌∷◌, map, IfOk};
ghost use Rattle.cd_syntax.specs.PlainTree.{plain as plain_tree, plain_kind, plain_trees};
ghost use Rattle.cd_syntax.specs.PlainTree.{plain_signs, plain_fields as plain_field_trees};
ghost use Rattle.cd_syntax.specs.PlainTree.{plain_regular as plain_reg_tree};
ghost use Rattle.cd_syntax.specs.PlainTree.{plain_regular_kind, plain_regulars as plain_reg_trees};
ghost use Rattle.cd_syntax.specs.PlainTree.{plain_rest};
ghost use Rattle.cd_syntax.specs.TypeTree.{Tuple, Meet, Record, Xml, ATree};
ghost use Rattle.cd_matching.specs.PlainPattern.{plain, plain_field, plain_regular};
ghost use Rattle.cd_matching.specs.Pattern.{patterns_of};
ghost use Rattle.cd_matching.specs.WrittenPattern.{pattern_of, kind_pattern, patterns};
ghost use Rattle.cd_matching.specs.WrittenPattern.{signed_patterns, field_patterns};
ghost use Rattle.cd_matching.specs.WrittenPattern.{regular_pattern, regular_kind_pattern};
ghost use Rattle.cd_matching.specs.WrittenPattern.{regular_patterns};
ghost use Rattle.cd_patterns.specs.Inner.Types.{filled, all_filled, fields_filled, regular_filled};
ghost use Rattle.cd_patterns.specs.Inner.Types.{regulars_filled, rest_filled, paired};

use crate::roots::Roots;
use crate::variables::has_variable;
use cd_matching::constant;
use cd_matching::pattern::{Pat, PatField, RegPat};
use cd_syntax::type_tree::{
    FieldTrees, RegKind, RegTree, RegTrees, Rest, Signed, Tree, TreeKind, Trees,
};
use std::alloc::{AllocError, Global};

/// The pattern that a tree writes, with the next of these nodes in the places of its types.
#[cycle(build)]
pub(crate) fn build(alloc: Global, tree: &Tree, roots: &mut Roots<'_>) -> Result<Pat, AllocError>
    ensures { IfOk result (λ pattern. (plain pattern, roots.new.left.now)
        ≡ filled (pattern_of [] (plain_tree tree.now)) roots.old.left.now) }
{
    if has_variable(tree) {
        build_kind(alloc, &tree.kind, roots)
    } else {
        Ok(Pat::of_type(roots.next()))
    }
}

#[cycle(build)]
fn build_kind(alloc: Global, kind: &TreeKind, roots: &mut Roots<'_>) -> Result<Pat, AllocError>
    ensures { IfOk result (λ pattern. (plain pattern, roots.new.left.now)
        ≡ filled (kind_pattern [] (plain_kind kind.now)) roots.old.left.now) }
{
    match kind {
        TreeKind::Variable(name) => Ok(Pat::bind(name.copy()?)),
        TreeKind::Default(name, is) => Ok(Pat::default(name.copy()?, constant::copy(is)?)),
        TreeKind::Tuple(trees) => build_tuple(alloc, trees, roots),
        TreeKind::Union(trees) => Ok(Pat::first(build_trees(alloc, trees, roots)?)),
        TreeKind::Meet(first, signs) => {
            let first = build(alloc, first, roots)?;
            Ok(Pat::both(build_signs(alloc, first, signs, roots)?))
        }
        TreeKind::Sequence(expression) => {
            let is = build_regular(alloc, expression, roots)?;
            Ok(Pat::sequence(Box::new(alloc, is)?))
        }
        TreeKind::Record(fields, rest) => build_record(alloc, fields, rest, roots),
        TreeKind::Xml(tag, attributes, content) => {
            build_xml(alloc, tag, attributes, content, roots)
        }
        TreeKind::Builtin(_)
        | TreeKind::Ints(_, _)
        | TreeKind::Chars(_, _)
        | TreeKind::Atom(_)
        | TreeKind::Text(_)
        | TreeKind::Arrows(_)
        | TreeKind::Named(_)
        | TreeKind::Where(_, _) => Ok(Pat::first(Vec::new(alloc))),
    }
}

// A tuple is grouped to the right.
#[cycle(build)]
fn build_tuple(alloc: Global, trees: &Trees, roots: &mut Roots<'_>) -> Result<Pat, AllocError>
    ensures { IfOk result (λ pattern. (plain pattern, roots.new.left.now)
        ≡ filled (kind_pattern [] (Tuple (plain_trees trees.now))) roots.old.left.now) }
{
    let all = build_trees(alloc, trees, roots)?;
    pairs(alloc, all)
}

// Patterns as the parts of pairs.
fn pairs(alloc: Global, mut all: Vec<Pat>) -> Result<Pat, AllocError>
    ensures { IfOk result (λ pattern. plain pattern ≡ paired (map plain all.items)) }
{
    let Some(mut last) = all.pop() else {
        return Ok(Pat::first(Vec::new(alloc)));
    };
    while let Some(first) = all.pop() {
        let second = Box::new(alloc, last)?;
        last = Pat::pair(Box::new(alloc, first)?, second);
    }
    Ok(last)
}

#[cycle(build)]
fn build_trees(alloc: Global, trees: &Trees, roots: &mut Roots<'_>) -> Result<Vec<Pat>, AllocError>
    ensures { IfOk result (λ made. (map plain made.items, roots.new.left.now)
        ≡ all_filled (patterns [] (plain_trees trees.now)) [] roots.old.left.now) }
{
    let mut made = Vec::new(alloc);
    for tree in trees.items() {
        made.push(build(alloc, tree, roots)?)?;
    }
    Ok(made)
}

// After the first the patterns of these: after `\` what is outside a type.
#[cycle(build)]
fn build_signs(
    alloc: Global,
    first: Pat,
    signs: &Signed,
    roots: &mut Roots<'_>,
) -> Result<Vec<Pat>, AllocError>
    ensures { IfOk result (λ made. (map plain made.items, roots.new.left.now)
        ≡ all_filled (signed_patterns [] (plain_signs signs.now)) (plain first ∷ [])
        roots.old.left.now) }
{
    let mut made = Vec::new(alloc);
    made.push(first)?;
    for sign in signs.items() {
        if sign.kept {
            made.push(build(alloc, &sign.tree, roots)?)?;
        } else {
            made.push(Pat::of_type(roots.next()))?;
        }
    }
    Ok(made)
}

#[cycle(build)]
fn build_xml(
    alloc: Global,
    tag: &Tree,
    attributes: &Tree,
    content: &Tree,
    roots: &mut Roots<'_>,
) -> Result<Pat, AllocError>
    ensures { IfOk result (λ pattern. (plain pattern, roots.new.left.now)
        ≡ filled (kind_pattern [] (Xml (plain_tree tag.now) (plain_tree attributes.now)
        (plain_tree content.now))) roots.old.left.now) }
{
    let tag = Box::new(alloc, build(alloc, tag, roots)?)?;
    let attributes = Box::new(alloc, build(alloc, attributes, roots)?)?;
    let content = Box::new(alloc, build(alloc, content, roots)?)?;
    Ok(Pat::xml(tag, attributes, content))
}

// A record of the patterns of its fields, with its rest.
#[cycle(build)]
fn build_record(
    alloc: Global,
    fields: &FieldTrees,
    rest: &Rest,
    roots: &mut Roots<'_>,
) -> Result<Pat, AllocError>
    ensures { IfOk result (λ pattern. (plain pattern, roots.new.left.now)
        ≡ filled (kind_pattern [] (Record (plain_field_trees fields.now) (plain_rest rest.now)))
        roots.old.left.now) }
{
    let fields = build_fields(alloc, fields, roots)?;
    with_rest(alloc, fields, rest, roots)
}

#[cycle(build)]
fn build_fields(
    alloc: Global,
    fields: &FieldTrees,
    roots: &mut Roots<'_>,
) -> Result<Vec<PatField>, AllocError>
    ensures { IfOk result (λ made. (map plain_field made.items, roots.new.left.now)
        ≡ fields_filled (field_patterns [] (plain_field_trees fields.now)) []
        roots.old.left.now) }
{
    let mut made = Vec::new(alloc);
    for field in fields.items() {
        let label = field.label.copy()?;
        if field.optional {
            made.push(PatField::optional(label, roots.next()))?;
        } else {
            made.push(PatField::present(label, build(alloc, &field.tree, roots)?))?;
        }
    }
    Ok(made)
}

#[cycle(build)]
fn build_regular(
    alloc: Global,
    expression: &RegTree,
    roots: &mut Roots<'_>,
) -> Result<RegPat, AllocError>
    ensures { IfOk result (λ is. (plain_regular is, roots.new.left.now)
        ≡ regular_filled (regular_pattern [] (plain_reg_tree expression.now))
        roots.old.left.now) }
{
    build_regular_kind(alloc, &expression.kind, roots)
}

#[cycle(build)]
fn build_regular_kind(
    alloc: Global,
    kind: &RegKind,
    roots: &mut Roots<'_>,
) -> Result<RegPat, AllocError>
    ensures { IfOk result (λ is. (plain_regular is, roots.new.left.now)
        ≡ regular_filled (regular_kind_pattern [] (plain_regular_kind kind.now))
        roots.old.left.now) }
{
    match kind {
        RegKind::Nothing => Ok(RegPat::nothing()),
        RegKind::Item(tree) => {
            let is = build(alloc, tree, roots)?;
            Ok(RegPat::item(Box::new(alloc, is)?))
        }
        RegKind::Seq(all) => Ok(RegPat::seq(build_regulars(alloc, all, roots)?)),
        RegKind::Alt(all) => Ok(RegPat::alt(build_regulars(alloc, all, roots)?)),
        RegKind::Repeat(inner, post) => {
            let is = build_regular(alloc, inner, roots)?;
            Ok(RegPat::repeat(Box::new(alloc, is)?, *post))
        }
        RegKind::Capture(name, inner) => {
            let is = build_regular(alloc, inner, roots)?;
            Ok(RegPat::capture(name.copy()?, Box::new(alloc, is)?))
        }
    }
}

#[cycle(build)]
fn build_regulars(
    alloc: Global,
    all: &RegTrees,
    roots: &mut Roots<'_>,
) -> Result<Vec<RegPat>, AllocError>
    ensures { IfOk result (λ made. (map plain_regular made.items, roots.new.left.now)
        ≡ regulars_filled (regular_patterns [] (plain_reg_trees all.now)) []
        roots.old.left.now) }
{
    let mut made = Vec::new(alloc);
    for expression in all.items() {
        made.push(build_regular(alloc, expression, roots)?)?;
    }
    Ok(made)
}

// A record pattern with these fields, beside which a typed rest has the type of its records.
fn with_rest(
    alloc: Global,
    fields: Vec<PatField>,
    rest: &Rest,
    roots: &mut Roots<'_>,
) -> Result<Pat, AllocError>
    ensures { IfOk result (λ pattern. (plain pattern, roots.new.left.now)
        ≡ rest_filled (map plain_field fields.items) (plain_rest rest.now) roots.old.left.now) }
{
    match rest {
        Rest::Closed => Ok(Pat::record(fields, false)),
        Rest::Open => Ok(Pat::record(fields, true)),
        Rest::Typed(_) => {
            let others = Pat::of_type(roots.next());
            Ok(Pat::both(vec![in alloc; Pat::record(fields, true), others]?))
        }
    }
}

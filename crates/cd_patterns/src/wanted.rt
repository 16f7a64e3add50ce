//! The types of the pattern that a tree writes.
ghost use Rattle.std.specs.Prelude.{◌≡◌, [], OnOk};
ghost use Rattle.cd_syntax.specs.PlainTree.{plain, plain_kind, plain_trees, plain_signs};
ghost use Rattle.cd_syntax.specs.PlainTree.{plain_fields, plain_regular, plain_regular_kind};
ghost use Rattle.cd_syntax.specs.PlainTree.{plain_regulars, plain_rest};
ghost use Rattle.cd_syntax.specs.TypeTree.{Tuple, Record};
ghost use Rattle.cd_matching.specs.WrittenPattern.{pattern_of, kind_pattern, patterns};
ghost use Rattle.cd_matching.specs.WrittenPattern.{signed_patterns, field_patterns};
ghost use Rattle.cd_matching.specs.WrittenPattern.{regular_pattern, regular_kind_pattern};
ghost use Rattle.cd_matching.specs.WrittenPattern.{regular_patterns, in_scope};
ghost use Rattle.cd_matching.specs.WrittenPattern.{outside as outside_of};
ghost use Rattle.cd_patterns.specs.Inner.Types.{wanted_types, one_more, types_after};
ghost use Rattle.cd_patterns.specs.Inner.Types.{all_after, rest_after};
ghost use Rattle.cd_patterns.specs.Inner.Types.{fields_after, regular_after, regulars_after};

use crate::variables::has_variable;
use cd_resolve::{Want, WantedType};
use cd_syntax::type_tree::{
    FieldTrees, RegKind, RegTree, RegTrees, Rest, Signed, Tree, TreeKind, Trees,
};
use std::alloc::AllocError;

/// Puts the types of a pattern after those that are there. A tree without variables is a type.
#[cycle(want)]
pub(crate) fn want<'t>(tree: &'t Tree, wanted: &mut Vec<WantedType<'t>>) -> Result<(), AllocError>
    ensures { OnOk result (wanted_types wanted.new.items
        ≡ types_after (pattern_of [] (plain tree.now)) (wanted_types wanted.old.items)) }
{
    if has_variable(tree) {
        want_kind(&tree.kind, wanted)
    } else {
        want_type(tree, wanted)
    }
}

// Puts a type after those that are there.
fn want_type<'t>(tree: &'t Tree, wanted: &mut Vec<WantedType<'t>>) -> Result<(), AllocError>
    ensures { OnOk result (wanted_types wanted.new.items
        ≡ one_more (wanted_types wanted.old.items) (in_scope [] (plain tree.now))) }
{
    let what = Want::Itself;
    wanted.push(WantedType { tree, what })?;
    Ok(())
}

// Puts the records whose other fields are of the type of a rest after those that are there.
fn want_rest<'t>(
    fields: &'t FieldTrees,
    rest: &'t Rest,
    wanted: &mut Vec<WantedType<'t>>,
) -> Result<(), AllocError>
    ensures { OnOk result (wanted_types wanted.new.items
        ≡ rest_after (plain_fields fields.now) (plain_rest rest.now)
        (wanted_types wanted.old.items)) }
{
    match rest {
        Rest::Closed | Rest::Open => Ok(()),
        Rest::Typed(tree) => {
            let what = Want::Others(fields);
            wanted.push(WantedType { tree, what })?;
            Ok(())
        }
    }
}

// Puts what is outside a type after those that are there.
fn want_outside<'t>(tree: &'t Tree, wanted: &mut Vec<WantedType<'t>>) -> Result<(), AllocError>
    ensures { OnOk result (wanted_types wanted.new.items
        ≡ one_more (wanted_types wanted.old.items) (in_scope [] (outside_of (plain tree.now)))) }
{
    let what = Want::Outside;
    wanted.push(WantedType { tree, what })?;
    Ok(())
}

#[cycle(want)]
fn want_kind<'t>(kind: &'t TreeKind, wanted: &mut Vec<WantedType<'t>>) -> Result<(), AllocError>
    ensures { OnOk result (wanted_types wanted.new.items
        ≡ types_after (kind_pattern [] (plain_kind kind.now)) (wanted_types wanted.old.items)) }
{
    match kind {
        TreeKind::Tuple(trees) => want_tuple(trees, wanted),
        TreeKind::Union(trees) => want_trees(trees, wanted),
        TreeKind::Meet(first, signs) => {
            want(first, wanted)?;
            want_signs(signs, wanted)
        }
        TreeKind::Sequence(expression) => want_regular(expression, wanted),
        TreeKind::Record(fields, rest) => want_record(fields, rest, wanted),
        TreeKind::Xml(tag, attributes, content) => {
            want(tag, wanted)?;
            want(attributes, wanted)?;
            want(content, wanted)
        }
        TreeKind::Variable(_)
        | TreeKind::Default(_, _)
        | TreeKind::Builtin(_)
        | TreeKind::Ints(_, _)
        | TreeKind::Chars(_, _)
        | TreeKind::Atom(_)
        | TreeKind::Text(_)
        | TreeKind::Arrows(_)
        | TreeKind::Named(_)
        | TreeKind::Where(_, _) => Ok(()),
    }
}

// A tuple is grouped to the right, and has the types of its trees.
#[cycle(want)]
fn want_tuple<'t>(trees: &'t Trees, wanted: &mut Vec<WantedType<'t>>) -> Result<(), AllocError>
    ensures { OnOk result (wanted_types wanted.new.items
        ≡ types_after (kind_pattern [] (Tuple (plain_trees trees.now)))
        (wanted_types wanted.old.items)) }
{
    want_trees(trees, wanted)
}

#[cycle(want)]
fn want_trees<'t>(trees: &'t Trees, wanted: &mut Vec<WantedType<'t>>) -> Result<(), AllocError>
    ensures { OnOk result (wanted_types wanted.new.items
        ≡ all_after (patterns [] (plain_trees trees.now)) (wanted_types wanted.old.items)) }
{
    for tree in trees.items() {
        want(tree, wanted)?;
    }
    Ok(())
}

// After `\` what is outside a type.
#[cycle(want)]
fn want_signs<'t>(signs: &'t Signed, wanted: &mut Vec<WantedType<'t>>) -> Result<(), AllocError>
    ensures { OnOk result (wanted_types wanted.new.items
        ≡ all_after (signed_patterns [] (plain_signs signs.now))
        (wanted_types wanted.old.items)) }
{
    for sign in signs.items() {
        if sign.kept {
            want(&sign.tree, wanted)?;
        } else {
            want_outside(&sign.tree, wanted)?;
        }
    }
    Ok(())
}

// A record has the types of its fields, and the records of a typed rest.
#[cycle(want)]
fn want_record<'t>(
    fields: &'t FieldTrees,
    rest: &'t Rest,
    wanted: &mut Vec<WantedType<'t>>,
) -> Result<(), AllocError>
    ensures { OnOk result (wanted_types wanted.new.items
        ≡ types_after (kind_pattern [] (Record (plain_fields fields.now) (plain_rest rest.now)))
        (wanted_types wanted.old.items)) }
{
    want_fields(fields, wanted)?;
    want_rest(fields, rest, wanted)
}

// Of a field that may be absent a type.
#[cycle(want)]
fn want_fields<'t>(
    fields: &'t FieldTrees,
    wanted: &mut Vec<WantedType<'t>>,
) -> Result<(), AllocError>
    ensures { OnOk result (wanted_types wanted.new.items
        ≡ fields_after (field_patterns [] (plain_fields fields.now))
        (wanted_types wanted.old.items)) }
{
    for field in fields.items() {
        if field.optional {
            want_type(&field.tree, wanted)?;
        } else {
            want(&field.tree, wanted)?;
        }
    }
    Ok(())
}

#[cycle(want)]
fn want_regular<'t>(
    expression: &'t RegTree,
    wanted: &mut Vec<WantedType<'t>>,
) -> Result<(), AllocError>
    ensures { OnOk result (wanted_types wanted.new.items
        ≡ regular_after (regular_pattern [] (plain_regular expression.now))
        (wanted_types wanted.old.items)) }
{
    want_regular_kind(&expression.kind, wanted)
}

#[cycle(want)]
fn want_regular_kind<'t>(
    kind: &'t RegKind,
    wanted: &mut Vec<WantedType<'t>>,
) -> Result<(), AllocError>
    ensures { OnOk result (wanted_types wanted.new.items
        ≡ regular_after (regular_kind_pattern [] (plain_regular_kind kind.now))
        (wanted_types wanted.old.items)) }
{
    match kind {
        RegKind::Nothing => Ok(()),
        RegKind::Item(tree) => want(tree, wanted),
        RegKind::Seq(all) | RegKind::Alt(all) => want_regulars(all, wanted),
        RegKind::Repeat(inner, _) | RegKind::Capture(_, inner) => want_regular(inner, wanted),
    }
}

#[cycle(want)]
fn want_regulars<'t>(all: &'t RegTrees, wanted: &mut Vec<WantedType<'t>>) -> Result<(), AllocError>
    ensures { OnOk result (wanted_types wanted.new.items
        ≡ regulars_after (regular_patterns [] (plain_regulars all.now))
        (wanted_types wanted.old.items)) }
{
    for expression in all.items() {
        want_regular(expression, wanted)?;
    }
    Ok(())
}

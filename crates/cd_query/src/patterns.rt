//! The patterns of paths.
ghost use Rattle.std.specs.Prelude.{◌≡◌, IfOk};
ghost use Rattle.cd_syntax.specs.PlainTree.{plain, plain_kind};
ghost use Rattle.cd_syntax.specs.TypeTree.{tree, Xml};
ghost use Rattle.cd_query.specs.Core as queries;

use cd_program::pattern::variable;
use cd_syntax::builtin::BuiltinName;
use cd_syntax::name::Name;
use cd_syntax::tokens::Span;
use cd_syntax::type_tree::{FieldTree, Post, RegKind, RegTree, Rest, SignedTree, Tree, TreeKind};
use std::alloc::{AllocError, Global};

/// The variable that is what an element or an attribute holds.
pub(crate) fn content_name(alloc: Global) -> Result<Name, AllocError>
    ensures { IfOk result (λ name. name ≡ queries.content_name) }
{
    Name::of_characters(alloc, &['C', 'o', 'n', 't', 'e', 'n', 't'])
}

/// The variable that is a child.
pub(crate) fn child_name(alloc: Global) -> Result<Name, AllocError>
    ensures { IfOk result (λ name. name ≡ queries.child_name) }
{
    Name::of_characters(alloc, &['C', 'h', 'i', 'l', 'd'])
}

// A tree of this kind.
fn boxed(alloc: Global, here: Span, kind: TreeKind) -> Result<Box<Tree>, AllocError>
    ensures { IfOk result (λ made. plain made.value ≡ tree here (plain_kind kind)) }
{
    Ok(Box::new(alloc, Tree::new(here, kind))?)
}

// `_`
fn anything(alloc: Global, here: Span) -> Result<Box<Tree>, AllocError>
    ensures { IfOk result (λ made. plain made.value ≡ queries.anything here) }
{
    boxed(alloc, here, TreeKind::builtin(BuiltinName::Any))
}

// `{..}`
fn any_fields(alloc: Global, here: Span) -> Result<Box<Tree>, AllocError>
    ensures { IfOk result (λ made. plain made.value ≡ queries.any_fields here) }
{
    boxed(alloc, here, TreeKind::record(Vec::new(alloc), Rest::open()))
}

// A variable.
fn bound_to(alloc: Global, here: Span, name: Name) -> Result<Box<Tree>, AllocError>
    ensures { IfOk result (λ made. plain made.value ≡ queries.bound_to here name) }
{
    boxed(alloc, here, variable(name))
}

// `[Any*]`
fn any_items(alloc: Global, here: Span) -> Result<Box<Tree>, AllocError>
    ensures { IfOk result (λ made. plain made.value ≡ queries.any_items here) }
{
    let item = RegTree::new(here, RegKind::item(anything(alloc, here)?));
    let all = RegTree::new(here, RegKind::repeat(Box::new(alloc, item)?, Post::Star));
    boxed(alloc, here, TreeKind::sequence(Box::new(alloc, all)?))
}

// What both take.
fn both(
    alloc: Global,
    here: Span,
    first: Box<Tree>,
    second: Box<Tree>,
) -> Result<Box<Tree>, AllocError>
    ensures { IfOk result (λ made.
        plain made.value ≡ queries.both here (plain first.value) (plain second.value)) }
{
    let others = vec![in alloc; SignedTree::new(true, Box::into_inner(second))]?;
    boxed(alloc, here, TreeKind::meet(first, others))
}

// The elements of a tag and a content, with any attributes.
fn element(
    alloc: Global,
    here: Span,
    tag: Box<Tree>,
    content: Box<Tree>,
) -> Result<Box<Tree>, AllocError>
    ensures { IfOk result (λ made. plain made.value
        ≡ tree here (Xml (plain tag.value) (queries.any_fields here) (plain content.value))) }
{
    let attributes = any_fields(alloc, here)?;
    boxed(alloc, here, TreeKind::xml(tag, attributes, content))
}

// `Content & [Any*]`
fn any_content(alloc: Global, here: Span) -> Result<Box<Tree>, AllocError>
    ensures { IfOk result (λ made. plain made.value
        ≡ queries.both here (queries.bound_to here queries.content_name)
        (queries.any_items here)) }
{
    let content = bound_to(alloc, here, content_name(alloc)?)?;
    both(alloc, here, content, any_items(alloc, here)?)
}

/// `<_ ..>(Content & [Any*])`
pub(crate) fn element_pattern(alloc: Global, here: Span) -> Result<Box<Tree>, AllocError>
    ensures { IfOk result (λ made. plain made.value ≡ queries.element_pattern here) }
{
    let tag = anything(alloc, here)?;
    element(alloc, here, tag, any_content(alloc, here)?)
}

/// `Child & <l ..>_`
pub(crate) fn child_pattern(alloc: Global, here: Span, label: Name) -> Result<Box<Tree>, AllocError>
    ensures { IfOk result (λ made. plain made.value ≡ queries.child_pattern here label) }
{
    let tag = boxed(alloc, here, TreeKind::atom(label))?;
    let tagged = element(alloc, here, tag, anything(alloc, here)?)?;
    both(
        alloc,
        here,
        bound_to(alloc, here, child_name(alloc)?)?,
        tagged,
    )
}

// The record of an attribute.
fn content_field(alloc: Global, here: Span, label: Name) -> Result<Box<Tree>, AllocError>
    ensures { IfOk result (λ made. plain made.value ≡ queries.content_field here label) }
{
    let content = bound_to(alloc, here, content_name(alloc)?)?;
    let field = FieldTree::new(label, here.from, false, Box::into_inner(content));
    boxed(
        alloc,
        here,
        TreeKind::record(vec![in alloc; field]?, Rest::open()),
    )
}

/// `<_ l=Content ..>_`
pub(crate) fn attribute_pattern(
    alloc: Global,
    here: Span,
    label: Name,
) -> Result<Box<Tree>, AllocError>
    ensures { IfOk result (λ made. plain made.value ≡ queries.attribute_pattern here label) }
{
    let attributes = content_field(alloc, here, label)?;
    let tag = anything(alloc, here)?;
    let content = anything(alloc, here)?;
    boxed(alloc, here, TreeKind::xml(tag, attributes, content))
}

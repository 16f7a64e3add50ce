//! What selects and the steps of paths stand for.
ghost use Rattle.std.specs.Prelude.{◌≡◌, map, reverse, option_map, IfOk};
ghost use Rattle.cd_syntax.specs.PlainTree.{plain as plain_tree};
ghost use Rattle.cd_program.specs.PlainExpr.{plain};
ghost use Rattle.cd_program.specs.Expr.{expr, Transform};
ghost use Rattle.cd_query.specs.Core as queries;
ghost use Rattle.cd_query.specs.PlainParts.{plain_source};
ghost use Rattle.cd_query.specs.Inner.Queries.{over, children};

use crate::parts::Source;
use crate::patterns::{
    attribute_pattern, child_name, child_pattern, content_name, element_pattern,
};
use cd_program::expr::{Branch, Expr, ExprKind, Item};
use cd_program::operator::Form;
use cd_syntax::name::Name;
use cd_syntax::tokens::Span;
use cd_syntax::type_tree::Tree;
use std::alloc::{AllocError, Global};

// What a variable stands for.
fn named(alloc: Global, here: Span, name: Name) -> Result<Box<Expr>, AllocError>
    ensures { IfOk result (λ made. plain made.value ≡ queries.named here name) }
{
    Ok(Box::new(alloc, Expr::new(here, ExprKind::variable(name)))?)
}

// `[e]`
fn single(alloc: Global, here: Span, e: Box<Expr>) -> Result<Box<Expr>, AllocError>
    ensures { IfOk result (λ made. plain made.value ≡ queries.single here (plain e.value)) }
{
    let all = vec![in alloc; Item::one(e)]?;
    Ok(Box::new(alloc, Expr::new(here, ExprKind::sequence(all)))?)
}

// `[x]`
fn single_named(alloc: Global, here: Span, name: Name) -> Result<Box<Expr>, AllocError>
    ensures { IfOk result (λ made.
        plain made.value ≡ queries.single here (queries.named here name)) }
{
    single(alloc, here, named(alloc, here, name)?)
}

// `[]`
fn nothing(alloc: Global, here: Span) -> Result<Box<Expr>, AllocError>
    ensures { IfOk result (λ made. plain made.value ≡ queries.nothing here) }
{
    Ok(Box::new(alloc, Expr::new(here, ExprKind::sequence(Vec::new(alloc))))?)
}

// `transform value with pattern -> body`
fn transform(
    alloc: Global,
    here: Span,
    value: Box<Expr>,
    pattern: Box<Tree>,
    body: Box<Expr>,
) -> Result<Box<Expr>, AllocError>
    ensures { IfOk result (λ made. plain made.value ≡ expr here (Transform (plain value.value)
        (queries.one_branch (plain_tree pattern.value) (plain body.value)))) }
{
    let branch = Branch::new(Box::into_inner(pattern), Box::into_inner(body));
    let branches = vec![in alloc; branch]?;
    let kind = ExprKind::matching(Form::Transform, value, branches);
    Ok(Box::new(alloc, Expr::new(here, kind))?)
}

// What is given where all sources are taken.
fn given(
    alloc: Global,
    here: Span,
    condition: Option<Box<Expr>>,
    head: Box<Expr>,
) -> Result<Box<Expr>, AllocError>
    ensures { IfOk result (λ made. plain made.value
        ≡ queries.given here (option_map (λ is. plain is.value) condition) (plain head.value)) }
{
    let one = single(alloc, here, head)?;
    match condition {
        None => Ok(one),
        Some(condition) => {
            let other = nothing(alloc, here)?;
            Ok(Box::new(
                alloc,
                Expr::new(here, ExprKind::if_else(condition, one, other)),
            )?)
        }
    }
}

/// What a select stands for, with its sources from the last one to the first.
///
/// # Errors
///
/// Want of memory.
#[tactic(auto, using(crate::proofs::Selected::wrapped_all))]
pub fn select(
    alloc: Global,
    here: Span,
    sources: Vec<Source>,
    condition: Option<Box<Expr>>,
    head: Box<Expr>,
) -> Result<Box<Expr>, AllocError>
    ensures { IfOk result (λ made. plain made.value
        ≡ queries.select here (reverse (map plain_source sources.items))
        (option_map (λ is. plain is.value) condition) (plain head.value)) }
{
    let mut made = given(alloc, here, condition, head)?;
    for source in sources {
        made = over(alloc, here, source, made)?;
    }
    Ok(made)
}

// The same for each item of a source.
fn over(alloc: Global, here: Span, source: Source, body: Box<Expr>) -> Result<Box<Expr>, AllocError>
    ensures { IfOk result (λ made.
        plain made.value ≡ over here (plain_source source) (plain body.value)) }
{
    let Source { pattern, value } = source;
    transform(alloc, here, value, pattern, body)
}

/// What `a/l` stands for, where the sign and the label stand at these places.
///
/// # Errors
///
/// Want of memory.
pub fn child(
    alloc: Global,
    here: Span,
    sign: Span,
    word: Span,
    operand: Box<Expr>,
    label: Name,
) -> Result<Box<Expr>, AllocError>
    ensures { IfOk result (λ made. plain made.value
        ≡ queries.child here sign word (plain operand.value) label) }
{
    let inner = children(alloc, here, word, label)?;
    let pattern = element_pattern(alloc, sign)?;
    transform(alloc, here, operand, pattern, inner)
}

// The children of the content.
fn children(alloc: Global, here: Span, word: Span, label: Name) -> Result<Box<Expr>, AllocError>
    ensures { IfOk result (λ made. plain made.value ≡ children here word label) }
{
    let pattern = child_pattern(alloc, word, label)?;
    let one = single_named(alloc, here, child_name(alloc)?)?;
    let content = named(alloc, here, content_name(alloc)?)?;
    transform(alloc, here, content, pattern, one)
}

/// What `a/@l` stands for, where the sign stands at this place.
///
/// # Errors
///
/// Want of memory.
pub fn attribute(
    alloc: Global,
    here: Span,
    sign: Span,
    operand: Box<Expr>,
    label: Name,
) -> Result<Box<Expr>, AllocError>
    ensures { IfOk result (λ made. plain made.value
        ≡ queries.attribute here sign (plain operand.value) label) }
{
    let pattern = attribute_pattern(alloc, sign, label)?;
    let one = single_named(alloc, here, content_name(alloc)?)?;
    transform(alloc, here, operand, pattern, one)
}

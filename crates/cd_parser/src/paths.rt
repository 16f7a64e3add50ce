//! Steps of paths, and what a path stands for.
ghost use Rattle.std.specs.Prelude.{◌≡◌, [], ◌∷◌, List, map, reverse, IfOk};
ghost use Rattle.cd_program.specs.PlainExpr.{plain, plain_tail};
ghost use Rattle.cd_query.specs.Core as queries;
ghost use Rattle.cd_grammar.specs.ProgramActions as actions;
ghost use Rattle.cd_query.specs.PlainParts.{plain_step};
ghost use Rattle.cd_parser.specs.PlainParts.{plain_part};
ghost use Rattle.cd_parser.specs.Paths.{led};

use crate::part::Part;
use crate::program_taken::{expr_of, steps_of};
use crate::taken::token_of;
use cd_program::expr::{Expr, ExprKind, Tail};
use cd_query::parts::Step;
use cd_query::queries::{attribute, child};
use cd_syntax::name::Name;
use cd_syntax::tokens::{Span, Token};
use cd_tree_actions::rows::{added, row_of};
use cd_tree_actions::words::name_of;
use std::alloc::{AllocError, Global};

/// What some steps of a path lead to: an expression, and fields of it up to a place.
#[derive(Drop)]
pub(crate) struct Reached {
    place: Span,
    first: Box<Expr>,
    tails: Vec<Tail>,
}

fn to_field(alloc: Global, word: &Token) -> Result<Step, AllocError>
    ensures { IfOk result (λ made. plain_step made ≡ actions.to_field word.now) }
{
    Ok(Step::Field(word.span, name_of(alloc, word)?))
}

fn to_child(alloc: Global, sign: &Token, word: &Token) -> Result<Step, AllocError>
    ensures { IfOk result (λ made. plain_step made ≡ actions.to_child sign.now word.now) }
{
    Ok(Step::Child(sign.span, word.span, name_of(alloc, word)?))
}

fn to_attribute(alloc: Global, sign: &Token, word: &Token) -> Result<Step, AllocError>
    ensures { IfOk result (λ made. plain_step made ≡ actions.to_attribute sign.now word.now) }
{
    Ok(Step::Attribute(sign.span, word.span, name_of(alloc, word)?))
}

/// A step to a field.
pub(crate) fn field_step<'t>(alloc: Global, label: Part<'t>) -> Result<Part<'t>, AllocError>
    ensures { IfOk result (λ made.
        plain_part made ≡ actions.field_step (plain_part label.entry)) }
{
    match token_of(label) {
        Some(label) => Ok(Part::Steps(row_of(alloc, to_field(alloc, label)?)?)),
        None => Ok(Part::Junk),
    }
}

/// A step to the children of a tag.
pub(crate) fn child_step<'t>(
    alloc: Global,
    sign: Part<'t>,
    label: Part<'t>,
) -> Result<Part<'t>, AllocError>
    ensures { IfOk result (λ made.
        plain_part made ≡ actions.child_step (plain_part sign.entry) (plain_part label.entry)) }
{
    match token_of(sign).zip(token_of(label)) {
        Some((sign, label)) => Ok(Part::Steps(row_of(alloc, to_child(alloc, sign, label)?)?)),
        None => Ok(Part::Junk),
    }
}

/// A step to an attribute.
pub(crate) fn attribute_step<'t>(
    alloc: Global,
    sign: Part<'t>,
    label: Part<'t>,
) -> Result<Part<'t>, AllocError>
    ensures { IfOk result (λ made.
        plain_part made ≡ actions.attribute_step (plain_part sign.entry)
        (plain_part label.entry)) }
{
    match token_of(sign).zip(token_of(label)) {
        Some((sign, label)) => Ok(Part::Steps(row_of(alloc, to_attribute(alloc, sign, label)?)?)),
        None => Ok(Part::Junk),
    }
}

/// A step to a field, and those after it.
pub(crate) fn before_field_step<'t>(
    alloc: Global,
    label: Part<'t>,
    steps: Part<'t>,
) -> Result<Part<'t>, AllocError>
    ensures { IfOk result (λ made.
        plain_part made ≡ actions.before_field_step (plain_part label.entry)
        (plain_part steps.entry)) }
{
    match token_of(label).zip(steps_of(steps)) {
        Some((label, steps)) => Ok(Part::Steps(added(steps, to_field(alloc, label)?)?)),
        None => Ok(Part::Junk),
    }
}

/// A step to the children of a tag, and those after it.
pub(crate) fn before_child_step<'t>(
    alloc: Global,
    sign: Part<'t>,
    label: Part<'t>,
    steps: Part<'t>,
) -> Result<Part<'t>, AllocError>
    ensures { IfOk result (λ made.
        plain_part made ≡ actions.before_child_step (plain_part sign.entry)
        (plain_part label.entry) (plain_part steps.entry)) }
{
    match token_of(sign).zip(token_of(label)).zip(steps_of(steps)) {
        Some(((sign, label), steps)) => {
            Ok(Part::Steps(added(steps, to_child(alloc, sign, label)?)?))
        }
        None => Ok(Part::Junk),
    }
}

/// A step to an attribute, and those after it.
pub(crate) fn before_attribute_step<'t>(
    alloc: Global,
    sign: Part<'t>,
    label: Part<'t>,
    steps: Part<'t>,
) -> Result<Part<'t>, AllocError>
    ensures { IfOk result (λ made.
        plain_part made ≡ actions.before_attribute_step (plain_part sign.entry)
        (plain_part label.entry) (plain_part steps.entry)) }
{
    match token_of(sign).zip(token_of(label)).zip(steps_of(steps)) {
        Some(((sign, label), steps)) => {
            Ok(Part::Steps(added(steps, to_attribute(alloc, sign, label)?)?))
        }
        None => Ok(Part::Junk),
    }
}

/// An expression, and what its steps lead to.
pub(crate) fn path<'t>(
    alloc: Global,
    here: Span,
    first: Part<'t>,
    steps: Part<'t>,
) -> Result<Part<'t>, AllocError>
    ensures { IfOk result (λ made.
        plain_part made ≡ actions.path here (plain_part first.entry) (plain_part steps.entry)) }
{
    match expr_of(first).zip(steps_of(steps)) {
        Some((first, steps)) => Ok(Part::Expr(all_steps(alloc, here, first, steps)?)),
        None => Ok(Part::Junk),
    }
}

// Where all steps lead.
fn all_steps(
    alloc: Global,
    here: Span,
    first: Box<Expr>,
    steps: Vec<Step>,
) -> Result<Box<Expr>, AllocError>
    ensures { IfOk result (λ made. plain made.value
        ≡ queries.path here here (plain first.value) [] (reverse (map plain_step steps.items))) }
{
    let mut steps = steps;
    let mut reached = Reached {
        place: here,
        first,
        tails: Vec::new(alloc),
    };
    while let Some(step) = steps.pop() {
        reached = next(alloc, here, reached, step)?;
    }
    closed(alloc, reached)
}

// Where one step more leads.
fn next(alloc: Global, here: Span, reached: Reached, step: Step) -> Result<Reached, AllocError>
    ensures { IfOk result (λ now. (rest : List queries.Step)
        → led here now rest ≡ led here reached (plain_step step ∷ rest)) }
{
    match step {
        Step::Field(word, label) => to_the_field(here, reached, word, label),
        Step::Child(sign, word, label) => {
            let place = up_to(here, word);
            let operand = closed(alloc, reached)?;
            Ok(only(
                alloc,
                place,
                child(alloc, place, sign, word, operand, label)?,
            ))
        }
        Step::Attribute(sign, word, label) => {
            let place = up_to(here, word);
            let operand = closed(alloc, reached)?;
            Ok(only(alloc, place, attribute(alloc, place, sign, operand, label)?))
        }
    }
}

fn to_the_field(
    here: Span,
    reached: Reached,
    word: Span,
    label: Name,
) -> Result<Reached, AllocError>
    ensures { IfOk result (λ now. (rest : List queries.Step)
        → led here now rest ≡ led here reached (queries.ToField word label ∷ rest)) }
{
    let Reached {
        place: _,
        first,
        tails,
    } = reached;
    Ok(Reached {
        place: up_to(here, word),
        first,
        tails: added(tails, Tail::select(label))?,
    })
}

// An expression, and no field of it.
fn only(alloc: Global, place: Span, first: Box<Expr>) -> Reached
    ensures place { result.place ≡ place }
    ensures first { result.first ≡ first }
    ensures tails { result.tails.items ≡ [] }
{
    Reached {
        place,
        first,
        tails: Vec::new(alloc),
    }
}

// From the beginning of the form to the end of a label in it.
fn up_to(here: Span, word: Span) -> Span
    ensures { result ≡ queries.up_to here word }
{
    Span {
        from: here.from,
        to: word.to,
    }
}

// The fields that were read one after the other are one chain.
fn closed(alloc: Global, reached: Reached) -> Result<Box<Expr>, AllocError>
    ensures { IfOk result (λ made. plain made.value
        ≡ queries.closed reached.place (plain reached.first.value)
        (map plain_tail reached.tails.items)) }
{
    let Reached {
        place,
        first,
        tails,
    } = reached;
    if tails.as_slice().is_empty() {
        return Ok(first);
    }
    Ok(Box::new(alloc, Expr::new(place, ExprKind::chain(first, tails)))?)
}

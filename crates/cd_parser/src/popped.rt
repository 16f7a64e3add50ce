//! What a rule makes of the last parts, which are taken off the stack.
ghost use Rattle.std.specs.Prelude.{◌≡◌, ◌≤◌, [], ◌∷◌, length, IfOk, Some};
ghost use Rattle.cd_grammar.specs.declared.make.Make.TheVariants as makes;
ghost use Rattle.cd_grammar.specs.Parts.{Junk};
ghost use Rattle.cd_parser.specs.Popped.{AreLast, IsCut, IsMade};

use crate::cell::Cell;
use crate::parts::Parts;
use cd_grammar::make::{Five, Four, Make, One, Six, Three, Two};
use cd_syntax::tokens::Span;
use std::alloc::{AllocError, Global};

/// What a rule makes of the parts from one on.
///
/// # Errors
///
/// Want of memory.
pub(crate) fn of_last<'t, P: Parts<'t>>(
    alloc: Global,
    make: Option<Make>,
    here: Span,
    at: usize,
    stack: &mut Vec<Cell<P>>,
) -> Result<P, AllocError>
    requires { at ≤ length stack.old.items }
    ensures { IfOk result
        (λ part. IsMade P.plain make here at stack.old.items stack.new.items part) }
{
    match make {
        Some(Make::One(make)) => one(alloc, make, here, at, stack),
        Some(Make::Two(make)) => two(alloc, make, here, at, stack),
        Some(Make::Three(make)) => three(alloc, make, here, at, stack),
        Some(Make::Four(make)) => four(alloc, make, here, at, stack),
        Some(Make::Five(make)) => five(alloc, make, here, at, stack),
        Some(Make::Six(make)) => six(alloc, make, here, at, stack),
        None => Ok(cut(at, stack)),
    }
}

// Nothing of use, in the place of the parts from one on.
fn cut<'t, P: Parts<'t>>(at: usize, stack: &mut Vec<Cell<P>>) -> P
    requires { at ≤ length stack.old.items }
    ensures cut { IsCut at stack.old.items stack.new.items }
    ensures junk { P.plain result ≡ Junk }
{
    stack.truncate(at);
    P::junk()
}

// The last part.
fn take_part<'t, P: Parts<'t>>(stack: &mut Vec<Cell<P>>) -> P
    requires { 1 ≤ length stack.old.items }
    ensures { AreLast P.plain stack.old.items stack.new.items (P.plain result ∷ []) }
{
    match stack.pop() {
        Some(cell) => cell.part,
        None => unreachable!(),
    }
}

fn one<'t, P: Parts<'t>>(
    alloc: Global,
    make: One,
    here: Span,
    at: usize,
    stack: &mut Vec<Cell<P>>,
) -> Result<P, AllocError>
    requires { at ≤ length stack.old.items }
    ensures { IfOk result (λ part.
        IsMade P.plain (Some (makes.One make)) here at stack.old.items stack.new.items part) }
{
    if stack.len() - at != 1 {
        return Ok(cut(at, stack));
    }
    let a = take_part(stack);
    P::make_of_one(alloc, make, here, a)
}

fn two<'t, P: Parts<'t>>(
    alloc: Global,
    make: Two,
    here: Span,
    at: usize,
    stack: &mut Vec<Cell<P>>,
) -> Result<P, AllocError>
    requires { at ≤ length stack.old.items }
    ensures { IfOk result (λ part.
        IsMade P.plain (Some (makes.Two make)) here at stack.old.items stack.new.items part) }
{
    if stack.len() - at != 2 {
        return Ok(cut(at, stack));
    }
    let b = take_part(stack);
    let a = take_part(stack);
    P::make_of_two(alloc, make, here, a, b)
}

fn three<'t, P: Parts<'t>>(
    alloc: Global,
    make: Three,
    here: Span,
    at: usize,
    stack: &mut Vec<Cell<P>>,
) -> Result<P, AllocError>
    requires { at ≤ length stack.old.items }
    ensures { IfOk result (λ part.
        IsMade P.plain (Some (makes.Three make)) here at stack.old.items stack.new.items part) }
{
    if stack.len() - at != 3 {
        return Ok(cut(at, stack));
    }
    let c = take_part(stack);
    let b = take_part(stack);
    let a = take_part(stack);
    P::make_of_three(alloc, make, here, a, b, c)
}

fn four<'t, P: Parts<'t>>(
    alloc: Global,
    make: Four,
    here: Span,
    at: usize,
    stack: &mut Vec<Cell<P>>,
) -> Result<P, AllocError>
    requires { at ≤ length stack.old.items }
    ensures { IfOk result (λ part.
        IsMade P.plain (Some (makes.Four make)) here at stack.old.items stack.new.items part) }
{
    if stack.len() - at != 4 {
        return Ok(cut(at, stack));
    }
    let d = take_part(stack);
    let c = take_part(stack);
    let b = take_part(stack);
    let a = take_part(stack);
    P::make_of_four(alloc, make, here, a, b, c, d)
}

fn five<'t, P: Parts<'t>>(
    alloc: Global,
    make: Five,
    here: Span,
    at: usize,
    stack: &mut Vec<Cell<P>>,
) -> Result<P, AllocError>
    requires { at ≤ length stack.old.items }
    ensures { IfOk result (λ part.
        IsMade P.plain (Some (makes.Five make)) here at stack.old.items stack.new.items part) }
{
    if stack.len() - at != 5 {
        return Ok(cut(at, stack));
    }
    let e = take_part(stack);
    let d = take_part(stack);
    let c = take_part(stack);
    let b = take_part(stack);
    let a = take_part(stack);
    P::make_of_five(alloc, make, here, (a, b, c, d, e))
}

fn six<'t, P: Parts<'t>>(
    alloc: Global,
    make: Six,
    here: Span,
    at: usize,
    stack: &mut Vec<Cell<P>>,
) -> Result<P, AllocError>
    requires { at ≤ length stack.old.items }
    ensures { IfOk result (λ part.
        IsMade P.plain (Some (makes.Six make)) here at stack.old.items stack.new.items part) }
{
    if stack.len() - at != 6 {
        return Ok(cut(at, stack));
    }
    let f = take_part(stack);
    let e = take_part(stack);
    let d = take_part(stack);
    let c = take_part(stack);
    let b = take_part(stack);
    let a = take_part(stack);
    P::make_of_six(alloc, make, here, (a, b, c, d, e, f))
}

//! What was read, the last part on top.
ghost use Rattle.std.specs.Prelude.{◌≡◌, ◌≤◌, ◌+◌, ◌-◌, [], ◌∷◌, map, take, drop, length};
ghost use Rattle.std.specs.Prelude.{slice_get, IfOk, OnOk, option_map};
ghost use Rattle.cd_lr.specs.Automaton as machine;
ghost use Rattle.cd_lr.specs.Flat.{entry};
ghost use Rattle.cd_grammar.specs.Language.{place_of, build};
ghost use Rattle.cd_grammar.specs.Listed.{automaton, the_grammar, listed};
ghost use Rattle.cd_parser.specs.PlainStacks.{plain_value, plain_stack, put};

use crate::cell::Cell;
use crate::nested::nested_in;
use crate::parts::Parts;
use crate::popped::of_last;
use cd_grammar::make::{Make, One};
use cd_grammar::table::{goto_at, left_of, length_of, make_of};
use cd_syntax::tokens::Span;
use std::alloc::{AllocError, Global};
use std::mem;

/// The state at the top.
pub(crate) fn state_of<'t, P: Parts<'t>>(stack: &[Cell<P>]) -> u16
    ensures { result ≡ machine.state_of (plain_stack P.plain stack.now) }
{
    match stack {
        [] => 0,
        [.., last] => last.state,
    }
}

/// How many levels may open after it.
pub(crate) fn room_of<'t, P: Parts<'t>>(most: usize, stack: &[Cell<P>]) -> usize
    ensures { result ≡ machine.room_of most (plain_stack P.plain stack.now) }
{
    match stack {
        [] => most,
        [.., last] => last.room,
    }
}

/// Puts what a rule makes of the last parts in their place.
///
/// # Errors
///
/// Want of memory.
pub(crate) fn reduce<'t, P: Parts<'t>>(
    alloc: Global,
    most: usize,
    rule: u16,
    stack: &mut Vec<Cell<P>>,
) -> Result<(), AllocError>
    ensures { OnOk result (plain_stack P.plain stack.new.items
        ≡ machine.pushed the_grammar automaton most rule
        (machine.popped (entry listed.lengths rule) [] (plain_stack P.plain stack.old.items))) }
{
    let at = stack.len().saturating_sub(usize::from(length_of(rule)));
    if stack.len() - at == 1 {
        return reduce_top(alloc, most, rule, at, stack);
    }
    reduce_several(alloc, most, rule, at, stack)
}

// The one part is the top, which is changed in its place.
fn reduce_top<'t, P: Parts<'t>>(
    alloc: Global,
    most: usize,
    rule: u16,
    top: usize,
    stack: &mut Vec<Cell<P>>,
) -> Result<(), AllocError>
    requires { top + 1 ≡ length stack.old.items }
    ensures { OnOk result (plain_stack P.plain stack.new.items
        ≡ machine.pushed the_grammar automaton most rule (
          map (plain_value P.plain) (drop top stack.old.items),
          plain_stack P.plain (take top stack.old.items),
        )) }
{
    let below = &stack[..top];
    let state = goto_at(state_of(below), left_of(rule));
    let room = room_of(most, below);
    let cell = &mut stack[top];
    remake(alloc, rule, cell)?;
    cell.state = state;
    cell.room = room;
    Ok(())
}

// What a rule makes of the one part, in its place.
fn remake<'t, P: Parts<'t>>(alloc: Global, rule: u16, cell: &mut Cell<P>) -> Result<(), AllocError>
    ensures { OnOk result (plain_value P.plain cell.new
        ≡ build rule (plain_value P.plain cell.old ∷ [])) }
{
    match make_of(rule) {
        Some(Make::One(One::That)) => Ok(()),
        Some(Make::One(make)) => {
            let part = mem::replace(&mut cell.part, P::junk());
            cell.part = P::make_of_one(alloc, make, cell.span, part)?;
            Ok(())
        }
        _ => {
            cell.part = P::junk();
            Ok(())
        }
    }
}

// The parts are those from one on, two or more, or none.
fn reduce_several<'t, P: Parts<'t>>(
    alloc: Global,
    most: usize,
    rule: u16,
    at: usize,
    stack: &mut Vec<Cell<P>>,
) -> Result<(), AllocError>
    requires { at ≤ length stack.old.items }
    ensures { OnOk result (plain_stack P.plain stack.new.items
        ≡ machine.pushed the_grammar automaton most rule (
          map (plain_value P.plain) (drop at stack.old.items),
          plain_stack P.plain (take at stack.old.items),
        )) }
{
    let make = make_of(rule);
    let cells = &stack[at..];
    let span = place_of(cells);
    let nested = nested_in(make, cells)?;
    let made = of_last(alloc, make, span, at, stack)?;
    push(most, rule, nested, span, made, stack)
}

// What a rule made is put where its left side leads.
fn push<'t, P: Parts<'t>>(
    most: usize,
    rule: u16,
    nested: usize,
    span: Span,
    part: P,
    stack: &mut Vec<Cell<P>>,
) -> Result<(), AllocError>
    ensures { OnOk result (plain_stack P.plain stack.new.items
        ≡ put most rule (span, P.plain part) (plain_stack P.plain stack.old.items)) }
{
    let state = goto_at(state_of(stack), left_of(rule));
    let room = room_of(most, stack);
    let cell = Cell {
        state,
        room,
        nested,
        span,
        part,
    };
    stack.push(cell)?;
    Ok(())
}

// From the first's beginning to the last's end.
fn place_of<'t, P: Parts<'t>>(cells: &[Cell<P>]) -> Span
    ensures { result ≡ place_of (map (plain_value P.plain) cells.now) }
{
    match cells {
        [] => Span { from: 0, to: 0 },
        [only] => only.span,
        [first, .., last] => Span {
            from: first.span.from,
            to: last.span.to,
        },
    }
}

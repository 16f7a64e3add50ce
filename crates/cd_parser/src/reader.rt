//! Reads tokens.
ghost use Rattle.std.specs.Prelude.{◌≡◌, IfOk};
ghost use Rattle.cd_lr.specs.Automaton as machine;
ghost use Rattle.cd_grammar.specs.Terminals.{terminal_of_goal};
ghost use Rattle.cd_grammar.specs.Listed.{automaton};
ghost use Rattle.cd_parser.specs.PlainStacks.{plain_stack};
ghost use Rattle.cd_parser.specs.PlainSteps.{plain_state};
ghost use Rattle.cd_parser.specs.Reading.{Comes, IsAccepted, IsRead};

use crate::cell::Cell;
use crate::machine::{Outcome, terminal_ahead};
use crate::parts::Parts;
use crate::reading::Reading;
use crate::state::State;
use crate::terminal::terminal_of_goal;
use cd_grammar::goal::Goal;
use cd_grammar::table::{Action, action_at};
use cd_syntax::tokens::{Span, Token};
use std::alloc::{AllocError, Global};

/// What the tokens write, where at most so many levels may be open.
///
/// # Errors
///
/// Want of memory.
pub(crate) fn read<'t, P: Parts<'t>>(
    alloc: Global,
    goal: Goal,
    tokens: &'t [Token],
    most: usize,
) -> Result<Reading<P>, AllocError>
    ensures { IfOk result (λ reading. IsRead P.plain goal most tokens.entry.now reading) }
{
    let mut state = start(alloc, goal, tokens, most)?;
    loop {
        let index = state.index;
        match state.step(alloc, most)? {
            Outcome::On => {}
            Outcome::Accept => return Ok(accepted(index, state.stack)),
            Outcome::Wrong => return Ok(Reading::Wrong(index)),
            Outcome::TooDeep => return Ok(Reading::TooDeep(index)),
        }
    }
}

// What was read, which is one part.
fn accepted<'t, P: Parts<'t>>(index: usize, mut stack: Vec<Cell<P>>) -> Reading<P>
    ensures { IsAccepted P.plain index (plain_stack P.plain stack.items) result }
{
    let Some(cell) = stack.pop() else {
        return Reading::Wrong(index);
    };
    if stack.as_slice().is_empty() {
        return Reading::Whole(cell.part);
    }
    Reading::Wrong(index)
}

// Where the automaton stands once it has taken what the text is to be, which opens no level.
fn start<'t, P: Parts<'t>>(
    alloc: Global,
    goal: Goal,
    tokens: &'t [Token],
    most: usize,
) -> Result<State<'t, P>, AllocError>
    ensures comes { IfOk result
        (λ state. Comes goal most tokens.entry.now (plain_state P.plain state)) }
    ensures text { IfOk result (λ state. state.tokens.now ≡ tokens.entry.now) }
{
    let cell = Cell {
        state: first_state(goal),
        room: most,
        nested: 0,
        span: Span { from: 0, to: 0 },
        part: P::junk(),
    };
    let mut stack = Vec::new(alloc);
    stack.push(cell)?;
    Ok(State {
        tokens,
        index: 0,
        stack,
        terminal: terminal_ahead(tokens, 0),
    })
}

fn first_state(goal: Goal) -> u16
    ensures { automaton.action 0 (terminal_of_goal goal) ≡ machine.Shift 0 result }
{
    match action_at(0, terminal_of_goal(goal)) {
        Action::Shift(_, to) => to,
        _ => 0,
    }
}

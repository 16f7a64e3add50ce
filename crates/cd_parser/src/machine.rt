//! The automaton that reads tokens.
ghost use Rattle.std.specs.Prelude.{◌≡◌, [], drop, IfOk, OnOk};
ghost use Rattle.cd_lr.specs.Automaton as machine;
ghost use Rattle.cd_parser.specs.Ahead.{terminal_ahead};
ghost use Rattle.cd_grammar.specs.Listed.{automaton, the_grammar};
ghost use Rattle.cd_parser.specs.PlainStacks.{plain_stack};
ghost use Rattle.cd_parser.specs.PlainSteps.{rest_of, plain_state, plain_outcome};

use crate::cell::Cell;
use crate::parts::Parts;
use crate::stack::{reduce, room_of, state_of};
use crate::state::State;
use crate::terminal::terminal_of;
use cd_grammar::table::{Action, END, action_at};
use cd_syntax::tokens::Token;
use std::alloc::{AllocError, Global};

/// What a step leads to.
#[derive(Clone, Copy)]
pub(crate) enum Outcome {
    /// A next state.
    On,
    /// The end, where what was read is one part.
    Accept,
    /// The next token cannot come.
    Wrong,
    /// There is no room for the level that it opens.
    TooDeep,
}

impl<'t, P: Parts<'t>> State<'t, P> {
    /// Does the next step.
    ///
    /// # Errors
    ///
    /// Want of memory.
    pub(crate) fn step(&mut self, alloc: Global, most: usize) -> Result<Outcome, AllocError>
        ensures step { IfOk result (λ outcome. plain_outcome P.plain outcome self.new
            ≡ machine.step the_grammar automaton most (plain_state P.plain self.old)) }
        ensures text { self.new.tokens.now ≡ self.old.tokens.now }
    {
        match action_at(state_of(&self.stack), self.terminal) {
            Action::Shift(opens, to) => self.shift(most, opens, to),
            Action::Reduce(rule) => {
                reduce(alloc, most, rule, &mut self.stack)?;
                Ok(Outcome::On)
            }
            Action::Accept => Ok(Outcome::Accept),
            Action::Refuse => Ok(Outcome::Wrong),
        }
    }

    fn shift(&mut self, most: usize, opens: u16, to: u16) -> Result<Outcome, AllocError>
        ensures step { IfOk result (λ outcome. plain_outcome P.plain outcome self.new
            ≡ machine.shift the_grammar automaton most opens to
            (plain_stack P.plain self.old.stack.items) (rest_of self.old)) }
        ensures text { self.new.tokens.now ≡ self.old.tokens.now }
    {
        let Some(token) = self.tokens.get(self.index) else {
            return Ok(Outcome::Wrong);
        };
        let room = room_of(most, &self.stack);
        let Some(room) = room.checked_sub(usize::from(opens)) else {
            return Ok(Outcome::TooDeep);
        };
        let cell = Cell {
            state: to,
            room,
            nested: 0,
            span: token.span,
            part: P::of_token(token),
        };
        self.stack.push(cell)?;
        self.index += 1;
        self.terminal = terminal_ahead(self.tokens, self.index);
        Ok(Outcome::On)
    }
}

/// The terminal of the token with this number, or of the end.
pub(crate) fn terminal_ahead(tokens: &[Token], index: usize) -> u8
    ensures { result ≡ terminal_ahead (drop index tokens.now) }
{
    match tokens.get(index) {
        Some(token) => terminal_of(&token.kind),
        None => END,
    }
}

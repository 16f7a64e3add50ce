//! The tables, as the automaton reads them.
ghost use Rattle.std.specs.Prelude.{◌≡◌, slice_get};
ghost use Rattle.std.specs.Option.{option_map};
ghost use Rattle.cd_lr.specs.Flat.{decode, entry};
ghost use Rattle.cd_grammar.specs.Rules.{lines};
ghost use Rattle.cd_grammar.specs.Listed.{automaton, listed};
ghost use Rattle.cd_grammar.specs.PlainActions.{plain_action};

use crate::make::Make;
use crate::tables::{ACTIONS, GOTOS, LEFTS, LENGTHS, MAKES, NONTERMINALS, TERMINALS};

/// The terminal of the end of a text.
pub const END: u8 = 76;

/// What the automaton does next.
#[derive(Clone, Copy)]
pub enum Action {
    /// It takes the token, which opens so many levels, and goes to a state.
    Shift(u16, u16),
    /// It puts what a rule makes of its parts in their place.
    Reduce(u16),
    /// All is read.
    Accept,
    /// The token cannot come.
    Refuse,
}

/// What it does at a state before a terminal.
pub fn action_at(state: u16, terminal: u8) -> Action
    ensures { plain_action result ≡ automaton.action state terminal }
{
    decode(entry(
        &ACTIONS,
        usize::from(state) * TERMINALS + usize::from(terminal),
    ))
}

/// Where the left side of a rule leads from a state.
pub fn goto_at(state: u16, left: u16) -> u16
    ensures { result ≡ automaton.goto state left }
{
    entry(
        &GOTOS,
        usize::from(state) * NONTERMINALS + usize::from(left),
    )
}

/// The left side of a rule.
pub fn left_of(rule: u16) -> u16
    ensures { result ≡ entry listed.lefts rule }
{
    entry(&LEFTS, usize::from(rule))
}

/// How many parts a rule has.
pub fn length_of(rule: u16) -> u16
    ensures { result ≡ entry listed.lengths rule }
{
    entry(&LENGTHS, usize::from(rule))
}

/// What a rule makes.
pub fn make_of(rule: u16) -> Option<Make>
    ensures { result ≡ option_map (λ line. line.make) (slice_get lines rule) }
{
    make_in(&MAKES, usize::from(rule))
}

fn make_in(table: &[Make], at: usize) -> Option<Make>
    ensures { result ≡ slice_get table.now at }
{
    table.get(at).copied()
}

// An entry, or 0.
fn entry(table: &[u16], at: usize) -> u16
    ensures { result ≡ entry table.now at }
{
    match table.get(at) {
        Some(n) => *n,
        None => 0,
    }
}

fn decode(code: u16) -> Action
    ensures { plain_action result ≡ decode code }
{
    match code {
        0 => Action::Refuse,
        1 => Action::Accept,
        2..2000 => Action::Shift((code - 2) % 2, (code - 2) / 2),
        _ => Action::Reduce(code - 2000),
    }
}

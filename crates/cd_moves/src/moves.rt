//! Moves of the states of an automaton.
ghost use Rattle.std.specs.Prelude.{◌≡◌, true};
ghost use Rattle.cd_moves.specs.Inner.PlainMoves.{plain_moves, has_each_once};

use std::alloc::{AllocError, Global};

/// A move of a state: the end of the sequence, or the item with this number.
#[derive(Clone, Copy)]
pub enum Move {
    End,
    To(usize),
}

/// The moves of a state in the order in which they are tried, each once.
#[derive(Drop)]
pub struct Moves {
    pub moves: Vec<Move>,
    ghost once: { has_each_once (plain_moves moves.items) ≡ true },
}

impl Move {
    ghost use Rattle.cd_moves.specs.Automaton.{same_move};
    ghost use Rattle.cd_moves.specs.Inner.PlainMoves.{plain_move, has};

    fn is_same(self, other: Move) -> bool
        ensures { result ≡ same_move (plain_move self) (plain_move other) }
    {
        match (self, other) {
            (Move::End, Move::End) => true,
            (Move::To(one), Move::To(two)) => one == two,
            (Move::End, Move::To(_)) | (Move::To(_), Move::End) => false,
        }
    }

    // Whether it is among these.
    fn is_among(self, moves: &[Move]) -> bool
        ensures { result ≡ has (plain_moves moves.now) (plain_move self) }
    {
        for other in moves {
            if other.is_same(self) {
                return true;
            }
        }
        false
    }
}

impl Moves {
    ghost use Rattle.std.specs.Prelude.{◌<◌, ◌++◌, ◌∷◌, [], length, IfOk, OnOk};
    ghost use Rattle.std.specs.Option.{IfSome};
    ghost use Rattle.cd_moves.specs.Inner.PlainMoves.{plain_move, has};
    ghost use Rattle.cd_moves.specs.Inner.Rows.{plain_row, with_move, added, added_instead};
    ghost use Rattle.cd_moves.specs.Inner.Rows.{in_place, followed, end_of, less, between};

    /// No moves.
    pub fn new(alloc: Global) -> Moves
        ensures { plain_row result ≡ [] }
    {
        Moves {
            moves: Vec::new(alloc),
        }
    }

    /// This move alone.
    pub fn one(alloc: Global, only: Move) -> Result<Moves, AllocError>
        ensures { IfOk result (λ row. plain_row row ≡ plain_move only ∷ []) }
    {
        let mut moves = Vec::new(alloc);
        moves.push(only)?;
        Ok(Moves { moves })
    }

    /// The same moves.
    pub fn copy(&self, alloc: Global) -> Result<Moves, AllocError>
        ensures { IfOk result (λ same. plain_row same ≡ plain_row self.now) }
    {
        let moves = Vec::from_slice(alloc, self.moves.as_slice())?;
        Ok(Moves { moves })
    }

    /// Whether it has a move.
    pub fn has(&self, one: Move) -> bool
        ensures { result ≡ has (plain_row self.now) (plain_move one) }
    {
        one.is_among(self.moves.as_slice())
    }

    /// Puts a move after the others, unless it is among them.
    pub fn add(&mut self, one: Move) -> Result<(), AllocError>
        ensures { OnOk result (plain_row self.new
            ≡ with_move (plain_row self.old) (plain_move one)) }
    {
        if !self.has(one) {
            self.moves.push(one)?;
        }
        Ok(())
    }

    /// Puts the moves of another state after the others, each once.
    pub fn add_all(&mut self, more: &Moves) -> Result<(), AllocError>
        ensures { OnOk result (plain_row self.new
            ≡ added (plain_row self.old) (plain_row more.now)) }
    {
        for one in more.moves.as_slice() {
            self.add(*one)?;
        }
        Ok(())
    }

    /// The same, with those of a third one in the place of the end.
    pub fn add_instead(&mut self, more: &Moves, next: &Moves) -> Result<(), AllocError>
        ensures { OnOk result (plain_row self.new
            ≡ added_instead (plain_row self.old) (plain_row more.now) (plain_row next.now)) }
    {
        for one in more.moves.as_slice() {
            self.add_in_place(*one, next)?;
        }
        Ok(())
    }

    // A move, in whose place others stand if it is the end.
    fn add_in_place(&mut self, one: Move, next: &Moves) -> Result<(), AllocError>
        ensures { OnOk result (plain_row self.new
            ≡ added (plain_row self.old) (in_place (plain_move one) (plain_row next.now))) }
    {
        match one {
            Move::End => self.add_all(next),
            Move::To(_) => self.add(one),
        }
    }

    /// These moves with those of another state in the place of the end. As no move stands twice,
    /// only those of the other one are tested against the moves before the end, and those after it
    /// against the other one.
    pub fn followed(&self, alloc: Global, next: &Moves) -> Result<Moves, AllocError>
        ensures { IfOk result (λ both.
            plain_row both ≡ followed (plain_row self.now) (plain_row next.now)) }
    {
        let moves = self.moves.as_slice();
        match Moves::end(moves) {
            None => Ok(self.copy(alloc)?),
            Some(end) => {
                let others = next.moves.as_slice();
                let moves = Moves::between(alloc, &moves[..end], others, &moves[end + 1..])?;
                Ok(Moves { moves })
            }
        }
    }

    // Where the end stands among these moves.
    fn end(moves: &[Move]) -> Option<usize>
        ensures within { IfSome result (λ place. place < length moves.now) }
        ensures is { result ≡ end_of (plain_moves moves.now) }
    {
        for (place, one) in moves.iter().enumerate() {
            if one.is_same(Move::End) {
                return Some(place);
            }
        }
        None
    }

    fn between(
        alloc: Global,
        before: &[Move],
        next: &[Move],
        after: &[Move],
    ) -> Result<Vec<Move>, AllocError>
        ensures { IfOk result (λ moves. plain_moves moves.items
            ≡ between (plain_moves before.now) (plain_moves next.now) (plain_moves after.now)) }
    {
        let mut moves = Vec::from_slice(alloc, before)?;
        Moves::add_less(before, next, &mut moves)?;
        Moves::add_less(next, after, &mut moves)?;
        Ok(moves)
    }

    // Puts those that are not among the first ones after others.
    fn add_less(row: &[Move], more: &[Move], moves: &mut Vec<Move>) -> Result<(), AllocError>
        ensures { OnOk result (plain_moves moves.new.items
            ≡ plain_moves moves.old.items ++ less (plain_moves row.now) (plain_moves more.now)) }
    {
        for one in more {
            if !one.is_among(row) {
                moves.push(*one)?;
            }
        }
        Ok(())
    }
}

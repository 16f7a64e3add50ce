//! The first moves of an expression.
ghost use Rattle.std.specs.Prelude.{◌≡◌, ◌+◌, ◌<◌, ◌^◌, ◌∷◌, [], map, IfOk};
ghost use Rattle.cd_matching.specs.Pattern.{regulars_of};
ghost use Rattle.cd_matching.specs.PlainPattern.{plain_regular};
ghost use Rattle.cd_moves.specs.Automaton.{End, items_in, items_in_all};
ghost use Rattle.cd_moves.specs.Inner.Rows.{plain_row, added, with_move, followed, greedy, lazy};
ghost use Rattle.cd_moves.specs.Inner.Rows.{turns_row, first_row, first_moves_row};
ghost use Rattle.cd_moves.specs.Inner.Rows.{first_moves_in_turn_row};
ghost use Rattle.cd_moves.specs.Inner.Rows.{first_moves_of_one_row};

use crate::moves::{Move, Moves};
use cd_matching::pattern::RegPat;
use cd_syntax::type_tree::Post;
use std::alloc::{AllocError, Global};

/// How many items stand in an expression.
#[cycle(items_in)]
pub fn items_in(is: &RegPat) -> usize
    requires { items_in (plain_regular is.now) < 2 ^ 64 }
    ensures { result ≡ items_in (plain_regular is.now) }
{
    match is {
        RegPat::Nothing => 0,
        RegPat::Item(_) => 1,
        RegPat::Seq(all) | RegPat::Alt(all) => items_in_all(all.items.as_slice()),
        RegPat::Repeat(is, _) | RegPat::Capture(_, is) => items_in(is),
    }
}

/// How many items stand in these.
#[cycle(items_in)]
pub fn items_in_all(all: &[RegPat]) -> usize
    requires { items_in_all (regulars_of (map plain_regular all.now)) < 2 ^ 64 }
    ensures { result ≡ items_in_all (regulars_of (map plain_regular all.now)) }
{
    let mut count = 0;
    for is in all {
        count += items_in(is);
    }
    count
}

/// The first moves of an expression, whose items are numbered after this number.
#[cycle(first_moves)]
pub fn first_moves(alloc: Global, is: &RegPat, before: usize) -> Result<Moves, AllocError>
    requires { before + items_in (plain_regular is.now) < 2 ^ 64 }
    ensures { IfOk result (λ row. plain_row row ≡ first_moves_row (plain_regular is.now) before) }
{
    match is {
        RegPat::Nothing => Moves::one(alloc, Move::End),
        RegPat::Item(_) => Moves::one(alloc, Move::To(before)),
        RegPat::Seq(all) => first_moves_in_turn(alloc, all.items.as_slice(), before),
        RegPat::Alt(all) => first_moves_of_one(alloc, all.items.as_slice(), before),
        RegPat::Repeat(is, post) => {
            let turn = first_moves(alloc, is, before)?;
            Ok(first_turn(alloc, *post, &turn)?)
        }
        RegPat::Capture(_, is) => first_moves(alloc, is, before),
    }
}

#[cycle(first_moves)]
fn first_moves_in_turn(alloc: Global, all: &[RegPat], before: usize) -> Result<Moves, AllocError>
    requires { before + items_in_all (regulars_of (map plain_regular all.now)) < 2 ^ 64 }
    ensures { IfOk result (λ row. plain_row row
        ≡ first_moves_in_turn_row (End ∷ []) (regulars_of (map plain_regular all.now)) before) }
{
    let mut row = Moves::one(alloc, Move::End)?;
    let mut at = before;
    for is in all {
        if !row.has(Move::End) {
            return Ok(row);
        }
        let next = first_moves(alloc, is, at)?;
        row = followed(alloc, &row, &next)?;
        at += items_in(is);
    }
    Ok(row)
}

#[cycle(first_moves)]
fn first_moves_of_one(alloc: Global, all: &[RegPat], before: usize) -> Result<Moves, AllocError>
    requires { before + items_in_all (regulars_of (map plain_regular all.now)) < 2 ^ 64 }
    ensures { IfOk result (λ row. plain_row row
        ≡ first_moves_of_one_row [] (regulars_of (map plain_regular all.now)) before) }
{
    let mut row = Moves::new(alloc);
    let mut at = before;
    for is in all {
        let others = first_moves(alloc, is, at)?;
        row.add_all(&others)?;
        at += items_in(is);
    }
    Ok(row)
}

/// Moves with others in the place of the end.
pub fn followed(alloc: Global, row: &Moves, next: &Moves) -> Result<Moves, AllocError>
    ensures { IfOk result (λ both.
        plain_row both ≡ followed (plain_row row.now) (plain_row next.now)) }
{
    Ok(row.followed(alloc, next)?)
}

/// The moves after the turns of a repeat so far, where each turn begins with these.
pub fn turns(alloc: Global, post: Post, turn: &Moves) -> Result<Moves, AllocError>
    ensures { IfOk result (λ row. plain_row row ≡ turns_row post (plain_row turn.now)) }
{
    match post {
        Post::Star | Post::Plus => greedy(alloc, turn),
        Post::LazyStar | Post::LazyPlus => lazy(alloc, turn),
        Post::Opt | Post::LazyOpt => Moves::one(alloc, Move::End),
    }
}

// The first moves of a repeat, where each turn begins with these.
fn first_turn(alloc: Global, post: Post, turn: &Moves) -> Result<Moves, AllocError>
    ensures { IfOk result (λ row. plain_row row ≡ first_row post (plain_row turn.now)) }
{
    match post {
        Post::Star => greedy(alloc, turn),
        Post::LazyStar => lazy(alloc, turn),
        Post::Plus | Post::LazyPlus => {
            let next = turns(alloc, post, turn)?;
            Ok(followed(alloc, turn, &next)?)
        }
        Post::Opt => before_end(alloc, turn),
        Post::LazyOpt => after_end(alloc, turn),
    }
}

// Another turn, or else the end.
fn greedy(alloc: Global, turn: &Moves) -> Result<Moves, AllocError>
    ensures { IfOk result (λ row. plain_row row ≡ greedy (plain_row turn.now)) }
{
    let mut row = Moves::new(alloc);
    row.add_instead(turn, &Moves::new(alloc))?;
    row.add(Move::End)?;
    Ok(row)
}

// The end, or else another turn.
fn lazy(alloc: Global, turn: &Moves) -> Result<Moves, AllocError>
    ensures { IfOk result (λ row. plain_row row ≡ lazy (plain_row turn.now)) }
{
    let mut row = Moves::one(alloc, Move::End)?;
    row.add_instead(turn, &Moves::new(alloc))?;
    Ok(row)
}

fn before_end(alloc: Global, turn: &Moves) -> Result<Moves, AllocError>
    ensures { IfOk result (λ row.
        plain_row row ≡ with_move (added [] (plain_row turn.now)) End) }
{
    let mut row = Moves::new(alloc);
    row.add_all(turn)?;
    row.add(Move::End)?;
    Ok(row)
}

fn after_end(alloc: Global, turn: &Moves) -> Result<Moves, AllocError>
    ensures { IfOk result (λ row. plain_row row ≡ added (End ∷ []) (plain_row turn.now)) }
{
    let mut row = Moves::one(alloc, Move::End)?;
    row.add_all(turn)?;
    Ok(row)
}

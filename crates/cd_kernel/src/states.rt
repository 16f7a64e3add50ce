//! The moves after each item of an expression, from the last item to the first.
ghost use Rattle.std.specs.Prelude.{◌≡◌, ◌+◌, ◌<◌, ◌^◌, ◌++◌, ◌∷◌, [], map, IfOk, OnOk};
ghost use Rattle.cd_matching.specs.Pattern.{regulars_of};
ghost use Rattle.cd_matching.specs.PlainPattern.{plain_regular};
ghost use Rattle.cd_moves.specs.Automaton.{items_in, items_in_all};
ghost use Rattle.cd_moves.specs.Inner.Rows.{plain_rows, plain_row, followed, turns_row};
ghost use Rattle.cd_moves.specs.Inner.Rows.{first_moves_row, rows_back, rows_back_in_turn};
ghost use Rattle.cd_moves.specs.Inner.Rows.{rows_back_of_one};

use cd_matching::pattern::RegPat;
use cd_moves::first_moves::{first_moves, followed, items_in, items_in_all, turns};
use cd_moves::moves::Moves;
use cd_syntax::type_tree::Post;
use std::alloc::{AllocError, Global};

/// Adds the moves after each item of an expression. `next` are those after the whole expression.
/// Items are numbered after this number.
#[cycle(add_states)]
pub(crate) fn add_states(
    alloc: Global,
    is: &RegPat,
    before: usize,
    next: &Moves,
    rows: &mut Vec<Moves>,
) -> Result<(), AllocError>
    requires { before + items_in (plain_regular is.now) < 2 ^ 64 }
    ensures { OnOk result (plain_rows rows.new.items ≡ plain_rows rows.old.items
        ++ rows_back (plain_regular is.now) before (plain_row next.now)) }
{
    match is {
        RegPat::Nothing => Ok(()),
        RegPat::Item(_) => add_row(alloc, next, rows),
        RegPat::Seq(all) => add_in_turn(alloc, all.items.as_slice(), before, next, rows),
        RegPat::Alt(all) => add_of_one(alloc, all.items.as_slice(), before, next, rows),
        RegPat::Repeat(is, post) => {
            let again = after_turn(alloc, is, *post, before, next)?;
            add_states(alloc, is, before, &again, rows)?;
            Ok(())
        }
        RegPat::Capture(_, is) => add_states(alloc, is, before, next, rows),
    }
}

// Adds those of some in turn.
#[cycle(add_states)]
fn add_in_turn(
    alloc: Global,
    all: &[RegPat],
    before: usize,
    next: &Moves,
    rows: &mut Vec<Moves>,
) -> Result<(), AllocError>
    requires { before + items_in_all (regulars_of (map plain_regular all.now)) < 2 ^ 64 }
    ensures { OnOk result (plain_rows rows.new.items ≡ plain_rows rows.old.items
        ++ rows_back_in_turn (regulars_of (map plain_regular all.now)) before
        (plain_row next.now)) }
{
    let mut after = next.copy(alloc)?;
    let mut at = before + items_in_all(all);
    let mut index = all.len();
    while index > 0 {
        index -= 1;
        let is = &all[index];
        at -= items_in(is);
        add_states(alloc, is, at, &after, rows)?;
        after = first_moves_before(alloc, is, at, &after)?;
    }
    Ok(())
}

// The first moves of an expression, with these in the place of the end.
fn first_moves_before(
    alloc: Global,
    is: &RegPat,
    before: usize,
    next: &Moves,
) -> Result<Moves, AllocError>
    requires { before + items_in (plain_regular is.now) < 2 ^ 64 }
    ensures { IfOk result (λ row. plain_row row
        ≡ followed (first_moves_row (plain_regular is.now) before) (plain_row next.now)) }
{
    let first_moves = first_moves(alloc, is, before)?;
    Ok(followed(alloc, &first_moves, next)?)
}

// Adds those of alternatives.
#[cycle(add_states)]
fn add_of_one(
    alloc: Global,
    all: &[RegPat],
    before: usize,
    next: &Moves,
    rows: &mut Vec<Moves>,
) -> Result<(), AllocError>
    requires { before + items_in_all (regulars_of (map plain_regular all.now)) < 2 ^ 64 }
    ensures { OnOk result (plain_rows rows.new.items ≡ plain_rows rows.old.items
        ++ rows_back_of_one (regulars_of (map plain_regular all.now)) before
        (plain_row next.now)) }
{
    let mut at = before + items_in_all(all);
    let mut index = all.len();
    while index > 0 {
        index -= 1;
        let is = &all[index];
        at -= items_in(is);
        add_states(alloc, is, at, next, rows)?;
    }
    Ok(())
}

// The moves after a turn of a repeat: another turn, or what comes after all.
fn after_turn(
    alloc: Global,
    is: &RegPat,
    post: Post,
    before: usize,
    next: &Moves,
) -> Result<Moves, AllocError>
    requires { before + items_in (plain_regular is.now) < 2 ^ 64 }
    ensures { IfOk result (λ row. plain_row row ≡ followed
        (turns_row post (first_moves_row (plain_regular is.now) before)) (plain_row next.now)) }
{
    let turn = first_moves(alloc, is, before)?;
    let again = turns(alloc, post, &turn)?;
    Ok(followed(alloc, &again, next)?)
}

// Adds a state with these moves.
fn add_row(alloc: Global, moves: &Moves, rows: &mut Vec<Moves>) -> Result<(), AllocError>
    ensures { OnOk result (plain_rows rows.new.items
        ≡ plain_rows rows.old.items ++ plain_row moves.now ∷ []) }
{
    rows.push(moves.copy(alloc)?)?;
    Ok(())
}

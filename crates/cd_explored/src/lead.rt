//! Steps with the places that they lead to.
ghost use Rattle.std.specs.Prelude.{◌≡◌, [], ◌∷◌, None, IfOk};
ghost use Rattle.cd_filter.specs.Table.{Leads, at};
ghost use Rattle.cd_explored.specs.Inner.PlainSteps.{all_steps};

use crate::place::Place;
use cd_sets::question::Question;
use cd_syntax::constant::Constant;
use std::alloc::{AllocError, Global};

/// What is captured at a place, by what comes to other ones.
#[derive(Drop)]
pub(crate) enum Lead<'k> {
    /// By this variable what comes there.
    Takes(usize),
    /// By this variable a constant.
    Puts(usize, &'k Constant),
    /// What is captured at another place.
    Leads(Place),
    /// What is captured at two other places, but by this variable, which captures an item that
    /// comes to the first, and then what it captures at the second.
    Gathers(usize, Place, Place),
}

/// To the nodes with these numbers, one question each.
pub(crate) fn lead_to_two<'k>(
    alloc: Global,
    first: usize,
    one: Question,
    second: usize,
    other: Question,
) -> Result<Vec<Lead<'k>>, AllocError>
    ensures { IfOk result (λ leads. all_steps leads.items
        ≡ Leads None (at first one) ∷ Leads None (at second other) ∷ []) }
{
    let one = Lead::Leads(Place::at(first, one));
    let other = Lead::Leads(Place::at(second, other));
    Ok(vec![in alloc; one, other]?)
}

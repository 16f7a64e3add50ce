//! Formulas of texts.
ghost use Rattle.std.specs.Prelude.{◌≡◌, ◌+◌, ◌<◌, ◌^◌, [], map, slice_get, unwrap_or, IfOk, IfSome};
ghost use Rattle.cd_graph.specs.PlainFormula.{plain};
ghost use Rattle.cd_explored.specs.Inner.Made.{IsText, text_at};
ghost use Rattle.cd_explored.specs.Inner.Plan.{plain_plan};
ghost use Rattle.cd_explored.specs.Inner.Wanted.{GrowTo};

use crate::nodes::pair;
use crate::plan::Plan;
use crate::want::Want;
use crate::wants::Wants;
use cd_builders::nil;
use cd_graph::Formula;
use std::alloc::AllocError;

/// The text of a node of the kernel from a character on.
pub(crate) fn text(
    plan: &Plan<'_, '_>,
    wants: &mut Wants,
    number: usize,
    from: usize,
) -> Result<Formula, AllocError>
    ensures made { IfOk result (λ is. IsText (plain_plan plan.now) wants.new number (from + 1)
        (slice_get (text_at (plain_plan plan.now) number) from) (plain is)) }
    ensures grow { GrowTo wants.old wants.new }
{
    match first_from(plan.texts, number, from) {
        Some(c) => text_of(plan, wants, number, from + 1, Some(c)),
        None => nil(plan.alloc),
    }
}

/// A text of a node of the kernel by its first character, where the next one has this number.
pub(crate) fn text_of(
    plan: &Plan<'_, '_>,
    wants: &mut Wants,
    number: usize,
    next: usize,
    first: Option<char>,
) -> Result<Formula, AllocError>
    ensures made { IfOk result
        (λ is. IsText (plain_plan plan.now) wants.new number next first (plain is)) }
    ensures grow { GrowTo wants.old wants.new }
{
    match first {
        Some(c) => pair(plan, wants, Want::Character(c), Want::Text(number, next)),
        None => nil(plan.alloc),
    }
}

// The character with a number in the text of a node of the kernel.
fn first_from(texts: &[Vec<char>], number: usize, from: usize) -> Option<char>
    ensures first { result ≡ slice_get
        (unwrap_or (slice_get (map (λ text. text.items) texts.now) number) []) from }
    ensures fits { IfSome result (λ c. from + 1 < 2 ^ 64) }
{
    texts.get(number)?.as_slice().get(from).copied()
}

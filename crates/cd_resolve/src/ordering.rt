//! Numbers in an order in which each comes after those that it leads to.
ghost use Rattle.std.specs.Prelude.{ℕ, ◌<◌, map, length, IfOk};
ghost use Rattle.cd_resolve.specs.Inner.Order.{AreRows, Ends, IsOrder};

use crate::search::Search;
use std::alloc::{AllocError, Global};

/// All numbers below the length of `links`, each once and after those that its row says it leads
/// to.
///
/// # Errors
///
/// Want of memory.
pub fn order(alloc: Global, links: &[Vec<usize>]) -> Result<Vec<usize>, AllocError>
    requires rows { AreRows (map (λ row. row.items) links.now) }
    requires ends { (number : ℕ) → number < length links.now
        → Ends (map (λ row. row.items) links.now) number }
    ensures { IfOk result (λ order. IsOrder (map (λ row. row.items) links.now) order.items) }
{
    let mut search = Search::new(alloc, links.len())?;
    for number in 0..links.len() {
        search.visit(links, number)?;
    }
    Ok(search.into_order())
}

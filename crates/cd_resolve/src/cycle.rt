//! Declared names that lead back to themselves by links.
ghost use Rattle.std.specs.Prelude.{◌≡◌, IfOk, map, true, ◌&&◌, not, slice_get};
ghost use Rattle.cd_resolve.specs.Inner.Cycles.{same_id, is_held, with_next, with_next_of};
ghost use Rattle.cd_resolve.specs.Inner.Cycles.{reached as reached_by, is_cyclic as is_cyclic_id};
ghost use Rattle.cd_resolve.specs.Inner.Cycles.{reported_cycle, cycles_reported};
ghost use Rattle.cd_resolve.specs.Inner.Ranks.{all_fall};
ghost use Rattle.cd_resolve.specs.Inner.PlainFound.{plain_id, plain_link};
ghost use Rattle.cd_resolve.specs.PlainReported.{plain_reported};

use crate::compare::is_same;
use crate::fault::NameFault;
use crate::found::{Id, Link};
use crate::ranks::Ranks;
use crate::reported::Reported;
use std::alloc::{AllocError, Global};

// Whether both are one declared name.
fn is_one(one: &Id<'_>, other: &Id<'_>) -> bool
    ensures { result ≡ same_id (plain_id one.now) (plain_id other.now) }
{
    one.list == other.list && is_same(one.name, other.name)
}

// Whether the declared name is one of these.
fn holds(ids: &[Id<'_>], id: &Id<'_>) -> bool
    ensures { result ≡ is_held (map plain_id ids.now) (plain_id id.now) }
{
    for other in ids {
        if is_one(id, other) {
            return true;
        }
    }
    false
}

// Adds those that a declared name leads to by one link, each once.
fn add_next<'t>(links: &[Link<'t>], id: &Id<'t>, seen: &mut Vec<Id<'t>>) -> Result<(), AllocError>
    ensures { IfOk result (λ _.
        map plain_id seen.new.items
        ≡ with_next (map plain_link links.now) (plain_id id.now) (map plain_id seen.old.items)) }
{
    for link in links {
        if is_next(link, id, seen.as_slice()) {
            seen.push(link.to)?;
        }
    }
    Ok(())
}

// Whether the link leads from the declared name to one that is not seen.
fn is_next(link: &Link<'_>, id: &Id<'_>, seen: &[Id<'_>]) -> bool
    ensures { result ≡ (same_id (plain_link link.now).start (plain_id id.now)
        && not (is_held (map plain_id seen.now) (plain_link link.now).to)) }
{
    is_one(&link.start, id) && !holds(seen, &link.to)
}

// Those that a declared name leads to.
fn reached<'t>(alloc: Global, links: &[Link<'t>], id: &Id<'t>) -> Result<Vec<Id<'t>>, AllocError>
    ensures { IfOk result (λ seen.
        map plain_id seen.items ≡ reached_by (map plain_link links.now) (plain_id id.now)) }
{
    let mut seen = Vec::new(alloc);
    add_next(links, id, &mut seen)?;
    for index in 0..links.len() {
        add_next_of(links, index, &mut seen)?;
    }
    Ok(seen)
}

// Adds those that the one with this number leads to by one link, if there is one.
fn add_next_of<'t>(
    links: &[Link<'t>],
    index: usize,
    seen: &mut Vec<Id<'t>>,
) -> Result<(), AllocError>
    ensures { IfOk result (λ _.
        map plain_id seen.new.items
        ≡ with_next_of (map plain_link links.now) (slice_get (map plain_id seen.old.items) index)
        (map plain_id seen.old.items)) }
{
    if index < seen.len() {
        let next = seen[index];
        return add_next(links, &next, seen);
    }
    Ok(())
}

// Whether a declared name leads back to itself.
fn is_cyclic<'t>(alloc: Global, links: &[Link<'t>], id: &Id<'t>) -> Result<bool, AllocError>
    ensures { IfOk result (λ found.
        found ≡ is_cyclic_id (map plain_link links.now) (plain_id id.now)) }
{
    let seen = reached(alloc, links, id)?;
    Ok(holds(seen.as_slice(), id))
}

// The same, found at once for a name that has a rank.
fn leads_back<'t>(
    alloc: Global,
    links: &[Link<'t>],
    ranks: &Ranks<'_>,
    id: &Id<'t>,
) -> Result<bool, AllocError>
    requires { all_fall ranks.now (map plain_link links.now) ≡ true }
    ensures { IfOk result (λ found.
        found ≡ is_cyclic_id (map plain_link links.now) (plain_id id.now)) }
{
    if ranks.rank(id.name).is_some() {
        return Ok(false);
    }
    is_cyclic(alloc, links, id)
}

/// Reports the names that lead back to themselves.
pub(crate) fn report_cycles<'t>(
    alloc: Global,
    links: &[Link<'t>],
    faults: &mut Vec<Reported<'t>>,
) -> Result<(), AllocError>
    ensures { IfOk result (λ _.
        map plain_reported faults.new.items
        ≡ cycles_reported (map plain_link links.now) (map plain_link links.now)
        (map plain_reported faults.old.items)) }
{
    let ranks = Ranks::of(alloc, links)?;
    for link in links {
        let found = leads_back(alloc, links, &ranks, &link.to)?;
        report_cycle(found, link, faults)?;
    }
    Ok(())
}

// Reports the name that a link leads to, if it leads back to itself.
fn report_cycle<'t>(
    found: bool,
    link: &Link<'t>,
    faults: &mut Vec<Reported<'t>>,
) -> Result<(), AllocError>
    ensures { IfOk result (λ _.
        map plain_reported faults.new.items
        ≡ reported_cycle found (plain_link link.now) (map plain_reported faults.old.items)) }
{
    if found {
        faults.push(Reported {
            fault: NameFault::Unguarded,
            name: Some(link.to.name),
            at: link.at,
        })?;
    }
    Ok(())
}

//! An order of names in which each comes after those that it leads to. Nothing is claimed of it
//! here: the ranks that it gives are looked at link by link before they are used.
use crate::found::Link;
use crate::name_index::NameIndex;
use std::alloc::{AllocError, Global};

// Of each place of a name, how many links lead from it that are not taken away, and from which
// places links lead to it.
#[derive(Drop)]
struct Places {
    open: Vec<usize>,
    before: Vec<Vec<usize>>,
}

impl Places {
    // One place more, with no links.
    fn add(&mut self, alloc: Global) -> Result<(), AllocError> {
        self.open.push(0)?;
        self.before.push(Vec::new(alloc))?;
        Ok(())
    }

    // A link between two places.
    fn join(&mut self, start: usize, to: usize) -> Result<(), AllocError> {
        if start < self.open.len() && to < self.before.len() {
            self.open[start] = self.open[start].saturating_add(1);
            self.before[to].push(start)?;
        }
        Ok(())
    }
}

/// The names of links, and the rank at each of their places, if it has one. A name that leads to
/// one which leads back to itself has none.
pub(crate) fn ranked<'t>(
    alloc: Global,
    links: &[Link<'t>],
) -> Result<(NameIndex<'t>, Vec<Option<usize>>), AllocError> {
    let names = names_of(alloc, links)?;
    let places = places_of(alloc, &names, links)?;
    let ranks = ranks_in(alloc, places)?;
    Ok((names, ranks))
}

// The names that links lead from and to.
fn names_of<'t>(alloc: Global, links: &[Link<'t>]) -> Result<NameIndex<'t>, AllocError> {
    let mut names = NameIndex::new(alloc);
    for link in links {
        names.add(link.start.name)?;
        names.add(link.to.name)?;
    }
    Ok(names)
}

// The places of these names, and the links between them.
fn places_of(
    alloc: Global,
    names: &NameIndex<'_>,
    links: &[Link<'_>],
) -> Result<Places, AllocError> {
    let mut places = Places {
        open: Vec::new(alloc),
        before: Vec::new(alloc),
    };
    for _ in links {
        places.add(alloc)?;
        places.add(alloc)?;
    }
    for link in links {
        let start = names.find(link.start.name);
        let to = names.find(link.to.name);
        if let (Some(start), Some(to)) = (start, to) {
            places.join(start, to)?;
        }
    }
    Ok(places)
}

// The rank of each place: first those that no link leads from, and then those that no link leads
// from once the links to earlier ones are taken away.
fn ranks_in(alloc: Global, places: Places) -> Result<Vec<Option<usize>>, AllocError> {
    let Places { mut open, before } = places;
    let mut order = free(alloc, open.as_slice())?;
    for next in 0..usize::MAX {
        let Some(place) = order.get(next).copied() else {
            break;
        };
        if let Some(starts) = before.get(place) {
            close(starts.as_slice(), &mut open, &mut order)?;
        }
    }
    numbered(alloc, open.len(), order.as_slice())
}

// The places that no link leads from.
fn free(alloc: Global, open: &[usize]) -> Result<Vec<usize>, AllocError> {
    let mut free = Vec::new(alloc);
    for place in 0..open.len() {
        if open[place] == 0 {
            free.push(place)?;
        }
    }
    Ok(free)
}

// Takes one link away from each of these places, and adds those to the order that no link leads
// from then.
fn close(
    starts: &[usize],
    open: &mut Vec<usize>,
    order: &mut Vec<usize>,
) -> Result<(), AllocError> {
    for start in starts {
        if take(open, *start) {
            order.push(*start)?;
        }
    }
    Ok(())
}

// Takes a link from a place away, and says whether none is left.
fn take(open: &mut Vec<usize>, place: usize) -> bool {
    if place < open.len() {
        open[place] = open[place].saturating_sub(1);
        return open[place] == 0;
    }
    false
}

// The number of each of so many places in the order.
fn numbered(
    alloc: Global,
    count: usize,
    order: &[usize],
) -> Result<Vec<Option<usize>>, AllocError> {
    let mut ranks = vec![in alloc; None; count]?;
    for rank in 0..order.len() {
        let place = order[rank];
        if place < ranks.len() {
            ranks[place] = Some(rank);
        }
    }
    Ok(ranks)
}

//! Ranks of names, with which links are distinguished that no name leads back to itself by.
ghost use Rattle.std.specs.Prelude.{◌≡◌, IfOk, map, true, []};
ghost use Rattle.cd_resolve.specs.Inner.Ranks.{rank_of, link_falls, all_fall as all_links_fall};
ghost use Rattle.cd_resolve.specs.Inner.PlainFound.{plain_link};

use crate::found::Link;
use crate::name_index::NameIndex;
use crate::order::ranked;
use cd_syntax::name::Name;
use std::alloc::{AllocError, Global};

/// Names, and the rank at the first place of each, if it has one.
#[derive(Drop)]
pub(crate) struct Ranks<'t> {
    names: NameIndex<'t>,
    ranks: Vec<Option<usize>>,
}

impl<'t> Ranks<'t> {
    /// Ranks with which all of these links fall. A name that leads to one which leads back to
    /// itself has none.
    pub(crate) fn of(alloc: Global, links: &[Link<'t>]) -> Result<Ranks<'t>, AllocError>
        ensures { IfOk result (λ ranks. all_links_fall ranks (map plain_link links.now) ≡ true) }
    {
        let (names, ranks) = ranked(alloc, links)?;
        let ranks = Ranks { names, ranks };
        if ranks.all_fall(links) {
            return Ok(ranks);
        }
        Ok(Ranks::none(alloc))
    }

    // No ranks.
    fn none(alloc: Global) -> Ranks<'t>
        ensures { result.ranks.items ≡ [] }
    {
        Ranks {
            names: NameIndex::new(alloc),
            ranks: Vec::new(alloc),
        }
    }

    /// The rank of a name, if it has one.
    pub(crate) fn rank(&self, name: &Name) -> Option<usize>
        ensures { result ≡ rank_of self.now name.now }
    {
        let place = self.names.find(name)?;
        let rank = self.ranks.get(place)?;
        *rank
    }

    // Whether all of these links lead from names with a rank to ones with a lesser rank, or from
    // names with none.
    fn all_fall(&self, links: &[Link<'_>]) -> bool
        ensures { result ≡ all_links_fall self.now (map plain_link links.now) }
    {
        for link in links {
            if !self.falls(link) {
                return false;
            }
        }
        true
    }

    fn falls(&self, link: &Link<'_>) -> bool
        ensures { result ≡ link_falls self.now (plain_link link.now) }
    {
        let Some(start) = self.rank(link.start.name) else {
            return true;
        };
        let Some(to) = self.rank(link.to.name) else {
            return false;
        };
        to < start
    }
}

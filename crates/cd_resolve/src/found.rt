//! What a walk over a tree finds.
ghost use Rattle.std.specs.Prelude.{◌≡◌, IfOk, length, []};
ghost use Rattle.cd_syntax.specs.PlainTree.{plain_declarations};
ghost use Rattle.cd_resolve.specs.Inner.Finding.{reported, reported_if, entered, linked, met};
ghost use Rattle.cd_resolve.specs.Inner.Finding.{start_of as start_of_declared};
ghost use Rattle.cd_resolve.specs.Inner.PlainFound.{plain_id, plain_start, plain_declared_at};
ghost use Rattle.cd_resolve.specs.Inner.PlainFound.{plain_found};

use crate::fault::NameFault;
use crate::reported::Reported;
use cd_syntax::name::Name;
use cd_syntax::type_tree::Declarations;
use std::alloc::{AllocError, Global};

/// A declared name: the first of its name in the list of this number.
#[derive(Clone, Copy)]
pub(crate) struct Id<'t> {
    pub(crate) list: usize,
    pub(crate) name: &'t Name,
}

/// One declared name leads to another, which is declared at this place.
#[derive(Clone, Copy)]
pub(crate) struct Link<'t> {
    pub(crate) start: Id<'t>,
    pub(crate) to: Id<'t>,
    pub(crate) at: usize,
}

/// Where a name is declared: the number of the list, and the place.
#[derive(Clone, Copy)]
pub(crate) struct DeclaredAt {
    pub(crate) list: usize,
    pub(crate) at: usize,
}

/// The faults so far, the lists of declarations, and the links between declared names.
#[derive(Drop)]
pub(crate) struct Found<'t> {
    pub(crate) faults: Vec<Reported<'t>>,
    pub(crate) lists: Vec<&'t Declarations>,
    pub(crate) links: Vec<Link<'t>>,
}

impl<'t> Found<'t> {
    /// Nothing.
    pub(crate) fn new(alloc: Global) -> Found<'t>
        ensures { plain_found result ≡ record { faults = []; lists = []; links = [] } }
    {
        Found {
            faults: Vec::new(alloc),
            lists: Vec::new(alloc),
            links: Vec::new(alloc),
        }
    }

    /// Reports a fault.
    pub(crate) fn report(
        &mut self,
        fault: NameFault,
        name: &'t Name,
        at: usize,
    ) -> Result<(), AllocError>
        ensures { IfOk result (λ _.
            plain_found self.new ≡ reported fault name.now at (plain_found self.old)) }
    {
        self.faults.push(Reported {
            fault,
            name: Some(name),
            at,
        })?;
        Ok(())
    }

    /// Reports a name that stands twice, if it does.
    pub(crate) fn report_twice(
        &mut self,
        twice: bool,
        name: &'t Name,
        at: usize,
    ) -> Result<(), AllocError>
        ensures { IfOk result (λ _.
            plain_found self.new ≡ reported_if twice name.now at (plain_found self.old)) }
    {
        if twice {
            return self.report(NameFault::Twice, name, at);
        }
        Ok(())
    }

    /// Enters a list of declarations, and gives its number.
    pub(crate) fn enter(&mut self, declarations: &'t Declarations) -> Result<usize, AllocError>
        ensures { IfOk result (λ list. (list ≡ length (plain_found self.old).lists)
            × (plain_found self.new ≡ entered (plain_declarations declarations.now)
            (plain_found self.old))) }
    {
        let list = self.lists.len();
        self.lists.push(declarations)?;
        Ok(list)
    }

    /// A name is met at a place, in the tree of a declared name and under no constructor, if that
    /// is given.
    pub(crate) fn meet(
        &mut self,
        start: Option<Id<'t>>,
        name: &'t Name,
        at: usize,
        declared_at: Option<DeclaredAt>,
    ) -> Result<(), AllocError>
        ensures { IfOk result (λ _.
            plain_found self.new
            ≡ met (plain_start start.entry) name.now at (plain_declared_at declared_at)
            (plain_found self.old)) }
    {
        let Some(declared_at) = declared_at else {
            return self.report(NameFault::Unknown, name, at);
        };
        let Some(start) = start else {
            return Ok(());
        };
        self.link(start, declared_at, name)
    }

    fn link(
        &mut self,
        start: Id<'t>,
        declared_at: DeclaredAt,
        name: &'t Name,
    ) -> Result<(), AllocError>
        ensures { IfOk result (λ _.
            plain_found self.new ≡ linked (plain_id start.entry)
            (record { list = declared_at.list; name = name.now }) declared_at.at
            (plain_found self.old)) }
    {
        let to = Id {
            list: declared_at.list,
            name,
        };
        self.links.push(Link {
            start,
            to,
            at: declared_at.at,
        })?;
        Ok(())
    }
}

/// The declared name whose tree is walked over. A name that is declared again leads nowhere, since
/// uses mean the first.
pub(crate) fn start_of<'t>(again: bool, list: usize, name: &'t Name) -> Option<Id<'t>>
    ensures { plain_start result ≡ start_of_declared again list name.now }
{
    if again {
        return None;
    }
    Some(Id { list, name })
}

//! What a walk over a program finds.
ghost use Rattle.std.specs.Prelude.{◌≡◌, IfOk, []};
ghost use Rattle.cd_syntax.specs.PlainTree.{plain as plain_tree};
ghost use Rattle.cd_resolve.specs.declared.fault.NameFault.TheVariants.{NoMain};
ghost use Rattle.cd_names.specs.Inner.FindingInPrograms.{nothing, reported, reported_if, met};
ghost use Rattle.cd_names.specs.Inner.FindingInPrograms.{with_tree};
ghost use Rattle.cd_names.specs.Inner.PlainFound.{plain_found};

use cd_resolve::fault::NameFault;
use cd_resolve::reported::Reported;
use cd_syntax::name::Name;
use cd_syntax::type_tree::Tree;
use std::alloc::{AllocError, Global};

/// The faults of names and variables, and the trees whose types are to be looked at.
#[derive(Drop)]
pub(crate) struct Found<'t> {
    pub(crate) faults: Vec<Reported<'t>>,
    pub(crate) trees: Vec<&'t Tree>,
}

impl<'t> Found<'t> {
    /// Nothing.
    pub(crate) fn new(alloc: Global) -> Found<'t>
        ensures { plain_found result ≡ nothing }
    {
        Found {
            faults: Vec::new(alloc),
            trees: Vec::new(alloc),
        }
    }

    /// Reports a fault of a name.
    pub(crate) fn report(
        &mut self,
        fault: NameFault,
        name: &'t Name,
        at: usize,
    ) -> Result<(), AllocError>
        ensures { IfOk result (λ _.
            plain_found self.new ≡ reported fault name.now at (plain_found self.old)) }
    {
        self.faults.push(Reported {
            fault,
            name: Some(name),
            at,
        })?;
        Ok(())
    }

    /// Reports a name that stands again, if it does.
    pub(crate) fn report_twice(
        &mut self,
        again: bool,
        name: &'t Name,
        at: usize,
    ) -> Result<(), AllocError>
        ensures { IfOk result (λ _.
            plain_found self.new ≡ reported_if again name.now at (plain_found self.old)) }
    {
        if again {
            return self.report(NameFault::Twice, name, at);
        }
        Ok(())
    }

    /// Reports a name that is met, unless it is seen.
    pub(crate) fn meet(&mut self, seen: bool, name: &'t Name, at: usize) -> Result<(), AllocError>
        ensures { IfOk result (λ _.
            plain_found self.new ≡ met seen name.now at (plain_found self.old)) }
    {
        if seen {
            return Ok(());
        }
        self.report(NameFault::Unknown, name, at)
    }

    /// Reports that no function `main` is declared.
    pub(crate) fn report_no_main(&mut self, at: usize) -> Result<(), AllocError>
        ensures { IfOk result (λ _.
            plain_found self.new ≡ reported NoMain [] at (plain_found self.old)) }
    {
        self.faults.push(Reported {
            fault: NameFault::NoMain,
            name: None,
            at,
        })?;
        Ok(())
    }

    /// Keeps a tree whose types are to be looked at.
    pub(crate) fn add_tree(&mut self, tree: &'t Tree) -> Result<(), AllocError>
        ensures { IfOk result (λ _.
            plain_found self.new ≡ with_tree (plain_tree tree.now) (plain_found self.old)) }
    {
        self.trees.push(tree)?;
        Ok(())
    }
}

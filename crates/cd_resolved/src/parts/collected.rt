//! What a walk over a program collects.
ghost use Rattle.std.specs.Prelude.{◌≡◌, OnOk};
ghost use Rattle.cd_syntax.specs.PlainTree.{plain as plain_tree};
ghost use Rattle.cd_program.specs.PlainExpr.{plain_function};
ghost use Rattle.cd_resolved.specs.PlainSite.{plain_site};
ghost use Rattle.cd_resolved.specs.Inner.Collecting.{nothing, with_function, with_pattern};
ghost use Rattle.cd_resolved.specs.Inner.Collecting.{with_site};
ghost use Rattle.cd_resolved.specs.Inner.PlainParts.{plain_parts};

use crate::site_tree::SiteTree;
use cd_program::expr::FunctionTree;
use cd_syntax::type_tree::Tree;
use std::alloc::{AllocError, Global};

/// Functions, patterns and sites of a program.
#[derive(Drop)]
pub struct Parts<'p> {
    /// The functions: those that are declared, and then those that stand in others.
    pub functions: Vec<&'p FunctionTree>,
    /// The patterns, in the order of the text.
    pub patterns: Vec<&'p Tree>,
    /// The sites, a form before its parts.
    pub sites: Vec<SiteTree<'p>>,
}

impl<'p> Parts<'p> {
    /// None.
    pub(crate) fn new(alloc: Global) -> Parts<'p>
        ensures { plain_parts result ≡ nothing }
    {
        Parts {
            functions: Vec::new(alloc),
            patterns: Vec::new(alloc),
            sites: Vec::new(alloc),
        }
    }

    /// Adds a function.
    pub(crate) fn add_function(&mut self, function: &'p FunctionTree) -> Result<(), AllocError>
        ensures { OnOk result (plain_parts self.new
            ≡ with_function (plain_function function.now) (plain_parts self.old)) }
    {
        self.functions.push(function)?;
        Ok(())
    }

    /// Adds a pattern.
    pub(crate) fn add_pattern(&mut self, pattern: &'p Tree) -> Result<(), AllocError>
        ensures { OnOk result (plain_parts self.new
            ≡ with_pattern (plain_tree pattern.now) (plain_parts self.old)) }
    {
        self.patterns.push(pattern)?;
        Ok(())
    }

    /// Adds a site.
    pub(crate) fn add_site(&mut self, site: SiteTree<'p>) -> Result<(), AllocError>
        ensures { OnOk result (plain_parts self.new
            ≡ with_site (plain_site site.entry) (plain_parts self.old)) }
    {
        self.sites.push(site)?;
        Ok(())
    }
}

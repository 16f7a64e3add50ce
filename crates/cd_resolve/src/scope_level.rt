//! A scope level: a list of declarations that a tree stands under.
ghost use Rattle.std.specs.Prelude.{◌≡◌, IfOk};
ghost use Rattle.cd_syntax.specs.PlainTree.{plain_declarations};
ghost use Rattle.cd_resolve.specs.Inner.NamesDeclared.{names_in};

use crate::declarations::declared_names;
use crate::name_index::NameIndex;
use cd_syntax::name::Name;
use cd_syntax::type_tree::Declarations;
use std::alloc::{AllocError, Global};
use std::rc::Rc;

/// A list of declarations, its names in their order, the number of the node of its first name,
/// and its own number among the lists. The nodes of the other names follow.
#[derive(Drop)]
pub(crate) struct ScopeLevel<'t> {
    pub(crate) declarations: &'t Declarations,
    pub(crate) names: Rc<NameIndex<'t>>,
    pub(crate) first: usize,
    pub(crate) list: usize,
    ghost indexed: { names.value ≡ names_in (plain_declarations declarations.now) },
}

/// A declaration of a list: its place there, counted from zero, and where it stands.
#[derive(Clone, Copy)]
pub(crate) struct Spot {
    pub(crate) index: usize,
    pub(crate) at: usize,
}

impl<'t> ScopeLevel<'t> {
    ghost use Rattle.std.specs.Prelude.{take};
    ghost use Rattle.std.specs.Option.{option_map};
    ghost use Rattle.cd_resolve.specs.Named.{index_in};
    ghost use Rattle.cd_resolve.specs.Inner.BuiltinNames.{is_among};
    ghost use Rattle.cd_resolve.specs.Inner.Finding.{place_in};
    ghost use Rattle.cd_resolve.specs.Inner.PlainFound.{list_level};
    ghost use Rattle.cd_resolve.specs.Inner.PlainState.{plain_level};

    /// The level of this list, whose first name has the node of this number.
    pub(crate) fn of(
        alloc: Global,
        declarations: &'t Declarations,
        first: usize,
        list: usize,
    ) -> Result<ScopeLevel<'t>, AllocError>
        ensures nodes { IfOk result (λ level.
            plain_level level ≡ record {
              declarations = plain_declarations declarations.now;
              first = first;
            }) }
        ensures list { IfOk result (λ level.
            list_level level ≡ record {
              declarations = plain_declarations declarations.now;
              list = list;
            }) }
    {
        let names = declared_names(alloc, declarations)?;
        let names = Rc::new(alloc, names)?;
        Ok(ScopeLevel {
            declarations,
            names,
            first,
            list,
        })
    }

    /// The same level.
    pub(crate) fn copy(&self) -> Result<ScopeLevel<'t>, AllocError>
        ensures nodes { IfOk result (λ level. plain_level level ≡ plain_level self.now) }
        ensures list { IfOk result (λ level. list_level level ≡ list_level self.now) }
    {
        let names = self.names.clone()?;
        Ok(ScopeLevel {
            declarations: self.declarations,
            names,
            first: self.first,
            list: self.list,
        })
    }

    /// The first of its declarations that has a name.
    pub(crate) fn find(&self, name: &Name) -> Option<Spot>
        ensures index { option_map (λ spot. spot.index) result
            ≡ index_in (plain_level self.now).declarations name.now }
        ensures place { option_map (λ spot. spot.at) result
            ≡ place_in (list_level self.now).declarations name.now }
    {
        let index = self.names.as_ref().find(name)?;
        let declaration = self.declarations.items().get(index)?;
        let at = declaration.at;
        Some(Spot { index, at })
    }

    /// Whether one of its first so many declarations has a name.
    pub(crate) fn declares_before(&self, count: usize, name: &Name) -> bool
        ensures { result ≡ is_among
            (take count (names_in (plain_declarations self.now.declarations.now))) name.now }
    {
        match self.names.as_ref().find(name) {
            Some(place) => place < count,
            None => false,
        }
    }
}

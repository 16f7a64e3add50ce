//! The variables that an expression sees.
ghost use Rattle.std.specs.Prelude.{◌≡◌, List, [], ◌∷◌, ◌++◌, map, length, reverse, bytes_eq};
ghost use Rattle.std.specs.Prelude.{OnOk};
ghost use Rattle.std.specs.List.{list_any};
ghost use Rattle.cd_syntax.specs.Name.{Name as AName};
ghost use Rattle.cd_variables.specs.PlainOccurrences.{occurring};

use cd_syntax::name::Name;
use cd_variables::occurrence::Occurrence;
use std::alloc::{AllocError, Global};
use std::marker::Model;

/// The names of variables that are seen. A contract sees them in a list, from the one that was
/// entered last on.
#[derive(Drop)]
pub(crate) struct Locals<'t> {
    names: Vec<&'t Name>,
}

impl<'t> Model for Locals<'t> {
    ghost use Rattle.std.specs.Prelude.{List, map, reverse};
    ghost use Rattle.cd_syntax.specs.Name.{Name as AName};

    ghost Value = { List AName };

    ghost view = { λ locals. reverse (map (λ name. name.now) locals.names.items) };
}

impl<'t> Locals<'t> {
    /// No names.
    pub(crate) fn new(alloc: Global) -> Locals<'t>
        ensures { result ≡ [] }
    {
        Locals {
            names: Vec::new(alloc),
        }
    }

    /// How many names there are.
    pub(crate) fn len(&self) -> usize
        ensures { result ≡ length self.now }
    {
        self.names.len()
    }

    /// Whether a name is among them.
    pub(crate) fn has(&self, name: &Name) -> bool
        ensures { result ≡ list_any (bytes_eq name.now) self.now }
    {
        is_one(self.names.as_slice(), name)
    }

    /// Enters a name.
    pub(crate) fn enter(&mut self, name: &'t Name) -> Result<(), AllocError>
        ensures { OnOk result (self.new ≡ name.now ∷ self.old) }
    {
        self.names.push(name)?;
        Ok(())
    }

    /// Enters the names of occurrences, so that the first of them is entered last.
    pub(crate) fn enter_all(&mut self, all: Vec<Occurrence<'t>>) -> Result<(), AllocError>
        ensures { OnOk result (self.new ≡ map occurring all.entry.items ++ self.old) }
    {
        let mut left = all;
        while let Some(one) = left.pop() {
            self.enter(one.name)?;
        }
        Ok(())
    }

    /// Takes names away that were entered last, until so many are left.
    pub(crate) fn cut(&mut self, count: usize)
        ensures { (above below : List AName) → self.old ≡ above ++ below → count ≡ length below
            → self.new ≡ below }
    {
        self.names.truncate(count);
    }
}

fn is_one(names: &[&Name], name: &Name) -> bool
    ensures { result ≡ list_any (λ local. bytes_eq name.now local.now) (reverse names.now) }
{
    names.iter().rev().any(|local| name == *local)
}

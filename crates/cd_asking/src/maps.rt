//! Which arrows the closures of functions are in.
ghost use Rattle.std.specs.Prelude.{◌≡◌, [], ℕ, Option, IfOk, OnErr};
ghost use Rattle.cd_asking.specs.MappedArrows.{maps_at, has_entry, is_listed};
ghost use Rattle.cd_asking.specs.MappedArrows.{AddsEntry, Lists};

use crate::mapped::Mapped;
use cd_sets::node_id::NodeId;
use indexmap::IndexSet;
use std::alloc::{AllocError, Global};
use std::marker::Model;

/// Which arrows the closures of functions are in. Functions are listed by their numbers, and each
/// entry is of a listed function or of all others. A contract sees both lists.
#[derive(Drop)]
pub struct Maps {
    functions: IndexSet<usize>,
    entries: IndexSet<Mapped>,
}

impl Model for Maps {
    ghost use Rattle.cd_asking.specs.Mappings.{Mappings, mappings_code};

    ghost Value = { Mappings };

    ghost coded = { mappings_code };

    ghost view = { λ maps. record {
      functions = maps.functions.keys;
      entries = maps.entries.keys;
    } };
}

impl Maps {
    /// No function is listed, and no closure is in an arrow.
    pub fn new(alloc: Global) -> Maps
        ensures { result ≡ record { functions = []; entries = [] } }
    {
        Maps {
            functions: IndexSet::new(alloc),
            entries: IndexSet::new(alloc),
        }
    }

    /// Lists a function: from now on its closures are in the arrows of its own entries alone.
    ///
    /// # Errors
    ///
    /// Want of memory. Then nothing is listed.
    pub fn list(&mut self, function: usize) -> Result<(), AllocError>
        ensures listed { IfOk result (λ _. Lists function self.old self.new) }
        ensures kept { OnErr result (self.new ≡ self.old) }
    {
        self.functions.insert(function)?;
        Ok(())
    }

    /// Whether a function is listed.
    pub fn lists(&self, function: usize) -> bool
        ensures { result ≡ is_listed self.now function }
    {
        self.functions.contains(&function)
    }

    /// The closures of a listed function, or of all functions that are not listed, are in the arrow
    /// of these nodes, from now on.
    ///
    /// # Errors
    ///
    /// Want of memory. Then nothing is added.
    pub fn add(
        &mut self,
        function: Option<usize>,
        from: NodeId,
        to: NodeId,
    ) -> Result<(), AllocError>
        ensures added { IfOk result (λ _. AddsEntry
            (record { function = function; argument = from; result = to }) self.old self.new) }
        ensures kept { OnErr result (self.new ≡ self.old) }
    {
        self.entries.insert(Mapped {
            function,
            argument: from,
            result: to,
        })?;
        Ok(())
    }

    /// Whether the closures of a function are in the arrow of these nodes.
    pub fn holds(&self, function: usize, from: NodeId, to: NodeId) -> bool
        ensures { result ≡ maps_at self.now function from to }
    {
        let function = if self.lists(function) {
            Some(function)
        } else {
            None
        };
        self.has(Mapped {
            function,
            argument: from,
            result: to,
        })
    }

    // Whether there is this entry.
    fn has(&self, one: Mapped) -> bool
        ensures { result ≡ has_entry self.now one }
    {
        self.entries.contains(&one)
    }
}

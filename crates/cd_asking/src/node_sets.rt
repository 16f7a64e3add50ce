//! Sets of nodes, each once.
ghost use Rattle.std.specs.Prelude.{◌≡◌, ◌<◌, [], length, IfOk};
ghost use Rattle.cd_asking.specs.Inner.Asked.{set_at, AddsOnly, Grow};

use cd_sets::node_id::NodeId;
use indexmap::IndexSet;
use std::alloc::{AllocError, Global};
use std::marker::Model;

/// The number of a set of nodes.
#[derive(Clone, Copy, PartialEq, Eq, Hash)]
pub(crate) struct SetId(pub(crate) u32);

/// Sets of nodes, each once, under the numbers of their places. A contract sees them in a list.
#[derive(Drop)]
pub(crate) struct NodeSets {
    sets: IndexSet<Vec<NodeId>>,
}

impl Model for NodeSets {
    ghost use Rattle.std.specs.Prelude.{List, map};
    ghost use Rattle.cd_sets.specs.declared.node_id.NodeId.{NodeId as AnId};

    ghost Value = { List (List AnId) };

    ghost view = { λ table. map (λ set. set.items) table.sets.keys };
}

impl NodeSets {
    /// No sets.
    pub(crate) fn new(alloc: Global) -> NodeSets
        ensures { result ≡ [] }
    {
        NodeSets {
            sets: IndexSet::new(alloc),
        }
    }

    /// The number of a set, which is added as the last one if it is not there.
    pub(crate) fn number(&mut self, ids: &[NodeId]) -> Result<SetId, AllocError>
        ensures found { IfOk result (λ id. set_at self.new id ≡ ids.now) }
        ensures within { IfOk result (λ id. id.0 < length self.new) }
        ensures adds { AddsOnly ids.now self.old self.new }
        ensures grows { Grow self.old self.new }
    {
        if let Some(number) = self.sets.get_index_of(ids) {
            return small(number);
        }
        let owned = Vec::from_slice(*self.sets.allocator(), ids)?;
        let (number, _) = self.sets.insert_full(owned)?;
        small(number)
    }

    /// The set of a number; a number that has none stands for the empty set.
    pub(crate) fn get(&self, id: SetId) -> &[NodeId]
        ensures { result.now ≡ set_at self.now id }
    {
        match self.sets.get_index(id.0 as usize) {
            Some(set) => set.as_slice(),
            None => &[],
        }
    }

    /// What the sets take their memory from.
    pub(crate) fn allocator(&self) -> Global {
        *self.sets.allocator()
    }
}

// A number in 32 bits.
fn small(number: usize) -> Result<SetId, AllocError>
    ensures { IfOk result (λ id. id.0 ≡ number) }
{
    match u32::try_from(number) {
        Ok(number) => Ok(SetId(number)),
        Err(_) => Err(AllocError),
    }
}

//! The classes of nodes.
ghost use Rattle.std.specs.Prelude.{◌≡◌, IfOk, map};
ghost use Rattle.cd_sets.specs.declared.node_id.NodeId.{NodeId as AnId};
ghost use Rattle.cd_shared.specs.Shared.{class_in};

use cd_sets::node_id::NodeId;
use std::alloc::{AllocError, Global};

/// The class of each node, which is a node that holds the same.
#[derive(Drop)]
pub struct Classes {
    // The number of the first node that may have another class than itself, and the classes of the
    // nodes from there on.
    pub(crate) first: usize,
    pub(crate) ids: Vec<NodeId>,
}

impl Classes {
    /// Each node is a class of its own.
    pub(crate) fn none(alloc: Global) -> Classes
        ensures { (id : AnId) → class_in result id ≡ id }
    {
        Classes {
            first: 0,
            ids: Vec::new(alloc),
        }
    }

    /// The class of a node.
    pub fn class(&self, id: NodeId) -> NodeId
        ensures { result ≡ class_in self.now id }
    {
        if self.first <= id.0 {
            self.ids.get(id.0 - self.first).copied().unwrap_or(id)
        } else {
            id
        }
    }

    /// The classes of nodes.
    pub fn classes_of(&self, alloc: Global, ids: &[NodeId]) -> Result<Vec<NodeId>, AllocError>
        ensures { IfOk result (λ classes. classes.items ≡ map (class_in self.now) ids.now) }
    {
        let mut classes = Vec::new(alloc);
        for id in ids {
            classes.push(self.class(*id))?;
        }
        Ok(classes)
    }
}

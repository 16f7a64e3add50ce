//! Sets of arrows.
ghost use Rattle.std.specs.Prelude.{◌≡◌, [], OnOk};
ghost use Rattle.cd_closures.specs.Inner.Collected.{with_arrow};

use crate::arrow::NodeArrow;
use indexmap::IndexSet;
use std::alloc::{AllocError, Global};
use std::marker::Model;

/// Arrows, each once, in the order in which they were added. A contract sees them in a list.
#[derive(Drop)]
pub(crate) struct Arrows {
    arrows: IndexSet<NodeArrow>,
}

impl Model for Arrows {
    ghost use Rattle.std.specs.Prelude.{List};
    ghost use Rattle.cd_closures.specs.declared.arrow.NodeArrow.{NodeArrow as AnArrow};

    ghost Value = { List AnArrow };

    ghost view = { λ arrows. arrows.arrows.keys };
}

impl Arrows {
    /// None.
    pub(crate) fn new(alloc: Global) -> Arrows
        ensures { result ≡ [] }
    {
        Arrows {
            arrows: IndexSet::new(alloc),
        }
    }

    /// Adds an arrow if it is not there.
    pub(crate) fn add(&mut self, arrow: NodeArrow) -> Result<(), AllocError>
        ensures { OnOk result (self.new ≡ with_arrow self.old arrow) }
    {
        self.arrows.insert(arrow)?;
        Ok(())
    }

    /// The arrows.
    pub(crate) fn as_slice(&self) -> &[NodeArrow]
        ensures { result.now ≡ self.now }
    {
        self.arrows.as_slice()
    }
}

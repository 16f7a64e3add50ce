//! Nodes that are used in turn.
ghost use Rattle.std.specs.Prelude.{◌≡◌};
ghost use Rattle.cd_patterns.specs.Inner.Types.{taken};

use cd_graph::built_in::EMPTY;
use cd_sets::node_id::NodeId;

/// The nodes that are left.
#[derive(Clone, Copy)]
pub(crate) struct Roots<'r> {
    pub(crate) left: &'r [NodeId],
}

impl Roots<'_> {
    /// The next one. After the last comes the node of what holds nothing.
    pub(crate) fn next(&mut self) -> NodeId
        ensures { (result, self.new.left.now) ≡ taken self.old.left.now }
    {
        match self.left {
            [] => EMPTY,
            [first, rest @ ..] => {
                let id = *first;
                self.left = rest;
                id
            }
        }
    }
}

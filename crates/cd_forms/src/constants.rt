ghost use Rattle.std.specs.Prelude.{◌≡◌, ◌<◌, length, IfOk, OnErr};
ghost use Rattle.cd_model.specs.Formula.{IsGraph};
ghost use Rattle.cd_model.specs.Thing.{IsElement};
ghost use Rattle.cd_matching.specs.Sequences.{thing_of};
ghost use Rattle.cd_meaning.specs.Sets.{◌⊆◌, elements_of};
ghost use Rattle.cd_empty.specs.Growth.{Grows};
ghost use Rattle.cd_empty.specs.Seen.{graph_of};

use crate::built_in::nil;
use crate::texts::text_before;
use cd_builders::{atom, character, integer, put};
use cd_empty::World;
use cd_sets::node_id::NodeId;
use cd_syntax::constant::Constant;
use std::alloc::{AllocError, Global};

/// A node that holds a constant alone. A text has a node for each of its characters, and one for
/// each different character.
///
/// # Errors
///
/// Want of memory. The graph stays as it was.
pub fn constant(alloc: Global, world: &mut World, constant: &Constant) -> Result<NodeId, AllocError>
    requires { IsElement (thing_of constant.now) }
    ensures has { IfOk result (λ id. (λ d. d ≡ thing_of constant.now)
        ⊆ elements_of (graph_of world.new) id) }
    ensures only { IfOk result (λ id. elements_of (graph_of world.new) id
        ⊆ (λ d. d ≡ thing_of constant.now)) }
    ensures node { IfOk result (λ id. id.0 < length (graph_of world.new)) }
    ensures unchanged { OnErr result (graph_of world.new ≡ graph_of world.old) }
    ensures sound { IsGraph (graph_of world.new) }
    ensures grows { Grows world.old world.new }
{
    let nil = nil(world);
    match constant {
        Constant::Int(n) => put(alloc, world, integer(alloc, *n)?),
        Constant::Char(c) => put(alloc, world, character(alloc, *c)?),
        Constant::Atom(name) => put(alloc, world, atom(alloc, name)?),
        Constant::Text(text) => text_before(alloc, world, text, nil),
        Constant::Nil => Ok(nil),
    }
}

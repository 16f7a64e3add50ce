//! Constants.
ghost use Rattle.std.specs.Prelude.{◌≡◌, ◌<◌, length, IfOk};
ghost use Rattle.cd_syntax.specs.WellMadePattern.{IsWellMadeConstant};
ghost use Rattle.cd_model.specs.Formula.{IsGraph};
ghost use Rattle.cd_model.specs.Thing.{IsElement};
ghost use Rattle.cd_matching.specs.Sequences.{thing_of};
ghost use Rattle.cd_meaning.specs.Sets.{◌⊆◌, elements_of};
ghost use Rattle.cd_empty.specs.Growth.{Grows};
ghost use Rattle.cd_empty.specs.Seen.{graph_of};

use cd_empty::World;
use cd_forms::constant;
use cd_sets::node_id::NodeId;
use cd_syntax::constant::Constant;
use std::alloc::{AllocError, Global};

/// A node that holds a constant.
pub(crate) fn constant_node(
    alloc: Global,
    world: &mut World,
    is: &Constant,
) -> Result<NodeId, AllocError>
    requires { IsWellMadeConstant is.now }
    ensures has { IfOk result (λ id. (λ d. d ≡ thing_of is.now)
        ⊆ elements_of (graph_of world.new) id) }
    ensures only { IfOk result (λ id. elements_of (graph_of world.new) id
        ⊆ (λ d. d ≡ thing_of is.now)) }
    ensures node { IfOk result (λ id. id.0 < length (graph_of world.new)) }
    ensures sound { IsGraph (graph_of world.new) }
    ensures grows { Grows world.old world.new }
{
    // The contract of this call says that the constant is an element.
    is_element(is);
    constant(alloc, world, is)
}

// A constant that is well made is an element, since numbers and characters are in their ranges.
fn is_element(constant: &Constant)
    requires { IsWellMadeConstant constant.now }
    ensures { IsElement (thing_of constant.now) }
{
    match constant {
        Constant::Int(n) => {
            let _number = *n;
        }
        Constant::Char(c) => {
            let _character = *c;
        }
        Constant::Text(text) => {
            let _text = text.as_str();
        }
        Constant::Atom(_) | Constant::Nil => {}
    }
}

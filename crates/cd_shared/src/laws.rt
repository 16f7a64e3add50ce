//! Laws. Each is the contract of a function that does nothing.
ghost use Rattle.std.specs.Prelude.{◌≡◌, ◌<◌, ◌++◌, ◌↔◌, Bool, length};
ghost use Rattle.cd_sets.specs.declared.node_id.NodeId.{NodeId};
ghost use Rattle.cd_model.specs.BuiltIns.{built_ins};
ghost use Rattle.cd_model.specs.Formula.{Graph, in_node};
ghost use Rattle.cd_model.specs.Interfaces.{Interfaces, value_in_node};
ghost use Rattle.cd_model.specs.StandsFor.{StandsFor};
ghost use Rattle.cd_model.specs.Thing.{Thing};
ghost use Rattle.cd_model.specs.Written.{Written};
ghost use Rattle.cd_shared.specs.Shared.{IsImage};

/// Two graphs have the same formulas, but for the classes of the nodes in them, and each node has
/// the formula of its class. Then nodes of one class hold the same elements and the same values, the
/// one in the first graph and the other in the second.
pub fn shared_nodes_hold_the_same()
    ensures elements { (class : NodeId → NodeId) (graph image : Graph) → IsImage class graph image
        → (e : Thing) (one other : NodeId) (answer : Bool) → class one ≡ class other
        → in_node graph e one answer ↔ in_node image e other answer }
    ensures values { (class : NodeId → NodeId) (graph image : Graph) → IsImage class graph image
        → (interfaces : Interfaces) (v : Thing) (one other : NodeId) (answer : Bool)
        → class one ≡ class other
        → value_in_node graph interfaces v one answer
        ↔ value_in_node image interfaces v other answer }
    ensures stand { (class : NodeId → NodeId) (graph image : Graph) → IsImage class graph image
        → (one other : NodeId) (type : Written) → class one ≡ class other
        → other.0 < length image → ((more : Graph) × (image ≡ built_ins ++ more))
        → StandsFor graph one type → StandsFor image other type }
{}

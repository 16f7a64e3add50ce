//! Laws.
ghost use Rattle.std.specs.Prelude.{◌≡◌, ◌<◌, ◌++◌, ℕ, Bool, List, length, Option, Some};
ghost use Rattle.cd_sets.specs.declared.node_id.NodeId.{NodeId};
ghost use Rattle.cd_sets.specs.declared.question.Question.{Question};
ghost use Rattle.cd_syntax.specs.Name.{Name};
ghost use Rattle.cd_model.specs.AllOf.{AllOf};
ghost use Rattle.cd_model.specs.BuiltIns.{built_ins};
ghost use Rattle.cd_model.specs.Formula.{Graph, IsGraph, formula_at, in_node, nodes};
ghost use Rattle.cd_model.specs.Interfaces.{Interfaces, admits, value_in_node};
ghost use Rattle.cd_model.specs.Thing.{Thing, IsElement, IsValue};
ghost use Rattle.cd_model.specs.Types.{no_closure, closure_maps};
ghost use Rattle.cd_matching.specs.Captures.{Captures};
ghost use Rattle.cd_matching.specs.Kernel.{Kernel, KernelNode, IsSoundNode, taken};
ghost use Rattle.cd_matching.specs.Pattern.{Pattern};
ghost use Rattle.cd_matching.specs.Takes.{ValueTakes};
ghost use Rattle.cd_products.specs.QuestionBoxes.{AreDecided, IsInhabited, DropsEmpty};
ghost use Rattle.cd_filter.specs.Accepting.{IsAcceptedFrom, place, place_of, AreRight, HoldsTaken};
ghost use Rattle.cd_filter.specs.Accepting.{AreAccepting};
ghost use Rattle.cd_filter.specs.Capturing.{AreSoundAndAccepted};
ghost use Rattle.cd_filter.specs.CapturedFormulas.{Entry, captured_formula, AreReached};
ghost use Rattle.cd_filter.specs.CapturedFormulas.{IsStepFormula};
ghost use Rattle.cd_filter.specs.CapturedNodes.{IsNodeOf, IsSolvedForElements, IsSolvedForValues};
ghost use Rattle.cd_filter.specs.CapturedNodes.{IsExactCapture, IsWideCapture};
ghost use Rattle.cd_filter.specs.Caught.{CapturedIsCaught, CaughtIsCaptured};
ghost use Rattle.cd_filter.specs.OfProgram.{AreOfProgram};
ghost use Rattle.cd_filter.specs.Table.{Place, Table, first_place};

/// The node of a kernel's root holds exactly what the kernel takes.
pub fn accepted_types_are_exact()
    ensures elements { (graph : Graph) (kernel : Kernel NodeId) (first : ℕ)
        → IsAcceptedFrom graph kernel first
        → HoldsTaken (in_node graph) IsElement first kernel (place first kernel.root) }
    ensures values { (graph : Graph) (interfaces : Interfaces) (kernel : Kernel NodeId) (first : ℕ)
        → IsAcceptedFrom graph kernel first
        → HoldsTaken (value_in_node graph interfaces) IsValue first kernel
        (place first kernel.root) }
{}

/// The node of each kernel node holds exactly what that takes.
pub fn nodes_accept()
    ensures elements { (graph : Graph) (kernel : Kernel NodeId) (first : ℕ)
        (test : NodeId → Thing → Bool) → IsAcceptedFrom graph kernel first
        → AreRight (in_node graph) IsElement first test
        → AreAccepting (in_node graph) IsElement test kernel.nodes (place_of kernel.nodes first) }
    ensures values { (graph : Graph) (interfaces : Interfaces) (kernel : Kernel NodeId) (first : ℕ)
        (test : NodeId → Thing → Bool) → IsAcceptedFrom graph kernel first
        → AreRight (value_in_node graph interfaces) IsValue first test
        → AreAccepting (value_in_node graph interfaces) IsValue test kernel.nodes
        (place_of kernel.nodes first) }
{}

/// What variables capture at a place is caught by the steps of a whole table.
pub fn tables_are_enough()
    ensures elements { (graph : Graph) (test : NodeId → Thing → Bool)
        (nodes : List (KernelNode NodeId)) (accepts : ℕ → NodeId)
        → AreAccepting (in_node graph) IsElement test nodes accepts
        → CapturedIsCaught (in_node graph) IsElement test nodes accepts }
    ensures values { (graph : Graph) (interfaces : Interfaces) (test : NodeId → Thing → Bool)
        (nodes : List (KernelNode NodeId)) (accepts : ℕ → NodeId)
        → AreAccepting (value_in_node graph interfaces) IsValue test nodes accepts
        → CapturedIsCaught (value_in_node graph interfaces) IsValue test nodes accepts }
{}

/// Elements that the steps of a whole table catch are captured at its places.
pub fn tables_are_sound()
    ensures { (graph : Graph) (test : NodeId → Thing → Bool) (nodes : List (KernelNode NodeId))
        (accepts : ℕ → NodeId) (variables : ℕ)
        → AreSoundAndAccepted (in_node graph) IsElement test nodes accepts variables
        (λ type. type.0 < length graph)
        → CaughtIsCaptured (in_node graph) IsElement test nodes accepts }
{}

/// The node of a variable holds exactly the elements that the variable captures, and each value
/// that the variable captures.
pub fn captured_types_are_exact()
    ensures elements { (graph : Graph) (matched : NodeId) (kernel : Kernel NodeId)
        (accepts : ℕ → NodeId) (table : Table) (variable : ℕ) (id : Place → NodeId)
        → ((test : NodeId → Thing → Bool)
        → AreRight (in_node graph) IsElement (length graph) test
        → IsSolvedForElements graph matched kernel accepts table variable id test)
        → IsExactCapture graph matched kernel variable
        (id (first_place kernel matched accepts)) }
    ensures values { (graph : Graph) (interfaces : Interfaces) (matched : NodeId)
        (kernel : Kernel NodeId) (accepts : ℕ → NodeId) (table : Table) (variable : ℕ)
        (id : Place → NodeId) (test : NodeId → Thing → Bool)
        → IsSolvedForValues graph interfaces matched kernel accepts table variable id test
        → IsWideCapture graph interfaces matched kernel variable
        (id (first_place kernel matched accepts)) test }
{}

/// What a variable captures from an element is an element, where the nodes are sound; and so for
/// values.
pub fn captures_are_sound()
    ensures elements { (types : ℕ) (test : NodeId → Thing → Bool) (nodes : List (KernelNode NodeId))
        (variables number variable : ℕ) (e what : Thing) (captures : Captures ℕ)
        → AllOf (IsSoundNode nodes variables (λ id. id.0 < types)) nodes
        → IsElement e → taken NodeId test nodes e number ≡ Some captures
        → captures variable ≡ Some what → IsElement what }
    ensures values { (types : ℕ) (test : NodeId → Thing → Bool) (nodes : List (KernelNode NodeId))
        (variables number variable : ℕ) (v what : Thing) (captures : Captures ℕ)
        → AllOf (IsSoundNode nodes variables (λ id. id.0 < types)) nodes
        → IsValue v → taken NodeId test nodes v number ≡ Some captures
        → captures variable ≡ Some what → IsValue what }
{}

/// A node holds what is given at the places that are reached, where its formula is the union of
/// formulas of their steps, and these hold what the steps give.
pub fn captured_formulas_hold()
    ensures elements { (graph : Graph) (id : Place → NodeId) (variable : ℕ) (table : Table)
        (place : Place) (entries : List Entry)
        → formula_at graph (id place) ≡ captured_formula entries
        → AllOf (IsStepFormula graph no_closure IsElement variable id) entries
        → AreReached table variable place entries
        → IsNodeOf (in_node graph) IsElement table variable id place }
    ensures values { (graph : Graph) (interfaces : Interfaces) (id : Place → NodeId) (variable : ℕ)
        (table : Table) (place : Place) (entries : List Entry)
        → formula_at graph (id place) ≡ captured_formula entries
        → AllOf (IsStepFormula graph (closure_maps (nodes graph) (admits interfaces)) IsValue
        variable id) entries
        → AreReached table variable place entries
        → IsNodeOf (value_in_node graph interfaces) IsValue table variable id place }
{}

/// Under the interfaces of a program each value is in a node or outside it. A question that has a
/// value has an element, so a test of boxes that drops none with elements drops none with values.
pub fn values_are_decided()
    ensures nodes { (graph : Graph) (interfaces : Interfaces) → AreOfProgram graph interfaces
        → AreDecided (value_in_node graph interfaces) IsValue }
    ensures tests { (graph : Graph) (interfaces : Interfaces) → AreOfProgram graph interfaces
        → (test : NodeId → Thing → Bool)
        × AreRight (value_in_node graph interfaces) IsValue (length graph) test }
    ensures questions { (graph more : Graph) (interfaces : Interfaces) (question : Question)
        → graph ≡ built_ins ++ more → IsGraph graph
        → IsInhabited (value_in_node graph interfaces) IsValue question
        → IsInhabited (in_node graph) IsElement question }
    ensures boxes { (graph more : Graph) (interfaces : Interfaces)
        (inhabited : List Question → Bool) → graph ≡ built_ins ++ more → IsGraph graph
        → DropsEmpty (in_node graph) IsElement inhabited
        → DropsEmpty (value_in_node graph interfaces) IsValue inhabited }
{}

/// So a pattern takes each value in a way, or fails.
pub fn patterns_take_values()
    ensures { (graph : Graph) (interfaces : Interfaces) (p : Pattern NodeId) (v : Thing)
        → AreOfProgram graph interfaces
        → (result : Option (Captures Name)) × ValueTakes graph interfaces p v result }
{}

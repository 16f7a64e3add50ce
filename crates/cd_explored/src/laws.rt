//! Laws.
ghost use Rattle.std.specs.Prelude.{◌≡◌, ◌<◌, ◌≤◌, ◌+◌, ◌++◌, ℕ, Bool, true, false, List, length};
ghost use Rattle.std.specs.Prelude.{Some};
ghost use Rattle.std.specs.List.{slice_get};
ghost use Rattle.cd_sets.specs.declared.node_id.NodeId.{NodeId};
ghost use Rattle.cd_sets.specs.declared.question.Question.{Question};
ghost use Rattle.cd_syntax.specs.Name.{Name};
ghost use Rattle.cd_syntax.specs.declared.constant.Constant.{Constant};
ghost use Rattle.cd_model.specs.AllOf.{AllOf};
ghost use Rattle.cd_model.specs.Formula as formula;
ghost use Rattle.cd_model.specs.Formula.{Graph, Formula, IsGraph, formula_at, in_node};
ghost use Rattle.cd_model.specs.Interfaces.{Interfaces, value_in_node};
ghost use Rattle.cd_model.specs.Thing.{IsElement, IsValue};
ghost use Rattle.cd_matching.specs.Kernel.{Kernel, KernelField, Both, First, Pair, Gather, Xml};
ghost use Rattle.cd_matching.specs.Kernel.{Record};
ghost use Rattle.cd_matching.specs.Sequences.{thing_of};
ghost use Rattle.cd_rules.specs.Family.{AsksNodes};
ghost use Rattle.cd_products.specs.QuestionBoxes.{within_node, without_node};
ghost use Rattle.cd_products.specs.Products.{AreProducts, AreTriples};
ghost use Rattle.cd_filter.specs.Accepting.{IsAcceptedFrom, place_of};
ghost use Rattle.cd_filter.specs.Capturing.{IsNarrowed, IsSettled};
ghost use Rattle.cd_filter.specs.Rows.{Picks};
ghost use Rattle.cd_filter.specs.Table.{Place, Step, Takes, Puts, Gathers, Table, HasStep, at};
ghost use Rattle.cd_filter.specs.Table.{cell_steps, first_place};
ghost use Rattle.cd_explored.specs.CaptureNodes.{IsFormulaOf, AreNodesOfVariables};
ghost use Rattle.cd_explored.specs.Captures.{AreExactCaptures, AreWideCaptures};
ghost use Rattle.cd_explored.specs.Explored.{IsAcceptedPlace, IsPlace, IsExplored};
ghost use Rattle.cd_explored.specs.NextPlaces.{NextHas};
ghost use Rattle.cd_explored.specs.StepFormulas.{HoldsAlone};
ghost use Rattle.cd_products.specs.Keeping.{IsFormulaOfQuestion};

/// The first place is a place of the kernel, and all its elements are taken.
pub fn the_first_place_is_accepted()
    ensures { (graph : Graph) (kernel : Kernel NodeId) (first : ℕ) (matched : NodeId)
        → IsAcceptedFrom graph kernel first → matched.0 < length graph
        → IsPlace graph kernel (first_place kernel matched (place_of kernel.nodes first)) }
{}

/// Where all elements of a place are taken and the place is settled, all elements of each place
/// that its steps lead to are taken.
pub fn next_places_are_accepted()
    ensures { (graph : Graph) (kernel : Kernel NodeId) (first : ℕ) (entry : Place × List Step)
        → IsAcceptedFrom graph kernel first → IsAcceptedPlace graph kernel entry.0
        → IsSettled (in_node graph) IsElement kernel.nodes true (place_of kernel.nodes first) entry
        → AllOf (NextHas (IsAcceptedPlace graph kernel)) entry.1 }
{}

/// So are those of the places of its parts, at a node of each kind.
pub fn parts_are_accepted()
    ensures both { (graph : Graph) (kernel : Kernel NodeId) (first : ℕ) (place : Place) (p q : ℕ)
        → IsAcceptedFrom graph kernel first → IsAcceptedPlace graph kernel place
        → slice_get kernel.nodes place.number ≡ Some (Both p q)
        → IsAcceptedPlace graph kernel (at p place.question)
        × IsAcceptedPlace graph kernel (at q place.question) }
    ensures in_turn { (graph : Graph) (kernel : Kernel NodeId) (first : ℕ) (place : Place) (p q : ℕ)
        (taken_first others : Question)
        → IsAcceptedFrom graph kernel first → IsAcceptedPlace graph kernel place
        → slice_get kernel.nodes place.number ≡ Some (First p q)
        → IsNarrowed (in_node graph) IsElement true (place_of kernel.nodes first p) place.question
        taken_first
        → IsNarrowed (in_node graph) IsElement false (place_of kernel.nodes first p) place.question
        others
        → IsAcceptedPlace graph kernel (at p taken_first)
        × IsAcceptedPlace graph kernel (at q others) }
    ensures pairs { (graph : Graph) (kernel : Kernel NodeId) (first : ℕ) (place : Place) (p q : ℕ)
        (products : List (Question × Question))
        → IsAcceptedFrom graph kernel first → IsAcceptedPlace graph kernel place
        → slice_get kernel.nodes place.number ≡ Some (Pair p q)
        → AreProducts (in_node graph) IsElement place.question products
        → AllOf (λ product. IsAcceptedPlace graph kernel (at p product.0)
        × IsAcceptedPlace graph kernel (at q product.1)) products }
    ensures gathered { (graph : Graph) (kernel : Kernel NodeId) (first : ℕ) (place : Place)
        (variable p q : ℕ) (products : List (Question × Question))
        → IsAcceptedFrom graph kernel first → IsAcceptedPlace graph kernel place
        → slice_get kernel.nodes place.number ≡ Some (Gather variable p q)
        → AreProducts (in_node graph) IsElement place.question products
        → AllOf (λ product. IsAcceptedPlace graph kernel (at p product.0)
        × IsAcceptedPlace graph kernel (at q product.1)) products }
    ensures xmls { (graph : Graph) (kernel : Kernel NodeId) (first : ℕ) (place : Place) (p q r : ℕ)
        (triples : List (Question × Question × Question))
        → IsAcceptedFrom graph kernel first → IsAcceptedPlace graph kernel place
        → slice_get kernel.nodes place.number ≡ Some (Xml p q r)
        → AreTriples (in_node graph) IsElement place.question triples
        → AllOf (λ triple. IsAcceptedPlace graph kernel (at p triple.0)
        × IsAcceptedPlace graph kernel (at q triple.1)
        × IsAcceptedPlace graph kernel (at r triple.2)) triples }
    ensures records { (graph : Graph) (kernel : Kernel NodeId) (first : ℕ) (place : Place)
        (named : List (Name × KernelField NodeId)) (more : Bool) (rows : List (List Question))
        → IsAcceptedFrom graph kernel first → IsAcceptedPlace graph kernel place
        → slice_get kernel.nodes place.number ≡ Some (Record named more)
        → AllOf (Picks (in_node graph) IsElement place.question named) rows
        → AllOf (λ row. AllOf (NextHas (IsAcceptedPlace graph kernel)) (cell_steps named row))
        rows }
{}

/// The nodes that accept the nodes of a kernel are nodes of the graph.
pub fn accepting_nodes_are_there()
    ensures { (graph : Graph) (kernel : Kernel NodeId) (first number : ℕ)
        → IsAcceptedFrom graph kernel first
        → (place_of kernel.nodes first number).0 < length graph }
{}

/// What is explored in a graph is explored in each longer one.
pub fn explored_stays()
    ensures { (graph batch : Graph) (kernel : Kernel NodeId) (accepts : ℕ → NodeId) (root : Place)
        (table : Table) → IsGraph graph → ((number : ℕ) → (accepts number).0 < length graph)
        → IsExplored graph kernel accepts root table
        → IsExplored (graph ++ batch) kernel accepts root table }
{}

/// Nodes that are made from an explored table hold exactly the elements that variables capture, and
/// each value that they capture.
pub fn captures_are_exact()
    ensures elements { (graph batch : Graph) (kernel : Kernel NodeId) (first : ℕ)
        (matched : NodeId) (table : Table) (ids : List NodeId)
        → IsGraph graph → IsAcceptedFrom graph kernel first
        → IsExplored graph kernel (place_of kernel.nodes first)
        (first_place kernel matched (place_of kernel.nodes first)) table
        → AreNodesOfVariables (graph ++ batch) table
        (first_place kernel matched (place_of kernel.nodes first)) ids
        → AreExactCaptures (graph ++ batch) matched kernel ids }
    ensures values { (graph batch : Graph) (kernel : Kernel NodeId) (first : ℕ)
        (matched : NodeId) (table : Table) (ids : List NodeId)
        → IsGraph graph → IsAcceptedFrom graph kernel first
        → IsExplored graph kernel (place_of kernel.nodes first)
        (first_place kernel matched (place_of kernel.nodes first)) table
        → AreNodesOfVariables (graph ++ batch) table
        (first_place kernel matched (place_of kernel.nodes first)) ids
        → AreWideCaptures (graph ++ batch) matched kernel ids }
{}

/// The questions of items that are gathered ask nodes of the graph.
pub fn items_ask_nodes()
    ensures { (graph : Graph) (kernel : Kernel NodeId) (accepts : ℕ → NodeId) (root : Place)
        (table : Table) (place next : Place) (variable : ℕ) (item : Question)
        → IsExplored graph kernel accepts root table
        → HasStep table place (Gathers variable item next) → AsksNodes (length graph) item }
{}

/// With a node more a question holds what is in that node too, or outside it.
pub fn questions_are_narrowed()
    ensures elements { (graph : Graph) (id : NodeId) (question : Question)
        → IsNarrowed (in_node graph) IsElement true id question (within_node id question)
        × IsNarrowed (in_node graph) IsElement false id question (without_node id question) }
    ensures values { (graph : Graph) (interfaces : Interfaces) (id : NodeId) (question : Question)
        → IsNarrowed (value_in_node graph interfaces) IsValue true id question
        (within_node id question)
        × IsNarrowed (value_in_node graph interfaces) IsValue false id question
        (without_node id question) }
    ensures nodes { (count : ℕ) (id : NodeId) (question : Question) → id.0 < count
        → AsksNodes count question → AsksNodes count (within_node id question)
        × AsksNodes count (without_node id question) }
{}

/// A formula that answers the question of a place is one of what is taken there; one that holds a
/// constant alone is one of what is put; and the pairs of a node with the formula of an item and of
/// another place's node are what is gathered.
pub fn steps_have_formulas()
    ensures taken { (graph rest : Graph) (variable : ℕ) (id : Place → NodeId) (place : Place)
        (f : Formula)
        → IsGraph graph → AsksNodes (length graph) place.question
        → IsFormulaOfQuestion graph place.question f
        → IsFormulaOf (graph ++ rest) variable id
        (record { place = place; step = Takes variable; formula = f }) }
    ensures put { (graph : Graph) (variable : ℕ) (id : Place → NodeId) (place : Place)
        (constant : Constant) (f : Formula) → HoldsAlone graph (thing_of constant) f
        → IsFormulaOf graph variable id
        (record { place = place; step = Puts variable constant; formula = f }) }
    ensures gathered { (graph rest : Graph) (variable : ℕ) (id : Place → NodeId)
        (place next : Place) (item : Question) (item_node : NodeId) (f : Formula)
        → IsGraph graph → AsksNodes (length graph) item → IsFormulaOfQuestion graph item f
        → item_node.0 < length (graph ++ rest) → formula_at (graph ++ rest) item_node ≡ f
        → IsFormulaOf (graph ++ rest) variable id (record {
          place = place;
          step = Gathers variable item next;
          formula = formula.Pair item_node (id next);
        }) }
{}

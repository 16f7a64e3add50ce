//! Laws.
ghost use Rattle.std.specs.Prelude.{◌≡◌, ◌⊎◌, ◌↔◌, ◌<◌, ◌≤◌, ◌++◌, true, false, Bool, ℕ, [], ◌∷◌};
ghost use Rattle.std.specs.Prelude.{length, List};
ghost use Rattle.cd_sets.specs.declared.node_id.NodeId.{NodeId};
ghost use Rattle.cd_model.specs.Thing.{Thing, Integer, IsElement, IsValue, IsData};
ghost use Rattle.cd_model.specs.Interfaces.{ArrowsAgree, OfWritten, Interfaces, admits, ArrowOf};
ghost use Rattle.cd_model.specs.Interfaces.{OfNodes, value_reader, value_in_node, value_in_written};
ghost use Rattle.cd_model.specs.Formula.{Graph, Formula, IsFormula, IsGraph, at_formula, holds};
ghost use Rattle.cd_model.specs.Formula.{nodes, in_node};
ghost use Rattle.cd_model.specs.StandsFor.{StandsFor};
ghost use Rattle.cd_model.specs.Guarded.{NamesAreGuarded};
ghost use Rattle.cd_model.specs.Canonical.{canonical};
ghost use Rattle.cd_model.specs.Types.{reader, no_closure, element_answers, value_answers};
ghost use Rattle.cd_model.specs.AllOf.{AllOf};
ghost use Rattle.cd_model.specs.BuiltIns.{built_ins, node_named, NIL};
ghost use Rattle.cd_model.specs.Kinds.{kind_of, IsByte, IsBool, IsNil, IsString, AnInteger};
ghost use Rattle.cd_model.specs.Kinds.{ACharacter, AnAtom, APair, AnXml, ARecord, AFunction};
ghost use Rattle.cd_model.specs.Scope.{Scope};
ghost use Rattle.cd_syntax.specs.declared.tokens.Span.{Span};
ghost use Rattle.cd_syntax.specs.declared.builtin.BuiltinName.{BuiltinName};
ghost use Rattle.cd_syntax.specs.declared.builtin.BuiltinName.TheVariants as builtin;
ghost use Rattle.cd_syntax.specs.TypeTree.{tree, Builtin};
ghost use Rattle.cd_model.specs.Written.{WrittenType, Written, written, type_of, number_of_names};
ghost use Rattle.cd_model.specs.Written.{in_written};

/// No thing is both in a type and outside it.
pub fn not_both()
    ensures in_nodes { (graph : Graph) (e : Thing) (id : NodeId) → in_node graph e id true
        → in_node graph e id false → ⊥ }
    ensures values_in_nodes { (graph : Graph) (interfaces : Interfaces) (v : Thing) (id : NodeId)
        → value_in_node graph interfaces v id true → value_in_node graph interfaces v id false → ⊥ }
    ensures at_written { (t : Written) (e : Thing) → in_written e t true → in_written e t false
        → ⊥ }
    ensures values_at_written { (t : Written) (interfaces : Interfaces) (v : Thing)
        → value_in_written interfaces v t true → value_in_written interfaces v t false → ⊥ }
{}

/// Each element is in a type or outside it.
pub fn one_or_the_other()
    ensures in_nodes { (graph : Graph) (e : Thing) (id : NodeId)
        → in_node graph e id true ⊎ in_node graph e id false }
    ensures at_written { (t : Written) (e : Thing) → in_written e t true ⊎ in_written e t false }
{}

/// Where formulas are put after those of a graph, each old node, and each formula that names old
/// nodes alone, holds the elements and the values that it held.
pub fn extension_keeps()
    ensures elements { (graph more : Graph) (e : Thing) (id : NodeId) (answer : Bool)
        → IsGraph graph → id.0 < length graph
        → in_node graph e id answer ↔ in_node (graph ++ more) e id answer }
    ensures values { (graph more : Graph) (interfaces : Interfaces) (v : Thing) (id : NodeId)
        (answer : Bool) → IsGraph graph → id.0 < length graph
        → value_in_node graph interfaces v id answer
        ↔ value_in_node (graph ++ more) interfaces v id answer }
    ensures formulas { (graph more : Graph) (e : Thing) (formula : Formula) (answer : Bool)
        → IsGraph graph → IsFormula (length graph) formula
        → holds (at_formula (reader (nodes graph) no_closure e)) formula answer
        ↔ holds (at_formula (reader (nodes (graph ++ more)) no_closure e)) formula answer }
    ensures value_formulas { (graph more : Graph) (interfaces : Interfaces) (v : Thing)
        (formula : Formula) (answer : Bool) → IsGraph graph → IsFormula (length graph) formula
        → holds (at_formula (value_reader graph interfaces v)) formula answer
        ↔ holds (at_formula (value_reader (graph ++ more) interfaces v)) formula answer }
    ensures arrows { (graph more : Graph) (arrows : ℕ → List (ArrowOf NodeId)) (v : Thing)
        (id : NodeId) (answer : Bool) → IsGraph graph
        → ((function : ℕ) → AllOf
        (λ arrow. (arrow.argument.0 < length graph) × (arrow.result.0 < length graph))
        (arrows function)) → id.0 < length graph
        → value_in_node graph (OfNodes graph arrows) v id answer
        ↔ value_in_node (graph ++ more) (OfNodes (graph ++ more) arrows) v id answer }
{}

/// A node that stands for a written type does so in each longer graph.
pub fn standing_is_kept()
    ensures { (graph more : Graph) (id : NodeId) (type : Written) → IsGraph graph
        → StandsFor graph id type → StandsFor (graph ++ more) id type }
{}

/// A value that is data is an element, and is in just the nodes and the written types that hold
/// this element.
pub fn data_are_elements()
    ensures sound { (v : Thing) → IsValue v → IsData v → IsElement v }
    ensures in_nodes { (graph : Graph) (interfaces : Interfaces) (v : Thing) (id : NodeId)
        (answer : Bool) → IsData v
        → value_in_node graph interfaces v id answer ↔ in_node graph v id answer }
    ensures at_written { (interfaces : Interfaces) (v : Thing) (t : Written) (answer : Bool)
        → IsData v
        → value_in_written interfaces v t answer ↔ in_written v t answer }
{}

/// Where names are guarded, as many as are declared are enough: more of them change no answer.
pub fn names_are_enough()
    ensures elements { (t : Written) (more : ℕ) (e : Thing) (answer : Bool) → NamesAreGuarded t
        → number_of_names t ≤ more
        → in_written e t answer ↔ element_answers (written more) e (type_of t) answer }
    ensures values { (t : Written) (more : ℕ) (interfaces : Interfaces) (v : Thing) (answer : Bool)
        → NamesAreGuarded t → number_of_names t ≤ more
        → value_in_written interfaces v t answer
        ↔ value_answers (written more) (admits interfaces) v (type_of t) answer }
{}

/// The nodes that every graph begins with, and what each of them holds of elements.
pub fn built_ins_hold()
    ensures sound { IsGraph built_ins }
    ensures empty { (more : Graph) (e : Thing)
        → in_node (built_ins ++ more) e (node_named builtin.Empty) true → ⊥ }
    ensures any { (more : Graph) (e : Thing)
        → in_node (built_ins ++ more) e (node_named builtin.Any) true }
    ensures int { (more : Graph) (e : Thing) → IsElement e
        → in_node (built_ins ++ more) e (node_named builtin.Int) true ↔ (kind_of e ≡ AnInteger) }
    ensures char { (more : Graph) (e : Thing) → IsElement e
        → in_node (built_ins ++ more) e (node_named builtin.Char) true ↔ (kind_of e ≡ ACharacter) }
    ensures byte { (more : Graph) (e : Thing)
        → in_node (built_ins ++ more) e (node_named builtin.Byte) true ↔ IsByte e }
    ensures atom { (more : Graph) (e : Thing)
        → in_node (built_ins ++ more) e (node_named builtin.Atom) true ↔ (kind_of e ≡ AnAtom) }
    ensures bool { (more : Graph) (e : Thing)
        → in_node (built_ins ++ more) e (node_named builtin.Bool) true ↔ IsBool e }
    ensures string { (more : Graph) (e : Thing) → IsElement e
        → in_node (built_ins ++ more) e (node_named builtin.String) true ↔ IsString e }
    ensures arrow { (more : Graph) (e : Thing) → IsElement e
        → in_node (built_ins ++ more) e (node_named builtin.Arrow) true ↔ (kind_of e ≡ AFunction) }
    ensures pair { (more : Graph) (e : Thing)
        → in_node (built_ins ++ more) e (node_named builtin.Pair) true ↔ (kind_of e ≡ APair) }
    ensures record_type { (more : Graph) (e : Thing)
        → in_node (built_ins ++ more) e (node_named builtin.Record) true ↔ (kind_of e ≡ ARecord) }
    ensures any_xml { (more : Graph) (e : Thing)
        → in_node (built_ins ++ more) e (node_named builtin.AnyXml) true ↔ (kind_of e ≡ AnXml) }
    ensures data_type { (more : Graph) (e : Thing) → IsElement e
        → in_node (built_ins ++ more) e (node_named builtin.Data) true ↔ IsData e }
    ensures nil { (more : Graph) (e : Thing) → in_node (built_ins ++ more) e NIL true ↔ IsNil e }
{}

/// The same of values.
pub fn built_ins_hold_values()
    ensures decided { (more : Graph) (interfaces : Interfaces) (v : Thing) (id : NodeId) → IsValue v
        → id.0 < 14
        → value_in_node (built_ins ++ more) interfaces v id true
        ⊎ value_in_node (built_ins ++ more) interfaces v id false }
    ensures empty { (more : Graph) (interfaces : Interfaces) (v : Thing)
        → value_in_node (built_ins ++ more) interfaces v (node_named builtin.Empty) true → ⊥ }
    ensures any { (more : Graph) (interfaces : Interfaces) (v : Thing)
        → value_in_node (built_ins ++ more) interfaces v (node_named builtin.Any) true }
    ensures int { (more : Graph) (interfaces : Interfaces) (v : Thing) → IsValue v
        → value_in_node (built_ins ++ more) interfaces v (node_named builtin.Int) true
        ↔ (kind_of v ≡ AnInteger) }
    ensures char { (more : Graph) (interfaces : Interfaces) (v : Thing) → IsValue v
        → value_in_node (built_ins ++ more) interfaces v (node_named builtin.Char) true
        ↔ (kind_of v ≡ ACharacter) }
    ensures byte { (more : Graph) (interfaces : Interfaces) (v : Thing)
        → value_in_node (built_ins ++ more) interfaces v (node_named builtin.Byte) true ↔ IsByte v }
    ensures atom { (more : Graph) (interfaces : Interfaces) (v : Thing)
        → value_in_node (built_ins ++ more) interfaces v (node_named builtin.Atom) true
        ↔ (kind_of v ≡ AnAtom) }
    ensures bool { (more : Graph) (interfaces : Interfaces) (v : Thing)
        → value_in_node (built_ins ++ more) interfaces v (node_named builtin.Bool) true ↔ IsBool v }
    ensures string { (more : Graph) (interfaces : Interfaces) (v : Thing) → IsValue v
        → value_in_node (built_ins ++ more) interfaces v (node_named builtin.String) true
        ↔ IsString v }
    ensures arrow { (more : Graph) (interfaces : Interfaces) (v : Thing) → IsValue v
        → value_in_node (built_ins ++ more) interfaces v (node_named builtin.Arrow) true
        ↔ (kind_of v ≡ AFunction) }
    ensures pair { (more : Graph) (interfaces : Interfaces) (v : Thing)
        → value_in_node (built_ins ++ more) interfaces v (node_named builtin.Pair) true
        ↔ (kind_of v ≡ APair) }
    ensures record_type { (more : Graph) (interfaces : Interfaces) (v : Thing)
        → value_in_node (built_ins ++ more) interfaces v (node_named builtin.Record) true
        ↔ (kind_of v ≡ ARecord) }
    ensures any_xml { (more : Graph) (interfaces : Interfaces) (v : Thing)
        → value_in_node (built_ins ++ more) interfaces v (node_named builtin.AnyXml) true
        ↔ (kind_of v ≡ AnXml) }
    ensures data_type { (more : Graph) (interfaces : Interfaces) (v : Thing) → IsValue v
        → value_in_node (built_ins ++ more) interfaces v (node_named builtin.Data) true ↔ IsData v }
    ensures nil { (more : Graph) (interfaces : Interfaces) (v : Thing)
        → value_in_node (built_ins ++ more) interfaces v NIL true ↔ IsNil v }
{}

/// The node of a built-in name stands for the name, in each scope.
pub fn built_ins_stand()
    ensures { (more : Graph) (scope : Scope) (span : Span) (name : BuiltinName)
        → StandsFor (built_ins ++ more) (node_named name)
        (record { scope = scope; tree = tree span (Builtin name) }) }
{}

/// Whether the interfaces of functions are given by nodes or by written types that hold the same
/// elements makes no difference.
pub fn interfaces_agree()
    ensures { (graph : Graph) (count : ℕ) (arrows : ℕ → List (ArrowOf NodeId))
        (others : ℕ → List (ArrowOf WrittenType)) → IsGraph graph
        → ((function : ℕ) → ArrowsAgree graph count (arrows function) (others function))
        → (v : Thing) (id : NodeId) (answer : Bool) → id.0 < length graph
        → value_in_node graph (OfNodes graph arrows) v id answer
        ↔ value_in_node graph (OfWritten count others) v id answer }
{}

/// Each thing is an element or is none, and is a value or is none.
pub fn soundness_is_decided()
    ensures elements { (e : Thing) → IsElement e ⊎ (IsElement e → ⊥) }
    ensures values { (v : Thing) → IsValue v ⊎ (IsValue v → ⊥) }
{}

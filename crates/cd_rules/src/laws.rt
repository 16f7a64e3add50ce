//! Laws of the definitions in `specs/`. Each is the contract of a function that does nothing.
ghost use Rattle.std.specs.Prelude.{ℕ, ℤ, ◌≡◌, ◌++◌, ◌↔◌, ◌⊎◌, true, false, List, [], ◌∷◌, length};
ghost use Rattle.std.specs.Prelude.{map};
ghost use Rattle.cd_sets.specs.declared.node_id.NodeId.{NodeId};
ghost use Rattle.cd_sets.specs.declared.question.Question.{Question};
ghost use Rattle.cd_model.specs.Thing as thing;
ghost use Rattle.cd_model.specs.Thing.{Thing, IsElement, IsValue};
ghost use Rattle.cd_model.specs.AllOf.{AllOf, AnyOf};
ghost use Rattle.cd_model.specs.Formula.{Graph, IsGraph};
ghost use Rattle.cd_model.specs.Membership.{asked, answers, reader, value_answers, value_reader};
ghost use Rattle.cd_model.specs.Interfaces.{Interfaces, OfNodes, OfWritten, ArrowOf, ArrowsAgree};
ghost use Rattle.cd_model.specs.Written.{WrittenType};
ghost use Rattle.cd_model.specs.BuiltIns.{built_ins, node, ANY, INT, CHAR};
ghost use Rattle.cd_rules.specs.Settled.{IsSettledClause};
ghost use Rattle.cd_rules.specs.Examples as example;
ghost use Rattle.cd_rules.specs.Examples.{asks, both};
ghost use Rattle.cd_rules.specs.Needs.{set_of, splits, splits_in_three, pair_way, xml_way};
ghost use Rattle.cd_rules.specs.Needs.{arrow_way};
ghost use Rattle.cd_rules.specs.Rows.{rows_of};
ghost use Rattle.cd_rules.specs.InWay.{AreInWay};
ghost use Rattle.cd_rules.specs.InRow.{thing_at, IsInRow};
ghost use Rattle.cd_model.specs.Kinds.{kind_of, APair, AnXml, ARecord};
ghost use Rattle.cd_rules.specs.Clauses.{Clause, Pair, Triple, RecordType, Pairs, Xmls, Records};
ghost use Rattle.cd_rules.specs.Clauses.{IsClauseOfQuestion, IsInClause};
ghost use Rattle.cd_rules.specs.Members.{HasElement, HasMember, IsSupplied, NamesLabels};
ghost use Rattle.cd_rules.specs.Family.{IsOfFamily, IsSubsumed, RefutesRow, Refutes, IsClosed};
ghost use Rattle.cd_rules.specs.Family.{AsksNodes};
ghost use Rattle.cd_syntax.specs.Name.{Name};
ghost use Rattle.cd_rules.specs.BasicSets.{question_passes, integer_test, character_test};
ghost use Rattle.cd_rules.specs.BasicSets.{atom_test};
ghost use Rattle.cd_rules.specs.Dnf.{dnf, dnf_of, Meets};

/// A question holds just what meets one of its conjuncts.
pub fn dnf_is_exact()
    ensures elements { (graph : Graph) (question : Question) (e : Thing)
        → asked (answers graph e) question true
        ↔ AnyOf (Meets (reader graph e)) (dnf_of graph question) }
    ensures values { (graph : Graph) (question : Question) (interfaces : Interfaces) (v : Thing)
        → asked (value_answers graph interfaces v) question true
        ↔ AnyOf (Meets (value_reader graph interfaces v)) (dnf_of graph question) }
{}

/// A question holds just what is in one of its clauses.
pub fn clauses_are_exact()
    ensures elements { (graph : Graph) (question : Question) (e : Thing)
        → asked (answers graph e) question true
        ↔ ((clause : Clause) × IsClauseOfQuestion graph question clause
        × IsInClause (kind_of e) (reader graph e) clause) }
    ensures values { (graph : Graph) (question : Question) (interfaces : Interfaces) (v : Thing)
        → asked (value_answers graph interfaces v) question true
        ↔ ((clause : Clause) × IsClauseOfQuestion graph question clause
        × IsInClause (kind_of v) (value_reader graph interfaces v) clause) }
{}

/// An integer, a character or an atom is in a question exactly when the question passes its test.
pub fn basic_sets_are_exact()
    ensures integers { (graph : Graph) (question : Question) (z : ℤ)
        → asked (answers graph (thing.Integer z)) question true
        ↔ (question_passes (integer_test z) graph question ≡ true) }
    ensures characters { (graph : Graph) (question : Question) (c : ℕ)
        → asked (answers graph (thing.Character c)) question true
        ↔ (question_passes (character_test c) graph question ≡ true) }
    ensures atoms { (graph : Graph) (question : Question) (name : Name)
        → asked (answers graph (thing.Atom name)) question true
        ↔ (question_passes (atom_test name) graph question ≡ true) }
{}

/// A record is in a clause exactly when it is in one of the clause's rows.
pub fn rows_are_exact()
    ensures elements { (graph : Graph) (wanted refused : List RecordType) (fields : thing.Fields)
        → IsInClause ARecord (reader graph (thing.Record fields)) (Records wanted refused)
        ↔ AnyOf (IsInRow (answers graph) (thing_at fields)) (rows_of wanted refused) }
    ensures values { (graph : Graph) (interfaces : Interfaces) (wanted refused : List RecordType)
        (fields : thing.Fields)
        → IsInClause ARecord (value_reader graph interfaces (thing.Record fields))
        (Records wanted refused)
        ↔ AnyOf (IsInRow (value_answers graph interfaces) (thing_at fields))
        (rows_of wanted refused) }
{}

/// No element is in a question that a closed family subsumes, nor is a value, whatever arrows of
/// the graph its closures have.
pub fn closed_families_are_empty()
    ensures elements { (graph more : Graph) (family : List Question) (question : Question)
        (e : Thing) → graph ≡ built_ins ++ more
        → IsClosed graph family → IsSubsumed question family → IsElement e
        → asked (answers graph e) question true → ⊥ }
    ensures values { (graph more : Graph) (family : List Question) (question : Question)
        (interfaces : Interfaces) (v : Thing) → graph ≡ built_ins ++ more
        → IsClosed graph family → IsSubsumed question family → IsValue v
        → asked (value_answers graph interfaces v) question true → ⊥ }
{}

/// A closed family whose questions ask nodes of a graph stays closed in each longer graph.
pub fn closed_families_stay()
    ensures { (graph more : Graph) (family : List Question)
        → AllOf (AsksNodes (length graph)) family → IsClosed graph family
        → IsClosed (graph ++ more) family }
{}

/// A clause has a member exactly when each of its needs has a way all of whose questions have
/// elements, or, of records, where one of its rows lives: where each label may be absent or its
/// question has an element, and each of the other questions has one.
pub fn needs_are_exact()
    ensures needed { (graph more : Graph) (clause : Clause) → graph ≡ built_ins ++ more
        → HasMember graph clause → IsSupplied (HasElement graph) clause }
    ensures enough { (graph more : Graph) (clause : Clause) → graph ≡ built_ins ++ more
        → NamesLabels clause → IsSupplied (HasElement graph) clause
        → HasMember graph clause }
{}

/// A family subsumes the questions of it.
pub fn families_subsume()
    ensures { (family : List Question) (question : Question) → IsOfFamily question family
        → IsSubsumed question family }
{}

/// A clause all of whose questions have elements or are subsumed by a family has all that it needs,
/// or is refuted.
pub fn clauses_are_settled()
    ensures { (graph : Graph) (family : List Question) (clause : Clause)
        → IsSettledClause (HasElement graph) family clause
        → IsSupplied (HasElement graph) clause ⊎ Refutes family clause }
{}

/// In a sound graph each question has an element or has none. Where it has none it has no value
/// either, under any interfaces: so where a value is in some nodes and outside others, an element
/// is too.
pub fn questions_are_decided()
    ensures decided { (graph more : Graph) (question : Question) → graph ≡ built_ins ++ more
        → IsGraph graph → HasElement graph question ⊎ (HasElement graph question → ⊥) }
    ensures values { (graph more : Graph) (question : Question) (interfaces : Interfaces)
        (v : Thing)
        → graph ≡ built_ins ++ more → IsGraph graph → (HasElement graph question → ⊥) → IsValue v
        → asked (value_answers graph interfaces v) question true → ⊥ }
    ensures realised { (graph more : Graph) (question : Question) (interfaces : Interfaces)
        (v : Thing)
        → graph ≡ built_ins ++ more → IsGraph graph → IsValue v
        → asked (value_answers graph interfaces v) question true → HasElement graph question }
{}

/// In a sound graph each value is in a node or outside it, where the arrows of functions are nodes
/// of this graph, or written types that hold the same elements.
pub fn values_are_decided()
    ensures by_nodes { (graph more : Graph) (arrows : ℕ → List (ArrowOf NodeId)) (v : Thing)
        (id : NodeId)
        → graph ≡ built_ins ++ more → IsGraph graph
        → value_answers graph (OfNodes graph arrows) v id true
        ⊎ value_answers graph (OfNodes graph arrows) v id false }
    ensures by_written { (graph more : Graph) (count : ℕ) (arrows : ℕ → List (ArrowOf NodeId))
        (others : ℕ → List (ArrowOf WrittenType)) (v : Thing) (id : NodeId)
        → graph ≡ built_ins ++ more → IsGraph graph
        → ((function : ℕ) → ArrowsAgree graph count (arrows function) (others function))
        → value_answers graph (OfWritten count others) v id true
        ⊎ value_answers graph (OfWritten count others) v id false }
{}

/// A pair is in a clause exactly when its parts are in the questions of one way, and so is an XML
/// thing, whose tag is an atom and whose attributes are a record.
pub fn ways_are_exact()
    ensures pairs { (graph : Graph) (wanted refused : List Pair) (first second : Thing)
        → IsInClause APair (reader graph (thing.Pair first second)) (Pairs wanted refused)
        ↔ AnyOf (AreInWay (map (answers graph) (first ∷ second ∷ [])))
        (map (pair_way wanted) (splits refused)) }
    ensures pair_values { (graph : Graph) (interfaces : Interfaces) (wanted refused : List Pair)
        (first second : Thing)
        → IsInClause APair (value_reader graph interfaces (thing.Pair first second))
        (Pairs wanted refused)
        ↔ AnyOf (AreInWay (map (value_answers graph interfaces) (first ∷ second ∷ [])))
        (map (pair_way wanted) (splits refused)) }
    ensures xmls { (graph more : Graph) (wanted refused : List Triple)
        (tag attributes content : Thing)
        → graph ≡ built_ins ++ more → thing.IsAtom tag → thing.IsRecord attributes
        → IsInClause AnXml (reader graph (thing.Xml tag attributes content)) (Xmls wanted refused)
        ↔ AnyOf (AreInWay (map (answers graph) (tag ∷ attributes ∷ content ∷ [])))
        (map (xml_way wanted) (splits_in_three refused)) }
    ensures xml_values { (graph more : Graph) (interfaces : Interfaces)
        (wanted refused : List Triple) (tag attributes content : Thing)
        → graph ≡ built_ins ++ more → thing.IsAtom tag → thing.IsRecord attributes
        → IsInClause AnXml (value_reader graph interfaces (thing.Xml tag attributes content))
        (Xmls wanted refused)
        ↔ AnyOf (AreInWay (map (value_answers graph interfaces) (tag ∷ attributes ∷ content ∷ [])))
        (map (xml_way wanted) (splits_in_three refused)) }
{}

/// Conjuncts, ways and rows of small cases.
pub fn worked_examples()
    ensures sets { set_of (map node (3 ∷ 1 ∷ 3 ∷ [])) ≡ map node (1 ∷ 3 ∷ []) }
    ensures dnf { dnf example.not_both true
        ≡ (record { wanted = false; is = example.integers } ∷ [])
        ∷ (record { wanted = false; is = example.characters } ∷ []) ∷ [] }
    ensures both { dnf example.not_both false
        ≡ (record { wanted = true; is = example.integers }
        ∷ record { wanted = true; is = example.characters } ∷ []) ∷ [] }
    ensures pairs { map (pair_way (both 14 15 ∷ [])) (splits (both 16 17 ∷ []))
        ≡ (asks (14 ∷ []) (16 ∷ []) ∷ asks (15 ∷ []) [] ∷ [])
        ∷ (asks (14 ∷ []) [] ∷ asks (15 ∷ []) (17 ∷ []) ∷ []) ∷ [] }
    ensures xml { map (xml_way []) (splits_in_three [])
        ≡ (asks (5 ∷ []) [] ∷ asks (10 ∷ []) [] ∷ asks [] [] ∷ []) ∷ [] }
    ensures arrows { map (arrow_way (both 20 21)) (splits (both 14 15 ∷ both 16 17 ∷ []))
        ≡ (asks (20 ∷ []) (14 ∷ 16 ∷ []) ∷ [])
        ∷ (asks (20 ∷ []) (14 ∷ []) ∷ asks (17 ∷ []) (21 ∷ []) ∷ [])
        ∷ (asks (20 ∷ []) (16 ∷ []) ∷ asks (15 ∷ []) (21 ∷ []) ∷ [])
        ∷ (asks (20 ∷ []) [] ∷ asks (15 ∷ 17 ∷ []) (21 ∷ []) ∷ []) ∷ [] }
    ensures no_arrow { map (arrow_way (both 20 21)) (splits []) ≡ (asks (20 ∷ []) [] ∷ []) ∷ [] }
    ensures rows { rows_of (example.with_a 14 1 ∷ []) (example.with_a 15 0 ∷ [])
        ≡ example.row_at_a (asks (14 ∷ []) []) (asks (1 ∷ []) []) (asks (1 ∷ []) (0 ∷ []) ∷ [])
        ∷ example.row_at_a (asks (14 ∷ []) (15 ∷ [])) (asks (1 ∷ []) []) [] ∷ [] }
    ensures subsumed { IsSubsumed (asks (1 ∷ 2 ∷ []) (3 ∷ 4 ∷ [])) (asks (1 ∷ []) (4 ∷ []) ∷ []) }
    ensures contradicts { IsSubsumed (asks (1 ∷ 2 ∷ []) (3 ∷ 2 ∷ [])) [] }
    ensures not_subsumed { IsSubsumed (asks (1 ∷ []) (3 ∷ [])) (asks (1 ∷ 2 ∷ []) (3 ∷ []) ∷ [])
        → ⊥ }
    ensures has_to_be_there { RefutesRow (asks (14 ∷ []) [] ∷ [])
        (example.row_at_a (asks (14 ∷ []) []) (asks (1 ∷ []) []) []) }
    ensures may_be_absent { RefutesRow (asks (14 ∷ []) [] ∷ [])
        (example.row_without_a (asks (14 ∷ []) []) (asks (1 ∷ []) []) []) → ⊥ }
    ensures subsumed_elsewhere { RefutesRow (asks (1 ∷ []) (0 ∷ []) ∷ [])
        (example.row_without_a (asks (14 ∷ []) []) (asks (1 ∷ []) [])
        (asks (1 ∷ []) (0 ∷ []) ∷ [])) }
    ensures endless { IsClosed example.endless (asks (14 ∷ []) [] ∷ []) }
{}

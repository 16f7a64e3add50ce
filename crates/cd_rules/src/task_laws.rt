//! Laws of what is to do for a question: of its conjuncts in the making, and of the tasks of a
//! clause.
ghost use Rattle.std.specs.Prelude.{◌≡◌, ◌++◌, ◌↔◌, ◌⊎◌, Bool, true, false, List, [], ◌∷◌, length};
ghost use Rattle.std.specs.Prelude.{map};
ghost use Rattle.cd_sets.specs.declared.node_id.NodeId.{NodeId};
ghost use Rattle.cd_sets.specs.declared.question.Question.{Question};
ghost use Rattle.cd_syntax.specs.Name.{Name};
ghost use Rattle.cd_model.specs.Thing as thing;
ghost use Rattle.cd_model.specs.Thing.{Thing, IsElement};
ghost use Rattle.cd_model.specs.AllOf.{AllOf, AnyOf};
ghost use Rattle.cd_model.specs.BuiltIns.{built_ins, ATOM, RECORD};
ghost use Rattle.cd_model.specs.Formula as formula;
ghost use Rattle.cd_model.specs.Formula.{Formula, Graph, IsGraph, Or, formulas_of, formula_at};
ghost use Rattle.cd_model.specs.Kinds.{APair, AnXml, ARecord, AFunction};
ghost use Rattle.cd_model.specs.Interfaces.{Interfaces};
ghost use Rattle.cd_model.specs.Membership.{holds, answers, reader, value_answers, value_reader};
ghost use Rattle.cd_rules.specs.BasicSets.{HasNoBasic};
ghost use Rattle.cd_rules.specs.Dnf.{Conjunct};
ghost use Rattle.cd_rules.specs.Clauses.{Clause, Pair, Triple, RecordType, Pairs, Xmls, Arrows};
ghost use Rattle.cd_rules.specs.Clauses.{Records, IsInClause, parts_in, pair_of, xml_of, record_of};
ghost use Rattle.cd_rules.specs.Clauses.{IsClauseOfQuestion, arrow_of};
ghost use Rattle.cd_rules.specs.Family.{SameMembers, IsSubsumed, Refutes};
ghost use Rattle.cd_rules.specs.InRow.{thing_at, IsForRow};
ghost use Rattle.cd_rules.specs.InWay.{AreInWay};
ghost use Rattle.cd_rules.specs.MadeForTasks.{IsRightPair, IsFunctionBut, arrows_of};
ghost use Rattle.cd_rules.specs.Needs.{question};
ghost use Rattle.cd_rules.specs.PartialConjuncts.{Signed, partial, partial_conjuncts, PartialFails};
ghost use Rattle.cd_rules.specs.PartialConjuncts.{IsPartialOf, AccountForClauses};
ghost use Rattle.cd_rules.specs.Rows.{Reasons, field_at};
ghost use Rattle.cd_rules.specs.Tasks.{Task, PairTask, XmlTask, ArrowTask, RecordTask, IsTask};
ghost use Rattle.cd_rules.specs.Tasks.{IsTaskOf, tasks_of, questions_of, row_of_given, AreCases};
ghost use Rattle.cd_rules.specs.Tasks.{TaskFails, IsTaskOfNodes};

/// Where no element of a basic kind is in a question, the conjuncts of the other kinds account for
/// its clauses; and each clause that they may become is one of the question.
pub fn partial_conjuncts_account_for_clauses()
    ensures all { (graph : Graph) (base : List Question) (question : Question)
        → HasNoBasic graph question
        → AccountForClauses graph base question (partial_conjuncts graph question) }
    ensures of_question { (graph : Graph) (question : Question)
        → AllOf (IsPartialOf graph question) (partial_conjuncts graph question) }
{}

/// A partial conjunct fails where a question of it is subsumed, whatever formulas are left: that of
/// what it wants of a part of pairs or of XML things, or of a field that a type asks for, or that
/// of the argument of an arrow that it refuses.
pub fn partial_conjuncts_are_cut()
    ensures pairs { (family : List Question) (conjunct : Conjunct) (left : List Signed)
        → IsSubsumed (question (map (λ parts. parts.0) (parts_in pair_of true conjunct)) []) family
        ⊎ IsSubsumed (question (map (λ parts. parts.1) (parts_in pair_of true conjunct)) []) family
        → PartialFails family (partial APair conjunct left) }
    ensures xmls { (family : List Question) (conjunct : Conjunct) (left : List Signed)
        → IsSubsumed (question (ATOM ∷ map (λ parts. parts.0) (parts_in xml_of true conjunct)) [])
        family
        ⊎ IsSubsumed (question (RECORD ∷ map (λ parts. parts.1) (parts_in xml_of true conjunct)) [])
        family
        ⊎ IsSubsumed (question (map (λ parts. parts.2) (parts_in xml_of true conjunct)) []) family
        → PartialFails family (partial AnXml conjunct left) }
    ensures records { (family : List Question) (conjunct : Conjunct) (left : List Signed)
        (label : Name)
        → AnyOf (λ type. (field_at type label).optional ≡ false) (parts_in record_of true conjunct)
        → IsSubsumed (question (map (λ type. (field_at type label).type)
        (parts_in record_of true conjunct)) []) family
        → PartialFails family (partial ARecord conjunct left) }
    ensures functions { (family : List Question) (conjunct : Conjunct) (left : List Signed)
        → AnyOf (λ parts. IsSubsumed (question (parts.0 ∷ []) []) family)
        (parts_in arrow_of false conjunct)
        → PartialFails family (partial AFunction conjunct left) }
{}

/// The tasks of a clause, and the cases of such a task, are tasks of the clause. Where it is a
/// clause of a question their parts are nodes of the graph, and their labels are labels.
pub fn cases_are_tasks()
    ensures tasks { (clause : Clause) → AllOf (IsTaskOf clause) (tasks_of clause) }
    ensures cases { (clause : Clause) (task : Task) (cases : List Task) → AreCases task cases
        → IsTaskOf clause task → AllOf (IsTaskOf clause) cases }
    ensures of_nodes { (graph more : Graph) (question : Question) (clause : Clause) (task : Task)
        → graph ≡ built_ins ++ more → IsGraph graph → IsClauseOfQuestion graph question clause
        → IsTaskOf clause task → IsTaskOfNodes (length graph) task }
{}

/// A task fails where one of its questions is subsumed, or where each of its cases fails; and a
/// clause is refuted where one of its tasks fails.
pub fn failing_tasks_refute_clauses()
    ensures subsumed { (family : List Question) (task : Task)
        → AnyOf (λ question. IsSubsumed question family) (questions_of task)
        → TaskFails family task }
    ensures cases { (family : List Question) (task : Task) (cases : List Task)
        → AreCases task cases → IsTask task
        → AllOf (TaskFails family) cases → TaskFails family task }
    ensures refutes { (family : List Question) (clause : Clause)
        → AnyOf (TaskFails family) (tasks_of clause) → Refutes family clause }
{}

/// Elements of a task's questions make a thing of the clause, where that is outside each member
/// that is left.
pub fn tasks_make_members()
    ensures pair { (graph : Graph) (first second : Thing) (wanted refused : List Pair)
        (given : List Pair × List Pair) (left : List Pair)
        → IsTask (PairTask wanted refused given left)
        → AreInWay (map (answers graph) (first ∷ second ∷ []))
        (questions_of (PairTask wanted refused given left))
        → AllOf (λ parts. reader graph (thing.Pair first second)
        (formula.Pair parts.0 parts.1) false) left
        → IsInClause APair (reader graph (thing.Pair first second)) (Pairs wanted refused) }
    ensures xml { (graph : Graph) (tag attributes content : Thing) (wanted refused : List Triple)
        (given : List Triple × List Triple × List Triple) (left : List Triple)
        → IsTask (XmlTask wanted refused given left)
        → AreInWay (map (answers graph) (tag ∷ attributes ∷ content ∷ []))
        (questions_of (XmlTask wanted refused given left))
        → AllOf (λ parts. reader graph (thing.Xml tag attributes content)
        (formula.Xml parts.0 parts.1 parts.2) false) left
        → IsInClause AnXml (reader graph (thing.Xml tag attributes content))
        (Xmls wanted refused) }
    ensures record_of_row { (graph : Graph) (fields : thing.Fields)
        (wanted refused : List RecordType) (given : Reasons) (left : List RecordType)
        → IsTask (RecordTask wanted refused given left)
        → IsForRow (answers graph) (thing_at fields) (row_of_given wanted refused given)
        → AllOf (λ type. reader graph (thing.Record fields)
        (formula.Record type.named type.rest) false) left
        → IsInClause ARecord (reader graph (thing.Record fields)) (Records wanted refused) }
{}

/// A function is made of one pair for each refused arrow, as long as tasks are left: the pair maps,
/// or it fails where no wanted arrow was given to the results.
pub fn tasks_make_functions()
    ensures no_pair { (graph : Graph) (wanted refused : List Pair)
        → IsFunctionBut graph wanted refused (arrows_of (tasks_of (Arrows wanted refused)))
        thing.NoPair }
    ensures cases { (task : Task) (cases later : List Task) → AreCases task cases
        → AllOf (λ case. arrows_of (case ∷ later) ≡ arrows_of (task ∷ later)) cases }
    ensures maps { (graph : Graph) (wanted refused : List Pair) (one : Pair) (others : List Pair)
        (pairs : thing.Pairs) (argument result : Thing) (given : List Pair) (arrow : Pair)
        (arrows left : List Pair)
        → IsFunctionBut graph wanted refused (one ∷ others) pairs
        → IsElement argument → IsElement result
        → IsTask (ArrowTask one wanted (given, arrow ∷ arrows) left)
        → AreInWay (map (answers graph) (argument ∷ result ∷ []))
        (questions_of (ArrowTask one wanted (given, arrow ∷ arrows) left))
        → AllOf (IsRightPair graph argument result) left
        → IsFunctionBut graph wanted refused others (thing.Maps argument result pairs) }
    ensures fails { (graph : Graph) (wanted refused : List Pair) (one : Pair) (others : List Pair)
        (pairs : thing.Pairs) (argument : Thing) (given left : List Pair)
        → IsFunctionBut graph wanted refused (one ∷ others) pairs → IsElement argument
        → IsTask (ArrowTask one wanted (given, []) left)
        → AreInWay (map (answers graph) (argument ∷ []))
        (questions_of (ArrowTask one wanted (given, []) left))
        → AllOf (λ parts. answers graph argument parts.0 false) left
        → IsFunctionBut graph wanted refused others (thing.Fails argument pairs) }
    ensures in_clause { (graph : Graph) (wanted refused : List Pair) (pairs : thing.Pairs)
        → IsFunctionBut graph wanted refused [] pairs
        → IsElement (thing.Function pairs)
        × IsInClause AFunction (reader graph (thing.Function pairs)) (Arrows wanted refused) }
{}

/// A clause that wants and refuses the same pair, XML formula or arrow is refuted by each family.
pub fn wanted_and_refused_is_refuted()
    ensures pairs { (family : List Question) (wanted refused : List Pair) (parts : Pair)
        → AnyOf (λ other. other ≡ parts) wanted → AnyOf (λ other. other ≡ parts) refused
        → Refutes family (Pairs wanted refused) }
    ensures xmls { (family : List Question) (wanted refused : List Triple) (parts : Triple)
        → AnyOf (λ other. other ≡ parts) wanted → AnyOf (λ other. other ≡ parts) refused
        → Refutes family (Xmls wanted refused) }
    ensures arrows { (family : List Question) (wanted refused : List Pair) (parts : Pair)
        → AnyOf (λ other. other ≡ parts) wanted → AnyOf (λ other. other ≡ parts) refused
        → Refutes family (Arrows wanted refused) }
{}

/// Elements and values answer alike at nodes with equal formulas, and at unions with the same
/// members.
pub fn unions_answer_alike()
    ensures nodes { (graph : Graph) (one other : NodeId) (e : Thing) (answer : Bool)
        → formula_at graph one ≡ formula_at graph other
        → answers graph e one answer ↔ answers graph e other answer }
    ensures nodes_by_values { (graph : Graph) (interfaces : Interfaces) (one other : NodeId)
        (v : Thing) (answer : Bool) → formula_at graph one ≡ formula_at graph other
        → value_answers graph interfaces v one answer
        ↔ value_answers graph interfaces v other answer }
    ensures unions { (graph : Graph) (some others : List Formula) (e : Thing) (answer : Bool)
        → SameMembers some others
        → holds (reader graph e) (Or (formulas_of some)) answer
        ↔ holds (reader graph e) (Or (formulas_of others)) answer }
    ensures unions_by_values { (graph : Graph) (interfaces : Interfaces)
        (some others : List Formula) (v : Thing) (answer : Bool) → SameMembers some others
        → holds (value_reader graph interfaces v) (Or (formulas_of some)) answer
        ↔ holds (value_reader graph interfaces v) (Or (formulas_of others)) answer }
{}

//! Laws of the machine that decides whether questions have elements. Each is the contract of a
//! function that does nothing.
ghost use Rattle.std.specs.Prelude.{◌≡◌, ◌++◌, true, List, [], ◌∷◌, Some, length, map};
ghost use Rattle.cd_sets.specs.declared.question.Question.{Question};
ghost use Rattle.cd_model.specs.AllOf.{AllOf};
ghost use Rattle.cd_model.specs.BuiltIns.{built_ins};
ghost use Rattle.cd_model.specs.Formula.{Graph, IsGraph};
ghost use Rattle.cd_model.specs.Kinds.{Kind, kind_of};
ghost use Rattle.cd_model.specs.Membership.{asked, answers, reader};
ghost use Rattle.cd_model.specs.Thing.{Thing, IsElement};
ghost use Rattle.cd_rules.specs.Dnf.{Conjunct};
ghost use Rattle.cd_rules.specs.Clauses.{Clause, IsInClause};
ghost use Rattle.cd_rules.specs.Examples.{asks, endless};
ghost use Rattle.cd_rules.specs.Family.{IsOfFamily, IsClosed, AsksNodes};
ghost use Rattle.cd_rules.specs.PartialConjuncts.{partial, clause_by, IsPartialOf};
ghost use Rattle.cd_rules.specs.Tasks.{IsTaskOfNodes};
ghost use Rattle.cd_rules.specs.Machine.{Witness, Work, State, state, IsWitness, Step, Steps};
ghost use Rattle.cd_rules.specs.Machine.{NotIn, all_questions};
ghost use Rattle.cd_rules.specs.Right.{IsWorkOf, IsRight, HasFirst, Differ};
ghost use Rattle.cd_rules.specs.Weight.{IsFurther, Ends};

/// What is right of a state stays right: of the frames, of the witnesses, and that each question is
/// there once. It is so where the machine starts, with what was found before.
pub fn steps_keep_states_right()
    ensures first { (graph : Graph) (settled : List Question) (witnesses : List Witness)
        → AllOf (IsWitness graph) witnesses
        → Differ (all_questions settled (state witnesses [] []))
        → IsRight graph settled (state witnesses [] []) }
    ensures kept { (graph : Graph) (settled : List Question) (before after : State)
        → Steps graph settled before after → IsRight graph settled before
        → IsRight graph settled after }
    ensures joined { (graph : Graph) (settled : List Question) (before now after : State)
        → Steps graph settled before now → Steps graph settled now after
        → Steps graph settled before after }
{}

/// Where no frame is left, what is settled and listed is a closed family, of questions of nodes: so
/// no question of the list has an element. With the list settled, all is as at a start.
pub fn ends_are_closed()
    ensures closed { (graph : Graph) (settled list : List Question) (witnesses : List Witness)
        → IsClosed graph settled → IsRight graph settled (state witnesses list [])
        → IsClosed graph (settled ++ list) }
    ensures empty { (graph more : Graph) (settled list : List Question) (witnesses : List Witness)
        (question : Question) (e : Thing) → graph ≡ built_ins ++ more
        → IsClosed graph settled → IsRight graph settled (state witnesses list [])
        → IsOfFamily question list → IsElement e → asked (answers graph e) question true → ⊥ }
    ensures asks { (graph : Graph) (settled list : List Question) (witnesses : List Witness)
        → IsRight graph settled (state witnesses list [])
        → AllOf (AsksNodes (length graph)) list }
    ensures again { (graph : Graph) (settled list : List Question) (witnesses : List Witness)
        → IsRight graph settled (state witnesses list [])
        → IsRight graph (settled ++ list) (state witnesses [] []) }
{}

/// Each step goes further. So each run from a state that is right comes to an end, as long as its
/// questions are among those of some list, as are all questions of sets of nodes.
pub fn runs_end()
    ensures further { (graph : Graph) (settled : List Question) (before after : State)
        → Step graph settled before after → IsFurther before after }
    ensures ends { (graph : Graph) (settled all : List Question) (now : State)
        → IsRight graph settled now → Ends graph settled all now }
{}

/// A question is new where it is not settled, not listed and has no witness.
pub fn questions_are_new()
    ensures { (settled : List Question) (now : State) (question : Question)
        → NotIn settled question → NotIn now.list question
        → NotIn (map (λ witness. witness.0) now.witnesses) question
        → NotIn (all_questions settled now) question }
{}

/// The branches of a question are tasks whose parts are nodes of the graph.
pub fn branches_are_of_nodes()
    ensures { (graph more : Graph) (base : List Question) (question : Question) (left : Work)
        → graph ≡ built_ins ++ more → IsGraph graph → IsWorkOf graph base question left
        → AllOf (IsTaskOfNodes (length graph)) left.branches }
{}

/// A question that is first in the list stays there until it has a witness, which it keeps.
pub fn first_question_is_kept()
    ensures kept { (graph : Graph) (settled : List Question) (question : Question)
        (before after : State) → Step graph settled before after → IsRight graph settled before
        → HasFirst question before → HasFirst question after }
{}

/// An element of the clause whose branches are worked at, or of the clause of a complete conjunct,
/// is an element of the question.
pub fn members_are_witnesses()
    ensures begun { (graph : Graph) (base : List Question) (question : Question) (left : Work)
        (clause : Clause) (e : Thing)
        → IsWorkOf graph base question left → left.clause ≡ Some clause
        → IsElement e → IsInClause (kind_of e) (reader graph e) clause
        → IsWitness graph (question, e) }
    ensures complete { (graph : Graph) (question : Question) (kind : Kind) (conjunct : Conjunct)
        (e : Thing) → IsPartialOf graph question (partial kind conjunct [])
        → IsElement e → IsInClause (kind_of e) (reader graph e) (clause_by kind conjunct)
        → IsWitness graph (question, e) }
{}

/// A small run: no pair is of an integer and such a pair again, without end.
pub fn worked_examples()
    ensures { Steps endless [] (state [] [] []) (state [] (asks (14 ∷ []) [] ∷ []) []) }
{}

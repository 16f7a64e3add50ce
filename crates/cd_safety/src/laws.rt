//! Laws of safety. Each is the contract of a function that does nothing.
ghost use Rattle.std.specs.Prelude.{◌≡◌, ◌++◌, List, codes};
ghost use Rattle.cd_sets.specs.declared.node_id.NodeId.{NodeId};
ghost use Rattle.cd_model.specs.AllOf.{AllOf};
ghost use Rattle.cd_model.specs.BuiltIns.{built_ins};
ghost use Rattle.cd_model.specs.Formula.{Graph, IsGraph};
ghost use Rattle.cd_model.specs.Interfaces.{Interfaces};
ghost use Rattle.cd_model.specs.Thing.{Atom};
ghost use Rattle.cd_program.specs.Expr.{FunctionTree, Program};
ghost use Rattle.cd_program.specs.WellMade.{IsWellMadeProgram};
ghost use Rattle.cd_resolve.specs.Faults.{Fault};
ghost use Rattle.cd_names.specs.ProgramFaults.{IsFaultOfProgram};
ghost use Rattle.cd_typing.specs.Kept.{Kept, Only};
ghost use Rattle.cd_typing.specs.Sites.{all_sites, kept_sites, AreMatched};
ghost use Rattle.cd_typing.specs.Typed.{IsTyped, IsTypedWithin, scope_of};
ghost use Rattle.cd_evaluation.specs.ProgramFunctions.{all_functions, PlacesDiffer};
ghost use Rattle.cd_safety.specs.Accepted.{IsAccepted};
ghost use Rattle.cd_safety.specs.ComesWithin.{KeepsTypes, IsExpected, StaysWithin};
ghost use Rattle.cd_safety.specs.Examples.{identity, identity_program, x_tree};
ghost use Rattle.cd_safety.specs.Examples.{integers_kept, truths_kept};
ghost use Rattle.cd_safety.specs.KindsIn.{KindsOfFunction};
ghost use Rattle.cd_safety.specs.PatternsIn.{EachOfFunction};
ghost use Rattle.cd_safety.specs.PatternTypes.{IsTypedPattern};
ghost use Rattle.cd_safety.specs.SafeProgram.{IsMain, IsSafeProgram};
ghost use Rattle.cd_safety.specs.TypedMain.{ArrowsGiveData};
ghost use Rattle.cd_safety.specs.WellWritten.{InRange};

use cd_names::laws::captured_names_are_bound;

/// A program that is accepted never gets stuck on a document in the argument of an arrow of `main`.
/// What it gives is data in the result of the arrow, and what it raises is data.
pub fn accepted_programs_are_safe()
    ensures { (program : Program) → IsAccepted program → IsSafeProgram program }
{}

/// Where an accepted program has types within those that are kept for its matches, each run asks a
/// pattern only of values in a type that is kept for it: what the program comes to on a document,
/// it comes to also where its patterns answer for such values alone.
pub fn values_come_within()
    ensures { (kept : Kept) (program : Program) → KeepsTypes kept → IsAccepted program
        → IsTypedWithin kept program → StaysWithin kept program }
{}

/// So it is where nodes of a graph hold what may come to the sites of an accepted program: each run
/// asks a pattern only of values in the node of its site.
pub fn values_come_to_sites()
    ensures { (graph more : Graph) → graph ≡ built_ins ++ more → IsGraph graph
        → (program : Program) (ids : List NodeId)
        → AreMatched (scope_of program) graph (all_sites program) ids → IsAccepted program
        → StaysWithin (Only (kept_sites graph (all_sites program) ids)) program }
{}

/// The program `let fun main (Int -> Int) x -> x` has types where integers are kept for its match,
/// and an atom is not expected there. It has none where truth values are kept, and leaves these.
pub fn examples_within()
    ensures typed { IsTypedWithin integers_kept identity_program }
    ensures unexpected { (interfaces : Interfaces)
        → IsExpected interfaces integers_kept x_tree (Atom (codes "a")) → ⊥ }
    ensures too_few { IsTypedWithin truths_kept identity_program → ⊥ }
    ensures leaves { StaysWithin truths_kept identity_program → ⊥ }
{}

/// A program with types, whose names are sound, is accepted where its constants and characters are
/// in range, no two functions begin at one place, and the types of its patterns are nodes of a
/// graph.
pub fn typed_programs_are_accepted()
    ensures { (program : Program) → IsTyped program → IsWellMadeProgram program
        → ((fault : Fault) → IsFaultOfProgram program fault → ⊥)
        → AllOf (KindsOfFunction InRange) program.functions
        → PlacesDiffer (all_functions program)
        → AllOf (EachOfFunction (IsTypedPattern (scope_of program))) program.functions
        → IsAccepted program }
{
    // The contract of this call says that a pattern captures the names that it binds.
    captured_names_are_bound();
}

/// A program with types, whose names are sound, has a function that is `main`. The arrows of this
/// function are types, and give data alone.
pub fn typed_programs_have_main()
    ensures { (program : Program) → IsTyped program
        → ((fault : Fault) → IsFaultOfProgram program fault → ⊥)
        → PlacesDiffer (all_functions program)
        → (main : FunctionTree) × IsMain program main × ArrowsGiveData (scope_of program) main }
{}

/// The program `let fun main (Int -> Int) x -> x` is accepted, and its function is `main`.
pub fn a_program_is_accepted()
    ensures accepted { IsAccepted identity_program }
    ensures main { IsMain identity_program identity }
{}

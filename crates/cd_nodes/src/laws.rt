//! Laws of nodes of written types. Each is the contract of a function that does nothing.
ghost use Rattle.std.specs.Prelude.{[], ◌∷◌};
ghost use Rattle.cd_syntax.specs.TypeTree.{Tree, Declarations};
ghost use Rattle.cd_syntax.specs.WellMadePattern.{IsWellMadePattern};
ghost use Rattle.cd_syntax.specs.WellMadePattern.{AreWellMadePatternDeclarations};
ghost use Rattle.cd_model.specs.AllOf.{AllOf};
ghost use Rattle.cd_matching.specs.WrittenPattern.{in_scope};
ghost use Rattle.cd_program.specs.Expr.{Program};
ghost use Rattle.cd_program.specs.WellMade.{IsWellMadeProgram};
ghost use Rattle.cd_resolve.specs.Faults.{Fault, IsFaultOfType, IsFaultOfDeclarations};
ghost use Rattle.cd_names.specs.ProgramFaults.{IsFaultOfProgram};
ghost use Rattle.cd_typing.specs.Typed.{IsTyped, scope_of};
ghost use Rattle.cd_evaluation.specs.ProgramFunctions.{all_functions, PlacesDiffer};
ghost use Rattle.cd_safety.specs.Accepted.{IsAccepted};
ghost use Rattle.cd_safety.specs.KindsIn.{KindsOfFunction};
ghost use Rattle.cd_safety.specs.PatternsIn.{EachOfFunction};
ghost use Rattle.cd_safety.specs.PatternTypes.{IsTypedPattern};
ghost use Rattle.cd_safety.specs.SafeProgram.{IsSafeProgram};
ghost use Rattle.cd_safety.specs.WellWritten.{InRange};
ghost use Rattle.cd_nodes.specs.ConstantsInRange.{ConstantsInRange};
ghost use Rattle.cd_nodes.specs.HasNode.{HasNode};

use cd_safety::laws::{accepted_programs_are_safe, typed_programs_are_accepted};

/// A well made type that sees well made declarations has a node, where no naming fault stands in
/// it nor in the declarations.
pub fn types_have_nodes()
    ensures { (types : Declarations) (t : Tree)
        → AreWellMadePatternDeclarations types → IsWellMadePattern t
        → ((fault : Fault) → IsFaultOfDeclarations types fault → ⊥)
        → ((fault : Fault) → IsFaultOfType types t fault → ⊥)
        → HasNode (in_scope (types ∷ []) t) }
{}

/// The types of such a pattern, whose constants are in range, are nodes of one graph.
pub fn patterns_have_nodes()
    ensures { (types : Declarations) (pattern : Tree)
        → AreWellMadePatternDeclarations types → IsWellMadePattern pattern
        → ConstantsInRange pattern
        → ((fault : Fault) → IsFaultOfDeclarations types fault → ⊥)
        → ((fault : Fault) → IsFaultOfType types pattern fault → ⊥)
        → IsTypedPattern (types ∷ []) pattern }
{}

/// So are those of each pattern of a program whose names are sound, and whose patterns have
/// constants in range.
pub fn programs_have_typed_patterns()
    ensures { (program : Program) → IsWellMadeProgram program
        → ((fault : Fault) → IsFaultOfProgram program fault → ⊥)
        → AllOf (EachOfFunction ConstantsInRange) program.functions
        → AllOf (EachOfFunction (IsTypedPattern (scope_of program))) program.functions }
{}

/// A program with types, whose names are sound, is accepted where its constants and characters are
/// in range, those of its patterns too, and no two functions begin at one place.
pub fn sound_programs_are_accepted()
    ensures { (program : Program) → IsTyped program → IsWellMadeProgram program
        → ((fault : Fault) → IsFaultOfProgram program fault → ⊥)
        → AllOf (KindsOfFunction InRange) program.functions
        → AllOf (EachOfFunction ConstantsInRange) program.functions
        → PlacesDiffer (all_functions program)
        → IsAccepted program }
{
    // The contracts of these calls: its patterns have types, so the program is accepted.
    programs_have_typed_patterns();
    typed_programs_are_accepted();
}

/// A program with types, whose names are sound, is safe where its constants and characters are in
/// range, those of its patterns too, and no two functions begin at one place.
pub fn sound_programs_are_safe()
    ensures { (program : Program) → IsTyped program → IsWellMadeProgram program
        → ((fault : Fault) → IsFaultOfProgram program fault → ⊥)
        → AllOf (KindsOfFunction InRange) program.functions
        → AllOf (EachOfFunction ConstantsInRange) program.functions
        → PlacesDiffer (all_functions program)
        → IsSafeProgram program }
{
    // The contracts of these calls: the program is accepted, and so it is safe.
    sound_programs_are_accepted();
    accepted_programs_are_safe();
}

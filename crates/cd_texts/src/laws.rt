//! Laws of programs that texts write. Each is the contract of a function that does nothing.
ghost use Rattle.std.specs.Prelude.{ℕ, false, List};
ghost use Rattle.std.specs.Char.{IsScalar};
ghost use Rattle.cd_syntax.specs.declared.tokens.Token.{Token};
ghost use Rattle.cd_syntax.specs.Tokens.{Lexes};
ghost use Rattle.cd_model.specs.AllOf.{AllOf};
ghost use Rattle.cd_program.specs.Expr.{Program};
ghost use Rattle.cd_resolve.specs.Faults.{Fault};
ghost use Rattle.cd_names.specs.ProgramFaults.{IsFaultOfProgram};
ghost use Rattle.cd_typing.specs.Kept.{Kept};
ghost use Rattle.cd_typing.specs.Typed.{IsTyped, IsTypedWithin};
ghost use Rattle.cd_grammar.specs.Language.{IsProgram};
ghost use Rattle.cd_safety.specs.Accepted.{IsAccepted};
ghost use Rattle.cd_safety.specs.ComesWithin.{KeepsTypes, StaysWithin};
ghost use Rattle.cd_safety.specs.PatternsIn.{EachOfFunction};
ghost use Rattle.cd_safety.specs.SafeProgram.{IsSafeProgram};
ghost use Rattle.cd_nodes.specs.ConstantsInRange.{ConstantsInRange};

use cd_grammar::laws::trees_are_well_made;
use cd_nodes::laws::sound_programs_are_accepted;
use cd_placed::laws::{constants_are_elements, places_differ};
use cd_safety::laws::{accepted_programs_are_safe, values_come_within};

/// The constants in the patterns of a program that a text writes are in range, where the characters
/// of the text are of Unicode.
pub fn constants_of_patterns_are_in_range()
    ensures { (text : List ℕ) (tokens : List Token) (depth : ℕ) (program : Program)
        → AllOf IsScalar text → Lexes false 0 text tokens → IsProgram depth tokens program
        → AllOf (EachOfFunction ConstantsInRange) program.functions }
{}

/// A program that a text of Unicode characters writes, which has types and whose names are sound,
/// is accepted.
pub fn written_programs_are_accepted()
    ensures { (text : List ℕ) (tokens : List Token) (depth : ℕ) (program : Program)
        → AllOf IsScalar text → Lexes false 0 text tokens → IsProgram depth tokens program
        → IsTyped program → ((fault : Fault) → IsFaultOfProgram program fault → ⊥)
        → IsAccepted program }
{
    // The contracts of these calls: what is asked besides types and names holds of each program
    // that a text writes.
    trees_are_well_made();
    places_differ();
    constants_are_elements();
    constants_of_patterns_are_in_range();
    sound_programs_are_accepted();
}

/// A program that a text of Unicode characters writes, which has types and whose names are sound,
/// is safe.
pub fn written_programs_are_safe()
    ensures { (text : List ℕ) (tokens : List Token) (depth : ℕ) (program : Program)
        → AllOf IsScalar text → Lexes false 0 text tokens → IsProgram depth tokens program
        → IsTyped program → ((fault : Fault) → IsFaultOfProgram program fault → ⊥)
        → IsSafeProgram program }
{
    // The contracts of these calls: it is accepted, and so it is safe.
    written_programs_are_accepted();
    accepted_programs_are_safe();
}

/// Where such a program has types within those that are kept for its matches, each run asks a
/// pattern only of values in a type that is kept for it.
pub fn written_programs_stay_within()
    ensures { (text : List ℕ) (tokens : List Token) (depth : ℕ) (program : Program)
        → AllOf IsScalar text → Lexes false 0 text tokens → IsProgram depth tokens program
        → IsTyped program → ((fault : Fault) → IsFaultOfProgram program fault → ⊥)
        → (kept : Kept) → KeepsTypes kept → IsTypedWithin kept program
        → StaysWithin kept program }
{
    // The contracts of these calls: it is accepted, and so what comes to its matches is kept.
    written_programs_are_accepted();
    values_come_within();
}

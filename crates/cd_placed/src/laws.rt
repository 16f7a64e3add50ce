//! Laws of programs that texts write. Each is the contract of a function that does nothing.
ghost use Rattle.std.specs.Prelude.{ℕ, false, List};
ghost use Rattle.std.specs.Char.{IsScalar};
ghost use Rattle.cd_syntax.specs.declared.tokens.Token.{Token};
ghost use Rattle.cd_syntax.specs.Tokens.{Lexes};
ghost use Rattle.cd_model.specs.AllOf.{AllOf};
ghost use Rattle.cd_program.specs.Expr.{Program};
ghost use Rattle.cd_grammar.specs.Language.{IsProgram};
ghost use Rattle.cd_evaluation.specs.ProgramFunctions.{all_functions, PlacesDiffer};
ghost use Rattle.cd_safety.specs.KindsIn.{KindsOfFunction};
ghost use Rattle.cd_safety.specs.WellWritten.{InRange};
ghost use Rattle.cd_placed.specs.Patterns.{all_patterns, StartsDiffer};

/// No two functions of a program that a text writes stand at one place, and no two patterns of its
/// branches and of its `let` begin at one.
pub fn places_differ()
    ensures functions { (text : List ℕ) (tokens : List Token) (depth : ℕ) (program : Program)
        → Lexes false 0 text tokens → IsProgram depth tokens program
        → PlacesDiffer (all_functions program) }
    ensures patterns { (text : List ℕ) (tokens : List Token) (depth : ℕ) (program : Program)
        → Lexes false 0 text tokens → IsProgram depth tokens program
        → StartsDiffer (all_patterns program) }
{}

/// The constants of a program that a text writes are elements, and the characters of its sequences
/// are of Unicode, where those of the text are.
pub fn constants_are_elements()
    ensures { (text : List ℕ) (tokens : List Token) (depth : ℕ) (program : Program)
        → AllOf IsScalar text → Lexes false 0 text tokens → IsProgram depth tokens program
        → AllOf (KindsOfFunction InRange) program.functions }
{}

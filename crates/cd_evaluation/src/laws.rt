//! Laws of what programs mean. Each is the contract of a function that does nothing.
ghost use Rattle.std.specs.Prelude.{◌≡◌, ◌≢◌, ◌≤ℤ◌, ℕ, ℤ, int_lt, Bool, List, [], Some};
ghost use Rattle.cd_model.specs.AllOf.{AllOf, AnyOf};
ghost use Rattle.cd_model.specs.Thing.{Thing, Integer};
ghost use Rattle.cd_program.specs.Expr.{Program};
ghost use Rattle.cd_evaluation.specs.Meaning.{Meaning};
ghost use Rattle.cd_evaluation.specs.Operations.{extreme};
ghost use Rattle.cd_evaluation.specs.ProgramCode.{code_of};
ghost use Rattle.cd_evaluation.specs.Runs.{Result};

/// With so many units a program has at most one outcome on a document, and as many units left.
pub fn runs_have_one_result()
    ensures { (program : Program) (main document : Thing) (units : ℕ) (one other : Result)
        → Meaning (code_of program) main document units one
        → Meaning (code_of program) main document units other → one ≡ other }
{}

/// What is found of a sequence is one of its items, by any order; by `<` it is no greater than each
/// of them, and by `>` no less. Among integers, one at least, something is found.
pub fn extremes_are_items()
    ensures item { (before : ℤ → ℤ → Bool) (found : ℤ) (ds : List Thing)
        → extreme before (Some ds) ≡ Some found → AnyOf (λ one. one ≡ Integer found) ds }
    ensures least { (found : ℤ) (ds : List Thing)
        → extreme (λ n m. int_lt n m) (Some ds) ≡ Some found
        → AllOf (λ d. (m : ℤ) × (d ≡ Integer m) × (found ≤ℤ m)) ds }
    ensures greatest { (found : ℤ) (ds : List Thing)
        → extreme (λ n m. int_lt m n) (Some ds) ≡ Some found
        → AllOf (λ d. (m : ℤ) × (d ≡ Integer m) × (m ≤ℤ found)) ds }
    ensures found { (before : ℤ → ℤ → Bool) (ds : List Thing)
        → AllOf (λ d. (n : ℤ) × (d ≡ Integer n)) ds → ds ≢ []
        → (n : ℤ) × (extreme before (Some ds) ≡ Some n) }
{}

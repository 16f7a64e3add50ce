//! Laws. Each is the contract of a function that does nothing.
ghost use Rattle.std.specs.Prelude.{◌≡◌, ℕ, zero, pos};
ghost use Rattle.cd_meaning.specs.Functions.{IsFunction};
ghost use Rattle.cd_meaning.specs.Sets.{◌⊆◌};
ghost use Rattle.cd_model.specs.BuiltIns.{INT};
ghost use Rattle.cd_model.specs.Scope.{Scope};
ghost use Rattle.cd_model.specs.Thing.{Thing, Integer, IsElement};
ghost use Rattle.cd_typing.specs.declared.rule.Rule.{Rule};
ghost use Rattle.cd_typing.specs.declared.rule.Rule.TheVariants.{NotFunction, Divisor};
ghost use Rattle.cd_program.specs.Expr.{Expr, Program};
ghost use Rattle.cd_typing.specs.Examples.{x_of_x, ten_by_x, XMayBe};
ghost use Rattle.cd_typing.specs.Typ.{Types, Typ, In, IsType, BuiltIn};
ghost use Rattle.cd_typing.specs.Typed.{IsTyped};
ghost use Rattle.cd_typing.specs.Typing.{Has};
ghost use Rattle.cd_least.specs.Faults.{Fault};
ghost use Rattle.cd_least.specs.ProgramFaults.{ProgramFault};

/// An expression with a fault has no type, and a program with a fault has no types.
pub fn faults_are_refused()
    ensures expression { (scope : Scope) (e : Expr) (types : Types) (at : ℕ) (reported : Rule)
        (d : Thing)
        → Fault scope types e at reported d → (t : Typ) → Has scope types e t → ⊥ }
    ensures program { (program : Program) (at : ℕ) (reported : Rule) (d : Thing)
        → ProgramFault program at reported d → IsTyped program → ⊥ }
{}

/// `x x` is at fault where `x` may be something else than a function, and `10 div x` where it is an
/// integer and may be 0.
pub fn examples_with_faults()
    ensures function { (scope : Scope) (types : Types) (d : Thing) → IsElement d
        → (may : XMayBe types d) → IsType may.0 → (IsFunction d → ⊥)
        → Fault scope types x_of_x zero NotFunction d }
    ensures divisor { (scope : Scope) (types : Types) (d : Thing) → IsElement d
        → (may : XMayBe types d) → IsType may.0 → (In may.0 ⊆ BuiltIn INT) → d ≡ Integer (pos 0)
        → Fault scope types ten_by_x zero Divisor d }
{}

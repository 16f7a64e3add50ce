//! Laws of typing. Each is the contract of a function that does nothing.
ghost use Rattle.std.specs.Prelude.{pos, List};
ghost use Rattle.cd_sets.specs.declared.node_id.NodeId.{NodeId};
ghost use Rattle.cd_model.specs.Formula.{Graph};
ghost use Rattle.cd_model.specs.Scope.{Scope};
ghost use Rattle.cd_model.specs.Thing.{Thing, Integer, IsElement};
ghost use Rattle.cd_program.specs.Expr.{Expr, Program};
ghost use Rattle.cd_meaning.specs.Functions.{IsFunction};
ghost use Rattle.cd_meaning.specs.Sets.{◌⊆◌};
ghost use Rattle.cd_typing.specs.Examples.{x_of_x, ten_by_x, XMayBe};
ghost use Rattle.cd_typing.specs.Kept.{Only};
ghost use Rattle.cd_typing.specs.Sites.{all_sites, kept_sites, AreMatched};
ghost use Rattle.cd_typing.specs.Typ.{Typ, In, Types, AreNarrower};
ghost use Rattle.cd_typing.specs.Typed.{scope_of, IsTyped, IsTypedWithin};
ghost use Rattle.cd_typing.specs.Typing.{Has};

/// What has a type has each wider one.
pub fn types_may_be_wider()
    ensures { (scope : Scope) (e : Expr) (types : Types) (t s : Typ) → In t ⊆ In s
        → Has scope types e t → Has scope types e s }
{}

/// What has a type has it also where the names that it sees have narrower types.
pub fn names_may_be_narrower()
    ensures { (scope : Scope) (e : Expr) (types others : Types) → AreNarrower types others
        → (t : Typ) → Has scope others e t → Has scope types e t }
{}

/// `x x` has no type where `x` may be something else than a function, and `10 div x` has none where
/// `x` may be 0.
pub fn examples_without_types()
    ensures function { (scope : Scope) (types : Types) (d : Thing) → IsElement d
        → (IsFunction d → ⊥) → XMayBe types d → (t : Typ) → Has scope types x_of_x t → ⊥ }
    ensures divisor { (scope : Scope) (types : Types) → IsElement (Integer (pos 0))
        → XMayBe types (Integer (pos 0)) → (t : Typ) → Has scope types ten_by_x t → ⊥ }
{}

/// What is typed is typed also where only what may come to a site is kept for it: no more comes to
/// a closed one than its patterns take, and none but data to a catching one.
pub fn sites_have_types()
    ensures { (program : Program) (graph : Graph) (ids : List NodeId)
        → AreMatched (scope_of program) graph (all_sites program) ids → IsTyped program
        → IsTypedWithin (Only (kept_sites graph (all_sites program) ids)) program }
{}

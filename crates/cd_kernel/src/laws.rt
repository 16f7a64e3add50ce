//! Laws of kernels and automata. Each is the contract of a function that does nothing.
ghost use Rattle.std.specs.Prelude.{◌≡◌, ◌<◌, ◌≤◌, ℕ, Bool, List, [], ◌∷◌, length};
ghost use Rattle.cd_sets.specs.declared.node_id.NodeId.{NodeId};
ghost use Rattle.cd_model.specs.BuiltIns.{built_ins};
ghost use Rattle.cd_model.specs.Thing.{Thing};
ghost use Rattle.cd_matching.specs.Kernel.{Kernel, IsSound};
ghost use Rattle.cd_matching.specs.Naming.{GathersDisjoint, IsNamed};
ghost use Rattle.cd_matching.specs.Pattern.{Pattern, Regular};
ghost use Rattle.cd_matching.specs.Take.{ways};
ghost use Rattle.cd_matching.specs.Ways.{first_whole};
ghost use Rattle.cd_kernel.specs.Alternatives.{HasAlternatives};
ghost use Rattle.cd_moves.specs.Automaton.{run_whole};
ghost use Rattle.cd_kernel.specs.Examples as example;
ghost use Rattle.cd_kernel.specs.Examples.{both_ways, number, truth};
ghost use Rattle.cd_kernel.specs.Making.{the_types, IsMade, TakesAlike};
ghost use Rattle.cd_kernel.specs.Parts.{HasNoMore};
ghost use Rattle.cd_kernel.specs.WellMade.{IsWellMade};

/// The automaton of an expression takes a list in the first of its ways that leaves nothing.
pub fn automata_are_exact()
    ensures { (test : NodeId → Thing → Bool) (r : Regular NodeId) (things : List Thing)
        → GathersDisjoint [] r
        → run_whole NodeId test r things ≡ first_whole (ways NodeId test r things) }
{}

/// So it does at some lists, which some expressions take and some do not.
pub fn automata_run_as_ways()
    ensures tricky { both_ways example.tricky (number 1 ∷ truth ∷ number 2 ∷ []) }
    ensures tricky_empty { both_ways example.tricky [] }
    ensures tricky_once { both_ways example.tricky (number 1 ∷ []) }
    ensures tricky_too { both_ways example.tricky_too (number 1 ∷ number 2 ∷ number 3 ∷ []) }
    ensures tricky_too_fails { both_ways example.tricky_too (number 1 ∷ truth ∷ []) }
    ensures nested { both_ways example.nested (number 1 ∷ number 2 ∷ number 3 ∷ []) }
    ensures nested_empty { both_ways example.nested [] }
    ensures plain { both_ways example.plain (number 1 ∷ truth ∷ number 3 ∷ truth ∷ []) }
    ensures inner { both_ways example.inner (number 1 ∷ number 2 ∷ number 3 ∷ number 4 ∷ []) }
{}

/// The kernel that is made of a pattern takes what the pattern takes, with the same captures.
pub fn kernels_are_exact()
    ensures { (p : Pattern NodeId) (kernel : Kernel NodeId) → IsMade p kernel
        → TakesAlike p kernel }
{}

/// It is sound where the pattern is well made, no variable of it is at fault, each choice in a
/// sequence has an alternative, and the kernel has no other nodes and no other variables.
pub fn kernels_are_sound()
    ensures { (n : ℕ) (p : Pattern NodeId) (kernel : Kernel NodeId) → length built_ins ≤ n
        → IsMade p kernel → IsNamed p → IsWellMade (λ id. id.0 < n) p → HasAlternatives p
        → HasNoMore (λ id. id.0 < n) the_types p kernel → IsSound (λ id. id.0 < n) kernel }
{}

/// The kernel of `[x::Int* y::Int*]` is made of it, and has no more.
pub fn a_kernel_is_made()
    ensures made { IsMade example.greedy example.greedy_kernel }
    ensures named { IsNamed example.greedy }
    ensures well_made { (n : ℕ) → length built_ins ≤ n
        → IsWellMade (λ id. id.0 < n) example.greedy }
    ensures alternatives { HasAlternatives example.greedy }
    ensures no_more { (n : ℕ) → length built_ins ≤ n
        → HasNoMore (λ id. id.0 < n) the_types example.greedy example.greedy_kernel }
{}

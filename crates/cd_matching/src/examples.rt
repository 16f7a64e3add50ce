//! Worked examples of the definitions.
ghost use Rattle.std.specs.Prelude.{◌≡◌, ℕ, [], ◌∷◌, Some, None, codes};
ghost use Rattle.cd_matching.specs.Examples as example;
ghost use Rattle.cd_matching.specs.Examples.{captured, number, takes, truth, kernel_captures};
ghost use Rattle.cd_matching.specs.Examples.{one_to_three, one_true_two, int_tree, zero_tree};
ghost use Rattle.cd_matching.specs.Kernel.{IsSound};
ghost use Rattle.cd_matching.specs.Pattern.{OfType, Bind, Both, Pair, patterns_of};
ghost use Rattle.cd_matching.specs.Sequences.{sequence_of, text_of};
ghost use Rattle.cd_matching.specs.WrittenPattern.{pattern_of, in_scope, outside};

/// What some patterns capture.
pub fn worked_examples()
    ensures greedy_first { captured (codes "x") (takes example.greedy one_to_three)
        ≡ Some one_to_three }
    ensures greedy_second { captured (codes "y") (takes example.greedy one_to_three)
        ≡ Some (sequence_of []) }
    ensures lazy_first { captured (codes "x") (takes example.lazy one_to_three)
        ≡ Some (sequence_of []) }
    ensures lazy_second { captured (codes "y") (takes example.lazy one_to_three)
        ≡ Some one_to_three }
    ensures mixed_first { captured (codes "x") (takes example.mixed one_true_two)
        ≡ Some (sequence_of (number 1 ∷ number 2 ∷ [])) }
    ensures mixed_second { captured (codes "y") (takes example.mixed one_true_two)
        ≡ Some (sequence_of (truth ∷ [])) }
    ensures mixed_none { captured (codes "x") (takes example.mixed (sequence_of []))
        ≡ Some (sequence_of []) }
    ensures name { captured (codes "n") (takes example.name example.ada)
        ≡ Some (text_of (codes "Ada")) }
    ensures not_taken { takes example.greedy (number 1) ≡ None }
    ensures item_not_taken { takes example.greedy one_true_two ≡ None }
{}

/// A sound kernel captures what its pattern does.
pub fn kernel_examples()
    ensures first { captured (codes "x") (kernel_captures example.greedy_kernel one_to_three)
        ≡ captured (codes "x") (takes example.greedy one_to_three) }
    ensures second { captured (codes "y") (kernel_captures example.greedy_kernel one_to_three)
        ≡ captured (codes "y") (takes example.greedy one_to_three) }
    ensures empty_first { captured (codes "x")
        (kernel_captures example.greedy_kernel (sequence_of []))
        ≡ captured (codes "x") (takes example.greedy (sequence_of [])) }
    ensures empty_second { captured (codes "y")
        (kernel_captures example.greedy_kernel (sequence_of []))
        ≡ captured (codes "y") (takes example.greedy (sequence_of [])) }
    ensures not_taken { kernel_captures example.greedy_kernel one_true_two
        ≡ takes example.greedy one_true_two }
    ensures sound { IsSound example.IsTest example.greedy_kernel }
{}

/// The patterns that some trees write.
pub fn written_examples()
    ensures meet { pattern_of [] example.meet_tree ≡ Both (patterns_of
        (OfType (in_scope [] int_tree) ∷ OfType (in_scope [] (outside zero_tree))
        ∷ Bind (codes "x") ∷ [])) }
    ensures pair { pattern_of [] example.pair_tree
        ≡ Pair (Bind (codes "x")) (OfType (in_scope [] int_tree)) }
    ensures no_variable { pattern_of [] example.type_tree
        ≡ OfType (in_scope [] example.type_tree) }
{}

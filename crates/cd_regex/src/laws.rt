//! Laws of regular expressions. Each is the contract of a function that does nothing.
ghost use Rattle.std.specs.Prelude.{ℕ, true, false};
ghost use Rattle.cd_model.specs.BuiltIns.{built_ins};
ghost use Rattle.cd_model.specs.Examples.{nil};
ghost use Rattle.cd_model.specs.Types.{are_in};
ghost use Rattle.cd_regex.specs.Regular.{Regular, Nothing, Seq, Alt, Star, Opt, NoRegular, fits};
ghost use Rattle.cd_regex.specs.Regular.{AsksBelow};
ghost use Rattle.cd_regex.specs.Automaton.{sequence_formulas};
ghost use Rattle.cd_regex.specs.Sequences.{items_of, HoldsSequences};
ghost use Rattle.cd_regex.specs.Examples as example;

/// Where an expression asks for nodes below a number alone, the formulas of its states hold its
/// sequences from that number on.
pub fn states_hold_sequences()
    ensures { (first : ℕ) (is : Regular) → AsksBelow first is
        → HoldsSequences first is (sequence_formulas first is) }
{}

/// Whether some sequences fit some expressions: each answer has a short reason.
pub fn worked_examples()
    ensures nothing { are_in (items_of built_ins nil) (fits Nothing) true }
    ensures something { are_in (items_of built_ins example.one) (fits Nothing) false }
    ensures no_turn { are_in (items_of built_ins nil) (fits example.ints) true }
    ensures two_turns { are_in (items_of built_ins example.one_and_one) (fits example.ints) true }
    ensures wrong_turn { are_in (items_of built_ins example.one_and_c) (fits example.ints) false }
    ensures in_turn { are_in (items_of built_ins example.one_and_c)
        (fits example.int_and_char) true }
    ensures wrong_order { are_in (items_of built_ins example.one_and_c)
        (fits example.char_and_int) false }
    ensures one_is_left { are_in (items_of built_ins example.one)
        (fits example.int_and_char) false }
    ensures turns_of_two { are_in (items_of built_ins example.twice)
        (fits example.both_in_turn) true }
    ensures one_of_two { are_in (items_of built_ins example.one) (fits example.int_or_char) true }
    ensures none_of_two { are_in (items_of built_ins nil) (fits example.int_or_char) false }
    ensures one_of_none { are_in (items_of built_ins nil) (fits (Alt NoRegular)) false }
    ensures all_of_none { are_in (items_of built_ins nil) (fits (Seq NoRegular)) true }
    ensures once_or_more { are_in (items_of built_ins example.one_and_one)
        (fits example.some_ints) true }
    ensures not_once { are_in (items_of built_ins nil) (fits example.some_ints) false }
    ensures at_most_once { are_in (items_of built_ins nil) (fits example.int_or_none) true }
    ensures more_than_once { are_in (items_of built_ins example.one_and_one)
        (fits example.int_or_none) false }
    ensures turns_of_nothing { are_in (items_of built_ins nil) (fits (Star Nothing)) true }
    ensures no_sequence { are_in (items_of built_ins example.pair)
        (fits (Star (Opt example.int))) false }
{}

//! Worked examples of the definitions.
ghost use Rattle.std.specs.Prelude.{◌≡◌, ◌++◌, ℕ, pos, negsuc, true, false, [], ◌∷◌, codes, length};
ghost use Rattle.cd_syntax.specs.Integer.{LEAST};
ghost use Rattle.cd_syntax.specs.TypeTree.{Text, Regular};
ghost use Rattle.cd_syntax.specs.declared.builtin.BuiltinName.TheVariants as builtin;
ghost use Rattle.cd_model.specs.BuiltIns.{node_named};
ghost use Rattle.cd_model.specs.Canonical.{canonical};
ghost use Rattle.cd_model.specs.Examples as example;
ghost use Rattle.cd_model.specs.Examples.{text_of, sequence_of, function_of, INT};
ghost use Rattle.cd_model.specs.Formula.{IsGraph, IsIn, IsOutside};
ghost use Rattle.cd_model.specs.Guarded.{IsGuarded};
ghost use Rattle.cd_model.specs.Interfaces.{value_in_node};
ghost use Rattle.cd_model.specs.Thing as thing;
ghost use Rattle.cd_model.specs.Thing.{Thing, Integer, Character, Atom, IsElement, IsValue};
ghost use Rattle.cd_model.specs.WrittenExamples as written;
ghost use Rattle.cd_model.specs.Written.{in_written};

/// Membership at some elements: each answer has a short reason.
pub fn worked_examples()
    ensures integer { IsIn example.graph (Integer (negsuc 4)) INT }
    ensures no_integer { IsOutside example.graph (Atom (codes "a")) INT }
    ensures pair { IsIn example.graph
        (thing.Pair (Integer (pos 1)) (Character 99)) example.INT_AND_CHAR }
    ensures no_pair { IsOutside example.graph example.pair example.INT_AND_CHAR }
    ensures fails_where_nothing_is { IsIn example.graph example.fails_at_zero
        (node_named builtin.Arrow) }
    ensures fails_at_an_argument { IsOutside example.graph example.fails_at_zero example.FROM_ZERO }
    ensures closed { IsIn example.graph example.one_field example.CLOSED }
    ensures not_closed { IsOutside example.graph example.two_fields example.CLOSED }
    ensures opened { IsIn example.graph example.two_fields example.OPEN }
    ensures no_field { IsOutside example.graph (thing.Record thing.NoField) example.OPEN }
    ensures list { IsIn example.graph example.list example.INTS }
    ensures no_list { IsOutside example.graph example.pair example.INTS }
    ensures xml { IsIn example.graph example.xml example.XML }
    ensures no_xml { IsOutside example.graph example.list example.XML }
    ensures other_tag { IsOutside example.graph example.other_xml example.XML }
    ensures out_of_bounds { IsOutside example.graph (Integer (pos 1)) example.ZERO }
    ensures maps { IsIn example.graph example.zero_to_one example.FROM_ZERO }
    ensures maps_elsewhere { IsOutside example.graph example.zero_to_one example.TO_ZERO }
    ensures absent { IsIn example.graph (thing.Record thing.NoField) example.OPTIONAL }
    ensures wrong_field { IsOutside example.graph example.wrong_field example.OPTIONAL }
    ensures difference { IsIn example.graph (Integer (pos 1)) example.NOT_ZERO }
    ensures no_difference { IsOutside example.graph (Integer (pos 0)) example.NOT_ZERO }
    ensures all_arrows_at_once { value_in_node example.graph example.to_both example.closure
        example.NOWHERE true }
    ensures no_arrow { value_in_node example.graph example.no_arrows example.closure
        example.FROM_ZERO true → ⊥ }
{}

/// Terms that are a graph, elements and values, and some that are not.
pub fn sound_examples()
    ensures graph { IsGraph example.graph }
    ensures list { IsElement example.list }
    ensures fields { IsElement example.two_fields }
    ensures xml { IsElement example.xml }
    ensures function { IsElement example.fails_at_zero }
    ensures closure { IsValue example.closure }
    ensures falling_labels { IsElement example.falling_fields → ⊥ }
    ensures label_again { IsElement example.label_again → ⊥ }
    ensures no_name { IsElement (Atom (codes "_")) → ⊥ }
    ensures no_closure { IsElement example.closure → ⊥ }
    ensures no_list_of_pairs { IsValue example.fails_at_zero → ⊥ }
{}

/// Canonical texts.
pub fn canonical_examples()
    ensures integer { canonical (Integer (negsuc 4)) ≡ codes "-5" }
    ensures character { canonical (Character 39) ≡ codes "'\\''" }
    ensures unseen { canonical (Character 7) ≡ codes "'\\7;'" }
    ensures atom { canonical (Atom (codes "true")) ≡ codes "`true" }
    ensures nil { canonical example.nil ≡ codes "[]" }
    ensures text { canonical (thing.Pair (Character 97) (thing.Pair (Character 34) example.nil))
        ≡ codes "\"a\\\"\"" }
    ensures runs { canonical
        (thing.Pair (Character 97)
        (thing.Pair (Character 98)
        (thing.Pair (Integer (pos 1)) (thing.Pair (Character 99) example.nil))))
        ≡ codes "['ab' 1 'c']" }
    ensures nested { canonical
        (thing.Pair (thing.Pair (Character 97) example.nil)
        (thing.Pair (Integer (pos 1)) example.nil)) ≡ codes "[\"a\" 1]" }
    ensures tuple { canonical
        (thing.Pair (Character 97) (thing.Pair (Character 98) (Integer (pos 1))))
        ≡ codes "('a', 'b', 1)" }
    ensures record_text { canonical example.two_fields ≡ codes "{a=1; b=2}" }
    ensures no_field { canonical (thing.Record thing.NoField) ≡ codes "{}" }
    ensures xml { canonical (thing.Xml (Atom (codes "a")) example.one_field example.list)
        ≡ codes "<a a=1>[1 2]" }
    ensures function { canonical
        (thing.Function (thing.Maps (Integer (pos 0)) (Atom (codes "true"))
        (thing.Fails example.pair thing.NoPair))) ≡ codes "fun{0 => `true; (1, 2) => ?}" }
    ensures no_pairs { canonical (thing.Function thing.NoPair) ≡ codes "fun{}" }
    ensures least { canonical (Integer LEAST) ≡ codes "-170141183460469231731687303715884105728" }
    ensures other_quote { canonical (Character 34) ≡ codes "'\"'" }
    ensures escapes { canonical (text_of (92 ∷ 39 ∷ 10 ∷ 13 ∷ 9 ∷ 31 ∷ 32 ∷ 127 ∷ 128 ∷ 955 ∷ []))
        ≡ 34 ∷ 92 ∷ 92 ∷ 39 ∷ (codes "\\n\\r\\t\\31; \\127;" ++ (128 ∷ 955 ∷ 34 ∷ [])) }
    ensures no_attributes { canonical example.xml ≡ codes "<a>[]" }
    ensures two_attributes { canonical
        (thing.Xml (Atom (codes "nil")) example.two_fields example.nil) ≡ codes "<nil a=1 b=2>[]" }
    ensures nil_as_item { canonical
        (thing.Pair example.nil (thing.Pair (Integer (pos 1)) example.nil)) ≡ codes "[[] 1]" }
    ensures one_item { canonical (thing.Pair (Integer (pos 1)) example.nil) ≡ codes "[1]" }
    ensures character_at_the_end { canonical (thing.Pair (Integer (pos 1)) (Character 97))
        ≡ codes "(1, 'a')" }
    ensures function_in_a_field { canonical
        (thing.Record (thing.Field (codes "a") (thing.Function thing.NoPair) thing.NoField))
        ≡ codes "{a=fun{}}" }
{}

/// Membership in written types at some elements.
pub fn written_examples()
    ensures hides { in_written (Character 99) written.hidden true }
    ensures hidden { in_written (Integer (pos 1)) written.hidden false }
    ensures own_scope { in_written (Integer (pos 1)) written.not_hidden true }
    ensures first_declared { in_written (Integer (pos 1)) written.declared_twice true }
    ensures not_the_second { in_written (Character 99) written.declared_twice false }
    ensures no_text { in_written example.nil (written.alone (Text [])) true }
    ensures no_other_atom { in_written (Atom (codes "a")) (written.alone (Text [])) false }
    ensures text { in_written (text_of (codes "ab")) written.text true }
    ensures other_text { in_written (text_of (codes "ba")) written.text false }
    ensures three { in_written
        (thing.Pair (Integer (pos 1))
        (thing.Pair (Integer (pos 2)) (Integer (pos 3)))) written.three true }
    ensures left_pairs { in_written
        (thing.Pair (thing.Pair (Integer (pos 1)) (Integer (pos 2)))
        (Integer (pos 3))) written.three false }
    ensures two_of_three { in_written
        (thing.Pair (Integer (pos 1)) (Integer (pos 2))) written.three false }
    ensures curried { in_written
        (function_of 0 (function_of 1 (Integer (pos 2)))) written.curried true }
    ensures no_function { in_written (function_of 0 (Integer (pos 2))) written.curried false }
    ensures fails { in_written
        (function_of 0 (thing.Function
        (thing.Fails (Integer (pos 1)) thing.NoPair))) written.curried false }
    ensures closed { in_written example.one_field written.closed true }
    ensures not_closed { in_written example.two_fields written.closed false }
    ensures opened { in_written example.two_fields written.opened true }
    ensures no_field { in_written (thing.Record thing.NoField) written.opened false }
    ensures absent { in_written (thing.Record thing.NoField) written.optional true }
    ensures least { in_written (Integer LEAST) written.at_most true }
    ensures above { in_written (Integer (pos 6)) written.at_most false }
    ensures falling { in_written (Integer (pos 3)) written.falling false }
    ensures kept { in_written (Integer (pos 2)) written.signs true }
    ensures taken_out { in_written (Integer (pos 0)) written.signs false }
    ensures outside_the_last { in_written (Integer (pos 3)) written.signs false }
    ensures circular { in_written (Integer (pos 1)) written.circular false }
    ensures not_circular { in_written (Integer (pos 1)) written.not_circular true }
    ensures list { in_written (thing.Pair (Integer (pos 0)) example.list) written.list true }
    ensures no_list { in_written example.pair written.list false }
    ensures no_items { in_written example.nil written.no_items true }
    ensures an_item_too_many { in_written
        (sequence_of (Integer (pos 1) ∷ [])) written.no_items false }
    ensures in_turn { in_written
        (sequence_of (Integer (pos 1) ∷ Integer (pos 2) ∷ Atom (codes "true")
        ∷ [])) written.ints_then_bool true }
    ensures none_taken { in_written example.list written.ints_then_bool true }
    ensures out_of_turn { in_written
        (sequence_of (Atom (codes "true") ∷ Integer (pos 1) ∷ [])) written.ints_then_bool false }
    ensures at_most_once { in_written
        (sequence_of (Atom (codes "true") ∷ Atom (codes "true")
        ∷ [])) written.ints_then_bool false }
    ensures characters { in_written (text_of (codes "ab")) written.characters true }
    ensures at_least_once { in_written example.nil written.ints_or_bool false }
    ensures one_of { in_written (sequence_of (Atom (codes "true") ∷ [])) written.ints_or_bool true }
    ensures turns_that_may_be_empty { in_written example.list written.ints_if_any true }
    ensures nested { in_written (sequence_of (example.nil ∷ example.nil ∷ [])) written.nested true }
    ensures lazy_turns { in_written
        (sequence_of (Integer (pos 1) ∷ Integer (pos 1) ∷ [])) written.lazy_ints true }
    ensures lazy_but_once { in_written example.nil written.some_lazy_ints false }
    ensures lazy_but_at_most_once { in_written
        (sequence_of (Integer (pos 1) ∷ Integer (pos 1) ∷ [])) written.lazy_int_if_any false }
    ensures one_empty_turn { in_written example.nil written.some_ints_if_any true }
    ensures turns_of_both { in_written
        (sequence_of (Integer (pos 1) ∷ Character 99 ∷ Integer (pos 1)
        ∷ [])) written.both_in_turn false }
    ensures mixed { in_written
        (sequence_of (sequence_of (Integer (pos 1) ∷ []) ∷ Integer (pos 2)
        ∷ [])) written.mixed true }
    ensures no_sequence { (is : Regular) → in_written example.pair (written.sequence is) false }
    ensures other_end { (is : Regular)
        → in_written (thing.Pair (Integer (pos 1)) (Atom (codes "a"))) (written.sequence is) false }
{}

/// Names that are guarded, and names that are not.
pub fn guarded_examples()
    ensures under_constructor { IsGuarded written.under_constructor }
    ensures in_declaration { IsGuarded written.in_declaration }
    ensures in_union { IsGuarded written.in_union → ⊥ }
    ensures in_difference { IsGuarded written.in_difference → ⊥ }
    ensures through_where { IsGuarded written.through_where → ⊥ }
{}

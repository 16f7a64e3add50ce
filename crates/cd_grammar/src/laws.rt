//! Laws of the grammar. Each is the contract of a function that does nothing.
ghost use Rattle.std.specs.Prelude.{◌≡◌, ◌≤◌, ◌++◌, ℕ, true, false, List, [], ◌∷◌};
ghost use Rattle.cd_syntax.specs.declared.sign.Sign.TheVariants as sign;
ghost use Rattle.cd_syntax.specs.declared.tokens.Span.{Span};
ghost use Rattle.cd_syntax.specs.declared.tokens.Token.{Token};
ghost use Rattle.cd_syntax.specs.declared.tokens.TokenKind.TheVariants as token;
ghost use Rattle.cd_syntax.specs.SyntaxFaults.{IsForm, BeginNone, IsWrong};
ghost use Rattle.cd_syntax.specs.SyntaxFaults.{IsUnfinished};
ghost use Rattle.cd_syntax.specs.Tokens.{at, Lexes};
ghost use Rattle.cd_syntax.specs.WellMade.{IsWellMade, AreWellMadeDeclarations};
ghost use Rattle.cd_syntax.specs.TypeTree.{Tree, Declarations, NoDeclaration};
ghost use Rattle.cd_program.specs.Expr.{Program};
ghost use Rattle.cd_program.specs.WellMade.{IsWellMadeProgram};
ghost use Rattle.cd_lr.specs.Flat.{numbered};
ghost use Rattle.cd_grammar.specs.Tables.{tables};
ghost use Rattle.cd_grammar.specs.Ruled.{rules, in_order};
ghost use Rattle.cd_grammar.specs.Language.{IsTree, AreDeclared, IsProgram};
ghost use Rattle.cd_grammar.specs.Forms.{AType, SomeDeclarations, AProgram};
ghost use Rattle.cd_grammar.specs.Examples.{AreExamples, group_tokens, group_tree, tuple_tokens};
ghost use Rattle.cd_grammar.specs.Examples.{tuple_tree, arrows_tokens, arrows_tree, arrow_tokens};
ghost use Rattle.cd_grammar.specs.Examples.{record_tokens, record_tree, where_tokens, where_tree};
ghost use Rattle.cd_grammar.specs.Examples.{signs_tokens, signs_tree, characters_tokens};
ghost use Rattle.cd_grammar.specs.Examples.{characters_tree, at_most_tokens, at_most_tree};
ghost use Rattle.cd_grammar.specs.Examples.{at_least_tokens, at_least_tree, declared_tokens};
ghost use Rattle.cd_grammar.specs.Examples.{declared_declarations, declared_alone_tokens};
ghost use Rattle.cd_grammar.specs.Examples.{declared_alone_declarations, argument_tokens};
ghost use Rattle.cd_grammar.specs.Examples.{argument_tree, sequence_tokens, sequence_tree};
ghost use Rattle.cd_grammar.specs.Examples.{union_tokens, union_tree, group_front};
ghost use Rattle.cd_grammar.specs.Examples.{group_sequence_tokens, group_sequence_tree};
ghost use Rattle.cd_grammar.specs.Examples.{arrow_item_tokens, arrow_item_tree, xml_tokens};
ghost use Rattle.cd_grammar.specs.Examples.{xml_tree, any_xml_tokens, any_xml_tree};
ghost use Rattle.cd_grammar.specs.Examples.{alternative_tokens, alternative_tree, mixed_tokens};
ghost use Rattle.cd_grammar.specs.Examples.{mixed_tree, nested_tokens, nested_tree};
ghost use Rattle.cd_grammar.specs.Examples.{typed_xml_tokens, typed_xml_tree, content_tokens};
ghost use Rattle.cd_grammar.specs.Examples.{attributes_tokens, keyword_tokens, keyword_tree};
ghost use Rattle.cd_grammar.specs.Examples.{constant_texts, chain_texts, record_texts, xml_texts};
ghost use Rattle.cd_grammar.specs.Examples.{keyword_texts, sequence_texts, item_texts, group_texts};
ghost use Rattle.cd_grammar.specs.Examples.{longer_texts};
ghost use Rattle.cd_grammar.specs.Examples.{comma_after_group, and_after_group, and_after_letters};
ghost use Rattle.cd_grammar.specs.Examples.{two_postfixes, two_letters, no_semicolon, no_label};
ghost use Rattle.cd_grammar.specs.Examples.{union_of_attribute, no_part, keyword_alone};
ghost use Rattle.cd_grammar.specs.Examples.{label_alone, two_types, where_again, begun_arrow};
ghost use Rattle.cd_grammar.specs.Examples.{no_keyword, no_type_name, semicolons_again};
ghost use Rattle.cd_grammar.specs.Examples.{begun_declaration, semicolon_after_others};
ghost use Rattle.cd_grammar.specs.Examples.{others_again};

/// Tokens write one type at most, one list of declarations, and one program's types and functions.
pub fn tree_is_one()
    ensures tree { (depth other : ℕ) (tokens : List Token) (first second : Tree)
        → IsTree depth tokens first → IsTree other tokens second → first ≡ second }
    ensures declared { (depth other : ℕ) (tokens : List Token) (first second : Declarations)
        → AreDeclared depth tokens first → AreDeclared other tokens second → first ≡ second }
    ensures program { (depth other : ℕ) (tokens : List Token) (first second : Program)
        → IsProgram depth tokens first → IsProgram other tokens second
        → (first.types ≡ second.types) × (first.functions ≡ second.functions) }
{}

/// What is written at a depth is written at each greater one.
pub fn depth_is_a_bound()
    ensures tree { (depth more : ℕ) (tokens : List Token) (is : Tree) → depth ≤ more
        → IsTree depth tokens is → IsTree more tokens is }
    ensures declared { (depth more : ℕ) (tokens : List Token) (declarations : Declarations)
        → depth ≤ more → AreDeclared depth tokens declarations
        → AreDeclared more tokens declarations }
    ensures program { (depth more : ℕ) (tokens : List Token) (program : Program) → depth ≤ more
        → IsProgram depth tokens program → IsProgram more tokens program }
{}

/// The rules of the tables are those of the lines, in their order and by their numbers.
pub fn tables_are_of_the_lines()
    ensures rules { in_order tables.rules ≡ rules }
    ensures numbers { numbered tables.rules 0 ≡ true }
{}

/// What tokens of a text write is well made: a type, type declarations, and a program.
pub fn trees_are_well_made()
    ensures types { (text : List ℕ) (tokens : List Token) (depth : ℕ) (is : Tree)
        → Lexes false 0 text tokens → IsTree depth tokens is → IsWellMade is }
    ensures declarations { (text : List ℕ) (tokens : List Token) (depth : ℕ)
        (declarations : Declarations)
        → Lexes false 0 text tokens → AreDeclared depth tokens declarations
        → AreWellMadeDeclarations declarations }
    ensures programs { (text : List ℕ) (tokens : List Token) (depth : ℕ) (program : Program)
        → Lexes false 0 text tokens → IsProgram depth tokens program
        → IsWellMadeProgram program }
{}

/// Types, files of declarations and programs are forms: what begins with tokens begins with fewer
/// of them, what is written begins so, and what begins is written by more tokens.
pub fn texts_have_forms()
    ensures types { IsForm AType }
    ensures declarations { IsForm SomeDeclarations }
    ensures programs { IsForm AProgram }
{}

/// The grammar of types at some texts, each given as its tokens: the tree that they write, and
/// where it stands. An arrow is too deep for depth 0.
pub fn grammar_examples()
    ensures group { IsTree 1 group_tokens group_tree }
    ensures tuple { IsTree 1 tuple_tokens tuple_tree }
    ensures arrows { IsTree 2 arrows_tokens arrows_tree }
    ensures record_type { IsTree 1 record_tokens record_tree }
    ensures where_names { IsTree 1 where_tokens where_tree }
    ensures signs { IsTree 0 signs_tokens signs_tree }
    ensures characters { IsTree 0 characters_tokens characters_tree }
    ensures at_most { IsTree 0 at_most_tokens at_most_tree }
    ensures at_least { IsTree 0 at_least_tokens at_least_tree }
    ensures declared { AreDeclared 0 declared_tokens declared_declarations }
    ensures too_deep { (is : Tree) → IsTree 0 arrow_tokens is → ⊥ }
{}

/// What is not written at a depth: a parenthesis and a record at none, a chain of two arrows at
/// one. An arrow holds what stands after it, and not its argument.
pub fn depth_examples()
    ensures group { (is : Tree) → IsTree 0 group_tokens is → ⊥ }
    ensures record_type { (is : Tree) → IsTree 0 record_tokens is → ⊥ }
    ensures arrows { (is : Tree) → IsTree 1 arrows_tokens is → ⊥ }
    ensures argument { IsTree 1 argument_tokens argument_tree }
{}

/// What is not written at a depth: a sequence, a group in one, an arrow in such parentheses, an XML
/// type, and what stands in its tag, its attributes or its content.
pub fn sequence_depth_examples()
    ensures sequence { (is : Tree) → IsTree 0 sequence_tokens is → ⊥ }
    ensures group { (is : Tree) → IsTree 1 group_sequence_tokens is → ⊥ }
    ensures union_in_group { (is : Tree) → IsTree 2 nested_tokens is → ⊥ }
    ensures arrow_item { (is : Tree) → IsTree 2 arrow_item_tokens is → ⊥ }
    ensures xml { (is : Tree) → IsTree 0 any_xml_tokens is → ⊥ }
    ensures tag { (is : Tree) → IsTree 1 typed_xml_tokens is → ⊥ }
    ensures attributes { (is : Tree) → IsTree 1 attributes_tokens is → ⊥ }
    ensures content { (is : Tree) → IsTree 1 content_tokens is → ⊥ }
{}

/// Sequences and XML types at some texts: the tree that each writes, and where it stands. A group
/// is no type, so no `&` follows it.
pub fn sequence_examples()
    ensures sequence { IsTree 1 sequence_tokens sequence_tree }
    ensures union_of_types { IsTree 2 union_tokens union_tree }
    ensures group { IsTree 2 group_sequence_tokens group_sequence_tree }
    ensures group_is_no_type { (depth : ℕ) (span : Span)
        → BeginNone AType depth (group_front ++ at (token.Sign sign.And) span ∷ []) }
    ensures arrow_item { IsTree 3 arrow_item_tokens arrow_item_tree }
    ensures xml { IsTree 2 xml_tokens xml_tree }
    ensures any_xml { IsTree 1 any_xml_tokens any_xml_tree }
    ensures alternative { IsTree 2 alternative_tokens alternative_tree }
    ensures mixed { IsTree 2 mixed_tokens mixed_tree }
    ensures nested { IsTree 3 nested_tokens nested_tree }
    ensures typed_xml { IsTree 2 typed_xml_tokens typed_xml_tree }
{}

/// Further texts, so that each line of the grammar stands in one. Each writes its tree at its
/// depth, and none at a smaller one.
pub fn further_examples()
    ensures constants { AreExamples constant_texts }
    ensures chains { AreExamples chain_texts }
    ensures records { AreExamples record_texts }
    ensures xml { AreExamples xml_texts }
    ensures keywords { AreExamples keyword_texts }
    ensures sequences { AreExamples sequence_texts }
    ensures items { AreExamples item_texts }
    ensures groups { AreExamples group_texts }
    ensures longer { AreExamples longer_texts }
    ensures declared { AreDeclared 0 declared_alone_tokens declared_alone_declarations }
    ensures no_declaration { AreDeclared 0 [] NoDeclaration }
{}

/// A keyword is a label, which opens nothing: the depth of `{let=Int}` is 1.
pub fn keyword_examples()
    ensures label { IsTree 1 keyword_tokens keyword_tree }
    ensures too_deep { (is : Tree) → IsTree 0 keyword_tokens is → ⊥ }
{}

/// The first token that cannot stand where it does, by its number, in sequences, records and XML
/// types.
pub fn form_fault_examples()
    ensures comma_after_group { IsWrong AType 1000 comma_after_group 4 }
    ensures and_after_group { IsWrong AType 1000 and_after_group 5 }
    ensures and_after_letters { IsWrong AType 1000 and_after_letters 2 }
    ensures two_postfixes { IsWrong AType 1000 two_postfixes 3 }
    ensures no_semicolon { IsWrong AType 1000 no_semicolon 4 }
    ensures no_label { IsWrong AType 1000 no_label 2 }
    ensures union_of_attribute { IsWrong AType 1000 union_of_attribute 5 }
    ensures semicolon_after_others { IsWrong AType 1000 semicolon_after_others 4 }
    ensures others_again { IsWrong AType 1000 others_again 2 }
{}

/// The first token that cannot stand where it does, by its number, in other types and in
/// declarations; and texts that are begun.
pub fn fault_examples()
    ensures two_letters { IsWrong AType 1000 two_letters 0 }
    ensures no_part { IsWrong AType 1000 no_part 1 }
    ensures keyword_alone { IsWrong AType 1000 keyword_alone 0 }
    ensures label_alone { IsWrong AType 1000 label_alone 0 }
    ensures two_types { IsWrong AType 1000 two_types 1 }
    ensures where_again { IsWrong AType 1000 where_again 5 }
    ensures begun_arrow { IsUnfinished AType 1000 begun_arrow }
    ensures no_type { IsUnfinished AType 1000 [] }
    ensures no_keyword { IsWrong SomeDeclarations 1000 no_keyword 0 }
    ensures no_type_name { IsWrong SomeDeclarations 1000 no_type_name 1 }
    ensures semicolons_again { IsWrong SomeDeclarations 1000 semicolons_again 5 }
    ensures begun_declaration { IsUnfinished SomeDeclarations 1000 begun_declaration }
{}

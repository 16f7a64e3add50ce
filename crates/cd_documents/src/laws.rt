//! Laws of the definitions in `specs/`. Each is the contract of a function that does nothing.
ghost use Rattle.std.specs.Prelude.{◌≡◌, ◌++◌, ◌+◌, ◌≤◌, ℕ, List, [], ◌∷◌, Some, None, Ok, Err};
ghost use Rattle.std.specs.Prelude.{length, map, false, ◌⊎◌};
ghost use Rattle.std.specs.Char.{IsScalar};
ghost use Rattle.cd_syntax.specs.declared.tokens.Token.{Token};
ghost use Rattle.cd_syntax.specs.Tokens.{Lexes};
ghost use Rattle.cd_model.specs.AllOf.{AllOf};
ghost use Rattle.cd_model.specs.Thing.{Thing, IsValue, IsData};
ghost use Rattle.cd_documents.specs.Document.{the_nil, IsDocument};
ghost use Rattle.cd_documents.specs.Machine.{Expecting, OpenTree, AtValue, state, start, put, run};
ghost use Rattle.cd_documents.specs.Machine.{Fits, State, Syntax, TooDeep, bracket_of, reach, Ends};
ghost use Rattle.cd_documents.specs.Terminal.{open_after};
ghost use Rattle.cd_documents.specs.Examples.{text_tokens, text_value, tuple_tokens, tuple_value};
ghost use Rattle.cd_documents.specs.Examples.{number_tokens, number_value, character_tokens};
ghost use Rattle.cd_documents.specs.Examples.{character_value, atom_tokens, empty_tokens};
ghost use Rattle.cd_documents.specs.Examples.{group_tokens, group_value, sequence_tokens};
ghost use Rattle.cd_documents.specs.Examples.{sequence_value, record_tokens, record_value};
ghost use Rattle.cd_documents.specs.Examples.{xml_tokens, xml_value, no_semicolon, only_semicolon};
ghost use Rattle.cd_documents.specs.Examples.{label_again, no_tag, no_character, two_values};
ghost use Rattle.cd_documents.specs.Examples.{begun_tuple, two_brackets};
ghost use Rattle.cd_documents.specs.DocumentFaults.{IsWrongDocument, IsTooDeepDocument};

/// The machine comes past the tokens of a document to its value, whatever is open and whatever
/// follows; so it reads each document.
pub fn reads_what_is_written()
    ensures comes { (depth most : ℕ) (tokens more : List Token) (value : Thing)
        (trees : List OpenTree) → IsDocument depth tokens value → depth + length trees ≤ most
        → run most (state AtValue trees) (tokens ++ more) ≡ run most (put value trees) more }
    ensures reads { (most : ℕ) (tokens : List Token) (value : Thing)
        → IsDocument most tokens value → run most start tokens ≡ Ok (Some value) }
{}

/// The tokens that the machine reads are a document of the value that it gives.
pub fn derives_what_is_read()
    ensures { (most : ℕ) (tokens : List Token) (value : Thing)
        → run most start tokens ≡ Ok (Some value) → IsDocument most tokens value }
{}

/// Tokens are a document of one value at most.
pub fn tokens_have_one_value()
    ensures { (most : ℕ) (tokens : List Token) (one other : Thing)
        → IsDocument most tokens one → IsDocument most tokens other → one ≡ other }
{}

/// From each state some tokens end a document, however few brackets may be open: so none of these
/// opens a bracket.
pub fn each_state_ends()
    ensures { (most : ℕ) (expecting : Expecting) (trees : List OpenTree)
        → Fits expecting trees → Ends most (state expecting trees) }
{}

/// The value of a document is data: no function is in it. Where the tokens are those of a text, it
/// is a value of programs: the labels of each record rise, and names, numbers and characters are
/// sound.
pub fn documents_are_values()
    ensures data { (depth : ℕ) (tokens : List Token) (value : Thing)
        → IsDocument depth tokens value → IsData value }
    ensures sound { (depth : ℕ) (text : List ℕ) (tokens : List Token) (value : Thing)
        → AllOf IsScalar text → Lexes false 0 text tokens → IsDocument depth tokens value
        → IsValue value }
{}

/// What the machine refuses is a fault there. A token that it refuses is one that no document has
/// at that place, however deep; where the tokens end too early, so is the end. Too deep is an
/// opening bracket at which as many are open as may be.
pub fn refusals_are_faults()
    ensures syntax { (most : ℕ) (tokens : List Token) (end from : ℕ)
        → run most start tokens ≡ Err (Syntax from) → IsWrongDocument most tokens end from }
    ensures unfinished { (most : ℕ) (tokens : List Token) (end : ℕ)
        → run most start tokens ≡ Ok None → IsWrongDocument most tokens end end }
    ensures deep { (most : ℕ) (tokens : List Token) (end from : ℕ)
        → run most start tokens ≡ Err (TooDeep from) → IsTooDeepDocument most tokens end from }
{}

/// The machine refuses each fault, at its place. So tokens have one fault at most, and none where
/// they are a document.
pub fn faults_are_refused()
    ensures wrong { (most : ℕ) (tokens : List Token) (end place : ℕ)
        → IsWrongDocument most tokens end place → (run most start tokens ≡ Err (Syntax place))
        ⊎ ((run most start tokens ≡ Ok None) × (place ≡ end)) }
    ensures deep { (most : ℕ) (tokens : List Token) (end place : ℕ)
        → IsTooDeepDocument most tokens end place
        → run most start tokens ≡ Err (TooDeep place) }
{}

/// The forms on the stack of the machine are those of the brackets that are open after the tokens
/// it has read.
pub fn open_forms_are_brackets()
    ensures { (most : ℕ) (tokens : List Token) (last : State)
        → reach most start tokens ≡ Ok last → map bracket_of last.trees ≡ open_after tokens }
{}

/// Values at some texts: fields stand by label in a record, and a `''` in a sequence adds nothing.
pub fn value_examples()
    ensures number { IsDocument 0 number_tokens number_value }
    ensures character { IsDocument 0 character_tokens character_value }
    ensures atom { IsDocument 0 atom_tokens the_nil }
    ensures empty { IsDocument 1 empty_tokens the_nil }
    ensures text { IsDocument 0 text_tokens text_value }
    ensures tuple { IsDocument 1 tuple_tokens tuple_value }
    ensures group { IsDocument 1 group_tokens group_value }
    ensures sequence { IsDocument 1 sequence_tokens sequence_value }
    ensures fields { IsDocument 1 record_tokens record_value }
    ensures xml { IsDocument 2 xml_tokens xml_value }
{}

/// Faults at some texts: fields with no `;` between, a `;` without a field, a label that stands
/// twice, `_` as a tag, `''` as a value, a second value, and a tuple that is not closed. A `[` in
/// place of a label is wrong where it may be open, and else too deep.
pub fn fault_examples()
    ensures no_semicolon { IsWrongDocument 1000 no_semicolon 9 5 }
    ensures only_semicolon { IsWrongDocument 1000 only_semicolon 3 1 }
    ensures label_again { IsWrongDocument 1000 label_again 9 5 }
    ensures no_tag { IsWrongDocument 1000 no_tag 4 1 }
    ensures no_character { IsWrongDocument 1000 no_character 2 0 }
    ensures two_values { IsWrongDocument 1000 two_values 3 2 }
    ensures begun_tuple { IsWrongDocument 1000 begun_tuple 3 3 }
    ensures two_brackets { IsWrongDocument 1000 two_brackets 2 1 }
    ensures too_deep { IsTooDeepDocument 1 two_brackets 2 1 }
{}

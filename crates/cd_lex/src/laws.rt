//! Laws of the tokens of a text. Each is the contract of a function that does nothing.
ghost use Rattle.std.specs.Prelude.{◌≡◌, ◌⊎◌, ℕ, List, false};
ghost use Rattle.cd_syntax.specs.declared.tokens.Token.{Token};
ghost use Rattle.cd_syntax.specs.declared.fault.TextFault.{TextFault};
ghost use Rattle.cd_syntax.specs.Tokens.{Lexes};
ghost use Rattle.cd_syntax.specs.Faults.{HasFirstFault};
ghost use Rattle.cd_lex.specs.Spans.{AreInOrder, AreSlices};

/// A text lexes to one list of tokens at most and has one first fault at most, and never both.
pub fn reading_is_one()
    ensures tokens { (text : List ℕ) (first second : List Token) → Lexes false 0 text first
        → Lexes false 0 text second → first ≡ second }
    ensures fault { (text : List ℕ) (first second : TextFault) → HasFirstFault false 0 text first
        → HasFirstFault false 0 text second → first ≡ second }
    ensures not_both { (text : List ℕ) (tokens : List Token) (fault : TextFault)
        → Lexes false 0 text tokens → HasFirstFault false 0 text fault → ⊥ }
{}

/// Each text lexes or has a first fault.
pub fn reading_is_decided()
    ensures { (text : List ℕ)
        → ((tokens : List Token) × Lexes false 0 text tokens)
        ⊎ ((fault : TextFault) × HasFirstFault false 0 text fault) }
{}

/// The tokens of a text stand in it in their order, and each is what the characters of its span
/// write.
pub fn tokens_stand_in_order()
    ensures order { (text : List ℕ) (tokens : List Token) → Lexes false 0 text tokens
        → AreInOrder 0 tokens }
    ensures slices { (text : List ℕ) (tokens : List Token) → Lexes false 0 text tokens
        → AreSlices text tokens }
{}

//! Laws of formulas. Each is the contract of a function that does nothing.
ghost use Rattle.std.specs.Prelude.{◌≡◌, ℕ, List, ◌↔◌};
ghost use Rattle.cd_sets.specs.Atoms.{IsAtom};
ghost use Rattle.std.specs.Str.{IsUtf8, chars};
ghost use Rattle.cd_syntax.specs.Name.{IsLabel};

/// What is a label here is just what sets of atoms call an atom, and its bytes are its characters.
pub fn labels_are_atoms()
    ensures same { (name : List ℕ) → IsLabel name ↔ IsAtom name }
    ensures texts { (text : List ℕ) → IsUtf8 text → IsLabel (chars text)
        → IsAtom text × (chars text ≡ text) }
{}

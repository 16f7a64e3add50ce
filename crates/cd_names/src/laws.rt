//! Laws of patterns whose names are not at fault. Each is the contract of a function that does
//! nothing.
ghost use Rattle.std.specs.Prelude.{◌≡◌};
ghost use Rattle.cd_syntax.specs.Name.{Name};
ghost use Rattle.cd_syntax.specs.TypeTree.{Tree, Declarations};
ghost use Rattle.cd_model.specs.Scope.{Scope};
ghost use Rattle.cd_matching.specs.Naming.{IsNamed};
ghost use Rattle.cd_matching.specs.Variables.{binds};
ghost use Rattle.cd_matching.specs.WrittenPattern.{pattern_of};
ghost use Rattle.cd_resolve.specs.Faults.{Fault};
ghost use Rattle.cd_variables.specs.Occurrences.{has, bound};
ghost use Rattle.cd_names.specs.ProgramFaults.{IsFaultOfPattern};

/// The pattern that a tree without a fault writes has no fault of its variables or labels.
pub fn sound_patterns_are_named()
    ensures { (types : Declarations) (scope : Scope) (pattern : Tree)
        → ((fault : Fault) → IsFaultOfPattern types pattern fault → ⊥)
        → IsNamed (pattern_of scope pattern) }
{}

/// Its variables are the names that the tree binds.
pub fn captured_names_are_bound()
    ensures { (types : Declarations) (scope : Scope) (pattern : Tree)
        → ((fault : Fault) → IsFaultOfPattern types pattern fault → ⊥) → (name : Name)
        → binds (pattern_of scope pattern) name ≡ has (bound pattern) name }
{}

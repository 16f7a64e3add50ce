//! What the faults are that are found. The law is the contract of a function that does nothing.
ghost use Rattle.std.specs.Prelude.{◌⊎◌, ◌↔◌, List};
ghost use Rattle.cd_syntax.specs.TypeTree.{Tree};
ghost use Rattle.cd_resolve.specs.Faults.{Fault};
ghost use Rattle.cd_variables.specs.VariableFaults.{IsOneIn, IsVariableFault};
ghost use Rattle.cd_variables.specs.FindingVariables.{variable_faults};

/// After some faults those are found in a pattern that are faults of its variables.
pub fn faults_are_found()
    ensures { (pattern : Tree) (before : List Fault) (fault : Fault)
        → IsOneIn fault (variable_faults pattern before)
        ↔ (IsOneIn fault before ⊎ IsVariableFault pattern fault) }
{}

//! Laws. Each is the contract of a function that does nothing.
ghost use Rattle.std.specs.Prelude.{◌++◌, List};
ghost use Rattle.cd_syntax.specs.Name.{Name};
ghost use Rattle.cd_cells.specs.Table.{names, Grows};
ghost use Rattle.cd_cells.specs.declared.values.Values.{Values};
ghost use Rattle.cd_code.specs.Compiled.{IsReady};
ghost use Rattle.cd_code.specs.declared.code.Code.{Code};

/// Code stays right of a table of values that grows.
pub fn codes_stay()
    ensures longer { (labels more : List Name) (code : Code) → IsReady labels code
        → IsReady (labels ++ more) code }
    ensures grown { (old new : Values) (code : Code) → IsReady (names old) code → Grows old new
        → IsReady (names new) code }
{}

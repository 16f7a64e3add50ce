//! Laws of the definitions in `specs/`. Each is the contract of a function that does nothing.
ghost use Rattle.std.specs.Prelude.{◌++◌, List};
ghost use Rattle.cd_syntax.specs.Name.{Name};
ghost use Rattle.cd_model.specs.Formula.{Graph};
ghost use Rattle.cd_asking.specs.Known.{KnowsOf};
ghost use Rattle.cd_asking.specs.declared.asker.Asker.{Asker};

/// What is known stays right when the graph grows, and when the table of the values does.
pub fn growth()
    ensures { (graph more : Graph) (names more_names : List Name) (asker : Asker)
        → KnowsOf graph names asker → KnowsOf (graph ++ more) (names ++ more_names) asker }
{}

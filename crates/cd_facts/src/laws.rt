//! Laws of facts. Each is the contract of a function that does nothing.
ghost use Rattle.std.specs.Prelude.{List, ◌++◌};
ghost use Rattle.cd_model.specs.Formula.{Graph, IsGraph};
ghost use Rattle.cd_model.specs.Thing.{Thing};
ghost use Rattle.cd_facts.specs.Facts.{Fact, AreRight};

/// Facts stay right while the graph and the table grow.
pub fn facts_stay_right()
    ensures { (graph more : Graph) (table others : List Thing) (facts : List Fact)
        → IsGraph graph → AreRight graph table facts
        → AreRight (graph ++ more) (table ++ others) facts }
{}

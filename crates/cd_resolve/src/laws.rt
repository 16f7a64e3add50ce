//! Laws of written types and of their nodes. Each is the contract of a function that does nothing.
ghost use Rattle.std.specs.Prelude.{◌++◌};
ghost use Rattle.cd_syntax.specs.TypeTree.{Tree};
ghost use Rattle.cd_syntax.specs.WellMade.{IsWellMade};
ghost use Rattle.cd_syntax.specs.WellMadePattern.{IsWellMadePattern};
ghost use Rattle.cd_model.specs.Formula.{Graph, IsGraph};
ghost use Rattle.cd_resolve.specs.Named.{Names, AreNamed};

/// Names whose nodes stand for what a list declares do so in each longer graph.
pub fn standing_is_kept()
    ensures { (graph more : Graph) (names : Names) → IsGraph graph → AreNamed graph names
        → AreNamed (graph ++ more) names }
{}

/// A well made type is a well made pattern.
pub fn types_are_patterns()
    ensures { (is : Tree) → IsWellMade is → IsWellMadePattern is }
{}

//! Laws. Each is the contract of a function that does nothing.
ghost use Rattle.std.specs.Prelude.{◌++◌};
ghost use Rattle.cd_syntax.specs.TypeTree.{Tree};
ghost use Rattle.cd_model.specs.Formula.{Graph, IsGraph};
ghost use Rattle.cd_model.specs.Scope.{Scope};
ghost use Rattle.cd_empty.specs.Growth.{Grows};
ghost use Rattle.cd_empty.specs.Seen.{Seen, graph_of};
ghost use Rattle.cd_sites.specs.declared.site.Site.{Site};
ghost use Rattle.cd_sites.specs.Sites.{IsSite};

/// A site stays one in each longer graph that is sound, as that of a world that grew.
pub fn sites_stay()
    ensures longer { (graph more : Graph) (scope : Scope) (written : Tree) (site : Site)
        → IsSite graph scope written site → IsGraph (graph ++ more)
        → IsSite (graph ++ more) scope written site }
    ensures grown { (old new : Seen) (scope : Scope) (written : Tree) (site : Site)
        → IsSite (graph_of old) scope written site → Grows old new → IsGraph (graph_of new)
        → IsSite (graph_of new) scope written site }
{}

//! The faults of the types in trees.
ghost use Rattle.std.specs.Prelude.{OnOk, IfErr, map};
ghost use Rattle.cd_syntax.specs.PlainTree.{plain};
ghost use Rattle.cd_syntax.specs.WellMadePattern.{IsWellMadePattern};
ghost use Rattle.cd_model.specs.AllOf.{AllOf};
ghost use Rattle.cd_resolve.specs.Errors.{IsReportedError};
ghost use Rattle.cd_resolve.specs.Faults.{Fault};
ghost use Rattle.cd_resolve.specs.Named.{declared_by};
ghost use Rattle.cd_names.specs.Inner.PlainFound.{plain_trees};
ghost use Rattle.cd_names.specs.Inner.Faults.{IsFaultOfOne};

use cd_resolve::error::NameError;
use cd_resolve::least::first_of;
use cd_resolve::{Names, check_tree};
use cd_syntax::type_tree::Tree;
use std::alloc::Global;

/// Reports the least fault of the types in trees that see declared names.
pub(crate) fn check_trees(
    alloc: Global,
    names: &Names<'_>,
    trees: &[&Tree],
) -> Result<(), NameError>
    requires { AllOf IsWellMadePattern (plain_trees trees.now) }
    ensures sound { OnOk result ((fault : Fault)
        → IsFaultOfOne (declared_by names.now) (plain_trees trees.now) fault → ⊥) }
    ensures fault { IfErr result (λ error.
        IsReportedError (IsFaultOfOne (declared_by names.now) (plain_trees trees.now)) error) }
{
    let mut reported = Ok(());
    for tree in trees {
        reported = first_of(reported, check_tree(alloc, names, tree));
    }
    reported
}

//! The nodes of functions.
ghost use Rattle.cd_model.specs.AllOf.{AllOf};
ghost use Rattle.cd_model.specs.Formula.{Graph};
ghost use Rattle.cd_model.specs.Scope.{Scope};
ghost use Rattle.cd_program.specs.PlainExpr.{plain_function};
ghost use Rattle.cd_resolved.specs.Parts.{IsFunctionOf};
ghost use Rattle.cd_resolved.specs.Resolved.{IsResolved, function_nodes};
ghost use Rattle.cd_check.specs.Inner.Promises.{IsPromised, HasPromise};
ghost use Rattle.cd_check.specs.Inner.Ready.{program_of};

use crate::base::Base;
use cd_program::expr::FunctionTree;
use cd_resolved::FunctionNodes;

/// The nodes of a function of the program: what it promises wherever each function promises what its
/// nodes say.
pub(crate) fn nodes_of<'k, 't>(
    base: &Base<'_, 'k, 't>,
    function: &FunctionTree,
) -> &'k FunctionNodes<'t>
    requires resolved { IsResolved base.now.resolved.now }
    requires function { IsFunctionOf (program_of base.now) (plain_function function.now) }
    ensures { (scope : Scope) (graph : Graph)
        → AllOf (IsPromised scope graph) (function_nodes base.now.resolved.now)
        → HasPromise scope graph (plain_function function.now) result.now.arrows.items
        result.now.whole }
{
    let number = base.resolved.function_number(function);
    let all = base.resolved.interfaces();
    &all[number]
}

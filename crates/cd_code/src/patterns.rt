//! From patterns to the names that they bind.
ghost use Rattle.std.specs.Prelude.{IfOk};
ghost use Rattle.cd_syntax.specs.WellMadePattern.{IsWellMadePattern};
ghost use Rattle.cd_model.specs.AllOf.{AllOf};
ghost use Rattle.cd_cells.specs.Table.{names, Grows};
ghost use Rattle.cd_resolved.specs.Resolved.{pattern_of};
ghost use Rattle.cd_code.specs.Inner.Bindings.{AreAllBound};

use crate::binding::Binding;
use crate::bindings::bindings_of;
use cd_cells::Values;
use cd_resolved::PatternKernel;
use std::alloc::{AllocError, Global};

/// The names that each of some patterns binds, in turn.
pub(crate) fn bindings_of_each(
    alloc: Global,
    values: &mut Values,
    kernels: &[PatternKernel<'_>],
) -> Result<Vec<Vec<Binding>>, AllocError>
    requires { AllOf (λ one. IsWellMadePattern (pattern_of one)) kernels.now }
    ensures bound { IfOk result (λ all. AreAllBound (names values.new) kernels.now all.items) }
    ensures grows { Grows values.old values.new }
{
    let mut all = Vec::new(alloc);
    for one in kernels {
        let variables = one.kernel.variables.as_slice();
        all.push(bindings_of(alloc, values, variables, one.pattern)?)?;
    }
    Ok(all)
}

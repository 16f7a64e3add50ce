//! Whether the kernel of a pattern takes a value.
ghost use Rattle.std.specs.Prelude.{◌≡◌, ◌<◌, length, IfOk, OnOk};
ghost use Rattle.cd_matching.specs.Kernel.{IsSound};
ghost use Rattle.cd_matching.specs.PlainKernel.{plain_kernel};
ghost use Rattle.cd_graph.specs.Nodes.{nodes};
ghost use Rattle.cd_cells.specs.Cells.{thing_at};
ghost use Rattle.cd_cells.specs.Table.{table, names, Grows};
ghost use Rattle.cd_asking.specs.Known.{KnowsOf};
ghost use Rattle.cd_code.specs.Compiled.{env_of, ArePartsOf};
ghost use Rattle.cd_code.specs.Inner.Bindings.{all_named, HaveLabels};
ghost use Rattle.cd_code.specs.Inner.Taking.{TakesWith};

use crate::binding::Binding;
use crate::capturing::put_parts;
use cd_cells::{Part, ValueId, Values};
use cd_matching::kernel::Kernel;
use cd_taking::{Taker, Tests};
use std::alloc::AllocError;

/// Whether the kernel of a pattern takes a value. What the names that the pattern binds capture is
/// put in the place of the parts.
pub(crate) fn take(
    kernel: &Kernel,
    bindings: &[Binding],
    taker: &mut Taker,
    tests: &mut Tests,
    values: &mut Values,
    id: ValueId,
    parts: &mut Vec<Part>,
) -> Result<bool, AllocError>
    requires value { id.0 < length (table values.old) }
    requires kernel { IsSound (λ type. type.0 < length (nodes tests.old.graph))
        (plain_kernel kernel.now) }
    requires labels { HaveLabels (names values.old) bindings.now }
    requires knows { KnowsOf (nodes tests.old.graph) (names values.old) tests.old.asker }
    ensures taken { IfOk result (λ answer. TakesWith (nodes tests.old.graph) tests.old.maps
        (plain_kernel kernel.now) (thing_at (table values.old) id.0)
        (all_named (names values.old) bindings.now) answer (env_of values.new parts.new.items)) }
    ensures parts { OnOk result (ArePartsOf values.new parts.new.items) }
    ensures graph { tests.new.graph ≡ tests.old.graph }
    ensures maps { tests.new.maps ≡ tests.old.maps }
    ensures knows { KnowsOf (nodes tests.new.graph) (names values.new) tests.new.asker }
    ensures grows { Grows values.old values.new }
{
    if taker.take(kernel, tests, values, id)? {
        put_parts(bindings, taker.captures(), parts)?;
        Ok(true)
    } else {
        parts.clear();
        Ok(false)
    }
}

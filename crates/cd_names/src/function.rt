//! The walk over a function.
ghost use Rattle.std.specs.Prelude.{◌≡◌, ◌++◌, ◌∷◌, [], map, OnOk};
ghost use Rattle.cd_program.specs.PlainExpr.{plain_function, plain_interface, plain_signature};
ghost use Rattle.cd_names.specs.Inner.FindingInPrograms.{found_in_function, with_types};
ghost use Rattle.cd_names.specs.Inner.PlainFound.{plain_found};

use crate::base::Base;
use crate::branches::walk_branches;
use crate::found::Found;
use crate::locals::Locals;
use cd_program::expr::{FunctionTree, Interface, Signature};
use std::alloc::AllocError;

/// Keeps the types of a function, and walks over its branches, which also see its name.
#[cycle(walk)]
pub(crate) fn walk_function<'t>(
    base: &Base<'_, 't>,
    function: &'t FunctionTree,
    locals: &mut Locals<'t>,
    found: &mut Found<'t>,
) -> Result<(), AllocError>
    ensures locals { OnOk result (locals.new ≡ locals.old) }
    ensures found { OnOk result (plain_found found.new
        ≡ found_in_function (locals.old ++ base.now.functions.now) (plain_function function.now)
        (plain_found found.old)) }
{
    add_types(&function.interface, found)?;
    let outside = locals.len();
    if let Some(name) = &function.name {
        locals.enter(name)?;
    }
    walk_branches(base, &function.branches, locals, found)?;
    locals.cut(outside);
    Ok(())
}

// Keeps the types of arrows.
fn add_types<'t>(interface: &'t Interface, found: &mut Found<'t>) -> Result<(), AllocError>
    ensures { OnOk result (plain_found found.new
        ≡ with_types (plain_interface interface.now) (plain_found found.old)) }
{
    for arrow in interface.items() {
        add_arrow(arrow, found)?;
    }
    Ok(())
}

fn add_arrow<'t>(arrow: &'t Signature, found: &mut Found<'t>) -> Result<(), AllocError>
    ensures { OnOk result (plain_found found.new
        ≡ with_types (plain_signature arrow.now ∷ []) (plain_found found.old)) }
{
    found.add_tree(&arrow.takes)?;
    found.add_tree(&arrow.gives)
}

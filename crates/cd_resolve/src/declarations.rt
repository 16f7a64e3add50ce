//! The names of declarations.
ghost use Rattle.std.specs.Prelude.{◌≡◌, IfOk};
ghost use Rattle.cd_syntax.specs.PlainTree.{plain_declarations};
ghost use Rattle.cd_resolve.specs.Inner.NamesDeclared.{names_in};

use crate::name_index::NameIndex;
use cd_syntax::type_tree::Declarations;
use std::alloc::{AllocError, Global};

/// The names that a list declares, in order.
pub(crate) fn declared_names<'t>(
    alloc: Global,
    declarations: &'t Declarations,
) -> Result<NameIndex<'t>, AllocError>
    ensures { IfOk result (λ names. names ≡ names_in (plain_declarations declarations.now)) }
{
    let mut names = NameIndex::new(alloc);
    for declaration in declarations.items() {
        names.add(&declaration.name)?;
    }
    Ok(names)
}

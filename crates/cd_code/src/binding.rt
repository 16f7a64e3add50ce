//! The names that a pattern binds.
ghost use Rattle.std.specs.Prelude.{◌≡◌, ◌++◌, [], ◌∷◌, OnOk};
ghost use Rattle.cd_syntax.specs.Name.{IsLabel};
ghost use Rattle.cd_matching.specs.Kernel.{number_of};
ghost use Rattle.cd_cells.specs.Table.{names, Grows};
ghost use Rattle.cd_code.specs.Inner.Bindings.{all_named, HaveLabels};
ghost use Rattle.cd_code.specs.Inner.Numbered.{numbered};

use cd_cells::Values;
use cd_syntax::name::Name;
use std::alloc::AllocError;

/// A name that a pattern binds: the number of its variable in the kernel of the pattern, and the
/// number of the name in a table of values.
#[derive(Clone, Copy)]
pub(crate) struct Binding {
    pub(crate) variable: usize,
    pub(crate) label: u32,
}

// The number of the variable of this name.
fn number_of(variables: &[Name], name: &Name) -> Option<usize>
    ensures { result ≡ number_of variables.now name.now }
{
    for index in 0..variables.len() {
        if variables[index] == *name {
            return Some(index);
        }
    }
    None
}

/// Adds a name that a pattern binds, if it is one of the variables of the pattern's kernel.
pub(crate) fn bind(
    values: &mut Values,
    variables: &[Name],
    name: &Name,
    bindings: &mut Vec<Binding>,
) -> Result<(), AllocError>
    requires label { IsLabel name.now }
    requires labels { HaveLabels (names values.old) bindings.old.items }
    ensures bound { OnOk result (all_named (names values.new) bindings.new.items
        ≡ all_named (names values.old) bindings.old.items
        ++ numbered variables.now (name.now ∷ [])) }
    ensures labels { OnOk result (HaveLabels (names values.new) bindings.new.items) }
    ensures grows { Grows values.old values.new }
{
    let Some(variable) = number_of(variables, name) else {
        return Ok(());
    };
    let label = values.label(name.as_str())?;
    bindings.push(Binding { variable, label })?;
    Ok(())
}

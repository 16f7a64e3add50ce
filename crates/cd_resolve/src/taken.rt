//! The names that nothing more may be declared with.
ghost use Rattle.std.specs.Prelude.{◌≡◌, ◌||◌};
ghost use Rattle.cd_resolve.specs.Inner.BuiltinNames.{is_builtin as is_builtin_name};

use cd_syntax::name::Name;
use cd_tables::words::type_name;

/// Whether nothing more may be declared with this name: it is declared before, or a built-in type
/// has it.
pub(crate) fn is_taken(again: bool, name: &Name) -> bool
    ensures { result ≡ (again || is_builtin_name name.now) }
{
    again || is_builtin(name)
}

// Whether a built-in type has this name.
fn is_builtin(name: &Name) -> bool
    ensures { result ≡ is_builtin_name name.now }
{
    type_name(name.as_str()).is_some()
}

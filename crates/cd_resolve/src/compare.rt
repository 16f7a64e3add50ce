//! Names compared with others, and their characters.
ghost use Rattle.std.specs.Prelude.{◌≡◌, bytes_eq, IfOk};

use cd_syntax::name::Name;
use std::alloc::{AllocError, Global};

/// Whether two names are equal.
pub(crate) fn is_same(one: &Name, other: &Name) -> bool
    ensures { result ≡ bytes_eq one.now other.now }
{
    one.as_str() == other.as_str()
}

/// The characters of a name.
#[tactic(auto, using(std::proofs::lemmas::Str::chars_from_encodes))]
pub(crate) fn characters_of(alloc: Global, name: &Name) -> Result<Vec<char>, AllocError>
    ensures { IfOk result (λ characters. characters.items ≡ name.now) }
{
    name.as_str().chars().collect(alloc)
}

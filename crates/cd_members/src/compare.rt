//! Names compared with others.
ghost use Rattle.std.specs.Prelude.{◌≡◌, length};
ghost use Rattle.std.specs.Ordering.{nat_cmp};
ghost use Rattle.std.specs.Cmp.Lexicographic.{slice_cmp};

use cd_syntax::name::Name;
use std::cmp::Ordering;

/// The order of two names by their characters.
pub(crate) fn compare(one: &Name, other: &Name) -> Ordering
    ensures { result ≡ slice_cmp nat_cmp one.now other.now }
{
    one.as_str().chars().cmp(other.as_str().chars())
}

/// How many characters a name has.
#[tactic(auto, using(std::proofs::lemmas::Str::chars_from_encodes))]
pub(crate) fn length(name: &Name) -> usize
    ensures { result ≡ length name.now }
{
    name.as_str().chars().count()
}

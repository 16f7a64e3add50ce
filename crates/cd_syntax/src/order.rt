//! The order of names.
ghost use Rattle.std.specs.Prelude.{◌≡◌};
ghost use Rattle.std.specs.Ordering.{nat_cmp};
ghost use Rattle.std.specs.Cmp.Lexicographic.{slice_cmp};

use crate::name::Name;
use std::cmp::Ordering;

/// The order of two names by their characters.
pub fn compare(one: &Name, other: &Name) -> Ordering
    ensures { result ≡ slice_cmp nat_cmp one.now other.now }
{
    let mut others = other.as_str().chars();
    for c in one.as_str().chars() {
        let Some(d) = others.next() else {
            return Ordering::Greater;
        };
        if c < d {
            return Ordering::Less;
        }
        if d < c {
            return Ordering::Greater;
        }
    }
    match others.next() {
        Some(_) => Ordering::Less,
        None => Ordering::Equal,
    }
}

//! Items by rising label, which are looked up in the order of their labels.
ghost use Rattle.std.specs.Prelude.{◌≡◌, option_copied};
ghost use Rattle.std.specs.Ordering.{nat_cmp};
ghost use Rattle.std.specs.Cmp.Lexicographic.{slice_cmp};
ghost use Rattle.cd_facts.specs.Inner.Rising.{from, first_at as first_of};

use cd_graph::fields::is_same;
use cd_syntax::name::Name;
use std::cmp::Ordering;

// The items from a label on.
pub(crate) fn from_label<'a, T>(items: &'a [(Name, T)], label: &Name) -> &'a [(Name, T)]
    ensures { result.now ≡ from label.now items.now }
{
    for index in 0..items.len() {
        if !compare(&items[index].0, label).is_lt() {
            return &items[index..];
        }
    }
    &[]
}

// What the first item has, if it has this label.
pub(crate) fn first_at<'a, T>(items: &'a [(Name, T)], label: &Name) -> Option<&'a T>
    ensures { option_copied result ≡ first_of items.now label.now }
{
    match items {
        [(name, item), ..] if is_same(name, label) => Some(item),
        _ => None,
    }
}

// The order of two names by their characters.
fn compare(one: &Name, other: &Name) -> Ordering
    ensures { result ≡ slice_cmp nat_cmp one.now other.now }
{
    one.as_str().chars().cmp(other.as_str().chars())
}

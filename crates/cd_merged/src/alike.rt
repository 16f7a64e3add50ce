//! Whether nodes of one class are one.
ghost use Rattle.std.specs.Prelude.{IsTrue};
ghost use Rattle.cd_matching.specs.PlainKernel.{plain_nodes};
ghost use Rattle.cd_merged.specs.Inner.Classes.{AreClasses, HasFirst, IsFirst, AreOne};

use crate::classes::{Classes, class_of};
use crate::key::key_at;
use cd_matching::kernel::KernelNode;

/// Whether each class is that of its first node, and each node is that one but for the numbers
/// that become one.
pub(crate) fn are_alike(nodes: &[KernelNode], classes: &Classes) -> bool
    ensures { IsTrue result → AreClasses (plain_nodes nodes.now) classes.now.numbers.items
        classes.now.firsts.items }
{
    let count = nodes.len();
    if classes.numbers.len() != count || classes.firsts.len() > count {
        return false;
    }
    for class in 0..classes.firsts.len() {
        if !has_first(count, classes, class) {
            return false;
        }
    }
    for number in 0..count {
        if !is_first(nodes, classes, number) {
            return false;
        }
    }
    true
}

// Whether a class is that of its first node.
fn has_first(count: usize, classes: &Classes, class: usize) -> bool
    ensures { IsTrue result
        → HasFirst count classes.now.numbers.items classes.now.firsts.items class }
{
    match classes.firsts.get(class) {
        Some(first) => *first < count && class_of(classes.numbers.as_slice(), *first) == class,
        None => false,
    }
}

// Whether a node is the first one of its class, but for the numbers that become one.
fn is_first(nodes: &[KernelNode], classes: &Classes, number: usize) -> bool
    ensures { IsTrue result → IsFirst (plain_nodes nodes.now) classes.now.numbers.items
        classes.now.firsts.items number }
{
    let numbers = classes.numbers.as_slice();
    match classes.firsts.get(class_of(numbers, number)) {
        Some(first) => *first == number || have_one_key(numbers, nodes, number, *first),
        None => false,
    }
}

fn have_one_key(numbers: &[usize], nodes: &[KernelNode], one: usize, other: usize) -> bool
    ensures { IsTrue result → AreOne numbers.now (plain_nodes nodes.now) one other }
{
    match (key_at(numbers, nodes, one), key_at(numbers, nodes, other)) {
        (Some(one), Some(other)) => one == other,
        _ => false,
    }
}

//! Which nodes of a kernel are one.
ghost use Rattle.std.specs.Prelude.{◌≡◌};
ghost use Rattle.cd_merged.specs.Inner.Classes.{class_of};

use crate::key::{Key, key_at};
use cd_matching::kernel::KernelNode;
use indexmap::IndexMap;
use std::alloc::{AllocError, Global};

/// Classes of nodes: the number of each node's class, and the first node of each class.
#[derive(Drop)]
pub(crate) struct Classes {
    pub(crate) numbers: Vec<usize>,
    pub(crate) firsts: Vec<usize>,
}

/// The class of the node with this number. A number that names no node has that of no node.
pub(crate) fn class_of(numbers: &[usize], number: usize) -> usize
    ensures { result ≡ class_of numbers.now number }
{
    numbers.get(number).copied().unwrap_or(numbers.len())
}

// How often the nodes are passed over at most. Most kernels want two passes; a long chain of nodes
// that name later ones could want one for each.
const PASSES: usize = 16;

/// Classes of nodes that have one key. They are found by passing over the nodes until no two
/// classes become one. Nothing is claimed of them here: they are looked at before they are used.
pub(crate) fn classes_of(alloc: Global, nodes: &[KernelNode]) -> Result<Classes, AllocError> {
    let mut firsts = Vec::new(alloc);
    for number in 0..nodes.len() {
        firsts.push(number)?;
    }
    for _pass in 0..PASSES {
        if !merge_more(alloc, nodes, &mut firsts)? {
            break;
        }
    }
    numbered(alloc, firsts.as_slice())
}

// Gives each node the first one with its key. Whether one has become another.
fn merge_more(
    alloc: Global,
    nodes: &[KernelNode],
    firsts: &mut Vec<usize>,
) -> Result<bool, AllocError> {
    let mut known = IndexMap::new(alloc);
    let mut merged = false;
    for number in 0..nodes.len() {
        if let Some(key) = key_at(firsts.as_slice(), nodes, number) {
            let own = class_of(firsts.as_slice(), number);
            let first = first_with(&mut known, key, own)?;
            if first != own {
                set(firsts, number, first);
                merged = true;
            }
        }
    }
    Ok(merged)
}

// The node that is known to have this key, which is this one if there was none.
fn first_with(
    known: &mut IndexMap<Key, usize>,
    key: Key,
    number: usize,
) -> Result<usize, AllocError> {
    if let Some(first) = known.get(&key).copied() {
        return Ok(first);
    }
    known.insert(key, number)?;
    Ok(number)
}

fn set(firsts: &mut Vec<usize>, number: usize, first: usize) {
    if let Some(place) = firsts.get_mut(number) {
        *place = first;
    }
}

// The classes, numbered in the order of their first nodes.
fn numbered(alloc: Global, first_of: &[usize]) -> Result<Classes, AllocError> {
    let mut numbers: Vec<usize> = Vec::new(alloc);
    let mut firsts: Vec<usize> = Vec::new(alloc);
    for number in 0..first_of.len() {
        let first = first_of[number];
        if first == number {
            numbers.push(firsts.len())?;
            firsts.push(number)?;
        } else {
            let class = class_of(numbers.as_slice(), first);
            numbers.push(class)?;
        }
    }
    Ok(Classes { numbers, firsts })
}

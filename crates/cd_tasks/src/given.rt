ghost use Rattle.std.specs.Prelude.{◌≡◌, ◌≤◌, length, IfOk};
ghost use Rattle.cd_tasks.specs.Assignments.{given as given_by, given_in_three as given_by_three};

use cd_sets::node_id::NodeId;
use std::alloc::{AllocError, Global};

type Pair = (NodeId, NodeId);

type Triple = (NodeId, NodeId, NodeId);

/// What a word gives to each of two sides.
pub(crate) fn given(
    alloc: Global,
    word: &[usize],
    members: &[Pair],
) -> Result<(Vec<Pair>, Vec<Pair>), AllocError>
    requires { length word.now ≤ length members.now }
    ensures { IfOk result
        (λ sides. (sides.0.items, sides.1.items) ≡ given_by word.now members.now) }
{
    let mut one = Vec::new(alloc);
    let mut other = Vec::new(alloc);
    for index in 0..word.len() {
        if word[index] == 0 {
            one.push(members[index])?;
        } else {
            other.push(members[index])?;
        }
    }
    Ok((one, other))
}

/// What a word gives to each of three sides.
pub(crate) fn given_in_three(
    alloc: Global,
    word: &[usize],
    members: &[Triple],
) -> Result<(Vec<Triple>, Vec<Triple>, Vec<Triple>), AllocError>
    requires { length word.now ≤ length members.now }
    ensures { IfOk result
        (λ sides. (sides.0.items, sides.1.items, sides.2.items)
        ≡ given_by_three word.now members.now) }
{
    let mut first = Vec::new(alloc);
    let mut middle = Vec::new(alloc);
    let mut last = Vec::new(alloc);
    for index in 0..word.len() {
        match word[index] {
            0 => first.push(members[index])?,
            1 => middle.push(members[index])?,
            _ => last.push(members[index])?,
        }
    }
    Ok((first, middle, last))
}

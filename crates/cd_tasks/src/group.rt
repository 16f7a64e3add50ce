//! Groups of pairs of nodes that are given to sides together.
ghost use Rattle.std.specs.Prelude.{◌≡◌, ◌<◌, length, map, IfOk};
ghost use Rattle.std.specs.List.{remove};
ghost use Rattle.cd_tasks.specs.Inner.Groups.{IsGroupAt, agrees, divided, of_side, plain_side};
ghost use Rattle.cd_tasks.specs.Inner.Groups.{sides_to};
ghost use Rattle.cd_tasks.specs.PlainTask.{plain_task};

use crate::lists::shared_without;
use crate::task::Task;
use cd_sets::node_id::NodeId;
use std::alloc::{AllocError, Global};
use std::rc::Rc;

type Pair = (NodeId, NodeId);

/// A side of pairs and of arrows.
#[derive(Clone, Copy)]
pub(crate) enum Side {
    /// The first part, or the argument.
    First,
    /// The second part, or the result.
    Second,
}

/// Members that are given together, and those that are left.
#[derive(Drop)]
pub(crate) struct Group {
    /// The side on which they may differ.
    pub(crate) differs: Side,
    pub(crate) members: Vec<Pair>,
    pub(crate) rest: Rc<Vec<Pair>>,
}

/// How many members are given together at least. Where members are listed one by one, many have a
/// part in common, and each of them alone doubles the work. Two or three have one by chance: given
/// together they change which members are given, and tree automata take longer by it.
pub(crate) const LEAST: usize = 4;

/// How many members of a group are given alone before all others of it are given together, where
/// this does not double the work.
pub(crate) const ALONE: usize = 8;

/// Whether the group of the member at a place is more than that member.
pub(crate) fn has_group(left: &[Pair], place: usize) -> bool {
    match left.get(place) {
        Some(member) => differing(left, *member).is_some(),
        None => false,
    }
}

/// Whether many of the group of the member at a place were given alone to the side on which it
/// differs, where these were given to the sides.
pub(crate) fn has_begun(left: &[Pair], place: usize, firsts: &[Pair], seconds: &[Pair]) -> bool {
    let Some(member) = left.get(place) else {
        return false;
    };
    match differing(left, *member) {
        Some(Side::First) => count(firsts, *member, Side::First) >= ALONE,
        Some(Side::Second) => count(seconds, *member, Side::Second) >= ALONE,
        None => false,
    }
}

/// The group of the member at a place: itself, and all members that have its part on one of the sides, if they
/// are enough, and else that member alone.
pub(crate) fn group_at(alloc: Global, left: &[Pair], place: usize) -> Result<Group, AllocError>
    requires { place < length left.now }
    ensures { IfOk result (IsGroupAt left.now place) }
{
    match differing(left, left[place]) {
        Some(differs) => together(alloc, left, place, differs),
        None => alone(alloc, left, place),
    }
}

// The side on which the larger group of a member differs, if it is large enough.
fn differing(left: &[Pair], member: Pair) -> Option<Side> {
    let at_first = count(left, member, Side::First);
    let at_second = count(left, member, Side::Second);
    if at_first > at_second && at_first >= LEAST {
        return Some(Side::First);
    }
    if at_second >= LEAST {
        return Some(Side::Second);
    }
    None
}

// How many agree with a member but on this side.
fn count(left: &[Pair], member: Pair, differs: Side) -> usize {
    let mut count = 0usize;
    for one in left {
        if agrees(differs, member, *one) {
            count = count.saturating_add(1);
        }
    }
    count
}

// Whether one agrees with a member but on this side.
fn agrees(differs: Side, member: Pair, one: Pair) -> bool
    ensures { result ≡ agrees (plain_side differs) member one }
{
    let (first, second) = member;
    let (one_first, one_second) = one;
    match differs {
        Side::First => one_second.0 == second.0,
        Side::Second => one_first.0 == first.0,
    }
}

// Those that agree with a member but on this side, and the others.
fn divided(
    alloc: Global,
    left: &[Pair],
    member: Pair,
    differs: Side,
) -> Result<(Vec<Pair>, Vec<Pair>), AllocError>
    ensures { IfOk result (λ both. (both.0.items, both.1.items)
        ≡ divided (agrees (plain_side differs) member) left.now) }
{
    let mut group = Vec::new(alloc);
    let mut rest = Vec::new(alloc);
    for index in 0..left.len() {
        if agrees(differs, member, left[index]) {
            group.push(left[index])?;
        } else {
            rest.push(left[index])?;
        }
    }
    Ok((group, rest))
}

// The member at a place with all that agree with it but on this side.
fn together(alloc: Global, left: &[Pair], place: usize, differs: Side) -> Result<Group, AllocError>
    requires { place < length left.now }
    ensures { IfOk result (IsGroupAt left.now place) }
{
    let member = left[place];
    let (members, rest) = divided(alloc, left, member, differs)?;
    let rest = Rc::new(alloc, rest)?;
    Ok(Group {
        differs,
        members,
        rest,
    })
}

/// The member at a place alone.
pub(crate) fn alone(alloc: Global, left: &[Pair], place: usize) -> Result<Group, AllocError>
    requires { place < length left.now }
    ensures group { IfOk result (IsGroupAt left.now place) }
    ensures rest { IfOk result (λ group. group.rest.value.items ≡ remove left.now place) }
{
    let member = left[place];
    let rest = shared_without(alloc, left, place)?;
    let members = vec![in alloc; member]?;
    Ok(Group {
        differs: Side::Second,
        members,
        rest,
    })
}

/// The cases of both sides, that of the side on which a group differs as the last one. The first is
/// worked at first.
pub(crate) fn in_order<'g>(
    alloc: Global,
    differs: Side,
    first: Task<'g>,
    second: Task<'g>,
) -> Result<Vec<Task<'g>>, AllocError>
    ensures { IfOk result
        (λ cases. map plain_task cases.items
        ≡ map (of_side (plain_task first.entry) (plain_task second.entry))
        (sides_to (plain_side differs))) }
{
    match differs {
        Side::First => Ok(vec![in alloc; second, first]?),
        Side::Second => Ok(vec![in alloc; first, second]?),
    }
}

//! The members of a union and of a meet, each once, and without those that change nothing.
ghost use Rattle.std.specs.Prelude.{◌≡◌, true, false, ◌||◌, [], ◌∷◌, IfOk, OnOk};
ghost use Rattle.cd_model.specs.BuiltIns.{ANY as ANY_NODE, EMPTY as EMPTY_NODE};
ghost use Rattle.cd_resolve.specs.Inner.Members.{union_of as union_members, joined_to};
ghost use Rattle.cd_resolve.specs.Inner.Members.{meet_of as meet_members, met_with, same_sign};

use cd_graph::built_in::{ANY, EMPTY};
use cd_sets::node_id::NodeId;
use indexmap::IndexSet;
use std::alloc::{AllocError, Global};

/// The members of a union. What holds nothing adds nothing.
pub(crate) fn union_of(alloc: Global, ids: &[NodeId]) -> Result<Vec<NodeId>, AllocError>
    ensures { IfOk result (λ members. members.items ≡ union_members ids.now) }
{
    let mut seen = IndexSet::new(alloc);
    let mut members = Vec::new(alloc);
    for id in ids {
        join(&mut seen, &mut members, *id)?;
    }
    Ok(members)
}

// Puts a member of a union after those that were seen, unless it adds nothing to them.
fn join(
    seen: &mut IndexSet<NodeId>,
    members: &mut Vec<NodeId>,
    id: NodeId,
) -> Result<(), AllocError>
    requires { seen.old.keys ≡ members.old.items }
    ensures seen { OnOk result (seen.new.keys ≡ members.new.items) }
    ensures put { OnOk result (members.new.items ≡ joined_to members.old.items (id ∷ [])) }
{
    if EMPTY == id {
        return Ok(());
    }
    if seen.insert(id)? {
        members.push(id)?;
    }
    Ok(())
}

/// The members of a meet. What holds everything, and what nothing is taken out of, takes nothing
/// from it.
pub(crate) fn meet_of(
    alloc: Global,
    signs: &[(bool, NodeId)],
) -> Result<Vec<(bool, NodeId)>, AllocError>
    ensures { IfOk result (λ members. members.items ≡ meet_members signs.now) }
{
    let mut seen = IndexSet::new(alloc);
    let mut members = Vec::new(alloc);
    for sign in signs {
        meet(&mut seen, &mut members, *sign)?;
    }
    Ok(members)
}

// Puts a member of a meet after those that were seen, unless it takes nothing from them.
fn meet(
    seen: &mut IndexSet<(bool, NodeId)>,
    members: &mut Vec<(bool, NodeId)>,
    sign: (bool, NodeId),
) -> Result<(), AllocError>
    requires { seen.old.keys ≡ members.old.items }
    ensures seen { OnOk result (seen.new.keys ≡ members.new.items) }
    ensures put { OnOk result (members.new.items ≡ met_with members.old.items (sign ∷ [])) }
{
    if is_neutral(sign) {
        return Ok(());
    }
    if seen.insert(sign)? {
        members.push(sign)?;
    }
    Ok(())
}

// Whether a sign takes nothing from any meet.
fn is_neutral(sign: (bool, NodeId)) -> bool
    ensures { result ≡ same_sign (true, ANY_NODE) sign || same_sign (false, EMPTY_NODE) sign }
{
    (true, ANY) == sign || (false, EMPTY) == sign
}

//! Pairs in a row that are alike.
ghost use Rattle.std.specs.Prelude.{◌<◌, ℕ, suc, length, IfOk, IfSome};
ghost use Rattle.cd_graph.specs.Nodes.{nodes};
ghost use Rattle.cd_cells.specs.Table.{table, names};
ghost use Rattle.cd_model.specs.AllOf.{AllOf};
ghost use Rattle.cd_model.specs.Thing.{IsValue};
ghost use Rattle.cd_asking.specs.MappedArrows.{maps_at};
ghost use Rattle.cd_asking.specs.Known.{KnowsOf};
ghost use Rattle.cd_asking.specs.Inner.Along.{after_alike, GoesTo};
ghost use Rattle.cd_asking.specs.Inner.Asked.{set_at, Grows};
ghost use Rattle.cd_asking.specs.Inner.Entries.{LeadBoth};

use crate::asker::{Asker, PairLeads};
use crate::leaf::leaf;
use crate::maps::Maps;
use crate::node_sets::SetId;
use cd_cells::{Look, ValueId, Values};
use cd_graph::Graph;
use std::alloc::AllocError;

/// Goes along pairs that are asked at the set of their second parts, as long as their first parts
/// are in the same nodes: gives the second part of the last one, and how many they are, with the
/// one before this value.
pub(crate) fn along(
    asker: &mut Asker,
    graph: &Graph,
    maps: &Maps,
    values: &Values,
    leads: PairLeads,
    first: SetId,
    id: ValueId,
) -> Result<(ValueId, u64), AllocError>
    requires value { id.0 < length (table values.now) }
    requires values { AllOf IsValue (table values.now) }
    requires leads { LeadBoth (nodes graph.now) asker.old.sets
        (set_at asker.old.sets leads.second) leads }
    requires first { first.0 < length asker.old.sets }
    requires right { KnowsOf (nodes graph.now) (names values.now) asker.old }
    ensures goes { let set = leads.second in
        IfOk result (λ ran. GoesTo (names values.now) (nodes graph.now) (maps_at maps.now)
        (table values.now) asker.old asker.new (after_alike id set first 1)
        (after_alike ran.0 set first ran.1)) }
    ensures within { IfOk result (λ ran. ran.0.0 < length (table values.now)) }
    ensures right { KnowsOf (nodes graph.now) (names values.now) asker.new }
    ensures grows { Grows asker.old asker.new }
{
    let mut id = id;
    for count in 1..u64::MAX {
        match next_alike(asker, graph, maps, values, leads, first, id)? {
            Some(second) => id = second,
            None => return Ok((id, count)),
        }
    }
    Ok((id, u64::MAX))
}

// The second part of a pair whose first part is in these nodes.
#[inline(always)]
fn next_alike(
    asker: &mut Asker,
    graph: &Graph,
    maps: &Maps,
    values: &Values,
    leads: PairLeads,
    first: SetId,
    id: ValueId,
) -> Result<Option<ValueId>, AllocError>
    requires value { id.0 < length (table values.now) }
    requires values { AllOf IsValue (table values.now) }
    requires leads { LeadBoth (nodes graph.now) asker.old.sets
        (set_at asker.old.sets leads.second) leads }
    requires first { first.0 < length asker.old.sets }
    requires right { KnowsOf (nodes graph.now) (names values.now) asker.old }
    ensures within { IfOk result
        (λ next. IfSome next (λ second. second.0 < length (table values.now))) }
    ensures goes { let set = leads.second in
        IfOk result (λ next. IfSome next (λ second. (count : ℕ)
        → GoesTo (names values.now) (nodes graph.now) (maps_at maps.now) (table values.now)
        asker.old asker.new (after_alike id set first count)
        (after_alike second set first (suc count)))) }
    ensures right { KnowsOf (nodes graph.now) (names values.now) asker.new }
    ensures grows { Grows asker.old asker.new }
{
    if let Some(second) = next_letter(asker, graph, maps, values, leads, first, id) {
        return Ok(Some(second));
    }
    let Look::Pair(one, second) = values.look(id) else {
        return Ok(None);
    };
    match leaf(asker, graph, maps, values, values.look(one), leads.first)? {
        Some(answer) if answer.0 == first.0 => Ok(Some(second)),
        _ => Ok(None),
    }
}

// The same where the first part is an ASCII character whose nodes are known, as along a text.
#[inline(always)]
fn next_letter(
    asker: &Asker,
    graph: &Graph,
    maps: &Maps,
    values: &Values,
    leads: PairLeads,
    first: SetId,
    id: ValueId,
) -> Option<ValueId>
    requires value { id.0 < length (table values.now) }
    requires leads { LeadBoth (nodes graph.now) asker.now.sets
        (set_at asker.now.sets leads.second) leads }
    requires first { first.0 < length asker.now.sets }
    requires right { KnowsOf (nodes graph.now) (names values.now) asker.now }
    ensures within { IfSome result (λ second. second.0 < length (table values.now)) }
    ensures goes { let set = leads.second in IfSome result (λ second. (count : ℕ)
        → GoesTo (names values.now) (nodes graph.now) (maps_at maps.now) (table values.now)
        asker.now asker.now (after_alike id set first count)
        (after_alike second set first (suc count))) }
{
    let Look::Pair(one, second) = values.look(id) else {
        return None;
    };
    let Look::Char(c) = values.look(one) else {
        return None;
    };
    match asker.known_letter(leads.first, c) {
        Some(answer) if answer.0 == first.0 => Some(second),
        _ => None,
    }
}

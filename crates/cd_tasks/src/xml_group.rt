//! Groups of triples of nodes that are given to sides together.
ghost use Rattle.std.specs.Prelude.{◌≡◌, ◌<◌, length, map, IfOk};
ghost use Rattle.std.specs.List.{remove};
ghost use Rattle.cd_tasks.specs.Inner.Groups.{IsXmlGroupAt, divided, of_xml_side, plain_xml_side};
ghost use Rattle.cd_tasks.specs.Inner.Groups.{xml_agrees, xml_sides_to};
ghost use Rattle.cd_tasks.specs.PlainTask.{plain_task};

use crate::group::{ALONE, LEAST};
use crate::lists::shared_without;
use crate::task::Task;
use cd_sets::node_id::NodeId;
use std::alloc::{AllocError, Global};
use std::rc::Rc;

type Triple = (NodeId, NodeId, NodeId);

/// A side of XML elements.
#[derive(Clone, Copy)]
pub(crate) enum XmlSide {
    Tag,
    Attributes,
    Content,
}

/// Members that are given together, and those that are left.
#[derive(Drop)]
pub(crate) struct XmlGroup {
    /// The side on which they may differ.
    pub(crate) differs: XmlSide,
    pub(crate) members: Vec<Triple>,
    pub(crate) rest: Rc<Vec<Triple>>,
}

/// Whether the group of the member at a place is more than that member.
pub(crate) fn has_xml_group(left: &[Triple], place: usize) -> bool {
    match left.get(place) {
        Some(member) => differing(left, *member).is_some(),
        None => false,
    }
}

/// Whether many of the group of the member at a place were given alone to the side on which it
/// differs, where these were given to the sides.
pub(crate) fn has_begun_xml(
    left: &[Triple],
    place: usize,
    tags: &[Triple],
    attributes: &[Triple],
    contents: &[Triple],
) -> bool {
    let Some(member) = left.get(place) else {
        return false;
    };
    match differing(left, *member) {
        Some(XmlSide::Tag) => count(tags, *member, XmlSide::Tag) >= ALONE,
        Some(XmlSide::Attributes) => count(attributes, *member, XmlSide::Attributes) >= ALONE,
        Some(XmlSide::Content) => count(contents, *member, XmlSide::Content) >= ALONE,
        None => false,
    }
}

/// The group of the member at a place: itself, and all members that have its parts on two of the sides, if they
/// are enough, and else that member alone.
pub(crate) fn xml_group_at(
    alloc: Global,
    left: &[Triple],
    place: usize,
) -> Result<XmlGroup, AllocError>
    requires { place < length left.now }
    ensures { IfOk result (IsXmlGroupAt left.now place) }
{
    match differing(left, left[place]) {
        Some(differs) => together(alloc, left, place, differs),
        None => xml_alone(alloc, left, place),
    }
}

// The side on which the largest group of a member differs, if it is large enough.
fn differing(left: &[Triple], member: Triple) -> Option<XmlSide> {
    let mut most = LEAST - 1;
    let mut differs = None;
    for side in [XmlSide::Content, XmlSide::Attributes, XmlSide::Tag] {
        let count = count(left, member, side);
        if count > most {
            most = count;
            differs = Some(side);
        }
    }
    differs
}

// How many agree with a member but on this side.
fn count(left: &[Triple], member: Triple, differs: XmlSide) -> usize {
    let mut count = 0usize;
    for one in left {
        if agrees(differs, member, *one) {
            count = count.saturating_add(1);
        }
    }
    count
}

// Whether one agrees with a member but on this side.
fn agrees(differs: XmlSide, member: Triple, one: Triple) -> bool
    ensures { result ≡ xml_agrees (plain_xml_side differs) member one }
{
    let (tag, attributes, content) = member;
    let (one_tag, one_attributes, one_content) = one;
    match differs {
        XmlSide::Tag => one_attributes.0 == attributes.0 && one_content.0 == content.0,
        XmlSide::Attributes => one_tag.0 == tag.0 && one_content.0 == content.0,
        XmlSide::Content => one_tag.0 == tag.0 && one_attributes.0 == attributes.0,
    }
}

// Those that agree with a member but on this side, and the others.
fn divided(
    alloc: Global,
    left: &[Triple],
    member: Triple,
    differs: XmlSide,
) -> Result<(Vec<Triple>, Vec<Triple>), AllocError>
    ensures { IfOk result (λ both. (both.0.items, both.1.items)
        ≡ divided (xml_agrees (plain_xml_side differs) member) left.now) }
{
    let mut group = Vec::new(alloc);
    let mut rest = Vec::new(alloc);
    for index in 0..left.len() {
        if agrees(differs, member, left[index]) {
            group.push(left[index])?;
        } else {
            rest.push(left[index])?;
        }
    }
    Ok((group, rest))
}

// The member at a place with all that agree with it but on this side.
fn together(
    alloc: Global,
    left: &[Triple],
    place: usize,
    differs: XmlSide,
) -> Result<XmlGroup, AllocError>
    requires { place < length left.now }
    ensures { IfOk result (IsXmlGroupAt left.now place) }
{
    let member = left[place];
    let (members, rest) = divided(alloc, left, member, differs)?;
    let rest = Rc::new(alloc, rest)?;
    Ok(XmlGroup {
        differs,
        members,
        rest,
    })
}

/// The member at a place alone.
pub(crate) fn xml_alone(
    alloc: Global,
    left: &[Triple],
    place: usize,
) -> Result<XmlGroup, AllocError>
    requires { place < length left.now }
    ensures group { IfOk result (IsXmlGroupAt left.now place) }
    ensures rest { IfOk result (λ group. group.rest.value.items ≡ remove left.now place) }
{
    let member = left[place];
    let rest = shared_without(alloc, left, place)?;
    let members = vec![in alloc; member]?;
    Ok(XmlGroup {
        differs: XmlSide::Content,
        members,
        rest,
    })
}

/// The cases of all sides, that of the side on which a group differs as the last one. The first is
/// worked at first.
pub(crate) fn xml_in_order<'g>(
    alloc: Global,
    differs: XmlSide,
    tag: Task<'g>,
    attributes: Task<'g>,
    content: Task<'g>,
) -> Result<Vec<Task<'g>>, AllocError>
    ensures { IfOk result (λ cases. map plain_task cases.items
        ≡ map (of_xml_side (plain_task tag.entry) (plain_task attributes.entry)
        (plain_task content.entry))
        (xml_sides_to (plain_xml_side differs))) }
{
    match differs {
        XmlSide::Tag => Ok(vec![in alloc; attributes, content, tag]?),
        XmlSide::Attributes => Ok(vec![in alloc; tag, content, attributes]?),
        XmlSide::Content => Ok(vec![in alloc; tag, attributes, content]?),
    }
}

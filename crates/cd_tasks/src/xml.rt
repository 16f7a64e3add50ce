//! Tasks for XML elements.
ghost use Rattle.std.specs.Prelude.{◌≡◌, ◌<◌, ◌++◌, [], length, map, IfOk};
ghost use Rattle.cd_model.specs.AllOf.{AllOf};
ghost use Rattle.cd_rules.specs.Tasks as rules;
ghost use Rattle.cd_rules.specs.Tasks.{AreCases, left_of};
ghost use Rattle.cd_tasks.specs.Inner.Groups.{plain_xml_side, xml_case, xml_sides_to};
ghost use Rattle.cd_tasks.specs.LeftWithout.{IsLeftWithout, left_without};
ghost use Rattle.cd_tasks.specs.PlainTask.{plain_task};

use crate::lists::joined;
use crate::task::{Task, XmlTask};
use crate::xml_group::{XmlGroup, xml_alone, xml_group_at, xml_in_order};
use cd_sets::node_id::NodeId;
use std::alloc::{AllocError, Global};
use std::rc::Rc;

impl XmlTask {
    /// What is to do for an XML element that is in each of the wanted ones and in none of the
    /// refused ones. Nothing is given yet.
    pub(crate) fn of(
        alloc: Global,
        wanted: &Rc<Vec<(NodeId, NodeId, NodeId)>>,
        refused: &Rc<Vec<(NodeId, NodeId, NodeId)>>,
    ) -> Result<XmlTask, AllocError>
        ensures { let all = refused.now.value.items in
            IfOk result (λ task. plain_task (Task.Xml task)
            ≡ rules.XmlTask wanted.now.value.items all ([], [], []) all) }
    {
        let left = refused.clone()?;
        let wanted = wanted.clone()?;
        let refused = refused.clone()?;
        Ok(XmlTask {
            wanted,
            refused,
            tags: Vec::new(alloc),
            attributes: Vec::new(alloc),
            contents: Vec::new(alloc),
            left,
        })
    }

    // The case where these are given, and this is the rest that is left.
    fn case(
        &self,
        rest: &Rc<Vec<(NodeId, NodeId, NodeId)>>,
        tags: Vec<(NodeId, NodeId, NodeId)>,
        attributes: Vec<(NodeId, NodeId, NodeId)>,
        contents: Vec<(NodeId, NodeId, NodeId)>,
    ) -> Result<XmlTask, AllocError>
        ensures { IfOk result (λ task. plain_task (Task.Xml task)
            ≡ rules.XmlTask self.now.wanted.value.items self.now.refused.value.items
            (tags.items, attributes.items, contents.items) rest.now.value.items) }
    {
        let left = rest.clone()?;
        let wanted = self.wanted.clone()?;
        let refused = self.refused.clone()?;
        Ok(XmlTask {
            wanted,
            refused,
            tags,
            attributes,
            contents,
            left,
        })
    }

    // The case where this group is given to the tag.
    fn to_tag(&self, alloc: Global, group: &XmlGroup) -> Result<XmlTask, AllocError>
        ensures { IfOk result (λ task. plain_task (Task.Xml task)
            ≡ rules.XmlTask self.now.wanted.value.items self.now.refused.value.items (
              group.now.members.items ++ self.now.tags.items,
              self.now.attributes.items,
              self.now.contents.items,
            )
            group.now.rest.value.items) }
    {
        let tags = joined(alloc, group.members.as_slice(), self.tags.as_slice())?;
        let attributes = Vec::from_slice(alloc, self.attributes.as_slice())?;
        let contents = Vec::from_slice(alloc, self.contents.as_slice())?;
        self.case(&group.rest, tags, attributes, contents)
    }

    // The case where it is given to the attributes.
    fn to_attributes(&self, alloc: Global, group: &XmlGroup) -> Result<XmlTask, AllocError>
        ensures { IfOk result (λ task. plain_task (Task.Xml task)
            ≡ rules.XmlTask self.now.wanted.value.items self.now.refused.value.items (
              self.now.tags.items,
              group.now.members.items ++ self.now.attributes.items,
              self.now.contents.items,
            )
            group.now.rest.value.items) }
    {
        let tags = Vec::from_slice(alloc, self.tags.as_slice())?;
        let attributes = joined(alloc, group.members.as_slice(), self.attributes.as_slice())?;
        let contents = Vec::from_slice(alloc, self.contents.as_slice())?;
        self.case(&group.rest, tags, attributes, contents)
    }

    // The case where it is given to the content.
    fn to_content(&self, alloc: Global, group: &XmlGroup) -> Result<XmlTask, AllocError>
        ensures { IfOk result (λ task. plain_task (Task.Xml task)
            ≡ rules.XmlTask self.now.wanted.value.items self.now.refused.value.items (
              self.now.tags.items,
              self.now.attributes.items,
              group.now.members.items ++ self.now.contents.items,
            )
            group.now.rest.value.items) }
    {
        let tags = Vec::from_slice(alloc, self.tags.as_slice())?;
        let attributes = Vec::from_slice(alloc, self.attributes.as_slice())?;
        let contents = joined(alloc, group.members.as_slice(), self.contents.as_slice())?;
        self.case(&group.rest, tags, attributes, contents)
    }

    // The cases of a group, that of the side on which it differs as the last one.
    fn cases_of<'g>(&self, alloc: Global, group: &XmlGroup) -> Result<Vec<Task<'g>>, AllocError>
        ensures { IfOk result (λ cases. map plain_task cases.items
            ≡ map (xml_case self.now group.now) (xml_sides_to (plain_xml_side group.now.differs))) }
    {
        let tag = Task::Xml(self.to_tag(alloc, group)?);
        let attributes = Task::Xml(self.to_attributes(alloc, group)?);
        let content = Task::Xml(self.to_content(alloc, group)?);
        xml_in_order(alloc, group.differs, tag, attributes, content)
    }

    /// The cases of the task, where the member at this place of those left is given to each part.
    pub(crate) fn cases<'g>(&self, alloc: Global, place: usize) -> Result<Vec<Task<'g>>, AllocError>
        requires { place < length self.now.left.value.items }
        ensures cases { IfOk result
            (λ cases. AreCases (plain_task (Task.Xml self.now)) (map plain_task cases.items)) }
        ensures taken { IfOk result (λ cases. AllOf (λ case. left_of (plain_task case)
            ≡ left_without place (plain_task (Task.Xml self.now))) cases.items) }
    {
        let group = xml_alone(alloc, self.left.as_slice(), place)?;
        self.cases_of(alloc, &group)
    }

    /// The cases of the task, where the group of the member at this place is given to each part.
    pub(crate) fn cases_together<'g>(
        &self,
        alloc: Global,
        place: usize,
    ) -> Result<Vec<Task<'g>>, AllocError>
        requires { place < length self.now.left.value.items }
        ensures cases { IfOk result
            (λ cases. AreCases (plain_task (Task.Xml self.now)) (map plain_task cases.items)) }
        ensures taken { IfOk result (λ cases. AllOf
            (λ case. IsLeftWithout place (plain_task (Task.Xml self.now))
            (left_of (plain_task case))) cases.items) }
    {
        let group = xml_group_at(alloc, self.left.as_slice(), place)?;
        self.cases_of(alloc, &group)
    }
}

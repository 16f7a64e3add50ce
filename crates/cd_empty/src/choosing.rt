//! Which of the members that hold what was made for a branch is given to its sides, and with which
//! others.
ghost use Rattle.std.specs.Prelude.{◌≡◌, ◌<◌, ◌⊎◌, length, map, IfOk};
ghost use Rattle.cd_graph.specs.Nodes.{nodes};
ghost use Rattle.cd_model.specs.AllOf.{AllOf, AnyOf};
ghost use Rattle.cd_elements.specs.Table.{element_at};
ghost use Rattle.cd_members.specs.Held.{IsHeldAt};
ghost use Rattle.cd_rules.specs.Tasks.{IsTaskOfNodes, count_left, questions_of};
ghost use Rattle.cd_tasks.specs.PlainTask.{plain_task};
ghost use Rattle.cd_empty.specs.Inner.Looking.{HaveElements};
ghost use Rattle.cd_empty.specs.Inner.Running.{KeepsKnown};
ghost use Rattle.cd_empty.specs.Inner.Splitting.{AreCasesOf, IsUnknownOf};
ghost use Rattle.cd_empty.specs.Kept.{IsSound, table};

use crate::decider::Decider;
use crate::parts::Parts;
use cd_elements::ElementId;
use cd_graph::Graph;
use cd_members::held_places;
use cd_sets::node_id::NodeId;
use cd_sets::question::Question;
use cd_tasks::Task;
use cd_verdicts::look::Look;
use std::alloc::AllocError;

/// What is done for a branch of which a member holds what was made.
#[derive(Drop)]
pub(crate) enum Cases<'g> {
    /// It becomes these cases.
    Are(Vec<Task<'g>>),
    /// Nothing, as long as it isn't known whether this question has an element.
    Wants(Question),
}

impl Decider {
    /// Which member is given where the one at this place holds what was made: that one, or one of
    /// the first others that hold it, of which the fewest sides are open. A side is open where nothing
    /// is known of its question, or it has an element.
    pub(crate) fn choose(
        &mut self,
        graph: &Graph,
        branch: &Task<'_>,
        ids: &[ElementId],
        place: usize,
    ) -> Result<usize, AllocError>
        requires sound { IsSound (nodes graph.now) self.old }
        requires nodes { IsTaskOfNodes (length (nodes graph.now)) (plain_task branch.now) }
        requires have { HaveElements self.old ids.now (questions_of (plain_task branch.now)) }
        ensures held { let parts = map (element_at (table self.old)) ids.now in
            IfOk result (λ other. (other ≡ place)
            ⊎ IsHeldAt (nodes graph.now) parts (plain_task branch.now) other) }
        ensures sound { IsSound (nodes graph.now) self.new }
        ensures keeps { KeepsKnown self.old self.new }
    {
        let sides = self.sides_of(branch)?;
        if self.open_sides(sides.as_slice(), branch, place, 1)? == 0 {
            return Ok(place);
        }
        let places = self.held(graph, branch, ids)?;
        if places.len() <= 1 {
            return Ok(place);
        }
        self.most_closed(sides.as_slice(), branch, places.as_slice(), place)
    }

    /// The cases of a branch, where the member at this place is given to each side. Where two sides
    /// have elements all that is left doubles, so all members that have the same parts on all sides
    /// but one are given together. Where one side may have one they are too if many such were given
    /// alone before, since mostly that member is enough.
    pub(crate) fn cases_of<'g>(
        &self,
        branch: &Task<'g>,
        place: usize,
    ) -> Result<Cases<'g>, AllocError>
        requires { place < count_left (plain_task branch.now) }
        ensures { IfOk result (AreCasesOf self.now (plain_task branch.now)) }
    {
        let alloc = self.allocator();
        let cases = branch.cases(alloc, place)?;
        if !branch.has_group(place) {
            return Ok(Cases::Are(cases));
        }
        let open = self.count_open_cases(cases.as_slice())?;
        if open == 0 || (open == 1 && !branch.has_begun_group(place)) {
            return Ok(Cases::Are(cases));
        }
        match self.unknown_of(cases.as_slice())? {
            Some(question) if open > 1 => Ok(Cases::Wants(question)),
            _ => Ok(Cases::Are(branch.cases_together(alloc, place)?)),
        }
    }

    // How many of some cases have no question that is known to have no element.
    fn count_open_cases(&self, cases: &[Task<'_>]) -> Result<usize, AllocError> {
        let mut open = 0usize;
        for case in cases {
            match self.parts_of(case)? {
                Parts::Missing => {}
                Parts::Unknown(_) | Parts::Are(_) => open = open.saturating_add(1),
            }
        }
        Ok(open)
    }

    // The first question of some cases of which nothing is known.
    fn unknown_of(&self, cases: &[Task<'_>]) -> Result<Option<Question>, AllocError>
        ensures { IfOk result (IsUnknownOf self.now (map plain_task cases.now)) }
    {
        for case in cases {
            if let Parts::Unknown(question) = self.parts_of(case)? {
                return Ok(Some(question));
            }
        }
        Ok(None)
    }

    // The places of some members that hold what was made.
    fn held(
        &mut self,
        graph: &Graph,
        branch: &Task<'_>,
        ids: &[ElementId],
    ) -> Result<Vec<usize>, AllocError>
        requires sound { IsSound (nodes graph.now) self.old }
        requires nodes { IsTaskOfNodes (length (nodes graph.now)) (plain_task branch.now) }
        requires have { HaveElements self.old ids.now (questions_of (plain_task branch.now)) }
        ensures held { let parts = map (element_at (table self.old)) ids.now in IfOk result
            (λ places. AllOf (IsHeldAt (nodes graph.now) parts (plain_task branch.now))
            places.items) }
        ensures sound { IsSound (nodes graph.now) self.new }
        ensures keeps { KeepsKnown self.old self.new }
    {
        held_places(graph, &self.elements, &mut self.facts, branch, ids)
    }

    // Of these places, and one more, the first of which the fewest sides are open.
    fn most_closed(
        &self,
        sides: &[Question],
        branch: &Task<'_>,
        places: &[usize],
        place: usize,
    ) -> Result<usize, AllocError>
        ensures { IfOk result (λ other. (other ≡ place) ⊎ AnyOf (λ one. one ≡ other) places.now) }
    {
        let mut best = place;
        let mut fewest = self.open_sides(sides, branch, place, sides.len())?;
        for index in 0..places.len() {
            let open = self.open_sides(sides, branch, places[index], fewest)?;
            if open < fewest {
                best = places[index];
                fewest = open;
            }
        }
        Ok(best)
    }

    // The questions of the sides of a branch for a pair or an XML element, the last side first,
    // since that is the one that is mostly open.
    fn sides_of(&self, branch: &Task<'_>) -> Result<Vec<Question>, AllocError> {
        let alloc = self.allocator();
        let mut sides = Vec::new(alloc);
        match branch {
            Task::Pair(task) => {
                sides.push(task.second_question(alloc)?)?;
                sides.push(task.first_question(alloc)?)?;
            }
            Task::Xml(task) => {
                sides.push(task.content_question(alloc)?)?;
                sides.push(task.attributes_question(alloc)?)?;
                sides.push(task.tag_question(alloc)?)?;
            }
            Task::Arrow(_) | Task::Record(_) => {}
        }
        Ok(sides)
    }

    // How many sides of a branch are open where the member at this place is given to each, or that
    // there are enough.
    fn open_sides(
        &self,
        sides: &[Question],
        branch: &Task<'_>,
        place: usize,
        enough: usize,
    ) -> Result<usize, AllocError> {
        match branch {
            Task::Pair(task) => match task.left.get(place).copied() {
                Some((first, second)) => self.count_open(sides, &[second, first], enough),
                None => Ok(0),
            },
            Task::Xml(task) => match task.left.get(place).copied() {
                Some((tag, attributes, content)) => {
                    self.count_open(sides, &[content, attributes, tag], enough)
                }
                None => Ok(0),
            },
            Task::Arrow(_) | Task::Record(_) => Ok(0),
        }
    }

    // How many of some sides are open where each refuses one node more, or that there are enough.
    fn count_open(
        &self,
        sides: &[Question],
        nodes: &[NodeId],
        enough: usize,
    ) -> Result<usize, AllocError> {
        let mut count = 0usize;
        for (side, node) in sides.iter().zip(nodes) {
            if count < enough && self.is_open(side, *node)? {
                count = count.saturating_add(1);
            }
        }
        Ok(count)
    }

    // Whether a side is open that refuses one node more.
    fn is_open(&self, side: &Question, node: NodeId) -> Result<bool, AllocError> {
        let mut question = side.copy()?;
        question.neg.insert(node)?;
        match self.look(&question) {
            Look::Empty => Ok(false),
            Look::Has(_) | Look::Unknown => Ok(true),
        }
    }
}

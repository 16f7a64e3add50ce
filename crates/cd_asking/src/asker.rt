//! What is known of a graph while values are asked.
ghost use Rattle.std.specs.Prelude.{◌≡◌, ◌<◌, ◌+◌, ◌*◌, ◌^◌, ◌++◌, ℕ, [], ◌∷◌, List, Some, length, IfOk};
ghost use Rattle.std.specs.Prelude.{IfSome};
ghost use Rattle.cd_syntax.specs.Name.{Name as PlainName, IsLabel};
ghost use Rattle.cd_model.specs.Formula.{Graph as PlainGraph};
ghost use Rattle.cd_graph.specs.Nodes.{nodes};
ghost use Rattle.cd_cells.specs.Cells.{name_at};
ghost use Rattle.cd_cells.specs.Table.{names};
ghost use Rattle.cd_asking.specs.Known.{KnowsOf};
ghost use Rattle.cd_asking.specs.Inner.Rows.{row_at};
ghost use Rattle.cd_asking.specs.Inner.Shapes.{Character};
ghost use Rattle.cd_cells.specs.Slots.{slot_at};
ghost use Rattle.cd_asking.specs.Inner.Tasks.{Covers, At};
ghost use Rattle.cd_asking.specs.Inner.Asked.{set_at, shape_by, IsCase, IsCaseWithin, IsField};
ghost use Rattle.cd_asking.specs.Inner.Asked.{IsRow, AreNodesOf, Grow, Grows, Found};
ghost use Rattle.cd_asking.specs.Inner.Entries.{LeadBoth, LeadAll};

use crate::case::Case;
use crate::field_rows::FieldRows;
use crate::finding::{find_case, find_lead};
use crate::led::Child;
use crate::node_sets::{NodeSets, SetId};
use crate::row::{Answered, RowId};
use cd_cells::{Slots, Values};
use cd_graph::Graph;
use cd_sets::node_id::NodeId;
use indexmap::IndexMap;
use std::alloc::{AllocError, Global};

/// A set of nodes that is asked a field of a record.
#[derive(Clone, Copy, PartialEq, Eq, Hash)]
pub(crate) struct Lead {
    pub(crate) set: SetId,
    /// The number of the label of the field.
    pub(crate) label: u32,
}

/// A set of nodes that is asked a value.
#[derive(Clone, Copy, PartialEq, Eq, Hash)]
pub(crate) struct Question {
    pub(crate) set: SetId,
    pub(crate) case: Case,
}

impl Question {
    /// A number below 512, which is most often another one for another question.
    pub(crate) fn place(self) -> usize
        ensures { result < 512 }
    {
        (17 * self.set.0 as usize + self.case.number()) % 512
    }
}

/// A question that was asked not long ago, and the answer.
#[derive(Clone, Copy)]
pub(crate) struct Recent {
    pub(crate) question: Question,
    pub(crate) answer: SetId,
}

/// The sets at which a set asks both parts of a pair.
#[derive(Clone, Copy)]
pub(crate) struct PairLeads {
    pub(crate) first: SetId,
    pub(crate) second: SetId,
}

/// The sets at which a set asks the parts of an XML value.
#[derive(Clone, Copy)]
pub(crate) struct XmlLeads {
    pub(crate) tag: SetId,
    pub(crate) attributes: SetId,
    pub(crate) content: SetId,
}

/// What is known of one graph while the values of one table are asked. It stays right when the
/// graph and the table grow.
#[derive(Drop)]
pub struct Asker {
    /// Sets of nodes.
    pub(crate) sets: NodeSets,
    /// Rows of fields.
    pub(crate) rows: FieldRows,
    /// The sets at which a set asks the parts of a pair.
    pub(crate) pairs: Slots<PairLeads>,
    /// The sets at which a set asks the parts of an XML value.
    pub(crate) xmls: Slots<XmlLeads>,
    /// Which nodes of a set hold an ASCII character: by 128 times the set's number and the
    /// character.
    pub(crate) letters: Slots<SetId>,
    /// The set at which a set asks a field.
    pub(crate) leads: IndexMap<Lead, SetId>,
    /// Which nodes of a set hold a value.
    pub(crate) answers: IndexMap<Question, SetId>,
    /// The last answer of each place of questions.
    pub(crate) recent: Slots<Recent>,
}

impl Asker {
    /// Nothing is known.
    pub fn new(alloc: Global) -> Asker
        ensures { (graph : PlainGraph) (names : List PlainName) → KnowsOf graph names result }
    {
        Asker {
            sets: NodeSets::new(alloc),
            rows: FieldRows::new(alloc),
            pairs: Slots::new(alloc),
            xmls: Slots::new(alloc),
            letters: Slots::new(alloc),
            leads: IndexMap::new(alloc),
            answers: IndexMap::new(alloc),
            recent: Slots::new(alloc),
        }
    }

    /// The set of one node.
    pub(crate) fn one(
        &mut self,
        graph: &Graph,
        values: &Values,
        node: NodeId,
    ) -> Result<SetId, AllocError>
        requires node { node.0 < length (nodes graph.now) }
        requires right { KnowsOf (nodes graph.now) (names values.now) self.old }
        ensures found { IfOk result (λ set. set_at self.new.sets set ≡ node ∷ []) }
        ensures within { IfOk result (λ set. set.0 < length self.new.sets) }
        ensures right { KnowsOf (nodes graph.now) (names values.now) self.new }
        ensures grows { Grows self.old self.new }
    {
        self.sets.number(&[node])
    }

    /// The row with one field more.
    pub(crate) fn longer(
        &mut self,
        graph: &Graph,
        values: &Values,
        row: RowId,
        field: Answered,
    ) -> Result<RowId, AllocError>
        requires row { IsRow (names values.now) self.old.sets self.old.rows row }
        requires field { IsField (names values.now) (length self.old.sets) field }
        requires right { KnowsOf (nodes graph.now) (names values.now) self.old }
        ensures found { IfOk result
            (λ new. row_at self.new.rows new ≡ row_at self.old.rows row ++ field ∷ []) }
        ensures row { IfOk result (IsRow (names values.now) self.new.sets self.new.rows) }
        ensures sets { self.new.sets ≡ self.old.sets }
        ensures right { KnowsOf (nodes graph.now) (names values.now) self.new }
        ensures grows { Grows self.old self.new }
    {
        self.rows.longer(row, field)
    }

    /// The set of nodes at which a set asks the field with a label.
    pub(crate) fn lead(
        &mut self,
        graph: &Graph,
        values: &Values,
        set: SetId,
        label: u32,
    ) -> Result<SetId, AllocError>
        requires within { set.0 < length self.old.sets }
        requires label { IsLabel (name_at (names values.now) label) }
        requires right { KnowsOf (nodes graph.now) (names values.now) self.old }
        ensures covers { let child = At (name_at (names values.now) label) in
            IfOk result (λ next. Covers (nodes graph.now) child (set_at self.old.sets set)
            (set_at self.new.sets next)) }
        ensures within { IfOk result (λ next. next.0 < length self.new.sets) }
        ensures right { KnowsOf (nodes graph.now) (names values.now) self.new }
        ensures grows { Grows self.old self.new }
    {
        let lead = Lead { set, label };
        if let Some(next) = self.leads.get(&lead).copied() {
            return Ok(next);
        }
        let next = find_lead(&mut self.sets, graph, values, set, Child::At(label))?;
        self.leads.insert(lead, next)?;
        Ok(next)
    }

    /// The sets of nodes at which a set asks both parts of a pair.
    pub(crate) fn pair_leads(
        &mut self,
        graph: &Graph,
        values: &Values,
        set: SetId,
    ) -> Result<PairLeads, AllocError>
        requires within { set.0 < length self.old.sets }
        requires right { KnowsOf (nodes graph.now) (names values.now) self.old }
        ensures leads { IfOk result
            (LeadBoth (nodes graph.now) self.new.sets (set_at self.old.sets set)) }
        ensures right { KnowsOf (nodes graph.now) (names values.now) self.new }
        ensures grows { Grows self.old self.new }
    {
        if let Some(leads) = self.pairs.get(set.0 as usize) {
            return Ok(leads);
        }
        let leads = find_pair_leads(&mut self.sets, graph, values, set)?;
        self.pairs.put(set.0 as usize, leads)?;
        Ok(leads)
    }

    /// The sets of nodes at which a set asks the parts of an XML value.
    pub(crate) fn xml_leads(
        &mut self,
        graph: &Graph,
        values: &Values,
        set: SetId,
    ) -> Result<XmlLeads, AllocError>
        requires within { set.0 < length self.old.sets }
        requires right { KnowsOf (nodes graph.now) (names values.now) self.old }
        ensures leads { IfOk result
            (LeadAll (nodes graph.now) self.new.sets (set_at self.old.sets set)) }
        ensures right { KnowsOf (nodes graph.now) (names values.now) self.new }
        ensures grows { Grows self.old self.new }
    {
        if let Some(leads) = self.xmls.get(set.0 as usize) {
            return Ok(leads);
        }
        let leads = find_xml_leads(&mut self.sets, graph, values, set)?;
        self.xmls.put(set.0 as usize, leads)?;
        Ok(leads)
    }

    /// The set of those nodes of a set that hold a character.
    pub(crate) fn letter(
        &mut self,
        graph: &Graph,
        values: &Values,
        set: SetId,
        c: char,
    ) -> Result<SetId, AllocError>
        requires within { set.0 < length self.old.sets }
        requires right { KnowsOf (nodes graph.now) (names values.now) self.old }
        ensures found { IfOk result
            (Found (nodes graph.now) (Character c) (set_at self.old.sets set) self.new.sets) }
        ensures right { KnowsOf (nodes graph.now) (names values.now) self.new }
        ensures grows { Grows self.old self.new }
    {
        match self.known_letter(set, c) {
            Some(answer) => Ok(answer),
            None => self.new_letter(graph, values, set, c),
        }
    }

    /// The same, if it is known.
    #[inline(always)]
    pub(crate) fn known_letter(&self, set: SetId, c: char) -> Option<SetId>
        ensures { IfSome result (λ answer. (c < 128)
            × (slot_at self.now.letters (128 * set.0 + c) ≡ Some answer)) }
    {
        let code = c as usize;
        if code >= 128 {
            return None;
        }
        self.letters.get(128 * set.0 as usize + code)
    }

    // The same, where it may be new.
    fn new_letter(
        &mut self,
        graph: &Graph,
        values: &Values,
        set: SetId,
        c: char,
    ) -> Result<SetId, AllocError>
        requires within { set.0 < length self.old.sets }
        requires right { KnowsOf (nodes graph.now) (names values.now) self.old }
        ensures found { IfOk result
            (Found (nodes graph.now) (Character c) (set_at self.old.sets set) self.new.sets) }
        ensures right { KnowsOf (nodes graph.now) (names values.now) self.new }
        ensures grows { Grows self.old self.new }
    {
        let code = c as usize;
        let answer = self.answer(graph, values, set, Case::Letter(c))?;
        if code >= 128 {
            return Ok(answer);
        }
        self.letters.put(128 * set.0 as usize + code, answer)?;
        Ok(answer)
    }

    /// The set of those nodes of a set that hold a value.
    pub(crate) fn answer(
        &mut self,
        graph: &Graph,
        values: &Values,
        set: SetId,
        case: Case,
    ) -> Result<SetId, AllocError>
        requires within { set.0 < length self.old.sets }
        requires case { IsCase (names values.now) case }
        requires parts { IsCaseWithin (names values.now) self.old.sets self.old.rows case }
        requires right { KnowsOf (nodes graph.now) (names values.now) self.old }
        ensures found { let shape = shape_by (names values.now) self.old.sets self.old.rows case in
            IfOk result (Found (nodes graph.now) shape (set_at self.old.sets set) self.new.sets) }
        ensures right { KnowsOf (nodes graph.now) (names values.now) self.new }
        ensures grows { Grows self.old self.new }
    {
        let question = Question { set, case };
        if let Some(answer) = self.recent_answer(question) {
            return Ok(answer);
        }
        let answer = self.other_answer(graph, values, set, case)?;
        self.recent
            .put(question.place(), Recent { question, answer })?;
        Ok(answer)
    }

    // The same, if it was asked not long ago.
    fn recent_answer(&self, question: Question) -> Option<SetId>
        ensures { IfSome result (λ answer. (place : ℕ)
            × (slot_at self.now.recent place
            ≡ Some (record { question = question; answer = answer }))) }
    {
        match self.recent.get(question.place()) {
            Some(recent) if recent.question == question => Some(recent.answer),
            _ => None,
        }
    }

    // The same, where it may have been asked long ago, or never.
    fn other_answer(
        &mut self,
        graph: &Graph,
        values: &Values,
        set: SetId,
        case: Case,
    ) -> Result<SetId, AllocError>
        requires within { set.0 < length self.old.sets }
        requires case { IsCase (names values.now) case }
        requires parts { IsCaseWithin (names values.now) self.old.sets self.old.rows case }
        requires right { KnowsOf (nodes graph.now) (names values.now) self.old }
        ensures found { let shape = shape_by (names values.now) self.old.sets self.old.rows case in
            IfOk result (Found (nodes graph.now) shape (set_at self.old.sets set) self.new.sets) }
        ensures right { KnowsOf (nodes graph.now) (names values.now) self.new }
        ensures grows { Grows self.old self.new }
    {
        let question = Question { set, case };
        if let Some(answer) = self.answers.get(&question).copied() {
            return Ok(answer);
        }
        let answer = find_case(&mut self.sets, &self.rows, graph, values, set, case)?;
        self.answers.insert(question, answer)?;
        Ok(answer)
    }
}

// The sets of nodes at which a set asks both parts of a pair.
fn find_pair_leads(
    sets: &mut NodeSets,
    graph: &Graph,
    values: &Values,
    set: SetId,
) -> Result<PairLeads, AllocError>
    requires within { set.0 < length sets.old }
    requires sound { AreNodesOf (nodes graph.now) sets.old }
    ensures leads { IfOk result (LeadBoth (nodes graph.now) sets.new (set_at sets.old set)) }
    ensures sound { AreNodesOf (nodes graph.now) sets.new }
    ensures grows { Grow sets.old sets.new }
{
    let first = find_lead(sets, graph, values, set, Child::First)?;
    let second = find_lead(sets, graph, values, set, Child::Second)?;
    Ok(PairLeads { first, second })
}

// The sets of nodes at which a set asks the parts of an XML value.
fn find_xml_leads(
    sets: &mut NodeSets,
    graph: &Graph,
    values: &Values,
    set: SetId,
) -> Result<XmlLeads, AllocError>
    requires within { set.0 < length sets.old }
    requires sound { AreNodesOf (nodes graph.now) sets.old }
    ensures leads { IfOk result (LeadAll (nodes graph.now) sets.new (set_at sets.old set)) }
    ensures sound { AreNodesOf (nodes graph.now) sets.new }
    ensures grows { Grow sets.old sets.new }
{
    let tag = find_lead(sets, graph, values, set, Child::Tag)?;
    let attributes = find_lead(sets, graph, values, set, Child::Attributes)?;
    let content = find_lead(sets, graph, values, set, Child::Content)?;
    Ok(XmlLeads {
        tag,
        attributes,
        content,
    })
}

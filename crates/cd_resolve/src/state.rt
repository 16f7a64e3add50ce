//! What a walk over trees has made.
ghost use Rattle.std.specs.Prelude.{◌≡◌, ◌+◌, ◌++◌, [], length, map, Some, IfOk, OnOk};
ghost use Rattle.std.specs.Option.{option_map};
ghost use Rattle.cd_syntax.specs.PlainTree.{plain_declarations};
ghost use Rattle.cd_graph.specs.PlainFormula.{plain, plain_named};
ghost use Rattle.cd_regex.specs.PlainRegular.{plain as plain_reg};
ghost use Rattle.cd_shared.specs.Equation.{Is, plain_equation, plain_equations};
ghost use Rattle.cd_resolve.specs.Inner.Leaves.{joined};
ghost use Rattle.cd_resolve.specs.Inner.Walk.{pushed, leaf as leaf_of, entered, settled, chained};
ghost use Rattle.cd_resolve.specs.Inner.Walk.{walked_text, character_before, recorded, sequenced};
ghost use Rattle.cd_resolve.specs.Inner.Walk.{united as united_members, united_all};
ghost use Rattle.cd_resolve.specs.Inner.Walk.{met as met_members, met_all};
ghost use Rattle.cd_resolve.specs.Inner.PlainState.{plain_joint, HaveLabels};

use crate::base::Base;
use crate::compare::characters_of;
use crate::leaves::characters;
use crate::members::{meet_of, union_of};
use crate::sort::sort;
use cd_graph::Formula;
use cd_graph::built_in::{ANY, EMPTY, NIL};
use cd_graph::fields::{Field, FieldList, Fields};
use cd_regex::{Reg, sequence_nodes};
use cd_sets::node_id::NodeId;
use cd_shared::Equation;
use cd_syntax::name::Name;
use cd_syntax::type_tree::Declarations;
use std::alloc::{AllocError, Global};

/// What a chain is made of: of pairs, as a tuple, or of functions, as a chain of arrows.
#[derive(Clone, Copy)]
pub(crate) enum Joint {
    Pairs,
    Arrows,
}

/// The equations of nodes that follow one another. A declared name whose tree is not read yet has
/// none.
#[derive(Drop)]
pub(crate) struct State {
    pub(crate) equations: Vec<Option<Equation>>,
}

impl State {
    /// No equations.
    pub(crate) fn new(alloc: Global) -> State
        ensures { plain_equations result.equations.items ≡ [] }
    {
        State {
            equations: Vec::new(alloc),
        }
    }

    /// The number of the next node.
    pub(crate) fn next(&self, base: &Base<'_, '_>) -> Result<usize, AllocError>
        ensures { IfOk result (λ number.
            number ≡ base.now.first + length (plain_equations self.now.equations.items)) }
    {
        // No graph is so long.
        let Some(number) = base.first.checked_add(self.equations.len()) else {
            return Err(AllocError);
        };
        Ok(number)
    }

    /// Puts an equation after those that are there, and gives its node.
    pub(crate) fn push(
        &mut self,
        base: &Base<'_, '_>,
        equation: Equation,
    ) -> Result<NodeId, AllocError>
        ensures { IfOk result (λ id. (id, plain_equations self.new.equations.items)
            ≡ pushed base.now.first (plain_equation equation)
            (plain_equations self.old.equations.items)) }
    {
        let number = self.next(base)?;
        self.equations.push(Some(equation))?;
        Ok(NodeId(number))
    }

    /// The node of a formula, if there is one, else of what holds nothing.
    pub(crate) fn leaf(
        &mut self,
        base: &Base<'_, '_>,
        formula: Option<Formula>,
    ) -> Result<NodeId, AllocError>
        ensures { IfOk result (λ id. (id, plain_equations self.new.equations.items)
            ≡ leaf_of base.now.first (option_map plain formula)
            (plain_equations self.old.equations.items)) }
    {
        match formula {
            Some(formula) => self.push(base, Equation::Is(formula)),
            None => Ok(EMPTY),
        }
    }

    /// Puts the names of a list of declarations, whose trees are not read yet.
    pub(crate) fn enter(&mut self, declarations: &Declarations) -> Result<(), AllocError>
        ensures { OnOk result (plain_equations self.new.equations.items
            ≡ entered (plain_declarations declarations.now)
            (plain_equations self.old.equations.items)) }
    {
        for _count in 0..declarations.items().len() {
            self.equations.push(None)?;
        }
        Ok(())
    }

    /// Sets the equation of a declared name: its node holds what that of its tree does.
    pub(crate) fn settle(&mut self, number: usize, root: NodeId)
        ensures { plain_equations self.new.equations.items
            ≡ settled number (root, plain_equations self.old.equations.items) }
    {
        if let Some(equation) = self.equations.get_mut(number) {
            *equation = Some(Equation::Same(root));
        }
    }

    // Puts a pair or a function of these two nodes.
    fn join(
        &mut self,
        base: &Base<'_, '_>,
        joint: Joint,
        first: NodeId,
        second: NodeId,
    ) -> Result<NodeId, AllocError>
        ensures { IfOk result (λ id. (id, plain_equations self.new.equations.items)
            ≡ pushed base.now.first (Is (joined (plain_joint joint) first second))
            (plain_equations self.old.equations.items)) }
    {
        match joint {
            Joint::Pairs => self.push(base, Equation::Is(Formula::pair(first, second))),
            Joint::Arrows => self.push(base, Equation::Is(Formula::arrow(first, second))),
        }
    }

    /// A chain of these nodes, nested to the right. One of no nodes holds nothing.
    pub(crate) fn chain(
        &mut self,
        base: &Base<'_, '_>,
        joint: Joint,
        ids: &[NodeId],
    ) -> Result<NodeId, AllocError>
        ensures { IfOk result (λ id. (id, plain_equations self.new.equations.items)
            ≡ chained base.now.first (plain_joint joint) ids.now
            (plain_equations self.old.equations.items)) }
    {
        let mut index = ids.len();
        if index == 0 {
            return Ok(EMPTY);
        }
        index -= 1;
        let mut id = ids[index];
        while index > 0 {
            index -= 1;
            id = self.join(base, joint, ids[index], id)?;
        }
        Ok(id)
    }

    /// A text as pairs of its characters, nested to the right, which end in the atom `nil`.
    pub(crate) fn text(&mut self, base: &Base<'_, '_>, text: &Name) -> Result<NodeId, AllocError>
        ensures { IfOk result (λ id. (id, plain_equations self.new.equations.items)
            ≡ walked_text base.now.first text.now (plain_equations self.old.equations.items)) }
    {
        let text = characters_of(base.alloc, text)?;
        let mut index = text.len();
        let mut id = NIL;
        while index > 0 {
            index -= 1;
            id = self.character(base, text[index], id)?;
        }
        Ok(id)
    }

    // A character before the rest of its text.
    fn character(
        &mut self,
        base: &Base<'_, '_>,
        c: char,
        rest: NodeId,
    ) -> Result<NodeId, AllocError>
        ensures { IfOk result (λ id. (id, plain_equations self.new.equations.items)
            ≡ character_before base.now.first c
            (rest, plain_equations self.old.equations.items)) }
    {
        let first = self.leaf(base, characters(base.alloc, c, c)?)?;
        self.push(base, Equation::Is(Formula::pair(first, rest)))
    }

    /// A record type with these fields, at whose other labels there may be something of a node.
    pub(crate) fn record(
        &mut self,
        base: &Base<'_, '_>,
        fields: Vec<(Name, Field)>,
        rest: NodeId,
    ) -> Result<NodeId, AllocError>
        requires { HaveLabels (plain_named fields.items) }
        ensures { IfOk result (λ id. (id, plain_equations self.new.equations.items)
            ≡ recorded base.now.first (plain_named fields.items)
            (rest, plain_equations self.old.equations.items)) }
    {
        let named = FieldList::of(sort(base.alloc, fields)?)?;
        self.push(base, Equation::Is(Formula::record(Fields { named, rest })))
    }

    /// A union of these nodes.
    pub(crate) fn union(
        &mut self,
        base: &Base<'_, '_>,
        ids: &[NodeId],
    ) -> Result<NodeId, AllocError>
        ensures { IfOk result (λ id. (id, plain_equations self.new.equations.items)
            ≡ united_all base.now.first (ids.now, plain_equations self.old.equations.items)) }
    {
        let members = union_of(base.alloc, ids)?;
        self.united(base, members)
    }

    // A union of these members. One of no members holds nothing, and of one what this holds.
    fn united(&mut self, base: &Base<'_, '_>, members: Vec<NodeId>) -> Result<NodeId, AllocError>
        ensures { IfOk result (λ id. (id, plain_equations self.new.equations.items)
            ≡ united_members base.now.first members.items
            (plain_equations self.old.equations.items)) }
    {
        if members.is_empty() {
            return Ok(EMPTY);
        }
        if members.len() == 1 {
            return Ok(members[0]);
        }
        self.push(base, Equation::Or(members))
    }

    /// A meet of these nodes with their signs.
    pub(crate) fn meet(
        &mut self,
        base: &Base<'_, '_>,
        signs: &[(bool, NodeId)],
    ) -> Result<NodeId, AllocError>
        ensures { IfOk result (λ id. (id, plain_equations self.new.equations.items)
            ≡ met_all base.now.first (signs.now, plain_equations self.old.equations.items)) }
    {
        let members = meet_of(base.alloc, signs)?;
        self.met(base, members)
    }

    // A meet of these members. One of no members holds everything, and of one that is kept what
    // this holds.
    fn met(
        &mut self,
        base: &Base<'_, '_>,
        members: Vec<(bool, NodeId)>,
    ) -> Result<NodeId, AllocError>
        ensures { IfOk result (λ id. (id, plain_equations self.new.equations.items)
            ≡ met_members base.now.first members.items
            (plain_equations self.old.equations.items)) }
    {
        if members.is_empty() {
            return Ok(ANY);
        }
        if members.len() == 1 && members[0].0 {
            return Ok(members[0].1);
        }
        self.push(base, Equation::And(members))
    }

    /// The sequences of an expression: the states of its automaton, of which the first holds them.
    pub(crate) fn sequence(
        &mut self,
        base: &Base<'_, '_>,
        regular: &Reg,
    ) -> Result<NodeId, AllocError>
        ensures { IfOk result (λ id. (id, plain_equations self.new.equations.items)
            ≡ sequenced base.now.first
            (plain_reg regular.now, plain_equations self.old.equations.items)) }
    {
        let number = self.next(base)?;
        let formulas = sequence_nodes(base.alloc, number, regular)?;
        self.add_all(formulas)?;
        Ok(NodeId(number))
    }

    // Puts these formulas after those that are there.
    fn add_all(&mut self, formulas: Vec<Formula>) -> Result<(), AllocError>
        ensures { OnOk result (plain_equations self.new.equations.items
            ≡ plain_equations self.old.equations.items
            ++ map (λ formula. Some (Is formula)) (map plain formulas.items)) }
    {
        for formula in formulas {
            self.equations.push(Some(Equation::Is(formula)))?;
        }
        Ok(())
    }
}

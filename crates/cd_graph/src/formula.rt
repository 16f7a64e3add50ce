ghost use Rattle.std.specs.Prelude.{◌≡◌, map, IfOk};
ghost use Rattle.cd_graph.specs.PlainFormula.{plain, plain_list};

use crate::fields::Fields;
use cd_sets::atom_set::AtomSet;
use cd_sets::char_set::CharSet;
use cd_sets::int_set::IntSet;
use cd_sets::node_id::NodeId;
use std::alloc::{AllocError, Global};
use std::rc::Rc;

/// What a node of a graph holds. Node numbers stand only under constructors. A copy shares its
/// parts.
#[cycle(formula)]
#[derive(Drop)]
pub enum Formula {
    /// Nothing.
    None,
    /// Everything.
    All,
    /// These integers.
    Ints(IntSet),
    /// These characters.
    Chars(CharSet),
    /// These atoms.
    Atoms(AtomSet),
    /// The pairs whose parts are in the two nodes.
    Pair(NodeId, NodeId),
    /// The XML elements whose tag, attributes and content are in the three nodes.
    Xml(NodeId, NodeId, NodeId),
    /// The records with these fields.
    Record(Fields),
    /// The functions that map what is in the first node into the second.
    Arrow(NodeId, NodeId),
    /// What is in each of these.
    And(Formulas),
    /// What is in one of these.
    Or(Formulas),
    /// What is not in this one.
    Not(Rc<Formula>),
}

/// A list of formulas.
#[cycle(formula)]
#[derive(Drop)]
pub struct Formulas {
    items: Rc<Vec<Formula>>,
    // How deep connectives nest here, with this one.
    depth: usize,
}

// So deep may connectives nest, since formulas are gone over by recursion. What is written nests
// less, but names that are each a connective over the next one nest as deep as they are many.
const MOST_DEPTH: usize = 4_000;

impl Formula {
    /// An equal formula.
    pub fn copy(&self) -> Result<Formula, AllocError>
        ensures { IfOk result (λ copy. plain copy ≡ plain self.now) }
    {
        Ok(match self {
            Formula::None => Formula::None,
            Formula::All => Formula::All,
            Formula::Ints(set) => Formula::Ints(set.copy()?),
            Formula::Chars(set) => Formula::Chars(set.copy()?),
            Formula::Atoms(set) => Formula::Atoms(set.copy()?),
            Formula::Pair(first, second) => Formula::Pair(*first, *second),
            Formula::Xml(tag, attributes, content) => Formula::Xml(*tag, *attributes, *content),
            Formula::Record(fields) => Formula::Record(fields.copy()?),
            Formula::Arrow(argument, mapped) => Formula::Arrow(*argument, *mapped),
            Formula::And(formulas) => Formula::And(formulas.copy()?),
            Formula::Or(formulas) => Formula::Or(formulas.copy()?),
            Formula::Not(formula) => Formula::Not(formula.clone()?),
        })
    }

    // How deep connectives nest.
    fn depth(&self) -> usize {
        match self {
            Formula::And(formulas) => formulas.depth,
            Formula::Or(formulas) => formulas.depth,
            Formula::Not(negated) => negated.depth(),
            _ => 0,
        }
    }
}

impl Formulas {
    /// The list of these formulas.
    ///
    /// # Errors
    ///
    /// Want of memory, also where connectives nest more than 4,000 deep.
    pub fn of(items: Vec<Formula>) -> Result<Formulas, AllocError>
        ensures { IfOk result (λ formulas. plain_list formulas ≡ map plain items.items) }
    {
        let below = depth_of(items.as_slice());
        if below >= MOST_DEPTH {
            return Err(AllocError);
        }
        let alloc = *items.allocator();
        let items = Rc::new(alloc, items)?;
        let depth = below + 1;
        Ok(Formulas { items, depth })
    }

    /// The formulas, in order.
    pub fn items(&self) -> &[Formula]
        ensures { map plain result.now ≡ plain_list self.now }
    {
        self.items.as_slice()
    }

    /// An equal list.
    pub fn copy(&self) -> Result<Formulas, AllocError>
        ensures { IfOk result (λ copy. plain_list copy ≡ plain_list self.now) }
    {
        let items = self.items.clone()?;
        let depth = self.depth;
        Ok(Formulas { items, depth })
    }

    // The formulas, which are copied where another list shares them.
    pub(crate) fn into_items(self) -> Result<Vec<Formula>, AllocError>
        ensures { IfOk result (λ items. map plain items.items ≡ plain_list self) }
    {
        let alloc = *self.items.allocator();
        match Rc::try_unwrap(self.items) {
            Ok(items) => Ok(items),
            Err(shared) => copies(alloc, shared.as_slice()),
        }
    }
}

// How deep connectives nest in one of these.
fn depth_of(formulas: &[Formula]) -> usize {
    let mut most = 0;
    for formula in formulas {
        most = most.max(formula.depth());
    }
    most
}

// Copies of formulas.
fn copies(alloc: Global, formulas: &[Formula]) -> Result<Vec<Formula>, AllocError>
    ensures { IfOk result (λ copies. map plain copies.items ≡ map plain formulas.now) }
{
    let mut items = Vec::new(alloc);
    for formula in formulas {
        items.push(formula.copy()?)?;
    }
    Ok(items)
}

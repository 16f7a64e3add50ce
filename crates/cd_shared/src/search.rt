//! Which nodes are equal. Nothing is claimed of them here: they are looked at before they are used.
use crate::alike::{Joined, are_alike};
use crate::classes::Classes;
use crate::equation::Equation;
use cd_sets::node_id::NodeId;
use std::alloc::{AllocError, Global};

// How often the nodes are gone over at most. Once is enough but where nodes that lead back to
// themselves are equal to others.
const PASSES: usize = 16;

// How many places of the table are looked at for an equation.
const PROBES: usize = 16;

/// The class of each node, which is one of those that are equal, and a name if one stands for them;
/// and the leader of each class, by its number: a node of the class that is no name.
#[derive(Drop)]
pub(crate) struct Found {
    pub(crate) ids: Vec<NodeId>,
    pub(crate) leaders: Vec<usize>,
}

/// Finds equal nodes, by going over the nodes until no two become one.
pub(crate) fn find(
    alloc: Global,
    first: usize,
    equations: &[Option<Equation>],
) -> Result<Found, AllocError> {
    let mut search = Search::new(alloc, first, equations)?;
    search.join_names();
    for _ in 0..PASSES {
        search.stale = false;
        search.go_over()?;
        if !search.stale {
            break;
        }
        search.begin_again();
    }
    if search.again {
        search.make_flat();
    }
    Ok(Found {
        ids: search.classes.ids,
        leaders: search.leaders,
    })
}

/// How far a search has come with a class.
#[derive(Clone, Copy, PartialEq, Eq)]
pub(crate) enum Progress {
    /// It was not come to.
    New,
    /// A node of it is to be compared once others were that its equation names.
    Open,
    /// The same, and a node that was compared before names it.
    Named,
    /// A node of it was compared with others, or it was there before.
    Settled,
}

/// What a search goes by, and what it found.
#[derive(Drop)]
pub(crate) struct Search<'e> {
    equations: &'e [Option<Equation>],
    pub(crate) classes: Classes,
    leaders: Vec<usize>,
    // The names that stand for a node, in a chain: the first by the number of the node, and each
    // further one by that of the one before it. The number of no node ends it.
    names: Vec<usize>,
    progress: Vec<Progress>,
    // The nodes that were compared, each at a place that the sum of its equation gives, or the
    // number of no node. There are one more than `mask` places.
    table: Vec<usize>,
    mask: usize,
    // Where the nodes of the trees of names end.
    trees_end: usize,
    // What is gone over, each for the sake of the one before it.
    waiting: Vec<Span>,
    /// The class of the node at hand, whether it is left out of sums, and whether the node's own
    /// equation names it.
    pub(crate) own: NodeId,
    pub(crate) without: bool,
    pub(crate) names_own: bool,
    /// A class in the equation that was not come to.
    pub(crate) ahead: Option<NodeId>,
    // Whether this is not the first pass, and whether one more is wanted, since a class became one
    // with another one after it was named.
    again: bool,
    stale: bool,
}

// Nodes that are gone over from a number on, until a class was compared.
#[derive(Clone, Copy)]
struct Span {
    class: NodeId,
    number: usize,
}

impl<'e> Search<'e> {
    // Each node by itself, but for names.
    fn new(
        alloc: Global,
        first: usize,
        equations: &'e [Option<Equation>],
    ) -> Result<Search<'e>, AllocError> {
        let count = equations.len();
        let places = places_for(count);
        let mut ids = Vec::with_capacity(alloc, count)?;
        let mut leaders = Vec::with_capacity(alloc, count)?;
        let mut progress = Vec::with_capacity(alloc, count)?;
        for number in 0..count {
            let id = NodeId(first.saturating_add(number));
            ids.push(named_by(equations, number).unwrap_or(id))?;
            leaders.push(number)?;
            progress.push(Progress::New)?;
        }
        Ok(Search {
            equations,
            classes: Classes { first, ids },
            leaders,
            names: vec![in alloc; count; count]?,
            progress,
            table: vec![in alloc; count; places]?,
            mask: places.saturating_sub(1),
            trees_end: 0,
            waiting: Vec::new(alloc),
            own: NodeId(first),
            without: false,
            names_own: false,
            ahead: None,
            again: false,
            stale: false,
        })
    }

    // Makes each name one with what it stands for.
    fn join_names(&mut self) {
        for number in 0..self.equations.len() {
            if let Some(id) = named_by(self.equations, number) {
                let end = self.end_of(id);
                set(&mut self.classes.ids, number, end);
            }
        }
        for number in 0..self.equations.len() {
            if named_by(self.equations, number).is_some() {
                self.join_name(number);
            }
        }
    }

    // Makes a name one with what it stands for: the first name is the class. The nodes of its tree
    // begin where those of the trees before end, if it is not in one of these.
    fn join_name(&mut self, number: usize) {
        let end = self.class_at(number);
        let Some(place) = self.number(end) else {
            return;
        };
        let class = self.class_at(place);
        let next = self.names.get(place).copied().unwrap_or(number);
        set(&mut self.names, number, next);
        set(&mut self.names, place, number);
        if class != end {
            set(&mut self.classes.ids, number, class);
            return;
        }
        let name = NodeId(self.classes.first.saturating_add(number));
        set(&mut self.classes.ids, place, name);
        set(&mut self.classes.ids, number, name);
        set(&mut self.leaders, number, place.min(self.trees_end));
        self.trees_end = self.trees_end.max(place.saturating_add(1));
    }

    // Gives each node the class that its class leads to.
    fn make_flat(&mut self) {
        for number in 0..self.equations.len() {
            let id = self.class_at(number);
            if self.classes.class(id) != id {
                let end = self.end_of(id);
                set(&mut self.classes.ids, number, end);
            }
        }
    }

    // What a chain of classes leads to. The way there is made shorter.
    fn end_of(&mut self, id: NodeId) -> NodeId {
        let mut at = id;
        for _ in 0..self.equations.len() {
            let above = self.classes.class(at);
            if above == at {
                break;
            }
            let top = self.classes.class(above);
            if let Some(number) = self.number(at) {
                set(&mut self.classes.ids, number, top);
            }
            at = top;
        }
        at
    }

    // Forgets what was compared.
    fn begin_again(&mut self) {
        let count = self.equations.len();
        self.make_flat();
        self.table.as_mut_slice().fill(count);
        self.progress.as_mut_slice().fill(Progress::New);
        self.again = true;
        self.trees_end = 0;
    }

    // Compares the nodes of each name's tree, and then the others.
    fn go_over(&mut self) -> Result<(), AllocError> {
        let count = self.equations.len();
        if !self.again {
            for number in 0..count {
                if named_by(self.equations, number).is_some() {
                    self.go_ahead(self.class_at(number))?;
                }
            }
        }
        for number in self.trees_end..count {
            if let Some(ahead) = self.step(number) {
                let class = self.class_at(number);
                self.waiting.push(Span { class, number })?;
                self.go_ahead(ahead)?;
            }
        }
        Ok(())
    }

    // Compares the nodes that lead to a class, and then those that wait for it.
    fn go_ahead(&mut self, class: NodeId) -> Result<(), AllocError> {
        if self.progress_of(class) == Progress::New {
            self.set_progress(class, Progress::Open);
        }
        self.push(class)?;
        for _ in 0..usize::MAX {
            let Some(span) = self.waiting.pop() else {
                break;
            };
            self.go_along(span)?;
        }
        Ok(())
    }

    // Goes along the nodes of a span, until one wants another span before.
    fn go_along(&mut self, span: Span) -> Result<(), AllocError> {
        let class = span.class;
        for number in span.number..self.equations.len() {
            if self.progress_of(class) == Progress::Settled {
                break;
            }
            if let Some(ahead) = self.step(number) {
                self.waiting.push(Span { class, number })?;
                return self.push(ahead);
            }
        }
        Ok(())
    }

    fn push(&mut self, class: NodeId) -> Result<(), AllocError> {
        if let Some(number) = self.leader(class) {
            self.waiting.push(Span { class, number })?;
        }
        Ok(())
    }

    // Compares a node, or gives a class that is to be compared before.
    fn step(&mut self, number: usize) -> Option<NodeId> {
        let equations = self.equations;
        let equation = equations.get(number)?.as_ref()?;
        if let Equation::Same(_) = equation {
            return None;
        }
        let own = self.class_at(number);
        let place = self.number(own)?;
        let progress = self.progress.get(place).copied()?;
        if progress == Progress::Settled {
            return None;
        }
        self.own = own;
        self.without = false;
        self.names_own = false;
        self.ahead = None;
        let total = self.sum(equation);
        if self.ahead.is_some() {
            if progress == Progress::New {
                set(&mut self.progress, place, Progress::Open);
            }
            return self.ahead;
        }
        set(&mut self.progress, place, Progress::Settled);
        set(&mut self.leaders, place, number);
        let named = self.again || progress == Progress::Named;
        self.meet(number, equation, total, named);
        if self.names_own {
            self.own = self.class_at(number);
            self.without = true;
            let total = self.sum(equation);
            self.meet(number, equation, total, named);
        }
        None
    }

    // Makes a node one with an equal one, or puts it into the table.
    fn meet(&mut self, number: usize, equation: &Equation, total: usize, named: bool) {
        let mut place = (total ^ (total >> 32)) & self.mask;
        for _ in 0..PROBES {
            let Some(other) = self.table.get(place).copied() else {
                return;
            };
            if other >= self.equations.len() {
                set(&mut self.table, place, number);
                return;
            }
            if self.is_like(number, equation, other) {
                self.join(number, other, named);
                return;
            }
            place = place.wrapping_add(1) & self.mask;
        }
    }

    // Whether another node has this equation, where each may name itself.
    fn is_like(&self, number: usize, equation: &Equation, other: usize) -> bool {
        let joined = Joined {
            one: self.class_at(number),
            other: self.class_at(other),
        };
        match self.equations.get(other) {
            Some(Some(next)) => are_alike(&self.classes, joined, equation, next),
            _ => false,
        }
    }

    // Gives a node with its names the class of another one.
    fn join(&mut self, number: usize, other: usize, named: bool) {
        let class = self.class_at(other);
        let own = self.class_at(number);
        if class == own {
            return;
        }
        self.stale = self.stale || named;
        if let Some(place) = self.number(own) {
            set(&mut self.classes.ids, place, class);
        }
        let mut at = number;
        for _ in 0..self.equations.len() {
            set(&mut self.classes.ids, at, class);
            match self.names.get(at).copied() {
                Some(name) if name < self.equations.len() => at = name,
                _ => break,
            }
        }
    }

    fn leader(&self, class: NodeId) -> Option<usize> {
        self.leaders.get(self.number(class)?).copied()
    }

    fn class_at(&self, number: usize) -> NodeId {
        self.classes.ids.get(number).copied().unwrap_or_default()
    }

    /// How far the search has come with a class.
    pub(crate) fn progress_of(&self, class: NodeId) -> Progress {
        match self.number(class) {
            Some(place) => self
                .progress
                .get(place)
                .copied()
                .unwrap_or(Progress::Settled),
            None => Progress::Settled,
        }
    }

    /// It has come so far.
    pub(crate) fn set_progress(&mut self, class: NodeId, progress: Progress) {
        if let Some(place) = self.number(class) {
            set(&mut self.progress, place, progress);
        }
    }

    // The number of a node, counted from the first, unless it was there before.
    fn number(&self, id: NodeId) -> Option<usize> {
        if self.classes.first <= id.0 {
            Some(id.0 - self.classes.first)
        } else {
            None
        }
    }
}

// The node that the node with this number stands for, if it is a name.
fn named_by(equations: &[Option<Equation>], number: usize) -> Option<NodeId> {
    match equations.get(number) {
        Some(Some(Equation::Same(id))) => Some(*id),
        _ => None,
    }
}

// How many places a table of so many nodes has: a power of two, and twice as many at least.
fn places_for(count: usize) -> usize {
    let mut places = 16usize;
    for _ in 0..60 {
        if places / 2 >= count {
            break;
        }
        places = places.saturating_mul(2);
    }
    places
}

fn set<T: Copy>(list: &mut Vec<T>, number: usize, item: T) {
    if let Some(place) = list.get_mut(number) {
        *place = item;
    }
}

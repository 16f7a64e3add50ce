//! Sums of equations, by which equal ones are found. Nothing is claimed of them.
use crate::equation::Equation;
use crate::search::{Progress, Search};
use cd_graph::fields::{Field, Fields};
use cd_graph::{Formula, Formulas};
use cd_sets::atom_set::AtomSet;
use cd_sets::char_set::CharSet;
use cd_sets::int_set::IntSet;
use cd_sets::node_id::NodeId;
use cd_syntax::name::Name;

impl Search<'_> {
    /// The sum of the equation of the node at hand. Equal equations have equal sums.
    pub(crate) fn sum(&mut self, equation: &Equation) -> usize {
        match equation {
            Equation::Is(formula) => self.formula(0, formula),
            Equation::Same(id) => self.node(0, *id),
            Equation::And(signs) => self.signs(signs.as_slice()),
            Equation::Or(ids) => self.nodes(ids.as_slice()),
        }
    }

    fn signs(&mut self, signs: &[(bool, NodeId)]) -> usize {
        let mut total = 1;
        for (kept, id) in signs {
            total = self.node(mixed(total, usize::from(*kept)), *id);
        }
        total
    }

    fn nodes(&mut self, ids: &[NodeId]) -> usize {
        let mut total = 2;
        for id in ids {
            total = self.node(total, *id);
        }
        total
    }

    #[cycle(sum)]
    fn formula(&mut self, total: usize, formula: &Formula) -> usize {
        match formula {
            Formula::None => mixed(total, 3),
            Formula::All => mixed(total, 4),
            Formula::Ints(set) => integers(mixed(total, 5), set),
            Formula::Chars(set) => characters(mixed(total, 6), set),
            Formula::Atoms(set) => atoms(mixed(total, 7), set),
            Formula::Pair(first, second) => {
                let total = self.node(mixed(total, 8), *first);
                self.node(total, *second)
            }
            Formula::Xml(tag, attributes, content) => {
                let total = self.node(mixed(total, 9), *tag);
                let total = self.node(total, *attributes);
                self.node(total, *content)
            }
            Formula::Record(fields) => self.record(mixed(total, 10), fields),
            Formula::Arrow(argument, mapped) => {
                let total = self.node(mixed(total, 11), *argument);
                self.node(total, *mapped)
            }
            Formula::And(formulas) => self.formulas(mixed(total, 12), formulas),
            Formula::Or(formulas) => self.formulas(mixed(total, 13), formulas),
            Formula::Not(negated) => self.formula(mixed(total, 14), negated),
        }
    }

    #[cycle(sum)]
    fn formulas(&mut self, total: usize, formulas: &Formulas) -> usize {
        let mut total = total;
        for formula in formulas.items() {
            total = self.formula(total, formula);
        }
        mixed(total, 15)
    }

    fn record(&mut self, total: usize, fields: &Fields) -> usize {
        let mut total = total;
        for (label, field) in fields.named.items() {
            total = self.field(total, label, *field);
        }
        self.node(total, fields.rest)
    }

    fn field(&mut self, total: usize, label: &Name, field: Field) -> usize {
        let total = text(total, label.as_str());
        self.node(mixed(total, usize::from(field.optional)), field.node)
    }

    fn node(&mut self, total: usize, id: NodeId) -> usize {
        let class = self.classes.class(id);
        if self.progress_of(class) != Progress::Settled {
            self.see(class);
        }
        if self.without && class == self.own {
            mixed(total, usize::MAX)
        } else {
            mixed(total, class.0)
        }
    }

    // Sees a class that was not compared.
    fn see(&mut self, class: NodeId) {
        if class == self.own {
            self.names_own = true;
        } else if self.progress_of(class) != Progress::New {
            self.set_progress(class, Progress::Named);
        } else if self.ahead.is_none() {
            self.set_progress(class, Progress::Open);
            self.ahead = Some(class);
        }
    }
}

fn integers(total: usize, set: &IntSet) -> usize {
    let mut total = total;
    for index in 0..usize::MAX {
        let Some((low, high)) = set.piece(index) else {
            break;
        };
        total = mixed(mixed(total, integer(low)), integer(high));
    }
    total
}

// All that are no words count alike.
fn integer(number: i128) -> usize {
    usize::try_from(number).unwrap_or(16)
}

fn characters(total: usize, set: &CharSet) -> usize {
    let mut total = total;
    for index in 0..usize::MAX {
        let Some((low, high)) = set.piece(index) else {
            break;
        };
        total = mixed(mixed(total, low as usize), high as usize);
    }
    total
}

fn atoms(total: usize, set: &AtomSet) -> usize {
    let mut total = mixed(total, usize::from(set.all_but()));
    for index in 0..usize::MAX {
        let Some(name) = set.listed(index) else {
            break;
        };
        total = text(total, name);
    }
    total
}

fn text(total: usize, text: &str) -> usize {
    let mut total = total;
    for byte in text.as_bytes() {
        total = mixed(total, usize::from(*byte));
    }
    mixed(total, 17)
}

fn mixed(total: usize, part: usize) -> usize {
    (total ^ part)
        .wrapping_mul(0x9E3779B97F4A7C15)
        .rotate_left(23)
}

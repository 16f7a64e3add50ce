//! Elements over the elements of their table.
ghost use Rattle.std.specs.Prelude.{◌≡◌, IfOk};
ghost use Rattle.std.specs.Cmp.{partial_equiv_from_equiv};
ghost use Rattle.std.specs.Cmp.Lexicographic.{pointwise};
ghost use Rattle.std.specs.Hash as fed;
ghost use Rattle.cd_elements.specs.Parts.{HasLabels};
ghost use Rattle.cd_elements.specs.Comparing.{same_part, part_input, parts_equiv, parts_alike};
ghost use Rattle.cd_elements.specs.Comparing.{same_pair, pair_input, pairs_equiv, pairs_alike};

use cd_syntax::name::Name;
use std::alloc::AllocError;
use std::hash::{Hash, Hasher};
use std::marker::Model;

/// The number of an element in its table.
#[derive(Clone, Copy, Default, PartialEq, Eq, PartialOrd, Ord, Hash)]
pub struct ElementId(pub usize);

/// An element over the elements of its table.
#[derive(PartialEq, Eq, Hash, Drop)]
pub enum Shape {
    /// An integer.
    Int(i128),
    /// A character.
    Char(char),
    /// The atom of this name.
    Atom(Name),
    /// A pair.
    Pair(ElementId, ElementId),
    /// The XML element of a tag, attributes and a content.
    Xml(ElementId, ElementId, ElementId),
    /// The record of these fields.
    Record(Parts),
    /// The function of these pairs.
    Fun(Pairs),
}

/// The fields of a record, by rising label. A contract sees them in a list.
#[derive(Drop)]
pub struct Parts {
    items: Vec<(Name, ElementId)>,
}

impl Model for Parts {
    ghost use Rattle.std.specs.Prelude.{List};
    ghost use Rattle.cd_syntax.specs.Name.{Name as AName};
    ghost use Rattle.cd_elements.specs.declared.shape.ElementId.{ElementId as AnId};
    ghost use Rattle.cd_elements.specs.Parts.{HasLabels};

    ghost Value = { List (AName × AnId) };

    ghost view = { λ parts. parts.items.items };

    ghost invariant = { λ parts. HasLabels parts.items.items };
}

impl Parts {
    /// These fields.
    pub fn of(items: Vec<(Name, ElementId)>) -> Parts
        requires { HasLabels items.items }
        ensures { result ≡ items.items }
    {
        Parts { items }
    }

    /// The fields, in their order.
    pub fn items(&self) -> &[(Name, ElementId)]
        ensures value { result.now ≡ self.now }
        ensures rising { HasLabels self.now }
    {
        self.items.as_slice()
    }

    /// An equal list.
    pub fn copy(&self) -> Result<Parts, AllocError>
        ensures { IfOk result (λ parts. parts ≡ self.now) }
    {
        let mut items = Vec::new(*self.items.allocator());
        for (label, id) in self.items.iter() {
            items.push((label.copy()?, *id))?;
        }
        Ok(Parts { items })
    }
}

impl PartialEq for Parts {
    ghost eq = { pointwise same_part };

    ghost laws = { partial_equiv_from_equiv parts_equiv };

    fn eq(&self, other: &Parts) -> bool {
        self.items.as_slice() == other.items.as_slice()
    }
}

impl Eq for Parts {
    ghost laws = { parts_equiv };
}

impl Hash for Parts {
    ghost hash_input = { fed.slice part_input };

    ghost respects_eq = { parts_alike.fed };

    fn hash<H: Hasher>(&self, state: &mut H) {
        self.items.as_slice().hash(state);
    }
}

/// The pairs of a function: an argument and its result, or none where the function fails at it. A
/// contract sees them in a list.
#[derive(Drop)]
pub struct Pairs {
    items: Vec<(ElementId, Option<ElementId>)>,
}

impl Model for Pairs {
    ghost use Rattle.std.specs.Prelude.{List, Option};
    ghost use Rattle.cd_elements.specs.declared.shape.ElementId.{ElementId as AnId};

    ghost Value = { List (AnId × Option AnId) };

    ghost view = { λ pairs. pairs.items.items };
}

impl Pairs {
    /// These pairs.
    pub fn of(items: Vec<(ElementId, Option<ElementId>)>) -> Pairs
        ensures { result ≡ items.items }
    {
        Pairs { items }
    }

    /// The pairs, in their order.
    pub fn items(&self) -> &[(ElementId, Option<ElementId>)]
        ensures { result.now ≡ self.now }
    {
        self.items.as_slice()
    }

    /// An equal list.
    pub fn copy(&self) -> Result<Pairs, AllocError>
        ensures { IfOk result (λ pairs. pairs ≡ self.now) }
    {
        Ok(Pairs {
            items: Vec::from_slice(*self.items.allocator(), self.items.as_slice())?,
        })
    }
}

impl PartialEq for Pairs {
    ghost eq = { pointwise same_pair };

    ghost laws = { partial_equiv_from_equiv pairs_equiv };

    fn eq(&self, other: &Pairs) -> bool {
        self.items.as_slice() == other.items.as_slice()
    }
}

impl Eq for Pairs {
    ghost laws = { pairs_equiv };
}

impl Hash for Pairs {
    ghost hash_input = { fed.slice pair_input };

    ghost respects_eq = { pairs_alike.fed };

    fn hash<H: Hasher>(&self, state: &mut H) {
        self.items.as_slice().hash(state);
    }
}

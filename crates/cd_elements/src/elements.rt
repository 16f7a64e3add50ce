//! A table of elements.
ghost use Rattle.std.specs.Prelude.{[]};
ghost use Rattle.cd_elements.specs.Sound.{AreShapes, IsRanged};
ghost use Rattle.cd_elements.specs.OneProof.{shapes_prop};

use crate::shape::{ElementId, Shape};
use crate::text::text_of;
use cd_syntax::name::Name;
use indexmap::IndexSet;
use std::alloc::{AllocError, Global};

/// A table of elements, to which elements are only added.
#[derive(Drop)]
pub struct Elements {
    shapes: IndexSet<Shape>,
    ghost sound: { AreShapes [] shapes.keys } by { shapes_prop [] shapes.keys },
}

impl Elements {
    ghost use Rattle.std.specs.Prelude.{◌≡◌, ◌<◌, List, [], ◌∷◌, ◌++◌, length, OnOk, OnErr, IfOk};
    ghost use Rattle.std.specs.Prelude.{MatchOption};
    ghost use Rattle.cd_model.specs.Canonical.{canonical};
    ghost use Rattle.cd_model.specs.AllOf.{AllOf};
    ghost use Rattle.cd_model.specs.Thing.{Thing, Atom, IsElement};
    ghost use Rattle.cd_elements.specs.Table.{ArePartsBelow, IsShape, element_at, element_by};
    ghost use Rattle.cd_elements.specs.Elements.{table};

    /// The table without elements.
    pub fn new(alloc: Global) -> Elements
        ensures { table result ≡ [] }
    {
        Elements {
            shapes: IndexSet::new(alloc),
        }
    }

    /// The number of an element, which is added if it is not there.
    ///
    /// # Errors
    ///
    /// Want of memory. The table stays as it was.
    pub fn make(&mut self, shape: Shape) -> Result<ElementId, AllocError>
        requires { IsShape (table self.old) shape }
        ensures made { IfOk result (λ id. (id.0 < length (table self.new))
            × (element_at (table self.new) id ≡ element_by (table self.old) shape)) }
        ensures grows { (more : List Thing) × (table self.new ≡ table self.old ++ more) }
        ensures kept { OnErr result (table self.new ≡ table self.old) }
    {
        know_ranges(&shape);
        let (number, _) = self.shapes.insert_full(shape)?;
        Ok(ElementId(number))
    }

    /// What is known of every table: each of its things is an element.
    pub fn knows(&self)
        ensures { AllOf IsElement (table self.now) }
    {}

    /// The number of elements.
    pub fn len(&self) -> usize
        ensures count { result ≡ length (table self.now) }
        ensures sound { AllOf IsElement (table self.now) }
    {
        self.shapes.len()
    }

    /// The shape of an element.
    pub fn shape(&self, id: ElementId) -> &Shape
        requires { id.0 < length (table self.now) }
        ensures element { element_by (table self.now) result.now ≡ element_at (table self.now) id }
        ensures sound { IsShape (table self.now) result.now }
        ensures before { ArePartsBelow id.0 result.now }
    {
        &self.shapes[id.0]
    }

    /// What the table takes its memory from.
    pub(crate) fn allocator(&self) -> Global {
        *self.shapes.allocator()
    }

    /// The canonical text of an element.
    pub fn text(&self, id: ElementId) -> Result<Name, AllocError>
        requires { id.0 < length (table self.now) }
        ensures { IfOk result (λ name. name ≡ canonical (element_at (table self.now) id)) }
    {
        text_of(self, id)
    }

    /// The shape of a number, if it names an element.
    pub(crate) fn at(&self, id: ElementId) -> Option<&Shape>
        ensures { let all = table self.now in
            MatchOption result (element_at all id ≡ Atom [])
            (λ shape. element_by all shape.now ≡ element_at all id) }
    {
        if id.0 < self.len() {
            return Some(self.shape(id));
        }
        None
    }
}

// An integer and a character are within the ranges of their types. It does nothing.
fn know_ranges(shape: &Shape)
    ensures { IsRanged shape.now }
{
    match shape {
        Shape::Int(n) => {
            let _known = *n;
        }
        Shape::Char(c) => {
            let _known = *c;
        }
        _ => {}
    }
}

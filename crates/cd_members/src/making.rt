//! Elements that are added to the table.
ghost use Rattle.std.specs.Prelude.{◌≡◌, ◌++◌, List, IfOk};
ghost use Rattle.cd_graph.specs.Nodes.{nodes};
ghost use Rattle.cd_model.specs.Thing.{Thing, IsElement};
ghost use Rattle.cd_elements.specs.Elements.{table};
ghost use Rattle.cd_elements.specs.Table.{Names, IsShape, element_at, element_by};
ghost use Rattle.cd_facts.specs.Facts.{Fact, AreRight};

use cd_elements::{ElementId, Elements, Shape};
use cd_graph::Graph;
use std::alloc::AllocError;

/// The number of the element of a shape, which is added if it is not there. Facts stay right.
pub(crate) fn make(
    graph: &Graph,
    elements: &mut Elements,
    shape: Shape,
) -> Result<ElementId, AllocError>
    requires { IsShape (table elements.old) shape }
    ensures made { let all = table elements.new in
        IfOk result (λ id. Names all id × IsElement (element_at all id)
        × (element_at all id ≡ element_by (table elements.old) shape)) }
    ensures grows { (more : List Thing) × (table elements.new ≡ table elements.old ++ more) }
    ensures right { (facts : List Fact) → AreRight (nodes graph.now) (table elements.old) facts
        → AreRight (nodes graph.now) (table elements.new) facts }
{
    // The contracts of these calls say that the graph is sound, and that each element is one.
    graph.knows();
    let id = elements.make(shape)?;
    elements.knows();
    Ok(id)
}

//! The steps of nodes that take pairs and XML elements.
ghost use Rattle.std.specs.Prelude.{◌≡◌, ◌<◌, length, IfOk};
ghost use Rattle.cd_matching.specs.Kernel.{Pair, Gather, Xml};
ghost use Rattle.cd_matching.specs.PlainKernel.{plain_kernel};
ghost use Rattle.cd_rules.specs.Family.{AsksNodes};
ghost use Rattle.cd_empty.specs.Growth.{Grows};
ghost use Rattle.cd_empty.specs.Seen.{graph_of};
ghost use Rattle.cd_filter.specs.Table.{pair_steps as pair_steps_of};
ghost use Rattle.cd_filter.specs.Table.{gather_steps as gather_steps_of};
ghost use Rattle.cd_filter.specs.Table.{triple_steps as triple_steps_of};
ghost use Rattle.cd_explored.specs.Inner.NodeSteps.{AreNodeSteps};
ghost use Rattle.cd_explored.specs.Inner.PlainSteps.{all_steps};

use crate::base::Base;
use crate::lead::Lead;
use crate::place::Place;
use cd_empty::World;
use cd_products::{pair_products, xml_triples};
use cd_sets::question::Question;
use std::alloc::{AllocError, Global};

/// Those of a node that takes pairs.
pub(crate) fn pair_steps<'k>(
    base: &Base<'k>,
    world: &mut World,
    question: &Question,
    first: usize,
    second: usize,
) -> Result<Vec<Lead<'k>>, AllocError>
    requires asks { AsksNodes (length (graph_of world.old)) question.now }
    requires first { first < length (plain_kernel base.now.kernel.now).nodes }
    requires second { second < length (plain_kernel base.now.kernel.now).nodes }
    ensures steps { IfOk result (λ leads. AreNodeSteps (graph_of world.old)
        (plain_kernel base.now.kernel.now).nodes base.now.first question.now (Pair first second)
        (all_steps leads.items)) }
    ensures graph { graph_of world.new ≡ graph_of world.old }
    ensures grows { Grows world.old world.new }
{
    let products = pair_products(base.alloc, world, question)?;
    lead_to_pairs(base.alloc, first, second, products)
}

// To the parts of pairs.
fn lead_to_pairs<'k>(
    alloc: Global,
    first: usize,
    second: usize,
    products: Vec<(Question, Question)>,
) -> Result<Vec<Lead<'k>>, AllocError>
    ensures { IfOk result
        (λ leads. all_steps leads.items ≡ pair_steps_of first second products.items) }
{
    let mut leads = Vec::new(alloc);
    for (one, other) in products {
        leads.push(Lead::Leads(Place::at(first, one)))?;
        leads.push(Lead::Leads(Place::at(second, other)))?;
    }
    Ok(leads)
}

/// Those of a node that takes pairs, of which the variable captures the first parts.
pub(crate) fn gather_steps<'k>(
    base: &Base<'k>,
    world: &mut World,
    question: &Question,
    variable: usize,
    first: usize,
    second: usize,
) -> Result<Vec<Lead<'k>>, AllocError>
    requires asks { AsksNodes (length (graph_of world.old)) question.now }
    requires first { first < length (plain_kernel base.now.kernel.now).nodes }
    requires second { second < length (plain_kernel base.now.kernel.now).nodes }
    ensures steps { IfOk result (λ leads. AreNodeSteps (graph_of world.old)
        (plain_kernel base.now.kernel.now).nodes base.now.first question.now
        (Gather variable first second) (all_steps leads.items)) }
    ensures graph { graph_of world.new ≡ graph_of world.old }
    ensures grows { Grows world.old world.new }
{
    let products = pair_products(base.alloc, world, question)?;
    gather_pairs(base.alloc, variable, first, second, products)
}

// Gathers the first parts of pairs.
fn gather_pairs<'k>(
    alloc: Global,
    variable: usize,
    first: usize,
    second: usize,
    products: Vec<(Question, Question)>,
) -> Result<Vec<Lead<'k>>, AllocError>
    ensures { IfOk result
        (λ leads. all_steps leads.items ≡ gather_steps_of variable first second products.items) }
{
    let mut leads = Vec::new(alloc);
    for (one, other) in products {
        let item = Place::at(first, one);
        let next = Place::at(second, other);
        leads.push(Lead::Gathers(variable, item, next))?;
    }
    Ok(leads)
}

/// Those of a node that takes XML elements.
pub(crate) fn triple_steps<'k>(
    base: &Base<'k>,
    world: &mut World,
    question: &Question,
    tag: usize,
    attributes: usize,
    content: usize,
) -> Result<Vec<Lead<'k>>, AllocError>
    requires asks { AsksNodes (length (graph_of world.old)) question.now }
    requires tag { tag < length (plain_kernel base.now.kernel.now).nodes }
    requires attributes { attributes < length (plain_kernel base.now.kernel.now).nodes }
    requires content { content < length (plain_kernel base.now.kernel.now).nodes }
    ensures steps { IfOk result (λ leads. AreNodeSteps (graph_of world.old)
        (plain_kernel base.now.kernel.now).nodes base.now.first question.now
        (Xml tag attributes content) (all_steps leads.items)) }
    ensures graph { graph_of world.new ≡ graph_of world.old }
    ensures grows { Grows world.old world.new }
{
    let triples = xml_triples(base.alloc, world, question)?;
    lead_to_triples(base.alloc, tag, attributes, content, triples)
}

// To the parts of XML elements.
fn lead_to_triples<'k>(
    alloc: Global,
    tag: usize,
    attributes: usize,
    content: usize,
    triples: Vec<(Question, Question, Question)>,
) -> Result<Vec<Lead<'k>>, AllocError>
    ensures { IfOk result
        (λ leads. all_steps leads.items ≡ triple_steps_of tag attributes content triples.items) }
{
    let mut leads = Vec::new(alloc);
    for (one, other, last) in triples {
        leads.push(Lead::Leads(Place::at(tag, one)))?;
        leads.push(Lead::Leads(Place::at(attributes, other)))?;
        leads.push(Lead::Leads(Place::at(content, last)))?;
    }
    Ok(leads)
}

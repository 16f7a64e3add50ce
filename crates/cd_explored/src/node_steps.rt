//! The steps of the nodes of a kernel.
ghost use Rattle.std.specs.Prelude.{◌≡◌, ◌<◌, ◌++◌, length, Some, IfOk};
ghost use Rattle.std.specs.List.{slice_get};
ghost use Rattle.cd_matching.specs.Kernel.{IsSoundNode, leads_to, parts_of};
ghost use Rattle.cd_matching.specs.PlainKernel.{plain_kernel, plain_node};
ghost use Rattle.cd_model.specs.AllOf.{AllOf};
ghost use Rattle.cd_rules.specs.Family.{AsksNodes};
ghost use Rattle.cd_empty.specs.Growth.{Grows};
ghost use Rattle.cd_empty.specs.Seen.{graph_of};
ghost use Rattle.cd_filter.specs.Accepting.{IsAcceptedFrom};
ghost use Rattle.cd_explored.specs.Inner.NodeSteps.{AreNodeSteps};
ghost use Rattle.cd_explored.specs.Inner.PlainSteps.{all_steps};

use crate::base::Base;
use crate::first::first_steps;
use crate::lead::{Lead, lead_to_two};
use crate::products::{gather_steps, pair_steps, triple_steps};
use crate::records::record_steps;
use cd_empty::World;
use cd_matching::kernel::KernelNode;
use cd_sets::question::Question;
use std::alloc::AllocError;

/// Those of one node at a question.
pub(crate) fn node_steps<'k>(
    base: &Base<'k>,
    world: &mut World,
    number: usize,
    question: &Question,
    node: &'k KernelNode,
) -> Result<Vec<Lead<'k>>, AllocError>
    requires asks { AsksNodes (length (graph_of world.old)) question.now }
    requires accepted { IsAcceptedFrom (graph_of world.old) (plain_kernel base.now.kernel.now)
        base.now.first }
    requires there { slice_get (plain_kernel base.now.kernel.now).nodes number
        ≡ Some (plain_node node.now) }
    requires sound { IsSoundNode (plain_kernel base.now.kernel.now).nodes
        (length base.now.kernel.now.variables.items) (λ id. id.0 < base.now.first)
        (plain_node node.now) }
    requires parts { AllOf (λ number. number < length (plain_kernel base.now.kernel.now).nodes)
        (leads_to (plain_node node.now) ++ parts_of (plain_node node.now)) }
    ensures steps { IfOk result (λ leads. AreNodeSteps (graph_of world.old)
        (plain_kernel base.now.kernel.now).nodes base.now.first question.now (plain_node node.now)
        (all_steps leads.items)) }
    ensures graph { graph_of world.new ≡ graph_of world.old }
    ensures grows { Grows world.old world.new }
{
    match node {
        KernelNode::Test(_) => Ok(Vec::new(base.alloc)),
        KernelNode::Bind(variable) => Ok(vec![in base.alloc; Lead::Takes(*variable)]?),
        KernelNode::Put(variable, constant) => {
            Ok(vec![in base.alloc; Lead::Puts(*variable, constant)]?)
        }
        KernelNode::Pair(p, q) => pair_steps(base, world, question, *p, *q),
        KernelNode::Xml(tag, attributes, content) => {
            triple_steps(base, world, question, *tag, *attributes, *content)
        }
        KernelNode::Record(fields, more) => {
            record_steps(base, world, question, fields.as_slice(), *more)
        }
        KernelNode::Both(p, q) => {
            lead_to_two(base.alloc, *p, question.copy()?, *q, question.copy()?)
        }
        KernelNode::First(p, q) => first_steps(base, world, number, question, *p, *q),
        KernelNode::Gather(variable, p, q) => {
            gather_steps(base, world, question, *variable, *p, *q)
        }
    }
}

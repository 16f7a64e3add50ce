//! Whether the value that a text stands for is in a type.
ghost use Rattle.std.specs.Prelude.{◌≡◌, ◌<◌, IfOk, if◌then◌else◌, codes, length};
ghost use Rattle.cd_base.specs.declared.status.Status.TheVariants.{Done, No};
ghost use Rattle.cd_cells.specs.Cells.{thing_at};
ghost use Rattle.cd_cells.specs.Table.{table};
ghost use Rattle.cd_model.specs.Interfaces.{Interfaces, value_in_node};
ghost use Rattle.cd_model.specs.StandsFor.{StandsFor};
ghost use Rattle.cd_model.specs.Thing.{IsData};
ghost use Rattle.cd_model.specs.Written.{Written};
ghost use Rattle.cd_graph.specs.Nodes.{nodes};
ghost use Rattle.cd_replies.specs.Disk.{Disk, HasText};
ghost use Rattle.cd_replies.specs.Message.{reply_of};
ghost use Rattle.cd_replies.specs.Reply.{says};
ghost use Rattle.cd_member.specs.MemberAnswer.{DocumentAnswer};

use cd_asking::{Maps, is_in};
use cd_cells::{ValueId, Values};
use cd_graph::Graph;
use cd_replies::document::read_document;
use cd_replies::message::{Message, plain_no, refused, yes};
use cd_sets::node_id::NodeId;
use std::alloc::{AllocError, Global};

/// The answer on a document that has this text, where the node stands for the type.
pub(crate) fn of_text(
    alloc: Global,
    graph: &Graph,
    node: NodeId,
    document: &str,
    text: &str,
) -> Result<Message, AllocError>
    requires { node.0 < length (nodes graph.now) }
    ensures { IfOk result (λ message. (disk : Disk) → HasText disk document.now text.now
        → (type : Written) → StandsFor (nodes graph.now) node type
        → DocumentAnswer disk document.now type (reply_of message)) }
{
    let mut values = Values::new(alloc);
    match read_document(alloc, &mut values, text) {
        Ok(id) => yes_or_no(alloc, holds(alloc, graph, &values, id, node)?),
        Err(error) => refused(alloc, document, text, error),
    }
}

// Whether the node holds a value without closures.
fn holds(
    alloc: Global,
    graph: &Graph,
    values: &Values,
    id: ValueId,
    node: NodeId,
) -> Result<bool, AllocError>
    requires value { id.0 < length (table values.now) }
    requires node { node.0 < length (nodes graph.now) }
    requires data { IsData (thing_at (table values.now) id.0) }
    ensures { let v = thing_at (table values.now) id.0 in
        IfOk result (λ answer. (interfaces : Interfaces)
        → value_in_node (nodes graph.now) interfaces v node answer) }
{
    let maps = Maps::new(alloc);
    is_in(alloc, graph, &maps, values, id, node)
}

fn yes_or_no(alloc: Global, inside: bool) -> Result<Message, AllocError>
    ensures { IfOk result (λ message. reply_of message
        ≡ if inside then says Done (codes "yes") else says No (codes "no")) }
{
    if inside { yes(alloc) } else { plain_no(alloc) }
}

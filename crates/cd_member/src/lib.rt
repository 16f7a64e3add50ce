//! The command `member`: whether the value of a document is in a type.
#![tactic(auto)]

ghost use Rattle.std.specs.Prelude.{◌≡◌, ◌<◌, [], ◌∷◌, length};
ghost use Rattle.cd_model.specs.StandsFor.{StandsFor};
ghost use Rattle.cd_model.specs.Written.{Written};
ghost use Rattle.cd_graph.specs.Nodes.{nodes};
ghost use Rattle.cd_resolve.specs.Named.{AreNamed, plain_names, declared_by};
ghost use Rattle.cd_replies.specs.Bytes.{Bytes};
ghost use Rattle.cd_replies.specs.Message.{IsAnswer};
ghost use Rattle.cd_replies.specs.Disk.{HasText};
ghost use Rattle.cd_replies.specs.File.{ReadsAmong};
ghost use Rattle.cd_replies.specs.Naming.{AreNamedWell};
ghost use Rattle.cd_member.specs.MemberAnswer.{FileDeclares, DocumentAnswer, MemberAnswer};
ghost use Rattle.cd_replies.specs.Finishing.{Finishes};

use cd_base::files::Files;
use cd_graph::Graph;
use cd_replies::file::read_file;
use cd_replies::message::{Message, no_text, refused};
use cd_replies::reader::read_declarations;
use cd_resolve::Names;
use cd_sets::node_id::NodeId;
use document::of_text;
use reading::{declare, node};
use std::alloc::{AllocError, Global};

mod document;
mod reading;

/// Whether the value of a document is in a type text, which sees the type declarations of a file.
/// The file is read first; the document is read where the file and the type text have no fault.
///
/// # Errors
///
/// Want of memory.
pub fn member<F: Files>(
    alloc: Global,
    files: &mut F,
    file: &str,
    document: &str,
    text: &str,
) -> Result<Message, AllocError>
    ensures answer { IsAnswer (λ disk. MemberAnswer disk file.now document.now text.now)
        (F.state files.old) (F.state files.new) result }
    ensures known { (F.state files.new).known ≡ (F.state files.old).known }
    ensures read { ReadsAmong (F.state files.old) (F.state files.new)
        (file.now ∷ document.now ∷ []) }
{
    match read_file(files, file) {
        Ok(types) => with_file(alloc, files, file, types.as_str(), document, text),
        Err(error) => no_text(alloc, file, error),
    }
}

// The answer where the file has this text.
fn with_file<F: Files>(
    alloc: Global,
    files: &mut F,
    file: &str,
    types: &str,
    document: &str,
    text: &str,
) -> Result<Message, AllocError>
    ensures { Finishes (λ disk reply. HasText disk file.now types.now
        → MemberAnswer disk file.now document.now text.now reply)
        (F.state files.old) (F.state files.new) document.now result }
{
    let declared = match read_declarations(alloc, types) {
        Ok(declared) => declared,
        Err(error) => return refused(alloc, file, types, error),
    };
    let mut graph = Graph::new(alloc)?;
    match declare(alloc, &mut graph, &declared) {
        Ok(names) => with_names(alloc, files, &mut graph, &names, document, text),
        Err(error) => refused(alloc, file, types, error),
    }
}

// The answer where the type text sees names that have nodes.
fn with_names<F: Files>(
    alloc: Global,
    files: &mut F,
    graph: &mut Graph,
    names: &Names<'_>,
    document: &str,
    text: &str,
) -> Result<Message, AllocError>
    requires names_sound { AreNamedWell (declared_by names.now) }
    requires named { AreNamed (nodes graph.old) (plain_names names.now) }
    ensures { Finishes (λ disk reply. (file : Bytes)
        → FileDeclares disk file (declared_by names.now)
        → MemberAnswer disk file document.now text.now reply)
        (F.state files.old) (F.state files.new) document.now result }
{
    match node(alloc, graph, names, text) {
        Ok(id) => with_type(alloc, files, graph, id, document),
        Err(error) => refused(alloc, "T", text, error),
    }
}

// The answer where the node stands for the type.
fn with_type<F: Files>(
    alloc: Global,
    files: &mut F,
    graph: &Graph,
    id: NodeId,
    document: &str,
) -> Result<Message, AllocError>
    requires { id.0 < length (nodes graph.now) }
    ensures { Finishes (λ disk reply. (type : Written) → StandsFor (nodes graph.now) id type
        → DocumentAnswer disk document.now type reply)
        (F.state files.old) (F.state files.new) document.now result }
{
    match read_file(files, document) {
        Ok(text) => of_text(alloc, graph, id, document, text.as_str()),
        Err(error) => no_text(alloc, document, error),
    }
}

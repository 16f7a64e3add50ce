//! The command `sub`: whether one type is within another.
#![tactic(auto)]

ghost use Rattle.std.specs.Prelude.{◌≡◌, IfOk, IfErr, OnOk};
ghost use Rattle.cd_syntax.specs.PlainTree.{plain_declarations};
ghost use Rattle.cd_syntax.specs.TypeTree.{NoDeclaration};
ghost use Rattle.cd_syntax.specs.WellMade.{AreWellMadeDeclarations};
ghost use Rattle.cd_model.specs.Formula.{IsGraph};
ghost use Rattle.cd_resolve.specs.Named.{AreNamed, plain_names, declared_by};
ghost use Rattle.cd_empty.specs.Seen.{graph_of};
ghost use Rattle.cd_replies.specs.Message.{IsAnswer, reply_of};
ghost use Rattle.cd_replies.specs.Disk.{Disk, HasText};
ghost use Rattle.cd_replies.specs.File.{ReadsThere};
ghost use Rattle.cd_replies.specs.Naming.{AreNamedWell, RefusesNames};
ghost use Rattle.cd_replies.specs.Refusals.{IfRefused};
ghost use Rattle.cd_sub.specs.SubAnswer.{SubAnswer, SubTypesAnswer};

use cd_base::files::Files;
use cd_empty::World;
use cd_replies::file::read_file;
use cd_replies::message::{Message, no_text, refused};
use cd_replies::naming::declare;
use cd_replies::reader::read_declarations;
use cd_replies::refusal::RefusalError;
use cd_resolve::Names;
use cd_syntax::type_tree::Declarations;
use compare::compare_nodes;
use reading::node;
use std::alloc::{AllocError, Global};

mod compare;
mod reading;

/// Whether the first type text is within the second, where they see no declarations.
///
/// # Errors
///
/// Want of memory.
pub fn sub(alloc: Global, first: &str, second: &str) -> Result<Message, AllocError>
    ensures { IfOk result (λ message.
        SubAnswer NoDeclaration first.now second.now (reply_of message)) }
{
    let none = Declarations::of(Vec::new(alloc));
    match sub_with(alloc, &none, first, second) {
        Ok(message) => Ok(message),
        Err(RefusalError::Memory) => Err(AllocError),
        Err(RefusalError::Refused(_)) => unreachable!(),
    }
}

/// Whether the first type text is within the second, with the declarations of a file.
///
/// # Errors
///
/// Want of memory.
pub fn sub_types<F: Files>(
    alloc: Global,
    files: &mut F,
    file: &str,
    first: &str,
    second: &str,
) -> Result<Message, AllocError>
    ensures answer { IsAnswer (λ disk. SubTypesAnswer disk file.now first.now second.now)
        (F.state files.old) (F.state files.new) result }
    ensures known { (F.state files.new).known ≡ (F.state files.old).known }
    ensures read { ReadsThere (F.state files.old) (F.state files.new) file.now }
{
    match read_file(files, file) {
        Ok(text) => with_file(alloc, file, text.as_str(), first, second),
        Err(error) => no_text(alloc, file, error),
    }
}

// The answer of `sub --types`, where the file has this text.
fn with_file(
    alloc: Global,
    file: &str,
    text: &str,
    first: &str,
    second: &str,
) -> Result<Message, AllocError>
    ensures { IfOk result (λ message. (disk : Disk) → HasText disk file.now text.now
        → SubTypesAnswer disk file.now first.now second.now (reply_of message)) }
{
    let declared = match read_declarations(alloc, text) {
        Ok(declared) => declared,
        Err(error) => return refused(alloc, file, text, error),
    };
    match sub_with(alloc, &declared, first, second) {
        Ok(message) => Ok(message),
        Err(error) => refused(alloc, file, text, error),
    }
}

// Whether the first type text is within the second, where they see these declarations. The error is
// the naming fault that is reported of the declarations, or want of memory.
fn sub_with(
    alloc: Global,
    declared: &Declarations,
    first: &str,
    second: &str,
) -> Result<Message, RefusalError>
    requires { AreWellMadeDeclarations (plain_declarations declared.now) }
    ensures answer { IfOk result (λ message.
        SubAnswer (plain_declarations declared.now) first.now second.now (reply_of message)) }
    ensures sound { OnOk result (AreNamedWell (plain_declarations declared.now)) }
    ensures refused { IfErr result
        (λ error. IfRefused error (RefusesNames (plain_declarations declared.now))) }
{
    let mut world = World::new(alloc)?;
    in_world(alloc, &mut world, declared, first, second)
}

// The same, in a world of no names.
fn in_world(
    alloc: Global,
    world: &mut World,
    declared: &Declarations,
    first: &str,
    second: &str,
) -> Result<Message, RefusalError>
    requires { AreWellMadeDeclarations (plain_declarations declared.now) }
    ensures answer { IfOk result (λ message.
        SubAnswer (plain_declarations declared.now) first.now second.now (reply_of message)) }
    ensures sound { OnOk result (AreNamedWell (plain_declarations declared.now)) }
    ensures refused { IfErr result
        (λ error. IfRefused error (RefusesNames (plain_declarations declared.now))) }
{
    let names = declare(alloc, world, declared)?;
    let message = with_names(alloc, world, &names, first, second)?;
    Ok(message)
}

// Whether the first type text is within the second, where they see names that have nodes.
fn with_names(
    alloc: Global,
    world: &mut World,
    names: &Names<'_>,
    first: &str,
    second: &str,
) -> Result<Message, AllocError>
    requires names_sound { AreNamedWell (declared_by names.now) }
    requires graph { IsGraph (graph_of world.old) }
    requires named { AreNamed (graph_of world.old) (plain_names names.now) }
    ensures { IfOk result (λ message.
        SubAnswer (declared_by names.now) first.now second.now (reply_of message)) }
{
    let left = match node(alloc, world, names, first) {
        Ok(left) => left,
        Err(error) => return refused(alloc, "T1", first, error),
    };
    let right = match node(alloc, world, names, second) {
        Ok(right) => right,
        Err(error) => return refused(alloc, "T2", second, error),
    };
    compare_nodes(alloc, world, left, right)
}

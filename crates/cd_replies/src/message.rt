//! Messages, which are the replies of the code.
ghost use Rattle.std.specs.Prelude.{◌≡◌, [], ◌++◌, IfOk, codes, string_bytes};
ghost use Rattle.cd_base.specs.declared.status.Status.TheVariants.{Done as IsDone, No as IsNo};
ghost use Rattle.cd_replies.specs.Reply as reply;
ghost use Rattle.cd_replies.specs.Reply.{says};
ghost use Rattle.cd_replies.specs.Message.{reply_of, IsSaidOfText};
ghost use Rattle.cd_replies.specs.File.{said_of, IsSaidOfFile};

use crate::file::{FileError, FileFault};
use crate::position::place;
use crate::refusal::{Refusal, RefusalError};
use cd_base::status::Status;
use cd_resolve::fault::NameFault;
use cd_syntax::fault::TextFault;
use cd_syntax::name::Name;
use std::alloc::{AllocError, Global};

const USAGE: &str =
    "usage: cduce sub [--types FILE] T1 T2, member FILE DOC T, check FILE, run [--steps N] FILE DOC, work N\n";

/// A status, with a text for output or for errors.
#[derive(Drop)]
pub struct Message {
    /// The status that the program ends with.
    pub status: Status,
    /// Whether the text is for output, and not for errors.
    pub on_output: bool,
    /// The text, with its line feed.
    pub text: String,
}

// A text on errors.
fn complaint(status: Status, text: String) -> Message
    ensures { reply_of result ≡ record { status = status; out = []; err = string_bytes text } }
{
    Message {
        status,
        on_output: false,
        text,
    }
}

/// The line that says how the program is used.
///
/// # Errors
///
/// Want of memory.
pub fn usage(alloc: Global) -> Result<Message, AllocError>
    ensures { IfOk result (λ message. reply_of message ≡ reply.usage) }
{
    Ok(complaint(Status::Usage, String::from_str(alloc, USAGE)?))
}

fn cannot_read(alloc: Global, name: &str) -> Result<Message, AllocError>
    ensures { IfOk result (λ message. reply_of message ≡ reply.cannot_read name.now) }
{
    let text = format!(in alloc; "cannot read {name}\n")?;
    Ok(complaint(Status::ReadFault, text))
}

fn too_large(alloc: Global, name: &str) -> Result<Message, AllocError>
    ensures { IfOk result (λ message. reply_of message ≡ reply.too_large name.now) }
{
    let text = format!(in alloc; "{name}: too large\n")?;
    Ok(complaint(Status::TooLarge, text))
}

fn not_utf8(alloc: Global, name: &str, byte: usize) -> Result<Message, AllocError>
    ensures { IfOk result (λ message. reply_of message ≡ reply.not_utf8 name.now byte) }
{
    let text = format!(in alloc; "{name}: not UTF-8 at byte {byte}\n")?;
    Ok(complaint(Status::NotUtf8, text))
}

/// What is said of a file whose text was not read.
///
/// # Errors
///
/// Want of memory, which the error may be.
pub fn no_text(alloc: Global, name: &str, error: FileError) -> Result<Message, AllocError>
    ensures { IfOk result (λ message. IsSaidOfFile name.now error (reply_of message)) }
{
    match error {
        FileError::Fault(fault) => file_fault(alloc, name, fault),
        FileError::Memory => Err(AllocError),
    }
}

// What is said of a file that has no text.
fn file_fault(alloc: Global, name: &str, fault: FileFault) -> Result<Message, AllocError>
    ensures { IfOk result (λ message. reply_of message ≡ said_of name.now fault) }
{
    match fault {
        FileFault::Unread => cannot_read(alloc, name),
        FileFault::TooLarge => too_large(alloc, name),
        FileFault::NotUtf8(valid) => not_utf8(alloc, name, valid),
    }
}

/// What is said of a text that was not read; its origin is the name of its file, or `T1` or `T2`.
///
/// # Errors
///
/// Want of memory, which the error may be.
pub fn refused(
    alloc: Global,
    origin: &str,
    text: &str,
    error: RefusalError,
) -> Result<Message, AllocError>
    ensures { IfOk result (λ message.
        IsSaidOfText origin.now text.now error (reply_of message)) }
{
    match error {
        RefusalError::Refused(refusal) => stands_against(alloc, origin, text, refusal),
        RefusalError::Memory => Err(AllocError),
    }
}

// What is said of a text where this stands against it.
fn stands_against(
    alloc: Global,
    origin: &str,
    text: &str,
    refusal: Refusal,
) -> Result<Message, AllocError>
    ensures { IfOk result (λ message.
        reply_of message ≡ reply.refusal origin.now text.now refusal) }
{
    match refusal {
        Refusal::Text(fault) => text_fault(alloc, origin, text, fault),
        Refusal::Naming { fault, name, at } => naming(alloc, origin, text, fault, &name, at),
    }
}

// What is said of a naming fault.
fn naming(
    alloc: Global,
    origin: &str,
    text: &str,
    fault: NameFault,
    name: &Name,
    at: usize,
) -> Result<Message, AllocError>
    ensures { IfOk result (λ message.
        reply_of message ≡ reply.naming origin.now text.now
        (record { fault = fault; name = name.now; at = at })) }
{
    let message = naming_message(alloc, fault, name.as_str())?;
    at_place(alloc, Status::Naming, origin, text, at, message.as_str())
}

fn naming_message(alloc: Global, fault: NameFault, name: &str) -> Result<String, AllocError>
    ensures { IfOk result (λ message. string_bytes message ≡ reply.naming_message fault name.now) }
{
    match fault {
        NameFault::Unknown => format!(in alloc; "unknown name {name}"),
        NameFault::Twice => format!(in alloc; "name {name} twice"),
        NameFault::Unguarded => format!(in alloc; "type {name} is not guarded"),
        NameFault::VariablesDiffer => {
            String::from_str(alloc, "sides of | bind different variables")
        }
        NameFault::VariableTwice => format!(in alloc; "variable {name} twice"),
        NameFault::VariableRepeats => format!(in alloc; "variable {name} repeats"),
        NameFault::VariableMisplaced => format!(in alloc; "variable {name} misplaced"),
        NameFault::NoMain => String::from_str(alloc, "no main"),
    }
}

// What is said of a fault of a text.
fn text_fault(
    alloc: Global,
    origin: &str,
    text: &str,
    fault: TextFault,
) -> Result<Message, AllocError>
    ensures { IfOk result (λ message.
        reply_of message ≡ reply.text_fault origin.now text.now fault) }
{
    match fault {
        TextFault::BadChar(at) => {
            at_place(alloc, Status::Lexical, origin, text, at, "bad character")
        }
        TextFault::OpenText(at) => {
            at_place(alloc, Status::Lexical, origin, text, at, "text not closed")
        }
        TextFault::OpenComment(at) => {
            at_place(
                alloc,
                Status::Lexical,
                origin,
                text,
                at,
                "comment not closed",
            )
        }
        TextFault::TooWide(at) => {
            at_place(alloc, Status::Lexical, origin, text, at, "number too wide")
        }
        TextFault::Syntax(at) => at_place(alloc, Status::Syntax, origin, text, at, "syntax"),
        TextFault::TooDeep(at) => at_place(alloc, Status::TooDeep, origin, text, at, "too deep"),
    }
}

// What is said of a place of a text.
fn at_place(
    alloc: Global,
    status: Status,
    origin: &str,
    text: &str,
    at: usize,
    message: &str,
) -> Result<Message, AllocError>
    ensures { IfOk result (λ reported.
        reply_of reported ≡ reply.at_place status origin.now text.now at message.now) }
{
    let (line, column) = place(text, at);
    let reported = format!(in alloc; "{origin}:{line}:{column}: {message}\n")?;
    Ok(complaint(status, reported))
}

/// What is said of a program that has no types: the place of what does not meet a rule, the rule,
/// and the text of an element that shows it.
///
/// # Errors
///
/// Want of memory.
pub fn ill_typed(
    alloc: Global,
    origin: &str,
    text: &str,
    at: usize,
    rule: &str,
    element: &str,
) -> Result<Message, AllocError>
    ensures { IfOk result (λ message.
        reply_of message ≡ reply.ill_typed origin.now text.now at rule.now element.now) }
{
    let message = format!(in alloc; "{rule}: {element}")?;
    at_place(alloc, Status::IllTyped, origin, text, at, message.as_str())
}

/// That a program is accepted, on output.
///
/// # Errors
///
/// Want of memory.
pub fn accepted(alloc: Global) -> Result<Message, AllocError>
    ensures { IfOk result (λ message. reply_of message ≡ says IsDone (codes "accepted")) }
{
    Ok(Message {
        status: Status::Done,
        on_output: true,
        text: String::from_str(alloc, "accepted\n")?,
    })
}

/// Yes, on output.
///
/// # Errors
///
/// Want of memory.
pub fn yes(alloc: Global) -> Result<Message, AllocError>
    ensures { IfOk result (λ message. reply_of message ≡ says IsDone (codes "yes")) }
{
    Ok(Message {
        status: Status::Done,
        on_output: true,
        text: String::from_str(alloc, "yes\n")?,
    })
}

/// No, with the text of an element, on output.
///
/// # Errors
///
/// Want of memory.
pub fn no(alloc: Global, element: &str) -> Result<Message, AllocError>
    ensures { IfOk result (λ message. reply_of message ≡ says IsNo (codes "no: " ++ element.now)) }
{
    Ok(Message {
        status: Status::No,
        on_output: true,
        text: format!(in alloc; "no: {element}\n")?,
    })
}

/// No, on output.
///
/// # Errors
///
/// Want of memory.
pub fn plain_no(alloc: Global) -> Result<Message, AllocError>
    ensures { IfOk result (λ message. reply_of message ≡ says IsNo (codes "no")) }
{
    Ok(Message {
        status: Status::No,
        on_output: true,
        text: String::from_str(alloc, "no\n")?,
    })
}

/// That a document is in no type of a program's input.
///
/// # Errors
///
/// Want of memory.
pub fn not_input(alloc: Global, document: &str) -> Result<Message, AllocError>
    ensures { IfOk result (λ message. reply_of message ≡ reply.not_input document.now) }
{
    let text = format!(in alloc; "{document}: not of the input type\n")?;
    Ok(complaint(Status::NotInput, text))
}

/// The text of the value that a run ended with, on output.
///
/// # Errors
///
/// Want of memory.
pub fn printed(text: String) -> Result<Message, AllocError>
    ensures { IfOk result (λ message. reply_of message ≡ reply.printed (string_bytes text)) }
{
    let mut text = text;
    text.push('\n')?;
    Ok(Message {
        status: Status::Done,
        on_output: true,
        text,
    })
}

/// That a run ended with an exception, which has this text.
///
/// # Errors
///
/// Want of memory.
pub fn uncaught(alloc: Global, text: &str) -> Result<Message, AllocError>
    ensures { IfOk result (λ message. reply_of message ≡ reply.uncaught text.now) }
{
    let text = format!(in alloc; "uncaught exception: {text}\n")?;
    Ok(complaint(Status::Uncaught, text))
}

/// That a run ended with an integer beyond 128 bits.
///
/// # Errors
///
/// Want of memory.
pub fn overflow(alloc: Global) -> Result<Message, AllocError>
    ensures { IfOk result (λ message. reply_of message ≡ reply.overflow) }
{
    Ok(complaint(Status::Overflow, String::from_str(alloc, "overflow\n")?))
}

/// That a run wanted more than its units.
///
/// # Errors
///
/// Want of memory.
pub fn spent(alloc: Global) -> Result<Message, AllocError>
    ensures { IfOk result (λ message. reply_of message ≡ reply.spent) }
{
    Ok(complaint(Status::Spent, String::from_str(alloc, "steps spent\n")?))
}

//! The texts of the workload's documents.
ghost use Rattle.std.specs.Prelude.{◌≡◌, [], ◌++◌, ◌==◌, IfOk, OnOk, codes, string_bytes};
ghost use Rattle.std.specs.Prelude.{if◌then◌else◌};
ghost use Rattle.cd_running.specs.Workload.{document_text, entry_text};

use std::alloc::{AllocError, Global};

/// The text of the workload's document of so many entries.
///
/// # Errors
///
/// Want of memory.
pub(crate) fn work_document(alloc: Global, size: u32) -> Result<String, AllocError>
    ensures { IfOk result (λ text. string_bytes text ≡ document_text size) }
{
    let mut text = String::from_str(alloc, "<log>[")?;
    for number in 0..size {
        text.push_str(space_before(number))?;
        push_entry(&mut text, number)?;
    }
    text.push_str("]")?;
    Ok(text)
}

// What stands before the entry of a number.
fn space_before(number: u32) -> &'static str
    ensures { result.now ≡ (if number == 0 then [] else codes " ") }
{
    if number == 0 { "" } else { " " }
}

// Adds the entry of a number.
fn push_entry(text: &mut String, number: u32) -> Result<(), AllocError>
    ensures { OnOk result (string_bytes text.new ≡ string_bytes text.old ++ entry_text number) }
{
    match number % 3 {
        0 => write!(text, "<e n={number}>[]"),
        1 => write!(text, "<e n={number}>[{number}]"),
        _ => {
            let next = number + 1;
            write!(text, "<e n={number}>[{number} {next}]")
        }
    }
}

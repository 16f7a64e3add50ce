//! Words as a command line for a shell.
ghost use Rattle.std.specs.Prelude.{◌≡◌, map, IfOk, string_bytes};
ghost use Rattle.std.specs.List.{list_all};
ghost use Rattle.cd_tour.specs.CommandLine.{is_plain, quoted, command_line};

use std::alloc::{AllocError, Global};

/// The line that gives the words to the program.
pub(crate) fn command_line(alloc: Global, words: &[&str]) -> Result<String, AllocError>
    ensures { IfOk result (λ line.
        string_bytes line ≡ command_line (map (λ word. word.now) words.now)) }
{
    let mut line = String::from_str(alloc, "cduce")?;
    for word in words {
        line.push_str(" ")?;
        line.push_str(quoted(alloc, word)?.as_str())?;
    }
    line.push_str("\n")?;
    Ok(line)
}

// A word as a shell reads it.
fn quoted(alloc: Global, word: &str) -> Result<String, AllocError>
    ensures { IfOk result (λ text. string_bytes text ≡ quoted word.now) }
{
    if are_plain(word) {
        String::from_str(alloc, word)
    } else {
        format!(in alloc; "'{word}'")
    }
}

fn are_plain(word: &str) -> bool
    ensures { result ≡ list_all is_plain word.now }
{
    word.bytes().all(|b| is_plain(b))
}

fn is_plain(byte: u8) -> bool
    ensures { result ≡ is_plain byte }
{
    byte.is_ascii_alphanumeric() || byte == b'-' || byte == b'.'
}

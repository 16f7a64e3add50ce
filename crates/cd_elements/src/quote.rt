//! Characters between quotes.
ghost use Rattle.std.specs.Prelude.{◌≡◌, [], ◌∷◌, ◌++◌, OnOk, codes};
ghost use Rattle.std.specs.Fmt.{decimal};
ghost use Rattle.cd_model.specs.Canonical.{escaped, quoted, single_quoted};

use crate::output::Output;
use std::alloc::AllocError;

/// Adds characters between two of these quotes.
pub(crate) fn push_quoted(
    output: &mut Output,
    quote: char,
    characters: &[char],
) -> Result<(), AllocError>
    ensures { OnOk result (output.new ≡ output.old ++ quoted quote characters.now) }
{
    output.push(quote)?;
    for c in characters {
        push_escaped(output, quote, *c)?;
    }
    output.push(quote)
}

/// Adds a character between single quotes.
///
/// # Errors
///
/// Want of memory.
pub fn push_character(output: &mut Output, c: char) -> Result<(), AllocError>
    ensures { OnOk result (output.new ≡ output.old ++ single_quoted (c ∷ [])) }
{
    output.push('\'')?;
    push_escaped(output, '\'', c)?;
    output.push('\'')
}

/// Adds a character as it stands between two of these quotes.
///
/// # Errors
///
/// Want of memory.
pub fn push_escaped(output: &mut Output, quote: char, c: char) -> Result<(), AllocError>
    ensures { OnOk result (output.new ≡ output.old ++ escaped quote c) }
{
    if c == '\\' || c == quote {
        return output.push_two('\\', c);
    }
    if c == '\n' {
        return output.push_two('\\', 'n');
    }
    if c == '\r' {
        return output.push_two('\\', 'r');
    }
    if c == '\t' {
        return output.push_two('\\', 't');
    }
    if c < ' ' || c == '\u{7F}' {
        return push_code(output, c);
    }
    output.push(c)
}

// Adds a character as its number.
fn push_code(output: &mut Output, c: char) -> Result<(), AllocError>
    ensures { OnOk result (output.new ≡ output.old ++ (codes "\\" ++ decimal c ++ codes ";")) }
{
    output.push('\\')?;
    output.push_number(i128::from(u32::from(c)))?;
    output.push(';')
}

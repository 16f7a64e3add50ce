//! The value of a text.
ghost use Rattle.std.specs.Prelude.{◌≡◌, ◌<◌, [], IfOk, IfErr, false, length};
ghost use Rattle.std.specs.Str.{chars};
ghost use Rattle.cd_syntax.specs.Faults.{IfFault};
ghost use Rattle.cd_syntax.specs.Tokens.{bytes};
ghost use Rattle.cd_cells.specs.Cells.{thing_at};
ghost use Rattle.cd_cells.specs.Table.{table, Grows};
ghost use Rattle.cd_documents.specs.Reading.{WritesValue};
ghost use Rattle.cd_lex.specs.Lexing.{left, place, is_joined};
ghost use Rattle.cd_notation.specs.Faulty.{IsFaultOf};
ghost use Rattle.cd_notation.specs.Inner.Going.{IsRefusal, ended_of};

use crate::form::Expecting;
use crate::reader::{Reader, Step};
use crate::terminal::terminal_of;
use cd_cells::{ValueId, Values};
use cd_lex::{Lexeme, Lexer};
use cd_syntax::fault::{TextError, TextFault};
use std::alloc::Global;

/// The value that a text stands for, which is added to the values.
///
/// # Errors
///
/// The fault of the text, or want of memory. The values that were there stay.
pub fn read_value(alloc: Global, values: &mut Values, text: &str) -> Result<ValueId, TextError>
    ensures within { IfOk result (λ id. id.0 < length (table values.new)) }
    ensures value { IfOk result
        (λ id. WritesValue (chars text.now) (thing_at (table values.new) id.0)) }
    ensures fault { IfErr result (λ error. IfFault error (IsFaultOf (chars text.now))) }
    ensures grows { Grows values.old values.new }
{
    let mut lexer = Lexer::new(alloc, text);
    let mut reader = Reader::new(alloc);
    read_on(&mut reader, values, &mut lexer, text.len())
}

// Reads from the start of a text of so many bytes.
fn read_on(
    reader: &mut Reader,
    values: &mut Values,
    lexer: &mut Lexer<'_>,
    end: usize,
) -> Result<ValueId, TextError>
    requires forms { reader.old.forms ≡ [] }
    requires items { reader.old.items ≡ [] }
    requires labels { reader.old.labels ≡ [] }
    requires place { place lexer.old ≡ 0 }
    requires joined { is_joined lexer.old ≡ false }
    requires end { end ≡ bytes (left lexer.old) }
    ensures within { IfOk result (λ id. id.0 < length (table values.new)) }
    ensures value { IfOk result
        (λ id. WritesValue (left lexer.old) (thing_at (table values.new) id.0)) }
    ensures fault { IfErr result (λ error. IfFault error (IsFaultOf (left lexer.old))) }
    ensures grows { Grows values.old values.new }
{
    let mut expecting = Expecting::Value;
    loop {
        match lexer.next()? {
            Lexeme::Token(kind, span) => {
                let name = lexer.spelled();
                let is = terminal_of(kind, name);
                let made = reader.step(values, expecting, is, name)?;
                match made {
                    Step::Next(next) => expecting = next,
                    Step::Wrong => return Err(refused(lexer, TextFault::Syntax(span.from))),
                    Step::TooDeep => return Err(refused(lexer, TextFault::TooDeep(span.from))),
                }
            }
            Lexeme::End => return ended(expecting, end),
        }
    }
}

// The value that was read, at the end of a text of so many bytes.
fn ended(expecting: Expecting, end: usize) -> Result<ValueId, TextError>
    ensures { result ≡ ended_of expecting end }
{
    match expecting {
        Expecting::Nothing(id) => Ok(id),
        _ => Err(TextError::Fault(TextFault::Syntax(end))),
    }
}

// A token can't stand where it does: the faults of the rest of the text come first.
fn refused(lexer: &mut Lexer<'_>, fault: TextFault) -> TextError
    ensures { IsRefusal lexer.old fault result }
{
    loop {
        match lexer.next() {
            Ok(Lexeme::Token(_, _)) => {}
            Ok(Lexeme::End) => return TextError::Fault(fault),
            Err(error) => return error,
        }
    }
}

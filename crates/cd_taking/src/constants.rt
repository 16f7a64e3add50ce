//! Constants as values.
ghost use Rattle.std.specs.Prelude.{IfOk};
ghost use Rattle.std.specs.Str.{chars};
ghost use Rattle.cd_model.specs.Thing.{IsElement, Integer};
ghost use Rattle.cd_matching.specs.Sequences.{thing_of, text_of};
ghost use Rattle.cd_cells.specs.Table.{table, IsAt, Grows};

use cd_cells::{ValueId, Values};
use cd_syntax::constant::Constant;
use std::alloc::AllocError;

/// The value of a constant.
pub(crate) fn constant(values: &mut Values, constant: &Constant) -> Result<ValueId, AllocError>
    requires { IsElement (thing_of constant.now) }
    ensures is { IfOk result (λ id. IsAt (table values.new) id.0 (thing_of constant.now)) }
    ensures grows { Grows values.old values.new }
{
    match constant {
        Constant::Int(n) => integer(values, *n),
        Constant::Char(c) => values.char(*c),
        Constant::Atom(name) => values.atom(name.as_str()),
        Constant::Text(text) => characters(values, text.as_str()),
        Constant::Nil => values.nil(),
    }
}

fn integer(values: &mut Values, n: i128) -> Result<ValueId, AllocError>
    ensures is { IfOk result (λ id. IsAt (table values.new) id.0 (Integer n)) }
    ensures grows { Grows values.old values.new }
{
    values.int(n)
}

// The sequence of the characters of a text.
fn characters(values: &mut Values, text: &str) -> Result<ValueId, AllocError>
    ensures is { IfOk result (λ id. IsAt (table values.new) id.0 (text_of (chars text.now))) }
    ensures grows { Grows values.old values.new }
{
    let mut made = values.nil()?;
    for c in text.chars().rev() {
        let letter = values.char(c)?;
        made = values.pair(letter, made)?;
    }
    Ok(made)
}

//! What a token leads to.
ghost use Rattle.std.specs.Prelude.{◌≡◌, ◌<◌, List, [], ℕ, length, Some, None, IfOk};
ghost use Rattle.std.specs.Prelude.{not, nat_lt};
ghost use Rattle.std.specs.Str.{chars};
ghost use Rattle.cd_cells.specs.declared.values.Values.{Values as SomeValues};
ghost use Rattle.cd_cells.specs.Table.{table, Grows};
ghost use Rattle.cd_documents.specs.Reading.{most_open};
ghost use Rattle.cd_documents.specs.Machine.{State, step_on};
ghost use Rattle.cd_documents.specs.Machine as machine;
ghost use Rattle.cd_notation.specs.Inner.PlainTerminal.{plain_terminal, IsNamed};
ghost use Rattle.cd_notation.specs.Inner.Leading.{IsOpenIn, HasForms, Follows, Stands};
ghost use Rattle.cd_notation.specs.Inner.Leading.{IsStep, plain_expecting, trees_at};
ghost use Rattle.cd_notation.specs.declared.reader.Reader.{Reader as AReader};

use crate::form::Expecting;
use crate::reader::{Reader, Step};
use crate::terminal::Terminal;
use cd_cells::Values;
use std::alloc::AllocError;

/// So many brackets may be open.
const MOST_OPEN: usize = 1000;

impl Reader {
    /// What a token leads to.
    pub(crate) fn step(
        &mut self,
        values: &mut Values,
        expecting: Expecting,
        is: Terminal,
        name: &str,
    ) -> Result<Step, AllocError>
        requires forms { HasForms values.old self.old }
        requires named { IsNamed is (chars name.now) }
        ensures step { IfOk result (λ made. (now : State) (from : ℕ)
            → Stands values.old expecting self.old now
            → IsStep from (step_on most_open now from (plain_terminal is (chars name.now)))
            values.new made self.new) }
        ensures grows { Grows values.old values.new }
    {
        if self.is_full(expecting) && is.opens() {
            return Ok(Step::TooDeep);
        }
        match self.after_terminal(values, expecting, is, name)? {
            Some(next) => Ok(Step::Next(next)),
            None => Ok(Step::Wrong),
        }
    }

    fn is_full(&self, expecting: Expecting) -> bool
        ensures { (values : SomeValues) (trees : List machine.OpenTree)
            → IsOpenIn values self.now trees
            → result ≡ not (nat_lt (length (trees_at expecting trees)) most_open) }
    {
        match expecting {
            Expecting::Tag => self.forms.len() >= MOST_OPEN - 1,
            _ => self.forms.len() >= MOST_OPEN,
        }
    }

    fn after_terminal(
        &mut self,
        values: &mut Values,
        expecting: Expecting,
        is: Terminal,
        name: &str,
    ) -> Result<Option<Expecting>, AllocError>
        requires forms { HasForms values.old self.old }
        requires named { IsNamed is (chars name.now) }
        ensures leads { IfOk result (λ next.
            Follows (λ trees. machine.after_terminal (plain_expecting (table values.old) expecting)
            (trees_at expecting trees) (plain_terminal is (chars name.now)))
            values.old self.old values.new next self.new) }
        ensures grows { Grows values.old values.new }
    {
        match expecting {
            Expecting::Value => self.at_value(values, is, name),
            Expecting::Item => self.at_item(values, is, name),
            Expecting::AfterPart => self.after_part(values, is),
            Expecting::Field => self.at_field(values, is, name),
            Expecting::AfterField => self.after_field(values, is),
            Expecting::Tag => self.at_tag(values, is, name),
            Expecting::Attribute => self.at_attribute(values, is, name),
            Expecting::AfterAttribute => self.after_attribute(values, is, name),
            Expecting::Equal => at_equal(is),
            Expecting::Nothing(_) => Ok(None),
        }
    }
}

fn at_equal(is: Terminal) -> Result<Option<Expecting>, AllocError>
    ensures leads { IfOk result (λ next. (values : SomeValues) (reader : AReader)
        → Follows (λ trees. machine.at_equal trees (plain_terminal is []))
        values reader values next reader) }
{
    match is {
        Terminal::Equal => Ok(Some(Expecting::Value)),
        _ => Ok(None),
    }
}

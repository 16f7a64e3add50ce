//! Items of sequences, and parts of tuples.
ghost use Rattle.std.specs.Prelude.{◌<◌, [], length, Some, None, IfOk};
ghost use Rattle.std.specs.Str.{chars};
ghost use Rattle.cd_cells.specs.Table.{table, Grows};
ghost use Rattle.cd_documents.specs.Terminal.{Letters, CloseTuple};
ghost use Rattle.cd_documents.specs.Terminal.{CloseSequence};
ghost use Rattle.cd_documents.specs.Machine as machine;
ghost use Rattle.cd_notation.specs.Inner.PlainTerminal.{plain_terminal, IsNamed};
ghost use Rattle.cd_notation.specs.Inner.Leading.{HasForms, Follows};
ghost use Rattle.cd_notation.specs.Inner.Leading.{ClosesForms, IsClosed};

use crate::form::{Expecting, OpenForm};
use crate::items::{gather, letters};
use crate::reader::Reader;
use crate::terminal::Terminal;
use cd_cells::{ValueId, Values};
use std::alloc::AllocError;

impl Reader {
    pub(crate) fn at_item(
        &mut self,
        values: &mut Values,
        is: Terminal,
        name: &str,
    ) -> Result<Option<Expecting>, AllocError>
        requires forms { HasForms values.old self.old }
        requires named { IsNamed is (chars name.now) }
        ensures leads { IfOk result (λ next.
            Follows (λ trees. machine.at_item trees (plain_terminal is (chars name.now)))
            values.old self.old values.new next self.new) }
        ensures grows { Grows values.old values.new }
    {
        match is {
            Terminal::CloseSequence => self.close_sequence(values),
            Terminal::Letters => self.letters(values, name),
            _ => self.at_value(values, is, name),
        }
    }

    fn close_sequence(&mut self, values: &mut Values) -> Result<Option<Expecting>, AllocError>
        requires forms { HasForms values.old self.old }
        ensures leads { IfOk result (λ next.
            Follows (λ trees. machine.at_item trees CloseSequence)
            values.old self.old values.new next self.new) }
        ensures grows { Grows values.old values.new }
    {
        let Some(form) = self.forms.top() else {
            return Ok(None);
        };
        let OpenForm::Sequence(from) = form else {
            return Ok(None);
        };
        let nil = values.nil()?;
        self.forms.drop_top();
        Ok(self.close(values, from, nil)?)
    }

    // The items down to this number, before an end, are a value. The form that they were in is no
    // longer open.
    fn close(
        &mut self,
        values: &mut Values,
        from: usize,
        end: ValueId,
    ) -> Result<Option<Expecting>, AllocError>
        requires forms { ClosesForms values.old self.old from }
        requires end { end.0 < length (table values.old) }
        ensures leads { IfOk result (λ next.
            IsClosed values.old self.old from end.0 values.new next self.new) }
        ensures grows { Grows values.old values.new }
    {
        let id = gather(values, &mut self.items, from, end)?;
        Ok(Some(self.put(values, id)?))
    }

    fn letters(&mut self, values: &mut Values, name: &str) -> Result<Option<Expecting>, AllocError>
        requires forms { HasForms values.old self.old }
        ensures leads { IfOk result (λ next.
            Follows (λ trees. machine.at_item trees (Letters (chars name.now)))
            values.old self.old values.new next self.new) }
        ensures grows { Grows values.old values.new }
    {
        let Some(form) = self.forms.top() else {
            return Ok(self.character(values, name)?);
        };
        let OpenForm::Sequence(_) = form else {
            return Ok(self.character(values, name)?);
        };
        letters(values, &mut self.items, name)?;
        Ok(Some(Expecting::Item))
    }

    pub(crate) fn after_part(
        &mut self,
        values: &mut Values,
        is: Terminal,
    ) -> Result<Option<Expecting>, AllocError>
        requires forms { HasForms values.old self.old }
        ensures leads { IfOk result (λ next.
            Follows (λ trees. machine.after_part trees (plain_terminal is []))
            values.old self.old values.new next self.new) }
        ensures grows { Grows values.old values.new }
    {
        match is {
            Terminal::CloseTuple => self.close_tuple(values),
            Terminal::Comma => Ok(Some(Expecting::Value)),
            _ => Ok(None),
        }
    }

    fn close_tuple(&mut self, values: &mut Values) -> Result<Option<Expecting>, AllocError>
        requires forms { HasForms values.old self.old }
        ensures leads { IfOk result (λ next.
            Follows (λ trees. machine.after_part trees CloseTuple)
            values.old self.old values.new next self.new) }
        ensures grows { Grows values.old values.new }
    {
        let Some(form) = self.forms.top() else {
            return Ok(None);
        };
        let OpenForm::Tuple(from) = form else {
            return Ok(None);
        };
        if self.items.len() <= from {
            return Ok(None);
        }
        let Some(last) = self.items.pop() else {
            return Ok(None);
        };
        self.forms.drop_top();
        Ok(self.close(values, from, last)?)
    }
}

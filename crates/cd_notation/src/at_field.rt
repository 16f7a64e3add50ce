//! Fields of records, and labels.
ghost use Rattle.std.specs.Prelude.{◌≡◌, ◌<◌, [], Some, None, IfOk};
ghost use Rattle.std.specs.Str.{chars};
ghost use Rattle.cd_syntax.specs.Name.{IsLabel};
ghost use Rattle.cd_cells.specs.Table.{Grows};
ghost use Rattle.cd_documents.specs.Machine as machine;
ghost use Rattle.cd_notation.specs.Inner.PlainTerminal.{plain_terminal, IsNamed};
ghost use Rattle.cd_notation.specs.Inner.Leading.{HasForms, Follows};
ghost use Rattle.cd_notation.specs.Inner.Leading.{labels_from};

use crate::form::{Expecting, OpenForm};
use crate::reader::Reader;
use crate::terminal::Terminal;
use cd_cells::Values;
use std::alloc::AllocError;

impl Reader {
    pub(crate) fn at_field(
        &mut self,
        values: &mut Values,
        is: Terminal,
        name: &str,
    ) -> Result<Option<Expecting>, AllocError>
        requires forms { HasForms values.old self.old }
        requires named { IsNamed is (chars name.now) }
        ensures leads { IfOk result (λ next.
            Follows (λ trees. machine.at_field trees (plain_terminal is (chars name.now)))
            values.old self.old values.new next self.new) }
        ensures grows { Grows values.old values.new }
    {
        match is {
            Terminal::Label => self.label(values, name),
            Terminal::CloseRecord => self.close_record(values),
            _ => Ok(None),
        }
    }

    pub(crate) fn label(
        &mut self,
        values: &mut Values,
        name: &str,
    ) -> Result<Option<Expecting>, AllocError>
        requires forms { HasForms values.old self.old }
        requires label { IsLabel (chars name.now) }
        ensures leads { IfOk result (λ next.
            Follows (λ trees. machine.label_of trees (chars name.now))
            values.old self.old values.new next self.new) }
        ensures grows { Grows values.old values.new }
    {
        let Some(form) = self.forms.top() else {
            return Ok(None);
        };
        let Some(first) = first_label(form) else {
            return Ok(None);
        };
        let number = values.label(name)?;
        values.knows();
        if self.labels.add(first, number)? {
            return Ok(Some(Expecting::Equal));
        }
        Ok(None)
    }

    fn close_record(&mut self, values: &mut Values) -> Result<Option<Expecting>, AllocError>
        requires forms { HasForms values.old self.old }
        ensures leads { IfOk result (λ next.
            Follows (λ trees. machine.close_record trees)
            values.old self.old values.new next self.new) }
        ensures grows { Grows values.old values.new }
    {
        let Some(form) = self.forms.top() else {
            return Ok(None);
        };
        let OpenForm::Record(first, from) = form else {
            return Ok(None);
        };
        self.forms.drop_top();
        let id = self.take_record(values, first, from)?;
        Ok(Some(self.put(values, id)?))
    }

    pub(crate) fn after_field(
        &mut self,
        values: &mut Values,
        is: Terminal,
    ) -> Result<Option<Expecting>, AllocError>
        requires forms { HasForms values.old self.old }
        ensures leads { IfOk result (λ next.
            Follows (λ trees. machine.after_field trees (plain_terminal is []))
            values.old self.old values.new next self.new) }
        ensures grows { Grows values.old values.new }
    {
        match is {
            Terminal::Semicolon => Ok(Some(Expecting::Field)),
            Terminal::CloseRecord => self.close_record(values),
            _ => Ok(None),
        }
    }
}

fn first_label(form: OpenForm) -> Option<usize>
    ensures { result ≡ labels_from form }
{
    match form {
        OpenForm::Record(first, _) => Some(first),
        OpenForm::Tag(_, first, _) => Some(first),
        _ => None,
    }
}

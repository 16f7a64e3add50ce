//! Tags and their attributes.
ghost use Rattle.std.specs.Prelude.{◌<◌, [], ◌∷◌, Some, None, IfOk};
ghost use Rattle.std.specs.Str.{chars};
ghost use Rattle.cd_syntax.specs.Name.{IsLabel};
ghost use Rattle.cd_cells.specs.Table.{Grows};
ghost use Rattle.cd_documents.specs.Machine.{state};
ghost use Rattle.cd_documents.specs.Machine.{AtAttribute as PlainAtAttribute};
ghost use Rattle.cd_documents.specs.Machine.{InTag};
ghost use Rattle.cd_documents.specs.Machine as machine;
ghost use Rattle.cd_notation.specs.Inner.PlainTerminal.{plain_terminal, IsNamed};
ghost use Rattle.cd_notation.specs.Inner.Leading.{HasForms, Follows};

use crate::form::{Expecting, OpenForm};
use crate::reader::Reader;
use crate::terminal::Terminal;
use cd_cells::Values;
use std::alloc::AllocError;

impl Reader {
    pub(crate) fn at_tag(
        &mut self,
        values: &mut Values,
        is: Terminal,
        name: &str,
    ) -> Result<Option<Expecting>, AllocError>
        requires forms { HasForms values.old self.old }
        requires named { IsNamed is (chars name.now) }
        ensures leads { IfOk result (λ next.
            Follows (λ trees.
            machine.at_tag (InTag [] [] [] ∷ trees) (plain_terminal is (chars name.now)))
            values.old self.old values.new next self.new) }
        ensures grows { Grows values.old values.new }
    {
        match is {
            Terminal::Label => self.tag(values, name),
            _ => Ok(None),
        }
    }

    fn tag(&mut self, values: &mut Values, name: &str) -> Result<Option<Expecting>, AllocError>
        requires forms { HasForms values.old self.old }
        requires label { IsLabel (chars name.now) }
        ensures leads { IfOk result (λ next.
            Follows (λ trees.
            Some (state PlainAtAttribute (InTag (chars name.now) [] [] ∷ trees)))
            values.old self.old values.new next self.new) }
        ensures grows { Grows values.old values.new }
    {
        let tag = values.atom(name)?;
        let first = self.labels.len();
        self.forms
            .push(OpenForm::Tag(tag, first, self.items.len()))?;
        Ok(Some(Expecting::Attribute))
    }

    #[inline(always)]
    pub(crate) fn at_attribute(
        &mut self,
        values: &mut Values,
        is: Terminal,
        name: &str,
    ) -> Result<Option<Expecting>, AllocError>
        requires forms { HasForms values.old self.old }
        requires named { IsNamed is (chars name.now) }
        ensures leads { IfOk result (λ next.
            Follows (λ trees. machine.at_attribute trees (plain_terminal is (chars name.now)))
            values.old self.old values.new next self.new) }
        ensures grows { Grows values.old values.new }
    {
        match is {
            Terminal::Label => self.label(values, name),
            Terminal::CloseTag => self.close_tag(values),
            _ => Ok(None),
        }
    }

    fn close_tag(&mut self, values: &mut Values) -> Result<Option<Expecting>, AllocError>
        requires forms { HasForms values.old self.old }
        ensures leads { IfOk result (λ next.
            Follows (λ trees. machine.close_tag trees)
            values.old self.old values.new next self.new) }
        ensures grows { Grows values.old values.new }
    {
        let Some(form) = self.forms.top() else {
            return Ok(None);
        };
        let OpenForm::Tag(tag, first, from) = form else {
            return Ok(None);
        };
        self.forms.drop_top();
        let id = self.take_record(values, first, from)?;
        self.forms.push(OpenForm::Content(tag, id))?;
        Ok(Some(Expecting::Value))
    }

    pub(crate) fn after_attribute(
        &mut self,
        values: &mut Values,
        is: Terminal,
        name: &str,
    ) -> Result<Option<Expecting>, AllocError>
        requires forms { HasForms values.old self.old }
        requires named { IsNamed is (chars name.now) }
        ensures leads { IfOk result (λ next.
            Follows (λ trees. machine.after_attribute trees (plain_terminal is (chars name.now)))
            values.old self.old values.new next self.new) }
        ensures grows { Grows values.old values.new }
    {
        match is {
            Terminal::Semicolon => Ok(Some(Expecting::Attribute)),
            _ => self.at_attribute(values, is, name),
        }
    }
}

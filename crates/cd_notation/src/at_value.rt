//! A value comes next.
ghost use Rattle.std.specs.Prelude.{◌<◌, [], ◌∷◌, Some, None, IfOk};
ghost use Rattle.std.specs.Str.{chars};
ghost use Rattle.cd_syntax.specs.Name.{IsLabel};
ghost use Rattle.cd_model.specs.Thing.{Integer, Atom as AnAtom};
ghost use Rattle.cd_cells.specs.declared.values.Values.{Values as SomeValues};
ghost use Rattle.cd_cells.specs.Table.{Grows};
ghost use Rattle.cd_documents.specs.Document.{characters_before, the_nil};
ghost use Rattle.cd_documents.specs.Terminal.{Letters};
ghost use Rattle.cd_documents.specs.Machine.{state, put as put_of};
ghost use Rattle.cd_documents.specs.Machine.{AtValue as PlainAtValue, AtItem as PlainAtItem};
ghost use Rattle.cd_documents.specs.Machine.{AtField as PlainAtField};
ghost use Rattle.cd_documents.specs.Machine.{InTuple, InSequence, InRecord};
ghost use Rattle.cd_documents.specs.Machine as machine;
ghost use Rattle.cd_notation.specs.Inner.PlainTerminal.{plain_terminal, IsNamed};
ghost use Rattle.cd_notation.specs.Inner.Leading.{HasForms, Follows};

use crate::form::{Expecting, OpenForm};
use crate::items::text_before;
use crate::reader::Reader;
use crate::terminal::{Terminal, only_character};
use cd_cells::Values;
use std::alloc::AllocError;

impl Reader {
    #[inline(always)]
    pub(crate) fn at_value(
        &mut self,
        values: &mut Values,
        is: Terminal,
        name: &str,
    ) -> Result<Option<Expecting>, AllocError>
        requires forms { HasForms values.old self.old }
        requires named { IsNamed is (chars name.now) }
        ensures leads { IfOk result (λ next.
            Follows (λ trees. machine.at_value trees (plain_terminal is (chars name.now)))
            values.old self.old values.new next self.new) }
        ensures grows { Grows values.old values.new }
    {
        match is {
            Terminal::Number(n) => self.number(values, n),
            Terminal::Letters => self.character(values, name),
            Terminal::Text => self.text(values, name),
            Terminal::Atom => self.atom(values, name),
            Terminal::OpenTuple => self.open_tuple(),
            Terminal::OpenSequence => self.open_sequence(),
            Terminal::OpenRecord => self.open_record(),
            Terminal::OpenTag => Ok(Some(Expecting::Tag)),
            _ => Ok(None),
        }
    }

    fn number(&mut self, values: &mut Values, n: i128) -> Result<Option<Expecting>, AllocError>
        requires forms { HasForms values.old self.old }
        ensures leads { IfOk result (λ next.
            Follows (λ trees. Some (put_of (Integer n) trees))
            values.old self.old values.new next self.new) }
        ensures grows { Grows values.old values.new }
    {
        let id = values.int(n)?;
        Ok(Some(self.put(values, id)?))
    }

    pub(crate) fn character(
        &mut self,
        values: &mut Values,
        name: &str,
    ) -> Result<Option<Expecting>, AllocError>
        requires forms { HasForms values.old self.old }
        ensures leads { IfOk result (λ next.
            Follows (λ trees. machine.at_value trees (Letters (chars name.now)))
            values.old self.old values.new next self.new) }
        ensures grows { Grows values.old values.new }
    {
        let Some(c) = only_character(name) else {
            return Ok(None);
        };
        let id = values.char(c)?;
        Ok(Some(self.put(values, id)?))
    }

    fn text(&mut self, values: &mut Values, name: &str) -> Result<Option<Expecting>, AllocError>
        requires forms { HasForms values.old self.old }
        ensures leads { IfOk result (λ next.
            Follows (λ trees. Some (put_of (characters_before (chars name.now) the_nil) trees))
            values.old self.old values.new next self.new) }
        ensures grows { Grows values.old values.new }
    {
        let nil = values.nil()?;
        let id = text_before(values, name, nil)?;
        Ok(Some(self.put(values, id)?))
    }

    fn atom(&mut self, values: &mut Values, name: &str) -> Result<Option<Expecting>, AllocError>
        requires forms { HasForms values.old self.old }
        requires label { IsLabel (chars name.now) }
        ensures leads { IfOk result (λ next.
            Follows (λ trees. Some (put_of (AnAtom (chars name.now)) trees))
            values.old self.old values.new next self.new) }
        ensures grows { Grows values.old values.new }
    {
        let id = values.atom(name)?;
        Ok(Some(self.put(values, id)?))
    }

    fn open_tuple(&mut self) -> Result<Option<Expecting>, AllocError>
        ensures leads { IfOk result (λ next. (values : SomeValues)
            → Follows (λ trees. Some (state PlainAtValue (InTuple [] ∷ trees)))
            values self.old values next self.new) }
    {
        self.forms.push(OpenForm::Tuple(self.items.len()))?;
        Ok(Some(Expecting::Value))
    }

    fn open_sequence(&mut self) -> Result<Option<Expecting>, AllocError>
        ensures leads { IfOk result (λ next. (values : SomeValues)
            → Follows (λ trees. Some (state PlainAtItem (InSequence [] ∷ trees)))
            values self.old values next self.new) }
    {
        self.forms.push(OpenForm::Sequence(self.items.len()))?;
        Ok(Some(Expecting::Item))
    }

    fn open_record(&mut self) -> Result<Option<Expecting>, AllocError>
        ensures leads { IfOk result (λ next. (values : SomeValues)
            → Follows (λ trees. Some (state PlainAtField (InRecord [] [] ∷ trees)))
            values self.old values next self.new) }
    {
        let first = self.labels.len();
        self.forms.push(OpenForm::Record(first, self.items.len()))?;
        Ok(Some(Expecting::Field))
    }
}

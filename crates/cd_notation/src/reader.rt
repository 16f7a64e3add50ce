ghost use Rattle.std.specs.Prelude.{◌≡◌, ◌<◌, [], List, length, IfOk, Some};
ghost use Rattle.cd_model.specs.Thing.{Thing as AThing};
ghost use Rattle.cd_cells.specs.Table.{table, IsAt, Grows};
ghost use Rattle.cd_documents.specs.Machine.{OpenTree as AnOpenTree, put as put_of};
ghost use Rattle.cd_notation.specs.Inner.Leading.{IsOpenIn, HasForms, Stands, after_value_in};

use crate::form::{Expecting, OpenForm};
use crate::labels::Labels;
use crate::stack::Stack;
use cd_cells::{Part, ValueId, Values};
use std::alloc::{AllocError, Global};

/// The forms that are open, with their items and their labels.
#[derive(Drop)]
pub(crate) struct Reader {
    pub(crate) forms: Stack<OpenForm>,
    pub(crate) items: Stack<ValueId>,
    pub(crate) labels: Labels,
    /// The parts of the record that was taken last.
    pub(crate) parts: Vec<Part>,
}

/// What a token leads to.
#[derive(Clone, Copy)]
pub(crate) enum Step {
    /// This may come next.
    Next(Expecting),
    /// The token can't stand there.
    Wrong,
    /// It opens one bracket too many.
    TooDeep,
}

impl Reader {
    /// Nothing is open.
    pub(crate) fn new(alloc: Global) -> Reader
        ensures forms { result.forms ≡ [] }
        ensures items { result.items ≡ [] }
        ensures labels { result.labels ≡ [] }
    {
        Reader {
            forms: Stack::new(alloc),
            items: Stack::new(alloc),
            labels: Labels::new(alloc),
            parts: Vec::new(alloc),
        }
    }

    /// A value was read. It ends each content that it is.
    pub(crate) fn put(
        &mut self,
        values: &mut Values,
        value: ValueId,
    ) -> Result<Expecting, AllocError>
        requires within { value.0 < length (table values.old) }
        requires forms { HasForms values.old self.old }
        ensures stands { IfOk result (λ next. (is : AThing) (trees : List AnOpenTree)
            → IsAt (table values.old) value.0 is → IsOpenIn values.old self.old trees
            → Stands values.new next self.new (put_of is trees)) }
        ensures grows { Grows values.old values.new }
    {
        let mut value = value;
        loop {
            let Some(form) = self.forms.top() else {
                return Ok(Expecting::Nothing(value));
            };
            let OpenForm::Content(tag, attributes) = form else {
                self.items.push(value)?;
                return Ok(after(form));
            };
            self.forms.drop_top();
            value = values.xml(tag, attributes, value)?;
        }
    }
}

fn after(form: OpenForm) -> Expecting
    ensures { result ≡ after_value_in form }
{
    match form {
        OpenForm::Tuple(_) => Expecting::AfterPart,
        OpenForm::Sequence(_) => Expecting::Item,
        OpenForm::Record(_, _) => Expecting::AfterField,
        OpenForm::Tag(_, _, _) => Expecting::AfterAttribute,
        OpenForm::Content(_, _) => Expecting::Value,
    }
}

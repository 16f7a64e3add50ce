ghost use Rattle.std.specs.Prelude.{◌≡◌, None, IfOk, bytes_eq};
ghost use Rattle.cd_model.specs.Types.{field_of};
ghost use Rattle.cd_model.specs.Formula.{AreRisingLabels};
ghost use Rattle.cd_graph.specs.PlainFormula.{plain_field, plain_named};

use cd_sets::node_id::NodeId;
use cd_syntax::name::Name;
use std::alloc::AllocError;
use std::marker::Model;
use std::rc::Rc;

/// What a record type says of one label.
#[derive(Clone, Copy, PartialEq, Eq)]
pub struct Field {
    /// Whether the field may be absent.
    pub optional: bool,
    /// The node that its value is in.
    pub node: NodeId,
}

/// Labels, which rise strictly, and what a record type says of each. A contract sees them in a
/// list.
#[derive(Drop)]
pub struct FieldList {
    items: Rc<Vec<(Name, Field)>>,
}

impl Model for FieldList {
    ghost use Rattle.std.specs.Prelude.{List, None};
    ghost use Rattle.cd_syntax.specs.Name.{Name as ALabel};
    ghost use Rattle.cd_model.specs.Formula.{AreRisingLabels};
    ghost use Rattle.cd_graph.specs.declared.fields.Field.{Field as AField};

    ghost Value = { List (ALabel × AField) };

    ghost use Rattle.cd_graph.specs.PlainFormula.{plain_named};

    ghost view = { λ list. list.items.value.items };

    ghost invariant = { λ list. AreRisingLabels None (plain_named list.items.value.items) };
}

impl FieldList {
    /// The list of these fields.
    ///
    /// # Errors
    ///
    /// Want of memory.
    pub fn of(items: Vec<(Name, Field)>) -> Result<FieldList, AllocError>
        requires { AreRisingLabels None (plain_named items.items) }
        ensures { IfOk result (λ list. list ≡ items.items) }
    {
        let alloc = *items.allocator();
        let items = Rc::new(alloc, items)?;
        Ok(FieldList { items })
    }

    /// The fields, by rising label.
    pub fn items(&self) -> &[(Name, Field)]
        ensures value { result.now ≡ self.now }
        ensures rising { AreRisingLabels None (plain_named self.now) }
    {
        self.items.as_slice()
    }

    /// An equal list, which shares its fields.
    pub fn copy(&self) -> Result<FieldList, AllocError>
        ensures { IfOk result (λ copy. copy ≡ self.now) }
    {
        let items = self.items.clone()?;
        Ok(FieldList { items })
    }
}

/// A record type: its fields, and the node for all other labels, at which there is nothing or what
/// is in that node.
#[derive(Drop)]
pub struct Fields {
    /// What it says of the labels that it names.
    pub named: FieldList,
    /// The node of what may stand at each other label.
    pub rest: NodeId,
}

impl Fields {
    /// What it says of a label: its field of this label, or else that nothing may stand there or
    /// what is in the rest.
    pub fn at(&self, label: &Name) -> Field
        ensures { plain_field result
            ≡ field_of (plain_named self.now.named) self.now.rest label.now }
    {
        for field in self.named.items() {
            if is_same(&field.0, label) {
                return field.1;
            }
        }
        Field {
            optional: true,
            node: self.rest,
        }
    }

    /// An equal record type.
    pub fn copy(&self) -> Result<Fields, AllocError>
        ensures { IfOk result (λ copy. copy ≡ self.now) }
    {
        Ok(Fields {
            named: self.named.copy()?,
            rest: self.rest,
        })
    }
}

/// Whether two names are equal.
pub fn is_same(one: &Name, other: &Name) -> bool
    ensures { result ≡ bytes_eq one.now other.now }
{
    one.as_str() == other.as_str()
}

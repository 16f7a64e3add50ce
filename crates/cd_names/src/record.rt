//! The walk over a record.
ghost use Rattle.std.specs.Prelude.{◌≡◌, ◌++◌, [], ◌∷◌, OnOk};
ghost use Rattle.cd_program.specs.Expr.{fields_of};
ghost use Rattle.cd_program.specs.PlainExpr.{plain_field, plain_fields};
ghost use Rattle.cd_names.specs.Inner.FindingInPrograms.{found_in_fields, again, labels_of};
ghost use Rattle.cd_names.specs.Inner.PlainFound.{plain_found};

use crate::base::Base;
use crate::expr::walk;
use crate::found::Found;
use crate::locals::Locals;
use cd_program::expr::{FieldExpr, FieldExprs};
use cd_resolve::NameIndex;
use std::alloc::{AllocError, Global};

/// Reports the labels that stand twice, and walks over the fields in turn.
#[cycle(walk)]
pub(crate) fn walk_record<'t>(
    base: &Base<'_, 't>,
    fields: &'t FieldExprs,
    locals: &mut Locals<'t>,
    found: &mut Found<'t>,
) -> Result<(), AllocError>
    ensures locals { OnOk result (locals.new ≡ locals.old) }
    ensures found { OnOk result (plain_found found.new
        ≡ found_in_fields (locals.old ++ base.now.functions.now) (plain_fields fields.now)
        (again [] (labels_of (plain_fields fields.now)) (plain_found found.old))) }
{
    report_labels(base.alloc, fields, found)?;
    walk_fields(base, fields, locals, found)
}

#[cycle(walk)]
fn walk_fields<'t>(
    base: &Base<'_, 't>,
    fields: &'t FieldExprs,
    locals: &mut Locals<'t>,
    found: &mut Found<'t>,
) -> Result<(), AllocError>
    ensures locals { OnOk result (locals.new ≡ locals.old) }
    ensures found { OnOk result (plain_found found.new
        ≡ found_in_fields (locals.old ++ base.now.functions.now) (plain_fields fields.now)
        (plain_found found.old)) }
{
    for field in fields.items() {
        walk_field(base, field, locals, found)?;
    }
    Ok(())
}

#[cycle(walk)]
fn walk_field<'t>(
    base: &Base<'_, 't>,
    field: &'t FieldExpr,
    locals: &mut Locals<'t>,
    found: &mut Found<'t>,
) -> Result<(), AllocError>
    ensures locals { OnOk result (locals.new ≡ locals.old) }
    ensures found { OnOk result (plain_found found.new
        ≡ found_in_fields (locals.old ++ base.now.functions.now)
        (fields_of (plain_field field.now ∷ [])) (plain_found found.old)) }
{
    walk(base, &field.expr, locals, found)
}

// Reports the labels that stand twice.
fn report_labels<'t>(
    alloc: Global,
    fields: &'t FieldExprs,
    found: &mut Found<'t>,
) -> Result<(), AllocError>
    ensures { OnOk result (plain_found found.new
        ≡ again [] (labels_of (plain_fields fields.now)) (plain_found found.old)) }
{
    let mut labels = NameIndex::new(alloc);
    for field in fields.items() {
        report_label(field, &mut labels, found)?;
    }
    Ok(())
}

// Reports a label that is one of these, and adds it to them.
fn report_label<'t>(
    field: &'t FieldExpr,
    labels: &mut NameIndex<'t>,
    found: &mut Found<'t>,
) -> Result<(), AllocError>
    ensures labels { OnOk result (labels.new ≡ labels.old ++ (plain_field field.now).label ∷ []) }
    ensures found { OnOk result (plain_found found.new
        ≡ again labels.old (labels_of (fields_of (plain_field field.now ∷ [])))
        (plain_found found.old)) }
{
    let again = labels.add(&field.label)?;
    found.report_twice(again, &field.label, field.at)
}

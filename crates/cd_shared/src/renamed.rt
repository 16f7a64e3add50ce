//! Formulas with the classes of the nodes that they name.
ghost use Rattle.std.specs.Prelude.{◌≡◌, ◌<◌, Some, map, length, IfOk, OnOk};
ghost use Rattle.std.specs.Prelude.{MatchOption, slice_set};
ghost use Rattle.std.specs.Option.{option_map};
ghost use Rattle.cd_graph.specs.PlainFormula.{plain, plain_formulas, plain_named};
ghost use Rattle.cd_shared.specs.Equation.{Is, plain_equation, plain_equations};
ghost use Rattle.cd_shared.specs.Shared.{class_in, renamed_field, renamed_formula};
ghost use Rattle.cd_shared.specs.Shared.{renamed_formulas, renamed_equation};

use crate::classes::Classes;
use crate::equation::Equation;
use crate::kept::is_kept;
use cd_graph::fields::{Field, FieldList, Fields};
use cd_graph::{Formula, Formulas};
use cd_syntax::name::Name;
use std::alloc::{AllocError, Global};
use std::mem;
use std::rc::Rc;

/// Puts the classes of the nodes that the formulas of equations name in their place.
pub(crate) fn rename(
    alloc: Global,
    classes: &Classes,
    equations: &mut Vec<Option<Equation>>,
) -> Result<(), AllocError>
    ensures { OnOk result (plain_equations equations.new.items
        ≡ map (option_map (renamed_equation (class_in classes.now)))
        (plain_equations equations.old.items)) }
{
    for number in 0..equations.len() {
        if let Some(formula) = changed(alloc, classes, &equations[number])? {
            put(equations, number, formula);
        }
    }
    Ok(())
}

fn put(equations: &mut Vec<Option<Equation>>, number: usize, formula: Formula)
    requires { number < length equations.old.items }
    ensures { plain_equations equations.new.items
        ≡ slice_set (plain_equations equations.old.items) number (Some (Is (plain formula))) }
{
    drop(mem::replace(&mut equations[number], Some(Equation::Is(formula))));
}

// The formula of an equation with the classes of nodes, unless it is the same.
fn changed(
    alloc: Global,
    classes: &Classes,
    equation: &Option<Equation>,
) -> Result<Option<Formula>, AllocError>
    ensures { IfOk result (λ formula. MatchOption formula
        (option_map (renamed_equation (class_in classes.now))
        (option_map plain_equation equation.now) ≡ option_map plain_equation equation.now)
        (λ image. option_map (renamed_equation (class_in classes.now))
        (option_map plain_equation equation.now) ≡ Some (Is (plain image)))) }
{
    match equation {
        Some(Equation::Is(formula)) => changed_formula(alloc, classes, formula),
        _ => Ok(None),
    }
}

// A formula that names classes alone is the same.
fn changed_formula(
    alloc: Global,
    classes: &Classes,
    formula: &Formula,
) -> Result<Option<Formula>, AllocError>
    ensures { IfOk result (λ image. MatchOption image
        (renamed_formula (class_in classes.now) (plain formula.now) ≡ plain formula.now)
        (λ image. renamed_formula (class_in classes.now) (plain formula.now) ≡ plain image)) }
{
    if is_kept(classes, formula) {
        Ok(None)
    } else {
        Ok(Some(renamed_formula(alloc, classes, formula)?))
    }
}

#[cycle(renamed)]
fn renamed_formula(
    alloc: Global,
    classes: &Classes,
    formula: &Formula,
) -> Result<Formula, AllocError>
    ensures { IfOk result (λ image. plain image
        ≡ renamed_formula (class_in classes.now) (plain formula.now)) }
{
    match formula {
        Formula::None | Formula::All | Formula::Ints(_) | Formula::Chars(_) | Formula::Atoms(_) =>
            formula.copy(),
        Formula::Pair(first, second) => {
            Ok(Formula::pair(classes.class(*first), classes.class(*second)))
        }
        Formula::Xml(tag, attributes, content) => Ok(Formula::xml(
            classes.class(*tag),
            classes.class(*attributes),
            classes.class(*content),
        )),
        Formula::Record(fields) => Ok(Formula::record(renamed_record(alloc, classes, fields)?)),
        Formula::Arrow(argument, mapped) => {
            Ok(Formula::arrow(classes.class(*argument), classes.class(*mapped)))
        }
        Formula::And(formulas) => Ok(Formula::and(renamed_list(alloc, classes, formulas)?)),
        Formula::Or(formulas) => Ok(Formula::or(renamed_list(alloc, classes, formulas)?)),
        Formula::Not(negated) => {
            let image = renamed_formula(alloc, classes, negated)?;
            Ok(Formula::not(Rc::new(alloc, image)?))
        }
    }
}

#[cycle(renamed)]
fn renamed_list(
    alloc: Global,
    classes: &Classes,
    formulas: &Formulas,
) -> Result<Formulas, AllocError>
    ensures { IfOk result (λ images. plain_formulas images
        ≡ renamed_formulas (class_in classes.now) (plain_formulas formulas.now)) }
{
    let mut images = Vec::new(alloc);
    for formula in formulas.items() {
        images.push(renamed_formula(alloc, classes, formula)?)?;
    }
    Ok(Formulas::of(images)?)
}

fn renamed_record(alloc: Global, classes: &Classes, fields: &Fields) -> Result<Fields, AllocError>
    ensures named { IfOk result (λ image. plain_named image.named
        ≡ map (renamed_field (class_in classes.now)) (plain_named fields.now.named)) }
    ensures rest { IfOk result (λ image.
        image.rest ≡ class_in classes.now fields.now.rest) }
{
    let named = renamed_fields(alloc, classes, fields.named.items())?;
    let rest = classes.class(fields.rest);
    Ok(Fields {
        named: FieldList::of(named)?,
        rest,
    })
}

fn renamed_fields(
    alloc: Global,
    classes: &Classes,
    fields: &[(Name, Field)],
) -> Result<Vec<(Name, Field)>, AllocError>
    ensures { IfOk result (λ images. plain_named images.items
        ≡ map (renamed_field (class_in classes.now)) (plain_named fields.now)) }
{
    let mut images = Vec::new(alloc);
    for (label, field) in fields {
        let node = classes.class(field.node);
        let optional = field.optional;
        images.push((label.copy()?, Field { optional, node }))?;
    }
    Ok(images)
}

//! Copies of patterns, in which each choice in a sequence has an alternative.
ghost use Rattle.std.specs.Prelude.{◌≡◌, map, IfOk};
ghost use Rattle.cd_sets.specs.declared.node_id.NodeId.{NodeId};
ghost use Rattle.cd_matching.specs.Pattern.{patterns_of, regulars_of, Fields, Default};
ghost use Rattle.cd_matching.specs.PlainPattern.{plain, plain_field, plain_regular, fields_of};
ghost use Rattle.cd_kernel.specs.Inner.Completed.{choice, completed, completed_all, completed_fields};
ghost use Rattle.cd_kernel.specs.Inner.Completed.{completed_regular, completed_regulars};

use cd_matching::constant;
use cd_matching::pattern::{Pat, PatField, RegPat};
use cd_syntax::constant::Constant;
use cd_syntax::name::Name;
use std::alloc::{AllocError, Global};

/// A copy of a pattern, with an item that takes nothing in the place of each choice of no
/// alternatives.
#[cycle(complete)]
pub(crate) fn complete(alloc: Global, pattern: &Pat) -> Result<Pat, AllocError>
    ensures { IfOk result (λ copy. plain copy ≡ completed (plain pattern.now)) }
{
    match pattern {
        Pat::OfType(id) => Ok(Pat::of_type(*id)),
        Pat::Bind(name) => Ok(Pat::bind(name.copy()?)),
        Pat::Default(name, is) => default_of(name, is),
        Pat::Pair(first, second) => {
            let first = boxed(alloc, first)?;
            let second = boxed(alloc, second)?;
            Ok(Pat::pair(first, second))
        }
        Pat::Xml(tag, attributes, content) => {
            let tag = boxed(alloc, tag)?;
            let attributes = boxed(alloc, attributes)?;
            let content = boxed(alloc, content)?;
            Ok(Pat::xml(tag, attributes, content))
        }
        Pat::Record(fields, more) => {
            let fields = complete_fields(alloc, fields.items.as_slice())?;
            Ok(Pat::record(fields, *more))
        }
        Pat::Both(all) => Ok(Pat::both(complete_all(alloc, all.items.as_slice())?)),
        Pat::First(all) => Ok(Pat::first(complete_all(alloc, all.items.as_slice())?)),
        Pat::Sequence(is) => Ok(Pat::sequence(boxed_regular(alloc, is)?)),
    }
}

// The same in a box.
#[cycle(complete)]
fn boxed(alloc: Global, pattern: &Pat) -> Result<Box<Pat>, AllocError>
    ensures { IfOk result (λ copy. plain copy.value ≡ completed (plain pattern.now)) }
{
    let copy = complete(alloc, pattern)?;
    Ok(Box::new(alloc, copy)?)
}

fn default_of(name: &Name, is: &Constant) -> Result<Pat, AllocError>
    ensures { IfOk result (λ copy. plain copy ≡ Default name.now is.now) }
{
    let name = name.copy()?;
    Ok(Pat::default(name, constant::copy(is)?))
}

#[cycle(complete)]
fn complete_all(alloc: Global, all: &[Pat]) -> Result<Vec<Pat>, AllocError>
    ensures { IfOk result (λ made. patterns_of (map plain made.items)
        ≡ completed_all (patterns_of (map plain all.now))) }
{
    let mut made = Vec::new(alloc);
    for pattern in all {
        made.push(complete(alloc, pattern)?)?;
    }
    Ok(made)
}

#[cycle(complete)]
fn complete_fields(alloc: Global, fields: &[PatField]) -> Result<Vec<PatField>, AllocError>
    ensures { IfOk result (λ made. fields_of (map plain_field made.items)
        ≡ completed_fields (fields_of (map plain_field fields.now))) }
{
    let mut made = Vec::new(alloc);
    for field in fields {
        made.push(complete_field(alloc, field)?)?;
    }
    Ok(made)
}

#[cycle(complete)]
fn complete_field(alloc: Global, field: &PatField) -> Result<PatField, AllocError>
    ensures { IfOk result (λ copy. (rest : Fields NodeId) → plain_field copy (completed_fields rest)
        ≡ completed_fields (plain_field field.now rest)) }
{
    match field {
        PatField::Present(label, pattern) => {
            let label = label.copy()?;
            Ok(PatField::present(label, complete(alloc, pattern)?))
        }
        PatField::Optional(label, id) => Ok(PatField::optional(label.copy()?, *id)),
    }
}

#[cycle(complete)]
fn complete_regular(alloc: Global, is: &RegPat) -> Result<RegPat, AllocError>
    ensures { IfOk result (λ copy.
        plain_regular copy ≡ completed_regular (plain_regular is.now)) }
{
    match is {
        RegPat::Nothing => Ok(RegPat::nothing()),
        RegPat::Item(pattern) => Ok(RegPat::item(boxed(alloc, pattern)?)),
        RegPat::Seq(all) => Ok(RegPat::seq(complete_parts(alloc, all.items.as_slice())?)),
        RegPat::Alt(all) => {
            let all = complete_parts(alloc, all.items.as_slice())?;
            Ok(choice(alloc, all)?)
        }
        RegPat::Repeat(is, post) => Ok(RegPat::repeat(boxed_regular(alloc, is)?, *post)),
        RegPat::Capture(name, is) => {
            let name = name.copy()?;
            Ok(RegPat::capture(name, boxed_regular(alloc, is)?))
        }
    }
}

#[cycle(complete)]
fn boxed_regular(alloc: Global, is: &RegPat) -> Result<Box<RegPat>, AllocError>
    ensures { IfOk result (λ copy.
        plain_regular copy.value ≡ completed_regular (plain_regular is.now)) }
{
    let copy = complete_regular(alloc, is)?;
    Ok(Box::new(alloc, copy)?)
}

// A choice, or of no alternatives an item that takes nothing.
fn choice(alloc: Global, all: Vec<RegPat>) -> Result<RegPat, AllocError>
    ensures { IfOk result (λ is.
        plain_regular is ≡ choice (regulars_of (map plain_regular all.items))) }
{
    match all.as_slice() {
        [] => {
            let none = Pat::first(Vec::new(alloc));
            Ok(RegPat::item(Box::new(alloc, none)?))
        }
        [_, ..] => Ok(RegPat::alt(all)),
    }
}

#[cycle(complete)]
fn complete_parts(alloc: Global, all: &[RegPat]) -> Result<Vec<RegPat>, AllocError>
    ensures { IfOk result (λ made. regulars_of (map plain_regular made.items)
        ≡ completed_regulars (regulars_of (map plain_regular all.now))) }
{
    let mut made = Vec::new(alloc);
    for is in all {
        made.push(complete_regular(alloc, is)?)?;
    }
    Ok(made)
}

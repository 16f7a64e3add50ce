//! The variables of a pattern, each once, in the order in which they stand.
ghost use Rattle.std.specs.Prelude.{◌≡◌, [], map, IfOk, OnOk};
ghost use Rattle.cd_matching.specs.Pattern.{patterns_of, regulars_of};
ghost use Rattle.cd_matching.specs.PlainPattern.{plain, plain_field, plain_regular, fields_of};
ghost use Rattle.cd_kernel.specs.Copies.{is_among};
ghost use Rattle.cd_kernel.specs.Inner.Gathering.{with_name, with_variables, with_those_of_all};
ghost use Rattle.cd_kernel.specs.Inner.Gathering.{with_those_of_fields, with_those_of_items};
ghost use Rattle.cd_kernel.specs.Inner.Gathering.{with_those_of_parts, numbered};

use cd_matching::pattern::{Pat, PatField, RegPat};
use cd_syntax::name::Name;
use std::alloc::{AllocError, Global};

/// Whether a name is among these.
pub(crate) fn is_among(names: &[Name], name: &Name) -> bool
    ensures { result ≡ is_among names.now name.now }
{
    for other in names {
        if name == other {
            return true;
        }
    }
    false
}

/// The number of a variable among these.
pub(crate) fn number(variables: &[Name], name: &Name) -> usize
    ensures { result ≡ numbered variables.now name.now }
{
    for (number, other) in variables.iter().enumerate() {
        if other == name {
            return number;
        }
    }
    0
}

/// Puts a name after others, unless it is among them.
pub(crate) fn add_name(name: &Name, names: &mut Vec<Name>) -> Result<(), AllocError>
    ensures { OnOk result (names.new.items ≡ with_name names.old.items name.now) }
{
    if !is_among(names.as_slice(), name) {
        names.push(name.copy()?)?;
    }
    Ok(())
}

/// The variables of a pattern.
pub(crate) fn variables(alloc: Global, pattern: &Pat) -> Result<Vec<Name>, AllocError>
    ensures { IfOk result (λ names. names.items ≡ with_variables (plain pattern.now) []) }
{
    let mut names = Vec::new(alloc);
    add_variables(pattern, &mut names)?;
    Ok(names)
}

#[cycle(add_variables)]
fn add_variables(pattern: &Pat, names: &mut Vec<Name>) -> Result<(), AllocError>
    ensures { OnOk result (names.new.items ≡ with_variables (plain pattern.now) names.old.items) }
{
    match pattern {
        Pat::OfType(_) => Ok(()),
        Pat::Bind(name) | Pat::Default(name, _) => add_name(name, names),
        Pat::Pair(first, second) => {
            add_variables(first, names)?;
            add_variables(second, names)
        }
        Pat::Xml(tag, attributes, content) => {
            add_variables(tag, names)?;
            add_variables(attributes, names)?;
            add_variables(content, names)
        }
        Pat::Record(fields, _) => add_of_fields(fields.items.as_slice(), names),
        Pat::Both(all) | Pat::First(all) => add_of_all(all.items.as_slice(), names),
        Pat::Sequence(items) => add_of_items(items, names),
    }
}

#[cycle(add_variables)]
fn add_of_all(all: &[Pat], names: &mut Vec<Name>) -> Result<(), AllocError>
    ensures { OnOk result (names.new.items
        ≡ with_those_of_all (patterns_of (map plain all.now)) names.old.items) }
{
    for pattern in all {
        add_variables(pattern, names)?;
    }
    Ok(())
}

#[cycle(add_variables)]
fn add_of_fields(fields: &[PatField], names: &mut Vec<Name>) -> Result<(), AllocError>
    ensures { OnOk result (names.new.items
        ≡ with_those_of_fields (fields_of (map plain_field fields.now)) names.old.items) }
{
    for field in fields {
        match field {
            PatField::Present(_, pattern) => add_variables(pattern, names)?,
            PatField::Optional(_, _) => {}
        }
    }
    Ok(())
}

#[cycle(add_variables)]
fn add_of_items(items: &RegPat, names: &mut Vec<Name>) -> Result<(), AllocError>
    ensures { OnOk result (names.new.items
        ≡ with_those_of_items (plain_regular items.now) names.old.items) }
{
    match items {
        RegPat::Nothing => Ok(()),
        RegPat::Item(pattern) => add_variables(pattern, names),
        RegPat::Seq(all) | RegPat::Alt(all) => add_of_parts(all.items.as_slice(), names),
        RegPat::Repeat(is, _) => add_of_items(is, names),
        RegPat::Capture(name, is) => {
            add_name(name, names)?;
            add_of_items(is, names)
        }
    }
}

#[cycle(add_variables)]
fn add_of_parts(all: &[RegPat], names: &mut Vec<Name>) -> Result<(), AllocError>
    ensures { OnOk result (names.new.items
        ≡ with_those_of_parts (regulars_of (map plain_regular all.now)) names.old.items) }
{
    for is in all {
        add_of_items(is, names)?;
    }
    Ok(())
}

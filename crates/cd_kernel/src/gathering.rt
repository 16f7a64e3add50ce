//! The variables of an expression that gather items.
ghost use Rattle.std.specs.Prelude.{◌≡◌, ◌++◌, ◌∷◌, [], map, IfOk, OnOk};
ghost use Rattle.cd_matching.specs.Pattern.{regulars_of};
ghost use Rattle.cd_matching.specs.PlainPattern.{plain_regular};
ghost use Rattle.cd_kernel.specs.Inner.Gathering.{with_gathered, with_all_gathered, nests};
ghost use Rattle.cd_kernel.specs.Inner.Gathering.{one_nests, gathering, all_gathering};
ghost use Rattle.cd_kernel.specs.Inner.Gathering.{groups_of, singly};
ghost use Rattle.cd_kernel.specs.Inner.PlainGroups.{plain_groups, plain_group};

use crate::names::{add_name, is_among, number};
use cd_matching::pattern::RegPat;
use cd_syntax::name::Name;
use std::alloc::{AllocError, Global};

/// Some variables that gather in one copy of an automaton.
#[derive(Drop)]
pub(crate) struct Group {
    pub(crate) names: Vec<Name>,
}

/// One group of the variables that gather, if they are kept; where two gather one item, a group for
/// each.
pub(crate) fn groups(alloc: Global, kept: bool, is: &RegPat) -> Result<Vec<Group>, AllocError>
    ensures { IfOk result (λ groups.
        plain_groups groups.items ≡ groups_of kept (plain_regular is.now)) }
{
    let mut names = Vec::new(alloc);
    if kept {
        add_gathered(is, &mut names)?;
        if nests(false, is) {
            return singly(alloc, names.as_slice());
        }
    }
    one_group(alloc, names)
}

fn one_group(alloc: Global, names: Vec<Name>) -> Result<Vec<Group>, AllocError>
    ensures { IfOk result (λ groups. plain_groups groups.items ≡ names.items ∷ []) }
{
    let mut groups = Vec::new(alloc);
    groups.push(Group { names })?;
    Ok(groups)
}

// A group for each of these variables, or one group of none.
fn singly(alloc: Global, names: &[Name]) -> Result<Vec<Group>, AllocError>
    ensures { IfOk result (λ groups. plain_groups groups.items ≡ singly names.now) }
{
    if names.is_empty() {
        return one_group(alloc, Vec::new(alloc));
    }
    let mut groups = Vec::new(alloc);
    for name in names {
        groups.push(group_of_one(alloc, name)?)?;
    }
    Ok(groups)
}

fn group_of_one(alloc: Global, name: &Name) -> Result<Group, AllocError>
    ensures { IfOk result (λ group. plain_group group ≡ name.now ∷ []) }
{
    let mut names = Vec::new(alloc);
    names.push(name.copy()?)?;
    Ok(Group { names })
}

#[cycle(add_gathered)]
fn add_gathered(is: &RegPat, names: &mut Vec<Name>) -> Result<(), AllocError>
    ensures { OnOk result (names.new.items
        ≡ with_gathered (plain_regular is.now) names.old.items) }
{
    match is {
        RegPat::Nothing | RegPat::Item(_) => Ok(()),
        RegPat::Seq(all) | RegPat::Alt(all) => add_all_gathered(all.items.as_slice(), names),
        RegPat::Repeat(is, _) => add_gathered(is, names),
        RegPat::Capture(name, is) => {
            add_name(name, names)?;
            add_gathered(is, names)
        }
    }
}

#[cycle(add_gathered)]
fn add_all_gathered(all: &[RegPat], names: &mut Vec<Name>) -> Result<(), AllocError>
    ensures { OnOk result (names.new.items
        ≡ with_all_gathered (regulars_of (map plain_regular all.now)) names.old.items) }
{
    for is in all {
        add_gathered(is, names)?;
    }
    Ok(())
}

// Whether a variable gathers items in what another one gathers, or `within` such a one.
#[cycle(nests)]
fn nests(within: bool, is: &RegPat) -> bool
    ensures { result ≡ nests within (plain_regular is.now) }
{
    match is {
        RegPat::Nothing | RegPat::Item(_) => false,
        RegPat::Seq(all) | RegPat::Alt(all) => one_nests(within, all.items.as_slice()),
        RegPat::Repeat(is, _) => nests(within, is),
        RegPat::Capture(_, is) => within || nests(true, is),
    }
}

#[cycle(nests)]
fn one_nests(within: bool, all: &[RegPat]) -> bool
    ensures { result ≡ one_nests within (regulars_of (map plain_regular all.now)) }
{
    for is in all {
        if nests(within, is) {
            return true;
        }
    }
    false
}

/// Adds the number of the variable of a group that gathers each item, from the left, where the one
/// `around` gathers around all.
#[cycle(add_gathering)]
pub(crate) fn add_gathering(
    variables: &[Name],
    group: &[Name],
    around: Option<usize>,
    is: &RegPat,
    gatherers: &mut Vec<Option<usize>>,
) -> Result<(), AllocError>
    ensures { OnOk result (gatherers.new.items ≡ gatherers.old.items
        ++ gathering variables.now group.now around (plain_regular is.now)) }
{
    match is {
        RegPat::Nothing => Ok(()),
        RegPat::Item(_) => {
            gatherers.push(around)?;
            Ok(())
        }
        RegPat::Seq(all) | RegPat::Alt(all) => {
            add_all_gathering(variables, group, around, all.items.as_slice(), gatherers)
        }
        RegPat::Repeat(is, _) => add_gathering(variables, group, around, is, gatherers),
        RegPat::Capture(name, is) => {
            let inner = if is_among(group, name) {
                Some(number(variables, name))
            } else {
                around
            };
            add_gathering(variables, group, inner, is, gatherers)
        }
    }
}

#[cycle(add_gathering)]
fn add_all_gathering(
    variables: &[Name],
    group: &[Name],
    around: Option<usize>,
    all: &[RegPat],
    gatherers: &mut Vec<Option<usize>>,
) -> Result<(), AllocError>
    ensures { OnOk result (gatherers.new.items ≡ gatherers.old.items
        ++ all_gathering variables.now group.now around (regulars_of (map plain_regular all.now))) }
{
    for is in all {
        add_gathering(variables, group, around, is, gatherers)?;
    }
    Ok(())
}

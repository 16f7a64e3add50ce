//! The fault that is reported of several.
ghost use Rattle.std.specs.Prelude.{◌≡◌, map, None, Some, OnOk, IfOk, IfErr};
ghost use Rattle.std.specs.Option.{option_map};
ghost use Rattle.cd_resolve.specs.Faults.{rank as rank_of};
ghost use Rattle.cd_resolve.specs.Least.{goes_before as goes_before_fault};
ghost use Rattle.cd_resolve.specs.Least.{lesser as lesser_fault, least_from, IsLeast};
ghost use Rattle.cd_resolve.specs.Least.{comes_first as comes_first_of};
ghost use Rattle.cd_resolve.specs.Least.{goes_first as goes_first_error};
ghost use Rattle.cd_resolve.specs.Least.{first_error as first_of_errors};
ghost use Rattle.cd_resolve.specs.Least.{first_of as first_of_results};
ghost use Rattle.cd_resolve.specs.PlainReported.{plain_reported, name_or_none};

use crate::error::NameError;
use crate::fault::NameFault;
use crate::reported::Reported;
use cd_syntax::name::Name;
use std::alloc::{AllocError, Global};

/// Reports the least of these faults: the one with the least place, and at one place the first in
/// the order of `NameFault`.
pub fn report_least(alloc: Global, faults: &[Reported<'_>]) -> Result<(), NameError>
    ensures sound { OnOk result (least_from None (map plain_reported faults.now) ≡ None) }
    ensures fault { IfErr result
        (λ error. IsLeast (least_from None (map plain_reported faults.now)) error) }
{
    match least(faults) {
        Some(reported) => Err(error_of(alloc, &reported)),
        None => Ok(()),
    }
}

fn least<'t>(faults: &[Reported<'t>]) -> Option<Reported<'t>>
    ensures { option_map plain_reported result ≡ least_from None (map plain_reported faults.now) }
{
    let mut least = None;
    for fault in faults {
        least = lesser(least, fault);
    }
    least
}

fn lesser<'t>(least: Option<Reported<'t>>, fault: &Reported<'t>) -> Option<Reported<'t>>
    ensures { option_map plain_reported result
        ≡ lesser_fault (option_map plain_reported least.entry) (plain_reported fault.now) }
{
    let Some(so_far) = least else {
        return Some(*fault);
    };
    if goes_before(fault, &so_far) {
        return Some(*fault);
    }
    least
}

fn goes_before(one: &Reported<'_>, other: &Reported<'_>) -> bool
    ensures { result ≡ goes_before_fault (plain_reported one.now) (plain_reported other.now) }
{
    comes_first(one.at, one.fault, other.at, other.fault)
}

// Whether what stands here is reported rather than what stands there.
fn comes_first(at: usize, fault: NameFault, there: usize, other: NameFault) -> bool
    ensures { result ≡ comes_first_of at fault there other }
{
    at < there || at == there && rank(fault) < rank(other)
}

fn rank(fault: NameFault) -> usize
    ensures { result ≡ rank_of fault }
{
    match fault {
        NameFault::Unknown => 0,
        NameFault::Twice => 1,
        NameFault::Unguarded => 2,
        NameFault::VariablesDiffer => 3,
        NameFault::VariableTwice => 4,
        NameFault::VariableRepeats => 5,
        NameFault::VariableMisplaced => 6,
        NameFault::NoMain => 7,
    }
}

// The error that reports a fault.
fn error_of(alloc: Global, reported: &Reported<'_>) -> NameError
    ensures { IsLeast (Some (plain_reported reported.now)) result }
{
    match name_of(alloc, reported.name) {
        Ok(name) => NameError::Fault {
            fault: reported.fault,
            name,
            at: reported.at,
        },
        Err(_) => NameError::Memory,
    }
}

// The name that a fault is reported of, or one with no characters.
fn name_of(alloc: Global, name: Option<&Name>) -> Result<Name, AllocError>
    ensures { IfOk result (λ copy.
        copy ≡ name_or_none (option_map (λ name. name.now) name.entry)) }
{
    match name {
        Some(name) => name.copy(),
        None => Name::of_characters(alloc, &[]),
    }
}

/// What is reported of two results: want of memory, or the lesser of their faults.
pub fn first_of(one: Result<(), NameError>, other: Result<(), NameError>) -> Result<(), NameError>
    ensures { result ≡ first_of_results one other }
{
    match one {
        Ok(()) => other,
        Err(one) => match other {
            Ok(()) => Err(one),
            Err(other) => Err(first_error(one, other)),
        },
    }
}

fn first_error(one: NameError, other: NameError) -> NameError
    ensures { result ≡ first_of_errors one other }
{
    if goes_first(&other, &one) {
        drop(one);
        return other;
    }
    drop(other);
    one
}

fn goes_first(one: &NameError, other: &NameError) -> bool
    ensures { result ≡ goes_first_error one.now other.now }
{
    match one {
        NameError::Memory => true,
        NameError::Fault { fault, at, .. } => match other {
            NameError::Memory => false,
            NameError::Fault {
                fault: other,
                at: there,
                ..
            } => comes_first(*at, *fault, *there, *other),
        },
    }
}

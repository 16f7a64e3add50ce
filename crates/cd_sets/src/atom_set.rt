ghost use Rattle.std.specs.Prelude.{◌≡◌, ℕ, ◌≤◌, true, false, List, [], ◌∷◌, ◌&&◌, ◌||◌, not, ◌↔◌};
ghost use Rattle.std.specs.Prelude.{length, slice_get, string_bytes, bytes_eq, IsTrue, IfOk, OnOk};
ghost use Rattle.std.specs.Prelude.{MatchOption};
ghost use Rattle.std.specs.Option.{option_map};
ghost use Rattle.std.specs.List.{All};
ghost use Rattle.cd_sets.specs.Atoms.{IsAtom, AreAtoms, is_listed, holds, HoldsNoAtom};
ghost use Rattle.cd_sets.specs.Atoms.{listing, leaving_out, is_kept, texts};

use std::alloc::{AllocError, Global};
use std::marker::Model;

/// A set of atoms: finitely many, or all but finitely many. A contract sees whether it is all but
/// those that are listed, and the names that are listed.
#[derive(Drop)]
pub struct AtomSet {
    all_but: bool,
    names: Vec<String>,
}

impl Model for AtomSet {
    ghost use Rattle.cd_sets.specs.Atoms.{Atoms, AreAtoms, texts};

    ghost Value = { Atoms };

    ghost view = { λ s. record { all_but = s.all_but; names = texts s.names.items } };

    ghost invariant = { λ s. AreAtoms (texts s.names.items) };
}

impl AtomSet {
    /// The set that holds nothing.
    #[tactic(auto, using(crate::proofs::ListedAtoms::are_none))]
    pub fn empty(alloc: Global) -> AtomSet
        ensures { result ≡ listing [] }
    {
        AtomSet {
            all_but: false,
            names: Vec::new(alloc),
        }
    }

    /// The set of all atoms.
    #[tactic(auto, using(crate::proofs::ListedAtoms::are_none))]
    pub fn all(alloc: Global) -> AtomSet
        ensures { result ≡ leaving_out [] }
    {
        AtomSet {
            all_but: true,
            names: Vec::new(alloc),
        }
    }

    /// The set of this atom alone.
    pub fn one(alloc: Global, name: &str) -> Result<AtomSet, AllocError>
        requires { IsAtom name.now }
        ensures { IfOk result (λ set. set ≡ listing (name.now ∷ [])) }
    {
        let mut names = Vec::new(alloc);
        names.push(String::from_str(alloc, name)?)?;
        Ok(AtomSet {
            all_but: false,
            names,
        })
    }

    /// The atoms that are in one of the sets.
    pub fn union(&self, other: &AtomSet) -> Result<AtomSet, AllocError>
        ensures { IfOk result (λ set. (name : List ℕ)
            → holds set name ≡ (holds self.now name || holds other.now name)) }
    {
        let names = match (self.all_but, other.all_but) {
            (false, false) => joined(&self.names, &other.names)?,
            (false, true) => filtered(&other.names, false, &self.names)?,
            (true, false) => filtered(&self.names, false, &other.names)?,
            (true, true) => filtered(&self.names, true, &other.names)?,
        };
        Ok(AtomSet {
            all_but: self.all_but || other.all_but,
            names,
        })
    }

    /// The atoms that are in both sets.
    pub fn intersect(&self, other: &AtomSet) -> Result<AtomSet, AllocError>
        ensures { IfOk result (λ set. (name : List ℕ)
            → holds set name ≡ (holds self.now name && holds other.now name)) }
    {
        let names = match (self.all_but, other.all_but) {
            (false, false) => filtered(&self.names, true, &other.names)?,
            (false, true) => filtered(&self.names, false, &other.names)?,
            (true, false) => filtered(&other.names, false, &self.names)?,
            (true, true) => joined(&self.names, &other.names)?,
        };
        Ok(AtomSet {
            all_but: self.all_but && other.all_but,
            names,
        })
    }

    /// The atoms that are in this set and not in the other.
    pub fn minus(&self, other: &AtomSet) -> Result<AtomSet, AllocError>
        ensures { IfOk result (λ set. (name : List ℕ)
            → holds set name ≡ (holds self.now name && not (holds other.now name))) }
    {
        let names = match (self.all_but, other.all_but) {
            (false, false) => filtered(&self.names, false, &other.names)?,
            (false, true) => filtered(&self.names, true, &other.names)?,
            (true, false) => joined(&self.names, &other.names)?,
            (true, true) => filtered(&other.names, false, &self.names)?,
        };
        Ok(AtomSet {
            all_but: self.all_but && !other.all_but,
            names,
        })
    }

    /// A set with the same atoms, by the same list.
    pub fn copy(&self) -> Result<AtomSet, AllocError>
        ensures { IfOk result (λ set. set ≡ self.now) }
    {
        Ok(AtomSet {
            all_but: self.all_but,
            names: copied(&self.names)?,
        })
    }

    /// Whether the atom is in the set.
    pub fn contains(&self, name: &str) -> bool
        ensures { result ≡ holds self.now name.now }
    {
        is_among(&self.names, name) != self.all_but
    }

    /// Whether no atom is in the set.
    pub fn is_empty(&self) -> bool
        ensures { IsTrue result ↔ HoldsNoAtom self.now }
    {
        !self.all_but && self.names.as_slice().is_empty()
    }

    /// Whether the set is of all atoms but those that are listed.
    pub fn all_but(&self) -> bool
        ensures { result ≡ self.now.all_but }
    {
        self.all_but
    }

    /// The name with this number, counted from 0, in the list that contracts see.
    pub fn listed(&self, index: usize) -> Option<&str>
        ensures { option_map (λ name. name.now) result ≡ slice_get self.now.names index }
    {
        self.names.get(index).map(|name| name.as_str())
    }

    /// Some atom of the set, if there is one.
    pub fn some_member(&self) -> Result<Option<String>, AllocError>
        ensures { IfOk result (λ found.
            MatchOption found (HoldsNoAtom self.now)
            (λ name. IsAtom (string_bytes name) × (holds self.now (string_bytes name) ≡ true))) }
    {
        if self.all_but {
            return Ok(Some(outside(&self.names)?));
        }
        match self.listed(0) {
            Some(name) => Ok(Some(String::from_str(*self.names.allocator(), name)?)),
            None => Ok(None),
        }
    }
}

// Whether the name is one of these.
fn is_among(names: &Vec<String>, name: &str) -> bool
    ensures { result ≡ is_listed (texts names.now.items) name.now }
{
    for each in names {
        if name == each.as_str() {
            return true;
        }
    }
    false
}

// Adds the name where it isn't listed yet.
#[tactic(auto, using(crate::proofs::ListedAtoms::listed_more))]
fn add(names: &mut Vec<String>, name: &str) -> Result<(), AllocError>
    requires atom { IsAtom name.now }
    requires atoms { AreAtoms (texts names.old.items) }
    ensures atoms { OnOk result (AreAtoms (texts names.new.items)) }
    ensures exact { OnOk result
        ((q : List ℕ) → is_listed (texts names.new.items) q
        ≡ (is_listed (texts names.old.items) q || bytes_eq q name.now)) }
{
    if !is_among(names, name) {
        let name = String::from_str(*names.allocator(), name)?;
        names.push(name)?;
    }
    Ok(())
}

// The same names.
fn copied(names: &Vec<String>) -> Result<Vec<String>, AllocError>
    ensures { IfOk result (λ all. texts all.items ≡ texts names.now.items) }
{
    let alloc = *names.allocator();
    let mut all = Vec::new(alloc);
    for name in names {
        all.push(String::from_str(alloc, name.as_str())?)?;
    }
    Ok(all)
}

// The names that are in one of the lists.
fn joined(first: &Vec<String>, second: &Vec<String>) -> Result<Vec<String>, AllocError>
    requires first { AreAtoms (texts first.now.items) }
    requires second { AreAtoms (texts second.now.items) }
    ensures atoms { IfOk result (λ all. AreAtoms (texts all.items)) }
    ensures exact { IfOk result
        (λ all. (name : List ℕ) → is_listed (texts all.items) name
        ≡ (is_listed (texts first.now.items) name || is_listed (texts second.now.items) name)) }
{
    let mut all = copied(first)?;
    for name in second {
        add(&mut all, name.as_str())?;
    }
    Ok(all)
}

// The names of the first list that are in the second, or those that are not in it.
fn filtered(
    first: &Vec<String>,
    kept: bool,
    second: &Vec<String>,
) -> Result<Vec<String>, AllocError>
    requires { AreAtoms (texts first.now.items) }
    ensures atoms { IfOk result (λ all. AreAtoms (texts all.items)) }
    ensures exact { IfOk result
        (λ all. (name : List ℕ) → is_listed (texts all.items) name
        ≡ (is_listed (texts first.now.items) name
        && is_kept kept (is_listed (texts second.now.items) name))) }
{
    let mut all = Vec::new(*first.allocator());
    for name in first {
        let text = name.as_str();
        if is_among(second, text) == kept {
            add(&mut all, text)?;
        }
    }
    Ok(all)
}

// An atom that is longer than each of the names.
fn outside(names: &Vec<String>) -> Result<String, AllocError>
    ensures atom { IfOk result (λ name. IsAtom (string_bytes name)) }
    ensures new { IfOk result
        (λ name. is_listed (texts names.now.items) (string_bytes name) ≡ false) }
{
    let mut name = "a".repeat(*names.allocator(), longest(names))?;
    name.push_str("a")?;
    Ok(name)
}

// The length of the longest name.
fn longest(names: &Vec<String>) -> usize
    ensures { All (λ name. length (string_bytes name) ≤ result) names.now.items }
{
    let mut longest = 0;
    for name in names {
        longest = longest.max(name.as_str().len());
    }
    longest
}

ghost use Rattle.std.specs.Prelude.{◌≡◌, ◌∷◌, ◌++◌, [], bytes_eq, is_some, IfOk, OnOk, OnErr};
ghost use Rattle.std.specs.List.{list_any};
ghost use Rattle.cd_resolve.specs.FirstPlaces.{first_place, place_of, Enters};
ghost use Rattle.indexmap.specs.IndexMap.{IsUnchanged};

use crate::key::Key;
use cd_syntax::name::Name;
use indexmap::IndexMap;
use std::alloc::{AllocError, Global};
use std::marker::Model;

/// Names in the order in which they were added, a name as often as it was. A contract sees them in
/// a list.
#[derive(Drop)]
pub struct NameIndex<'t> {
    names: Vec<&'t Name>,
    places: IndexMap<Key<'t>, usize>,
}

impl<'t> Model for NameIndex<'t> {
    ghost use Rattle.std.specs.Prelude.{List, map};
    ghost use Rattle.cd_syntax.specs.Name.{Name as AName};
    ghost use Rattle.cd_resolve.specs.FirstPlaces.{AreFirstPlaces};

    ghost Value = { List AName };

    ghost view = { λ index. map (λ name. name.now) index.names.items };

    ghost invariant = { λ index.
        AreFirstPlaces (map (λ name. name.now) index.names.items) index.places };
}

impl<'t> NameIndex<'t> {
    /// No names.
    pub fn new(alloc: Global) -> NameIndex<'t>
        ensures { result ≡ [] }
    {
        NameIndex {
            names: Vec::new(alloc),
            places: IndexMap::new(alloc),
        }
    }

    /// Adds a name after those that are there, and says whether it is one of them. Where memory
    /// runs out none is added.
    pub fn add(&mut self, name: &'t Name) -> Result<bool, AllocError>
        ensures again { IfOk result (λ again. again ≡ list_any (bytes_eq name.now) self.old) }
        ensures added { OnOk result (self.new ≡ self.old ++ name.now ∷ []) }
        ensures kept { OnErr result (self.new ≡ self.old) }
    {
        let place = self.names.len();
        self.names.push(name)?;
        match enter(&mut self.places, name, place) {
            Ok(again) => Ok(again),
            Err(error) => {
                self.names.pop();
                Err(error)
            }
        }
    }

    /// The first place of a name, counted from zero, if it is one of the names.
    pub fn find(&self, name: &Name) -> Option<usize>
        ensures { result ≡ first_place self.now name.now }
    {
        self.places.get(&Key { name }).copied()
    }
}

// Gives a name its place, unless it has one, and says whether it had one.
fn enter<'t>(
    places: &mut IndexMap<Key<'t>, usize>,
    name: &'t Name,
    place: usize,
) -> Result<bool, AllocError>
    ensures again { IfOk result (λ again. again ≡ is_some (place_of places.old name.now)) }
    ensures entered { OnOk result (Enters name.now place places.old places.new) }
    ensures kept { OnErr result (IsUnchanged places.old places.new) }
{
    let key = Key { name };
    if places.contains_key(&key) {
        return Ok(true);
    }
    places.insert(key, place)?;
    Ok(false)
}

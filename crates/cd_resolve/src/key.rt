//! Names as keys.
ghost use Rattle.std.specs.Cmp.{partial_equiv_from_equiv};
ghost use Rattle.cd_resolve.specs.Inner.Keys.{same_key, key_input, keys_equiv, keys_alike};

use cd_syntax::name::Name;
use std::hash::{Hash, Hasher};

/// A name by which its place is looked up.
#[derive(Clone, Copy)]
pub(crate) struct Key<'t> {
    pub(crate) name: &'t Name,
}

impl PartialEq for Key<'_> {
    ghost eq = { same_key };

    ghost laws = { partial_equiv_from_equiv keys_equiv };

    fn eq(&self, other: &Key<'_>) -> bool {
        self.name.as_str() == other.name.as_str()
    }
}

impl Eq for Key<'_> {
    ghost laws = { keys_equiv };
}

impl Hash for Key<'_> {
    ghost hash_input = { key_input };

    ghost respects_eq = { keys_alike.fed };

    fn hash<H: Hasher>(&self, state: &mut H) {
        self.name.as_str().hash(state);
    }
}

//! Texts as keys.
ghost use Rattle.std.specs.Cmp.{partial_equiv_from_equiv};
ghost use Rattle.cd_resolved.specs.Inner.Keys.{same_key, key_input, keys_equiv, keys_alike};

use std::hash::{Hash, Hasher};

/// A text by which a function is looked up.
#[derive(Clone, Copy)]
pub(crate) struct Key<'t> {
    pub(crate) text: &'t str,
}

impl PartialEq for Key<'_> {
    ghost eq = { same_key };

    ghost laws = { partial_equiv_from_equiv keys_equiv };

    fn eq(&self, other: &Key<'_>) -> bool {
        self.text == other.text
    }
}

impl Eq for Key<'_> {
    ghost laws = { keys_equiv };
}

impl Hash for Key<'_> {
    ghost hash_input = { key_input };

    ghost respects_eq = { keys_alike.fed };

    fn hash<H: Hasher>(&self, state: &mut H) {
        self.text.hash(state);
    }
}

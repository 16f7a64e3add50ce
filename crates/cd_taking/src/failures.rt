//! Pairs that nodes do not take.
ghost use Rattle.std.specs.Prelude.{◌≡◌, [], OnOk};
ghost use Rattle.cd_taking.specs.Inner.Adds.{Adds};
ghost use Rattle.cd_taking.specs.Inner.Coded.{is_known};

use indexmap::IndexSet;
use std::alloc::{AllocError, Global};
use std::marker::Model;

/// The node with this number does not take the pair with this number.
#[derive(Clone, Copy, PartialEq, Eq, Hash)]
pub(crate) struct Failure {
    pub(crate) pair: usize,
    pub(crate) node: usize,
}

/// Pairs that nodes do not take. A contract sees a list.
#[derive(Drop)]
pub(crate) struct Failures {
    all: IndexSet<Failure>,
}

impl Model for Failures {
    ghost use Rattle.std.specs.Prelude.{List};
    ghost use Rattle.cd_taking.specs.declared.failures.Failure.{Failure as AFailure};

    ghost Value = { List AFailure };

    ghost view = { λ failures. failures.all.keys };
}

impl Failures {
    /// None is known.
    pub(crate) fn new(alloc: Global) -> Failures
        ensures { result ≡ [] }
    {
        Failures {
            all: IndexSet::new(alloc),
        }
    }

    /// Whether this one is known.
    pub(crate) fn has(&self, failure: Failure) -> bool
        ensures { result ≡ is_known failure self.now }
    {
        !self.all.is_empty() && self.all.contains(&failure)
    }

    /// Adds this one.
    pub(crate) fn add(&mut self, failure: Failure) -> Result<(), AllocError>
        ensures { OnOk result (Adds failure self.old self.new) }
    {
        self.all.insert(failure)?;
        Ok(())
    }

    /// Forgets all. Memory for many is given back, since to clear it takes as long as it is large.
    pub(crate) fn clear(&mut self)
        ensures { self.new ≡ [] }
    {
        if self.all.len() > 64 {
            self.all = IndexSet::new(*self.all.allocator());
        } else if !self.all.is_empty() {
            self.all.clear();
        }
    }
}

//! The stack of what is left to do.

use crate::frame::Frame;
use std::alloc::{AllocError, Global};
use std::marker::Model;

/// What is left to do, of which the one that was put there last is done first. A contract sees a
/// list, from the top on.
#[derive(Drop)]
pub(crate) struct Frames {
    items: Vec<Frame>,
}

impl Model for Frames {
    ghost use Rattle.std.specs.Prelude.{List, reverse};
    ghost use Rattle.cd_taking.specs.declared.frame.Frame.{Frame as AFrame};

    ghost Value = { List AFrame };

    ghost view = { λ frames. reverse frames.items.items };
}

impl Frames {
    ghost use Rattle.std.specs.Prelude.{◌≡◌, [], ◌∷◌, OnOk, MatchOption};

    /// Nothing is left to do.
    pub(crate) fn new(alloc: Global) -> Frames
        ensures { result ≡ [] }
    {
        Frames {
            items: Vec::new(alloc),
        }
    }

    /// Puts one on the top.
    pub(crate) fn push(&mut self, frame: Frame) -> Result<(), AllocError>
        ensures { OnOk result (self.new ≡ frame ∷ self.old) }
    {
        self.items.push(frame)?;
        Ok(())
    }

    /// Takes the one on the top away.
    pub(crate) fn pop(&mut self) -> Option<Frame>
        ensures { MatchOption result (self.old ≡ []) (λ frame. self.old ≡ frame ∷ self.new) }
    {
        self.items.pop()
    }

    /// Takes all away.
    pub(crate) fn clear(&mut self)
        ensures { self.new ≡ [] }
    {
        self.items.clear();
    }
}

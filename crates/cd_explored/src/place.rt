//! What comes to the nodes of a kernel.
ghost use Rattle.std.specs.Prelude.{◌≡◌, IfOk};

use cd_sets::question::Question;
use std::alloc::AllocError;

/// The things of a question come to the node with this number.
#[derive(Drop, PartialEq, Eq, Hash)]
pub struct Place {
    pub number: usize,
    pub question: Question,
}

impl Place {
    /// The place of a question at a node.
    pub fn at(number: usize, question: Question) -> Place
        ensures number { result.number ≡ number }
        ensures question { result.question ≡ question }
    {
        Place { number, question }
    }

    /// An equal place.
    pub fn copy(&self) -> Result<Place, AllocError>
        ensures { IfOk result (λ place. place ≡ self.now) }
    {
        Ok(Place {
            number: self.number,
            question: self.question.copy()?,
        })
    }
}

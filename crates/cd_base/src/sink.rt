ghost use Rattle.std.specs.Prelude.{◌≡◌, OnOk, IfErr};
ghost use Rattle.cd_base.specs.SinkState.{SinkState, Puts, AfterRefusedPut};

use std::alloc::AllocError;
use thiserror::Error;

/// Why bytes were not written, or not all of them.
#[derive(Clone, Copy, Debug, PartialEq, Eq, Error)]
pub enum PutError {
    /// The sink refused the bytes, and a fault was counted.
    #[error("the bytes could not be written")]
    Failed,
    /// Memory ran out.
    #[error("memory ran out")]
    Memory,
}

impl From<AllocError> for PutError {
    ghost use Rattle.cd_base.specs.declared.sink.PutError.TheVariants.{Memory};

    ghost from_gives = { λ _ e. e ≡ Memory };

    fn from(_error: AllocError) -> PutError {
        PutError::Memory
    }
}

/// Where an answer is written.
pub trait Sink {
    /// What is known of the sink.
    ghost state: { Self → SinkState };

    /// Appends all the bytes, or a prefix of them where the sink refuses or memory runs out.
    fn put(&mut self, bytes: &[u8]) -> Result<(), PutError>
        ensures ok { OnOk result (Puts (state self.old) (state self.new) bytes.now) }
        ensures err { IfErr result
            (λ error. AfterRefusedPut error (state self.old) (state self.new) bytes.now) };
}

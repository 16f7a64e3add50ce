ghost use Rattle.std.specs.Prelude.{◌≡◌, None, IfOk, OnOk, IfErr};
ghost use Rattle.cd_base.specs.FilesState.{FilesState, IsPrefixOf, AfterRefusedRead};

use std::alloc::AllocError;
use thiserror::Error;

/// Why a file was not read.
#[derive(Clone, Copy, Debug, PartialEq, Eq, Error)]
pub enum ReadError {
    /// The file could not be read, and a fault was counted.
    #[error("the file could not be read")]
    Failed,
    /// Memory ran out.
    #[error("memory ran out")]
    Memory,
}

impl From<AllocError> for ReadError {
    ghost use Rattle.cd_base.specs.declared.files.ReadError.TheVariants.{Memory};

    ghost from_gives = { λ _ e. e ≡ Memory };

    fn from(_error: AllocError) -> ReadError {
        ReadError::Memory
    }
}

/// Files that are read by name.
pub trait Files {
    /// What is known of the files.
    ghost state: { Self → FilesState };

    /// The first `most` bytes of a file, or all of them where there are fewer.
    fn read(&mut self, name: &str, most: usize) -> Result<Vec<u8>, ReadError>
        ensures prefix { IfOk result
            (λ bytes. IsPrefixOf ((state self.old).known name.now) most bytes.items) }
        ensures ok { OnOk result (state self.new ≡ state self.old) }
        ensures err { IfErr result
            (λ error. AfterRefusedRead error (state self.old) (state self.new) name.now) };
}

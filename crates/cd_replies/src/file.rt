//! Files as texts.
ghost use Rattle.std.specs.Prelude.{◌<◌};
ghost use Rattle.cd_replies.specs.File.{IsFileRead, AreBytesRead};

use cd_base::files::{Files, ReadError};

/// How many bytes a file may have.
pub const LARGEST: usize = 67_108_864;

/// Why a file has no text.
#[derive(Clone, Copy, Debug)]
pub enum FileFault {
    /// It could not be read.
    Unread,
    /// It has more bytes than a file may have.
    TooLarge,
    /// It is not UTF-8; its longest prefix that is has this many bytes.
    NotUtf8(usize),
}

/// Why the text of a file was not read.
#[derive(Clone, Copy, Debug)]
pub enum FileError {
    /// It has none.
    Fault(FileFault),
    /// Memory ran out.
    Memory,
}

/// The text of a file.
///
/// # Errors
///
/// Why the file has none, or want of memory.
pub fn read_file<F: Files>(files: &mut F, name: &str) -> Result<String, FileError>
    ensures { IsFileRead (F.state files.old) (F.state files.new) name.now result }
{
    let bytes = bytes_of(files, name, LARGEST)?;
    match String::from_utf8(bytes) {
        Ok(text) => Ok(text),
        Err(error) => {
            let valid = error.utf8_error().valid_up_to();
            Err(FileError::Fault(FileFault::NotUtf8(valid)))
        }
    }
}

// The bytes of a file that has at most so many, or why it gives none.
fn bytes_of<F: Files>(files: &mut F, name: &str, most: usize) -> Result<Vec<u8>, FileError>
    requires { most < usize.MAX }
    ensures { AreBytesRead most (F.state files.old) (F.state files.new) name.now result }
{
    let bytes = match files.read(name, most + 1) {
        Ok(bytes) => bytes,
        Err(ReadError::Failed) => return Err(FileError::Fault(FileFault::Unread)),
        Err(ReadError::Memory) => return Err(FileError::Memory),
    };
    if bytes.len() > most {
        return Err(FileError::Fault(FileFault::TooLarge));
    }
    Ok(bytes)
}

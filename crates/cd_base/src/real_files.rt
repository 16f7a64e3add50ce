ghost use Rattle.std.specs.Prelude.{◌≡◌, ◌≤◌, None, OnOk, IfOk, IfErr, IsErrOf, vec_len};
ghost use Rattle.cd_base.specs.Faults.{one_more};
ghost use Rattle.cd_base.specs.FilesState.{IsPrefixOf, AfterRefusedRead};
ghost use Rattle.cd_base.specs.RealFilesState.{files_state};

use crate::files::{Files, ReadError};
use std::alloc::Global;
use std::fs::File;
use std::io::{ErrorKind, Read};
use std::marker::Model;
use std::{io, rt};

/// The files of the system, reached through the runtime. Their bytes are not known, and
/// count each error of the system as a fault, unless memory ran out.
#[derive(Drop)]
pub struct RealFiles<R> {
    runtime: R,
    alloc: Global,
    faults: u64,
    last: Option<String>,
}

impl<R> Model for RealFiles<R> {
    ghost use Rattle.std.specs.Prelude.{string_bytes};
    ghost use Rattle.std.specs.Option.{option_map};
    ghost use Rattle.cd_base.specs.RealFilesState.{RealFilesState};

    ghost Value = { RealFilesState };

    ghost view = { λ f. record { faults = f.faults; last = option_map string_bytes f.last } };
}

impl<R: rt::Files> RealFiles<R> {
    /// The files that this runtime opens.
    pub fn new(alloc: Global, runtime: R) -> RealFiles<R>
        ensures { result ≡ record { faults = 0; last = None } }
    {
        RealFiles {
            runtime,
            alloc,
            faults: 0,
            last: None,
        }
    }
}

impl<R: rt::Files> Files for RealFiles<R> {
    ghost state = { files_state };

    fn read(&mut self, name: &str, most: usize) -> Result<Vec<u8>, ReadError>
        ensures prefix { IfOk result
            (λ bytes. IsPrefixOf ((files_state self.old).known name.now) most bytes.items) }
        ensures ok { OnOk result (files_state self.new ≡ files_state self.old) }
        ensures err { IfErr result
            (λ error. AfterRefusedRead error (files_state self.old)
            (files_state self.new) name.now) }
        ensures within { IfOk result (λ bytes. vec_len bytes ≤ most) }
        ensures failed_once { IsErrOf result ReadError.Failed
            → self.new.faults ≡ one_more self.old.faults }
    {
        match read_prefix(self.alloc, &self.runtime, name, most) {
            Ok(bytes) => Ok(bytes),
            Err(error) if error.kind() == ErrorKind::OutOfMemory => Err(ReadError::Memory),
            Err(_) => {
                let name = String::from_str(self.alloc, name)?;
                self.faults = self.faults.saturating_add(1);
                self.last = Some(name);
                Err(ReadError::Failed)
            }
        }
    }
}

// The first bytes of a file.
fn read_prefix<R: rt::Files>(
    alloc: Global,
    runtime: &R,
    name: &str,
    most: usize,
) -> io::Result<Vec<u8>>
    ensures { IfOk result (λ bytes. vec_len bytes ≤ most) }
{
    prefix(alloc, File::open(runtime, name)?, most)
}

// The first `most` bytes that a reader gives, or all of them where there are fewer.
fn prefix<R: Read + Drop>(alloc: Global, reader: R, most: usize) -> io::Result<Vec<u8>>
    ensures prefix { IfOk result (λ bytes. IsPrefixOf (R.remaining reader) most bytes.items) }
    ensures within { IfOk result (λ bytes. vec_len bytes ≤ most) }
{
    let mut bytes = Vec::new(alloc);
    reader.take(most as u64).read_to_end(&mut bytes)?;
    bytes.truncate(most);
    Ok(bytes)
}

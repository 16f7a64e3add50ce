ghost use Rattle.std.specs.Prelude.{◌≡◌, ◌⊎◌, Some, None, OnOk, IfOk, IfErr, IsErrOf, MatchOption};
ghost use Rattle.std.specs.Prelude.{Contains};
ghost use Rattle.std.specs.Option.{option_map};
ghost use Rattle.cd_base.specs.Faults.{one_more};
ghost use Rattle.cd_base.specs.FilesState.{IsPrefixOf, AfterRefusedRead};
ghost use Rattle.cd_base.specs.MemoryFilesState.{contents, held, memory_files, IsRefused};

use crate::files::{Files, ReadError};
use std::alloc::Global;
use std::marker::Model;

/// Files that are kept in memory, some of whose reads fail as set up.
#[derive(Drop)]
pub struct MemoryFiles {
    files: Vec<(String, Vec<u8>)>,
    failing: Vec<u64>,
    reads: u64,
    faults: u64,
    last: Option<String>,
    alloc: Global,
}

impl Model for MemoryFiles {
    ghost use Rattle.std.specs.Prelude.{string_bytes};
    ghost use Rattle.std.specs.Option.{option_map};
    ghost use Rattle.cd_base.specs.MemoryFilesState.{MemoryFilesState, contents};

    ghost Value = { MemoryFilesState };

    ghost view = { λ f. record {
      files = contents f.files.items;
      failing = f.failing.items;
      reads = f.reads;
      faults = f.faults;
      last = option_map string_bytes f.last;
    } };
}

impl MemoryFiles {
    /// Files with these names and bytes; the first of a name counts. `failing` lists the reads that
    /// fail, counted from 1. A read of a name that no file has fails too.
    pub fn new(alloc: Global, files: Vec<(String, Vec<u8>)>, failing: Vec<u64>) -> MemoryFiles
        ensures { result ≡ record {
          files = contents files.items;
          failing = failing.items;
          reads = 0;
          faults = 0;
          last = None;
        } }
    {
        MemoryFiles {
            files,
            failing,
            reads: 0,
            faults: 0,
            last: None,
            alloc,
        }
    }
}

impl Files for MemoryFiles {
    ghost state = { memory_files };

    fn read(&mut self, name: &str, most: usize) -> Result<Vec<u8>, ReadError>
        ensures prefix { IfOk result
            (λ bytes. IsPrefixOf (held self.old.files name.now) most bytes.items) }
        ensures ok { OnOk result (memory_files self.new ≡ memory_files self.old) }
        ensures err { IfErr result
            (λ error. AfterRefusedRead error (memory_files self.old)
            (memory_files self.new) name.now) }

        // The plan of refusals is kept to.
        ensures counted { self.new.reads ≡ one_more self.old.reads }
        ensures plan { self.new.failing ≡ self.old.failing }
        ensures ok_as_planned { OnOk result (IsRefused self.old self.new.reads name.now → ⊥) }
        ensures failed_as_planned { IsErrOf result ReadError.Failed
            → IsRefused self.old self.new.reads name.now }
        ensures failed_once { IsErrOf result ReadError.Failed
            → self.new.faults ≡ one_more self.old.faults }
    {
        self.reads = self.reads.saturating_add(1);
        let files = self.files.as_slice();
        if let Some(bytes) = granted(files, self.failing.as_slice(), self.reads, name) {
            return Ok(Vec::from_slice(self.alloc, &bytes[..most.min(bytes.len())])?);
        }
        let name = String::from_str(self.alloc, name)?;
        self.faults = self.faults.saturating_add(1);
        self.last = Some(name);
        Err(ReadError::Failed)
    }
}

// The bytes of a file, unless its read is to fail.
fn granted<'a>(
    files: &'a [(String, Vec<u8>)],
    failing: &[u64],
    read: u64,
    name: &str,
) -> Option<&'a [u8]>
    ensures { MatchOption result
        (Contains failing.now read ⊎ (held (contents files.now) name.now ≡ None))
        (λ bytes. (Contains failing.now read → ⊥)
        × (held (contents files.now) name.now ≡ Some bytes.now)) }
{
    if failing.contains(&read) {
        return None;
    }
    find_file(files, name)
}

// The bytes of the first file of a name.
fn find_file<'a>(files: &'a [(String, Vec<u8>)], name: &str) -> Option<&'a [u8]>
    ensures { option_map (λ bytes. bytes.now) result ≡ held (contents files.now) name.now }
{
    for file in files {
        if file.0.as_str() == name {
            return Some(file.1.as_slice());
        }
    }
    None
}

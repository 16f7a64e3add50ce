//! The two versions of the schema, as one file.
ghost use Rattle.std.specs.Prelude.{◌≡◌, [], ◌∷◌, OnOk, IfOk};
ghost use Rattle.cd_tour.specs.Versions.{HoldsBoth};

use cd_base::files::{Files, ReadError};
use cd_base::memory_files::MemoryFiles;
use std::alloc::{AllocError, Global};

// As many bytes as a file of declarations may have.
const MOST: usize = 67_108_864;

/// A file with the declarations of both versions, as `cat schema.cd schema2.cd >schemas.cd` makes
/// it.
pub(crate) fn both_versions<F: Files>(
    alloc: Global,
    files: &mut F,
) -> Result<MemoryFiles, ReadError>
    ensures joined { IfOk result (λ made. HoldsBoth (F.state files.old).known made.files) }
    ensures ok { OnOk result (F.state files.new ≡ F.state files.old) }
{
    let mut text = files.read("schema.cd", MOST)?;
    let second = files.read("schema2.cd", MOST)?;
    text.extend_from_slice(second.as_slice())?;
    Ok(one_file(alloc, "schemas.cd", text)?)
}

// A file of this name and text, in memory.
fn one_file(alloc: Global, name: &str, text: Vec<u8>) -> Result<MemoryFiles, AllocError>
    ensures { IfOk result (λ made. made.files ≡ (name.now, text.items) ∷ []) }
{
    let mut files = Vec::new(alloc);
    files.push((String::from_str(alloc, name)?, text))?;
    Ok(MemoryFiles::new(alloc, files, Vec::new(alloc)))
}

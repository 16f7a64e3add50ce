//! From a program to a resolved one.
ghost use Rattle.std.specs.Prelude.{◌≡◌, IfOk};
ghost use Rattle.cd_program.specs.PlainProgram.{plain_program};
ghost use Rattle.cd_program.specs.WellMade.{IsWellMadeProgram};
ghost use Rattle.cd_graph.specs.Nodes.{nodes};
ghost use Rattle.cd_resolve.specs.Faults.{Fault};
ghost use Rattle.cd_resolve.specs.Named.{AreNamed, plain_names, declared_by};
ghost use Rattle.cd_names.specs.ProgramFaults.{IsFaultOfProgram};
ghost use Rattle.cd_evaluation.specs.ProgramFunctions.{all_functions, PlacesDiffer};
ghost use Rattle.cd_placed.specs.Patterns.{all_patterns, StartsDiffer};
ghost use Rattle.cd_typing.specs.Sites.{all_sites};
ghost use Rattle.cd_resolved.specs.Inner.Found.{IsFound};
ghost use Rattle.cd_resolved.specs.Inner.PlainParts.{functions_of, trees_of, sites_of};
ghost use Rattle.cd_resolved.specs.Resolved.{program_of, IsResolved};

use crate::copy::copy;
use crate::declare::declare;
use crate::found::{Found, find};
use crate::interfaces::interfaces_of;
use crate::kernels::kernels_of;
use crate::parts::{Parts, parts_of};
use crate::resolved::Resolved;
use cd_graph::Graph;
use cd_program::program::Program;
use cd_resolve::Names;
use std::alloc::{AllocError, Global};

/// The nodes of a program, each written type of which is resolved once. Its names are sound, and no
/// two of its functions, nor of its patterns, begin at one place, as in each program that a text
/// writes.
///
/// # Errors
///
/// Want of memory.
pub fn resolve_program<'p>(alloc: Global, program: &'p Program) -> Result<Resolved<'p>, AllocError>
    requires well_made { IsWellMadeProgram (plain_program program.now) }
    requires sound { (fault : Fault) → IsFaultOfProgram (plain_program program.now) fault → ⊥ }
    requires places { PlacesDiffer (all_functions (plain_program program.now)) }
    requires starts { StartsDiffer (all_patterns (plain_program program.now)) }
    ensures program { IfOk result (λ resolved. program_of resolved ≡ plain_program program.now) }
    ensures resolved { IfOk result IsResolved }
{
    let parts = parts_of(alloc, program)?;
    let mut asked = Graph::new(alloc)?;
    let names = declare(alloc, &mut asked, &program.types)?;
    resolve_parts(alloc, asked, &names, program, parts)
}

// The nodes of a program with these functions, patterns and sites, after those of its names.
fn resolve_parts<'p>(
    alloc: Global,
    asked: Graph,
    names: &Names<'_>,
    program: &'p Program,
    parts: Parts<'p>,
) -> Result<Resolved<'p>, AllocError>
    requires named { AreNamed (nodes asked) (plain_names names.now) }
    requires declared { declared_by names.now ≡ (plain_program program.now).types }
    requires well_made { IsWellMadeProgram (plain_program program.now) }
    requires sound { (fault : Fault) → IsFaultOfProgram (plain_program program.now) fault → ⊥ }
    requires places { PlacesDiffer (all_functions (plain_program program.now)) }
    requires starts { StartsDiffer (all_patterns (plain_program program.now)) }
    requires functions { functions_of parts.functions.items
        ≡ all_functions (plain_program program.now) }
    requires patterns { trees_of parts.patterns.items ≡ all_patterns (plain_program program.now) }
    requires sites { sites_of parts.sites.items ≡ all_sites (plain_program program.now) }
    ensures program { IfOk result (λ resolved. program_of resolved ≡ plain_program program.now) }
    ensures resolved { IfOk result IsResolved }
{
    let found = find(alloc, program, &parts)?;
    with_nodes(alloc, asked, names, program, parts, found)
}

// And with these places of them.
fn with_nodes<'p>(
    alloc: Global,
    mut asked: Graph,
    names: &Names<'_>,
    program: &'p Program,
    parts: Parts<'p>,
    found: Found<'p>,
) -> Result<Resolved<'p>, AllocError>
    requires named { AreNamed (nodes asked) (plain_names names.now) }
    requires declared { declared_by names.now ≡ (plain_program program.now).types }
    requires well_made { IsWellMadeProgram (plain_program program.now) }
    requires sound { (fault : Fault) → IsFaultOfProgram (plain_program program.now) fault → ⊥ }
    requires places { PlacesDiffer (all_functions (plain_program program.now)) }
    requires starts { StartsDiffer (all_patterns (plain_program program.now)) }
    requires functions { functions_of parts.functions.items
        ≡ all_functions (plain_program program.now) }
    requires patterns { trees_of parts.patterns.items ≡ all_patterns (plain_program program.now) }
    requires sites { sites_of parts.sites.items ≡ all_sites (plain_program program.now) }
    requires found { IsFound (plain_program program.now) found }
    ensures program { IfOk result (λ resolved. program_of resolved ≡ plain_program program.now) }
    ensures resolved { IfOk result IsResolved }
{
    // The contract of this call says that the graph is sound.
    asked.knows();
    let kernels = kernels_of(alloc, &mut asked, names, parts.patterns.as_slice())?;
    let mut graph = copy(alloc, &asked)?;
    let interfaces = interfaces_of(alloc, &mut graph, names, parts.functions.as_slice())?;
    let Found { functions, starts } = found;
    Ok(Resolved {
        functions,
        kernels,
        starts,
        interfaces,
        sites: parts.sites,
        asked,
        graph,
    })
}

//! Files of one module name.

ghost use Rattle.std.specs.Prelude.{flat_map, map, IfOk};
ghost use Rattle.cil_program.specs.Common.{Writes};
ghost use Rattle.cil_program.specs.Given.{AreSameNamed, same_name_line};

use crate::command_line::files::module_name;
use cil_names::Names;
use cil_store::Seed;
use cil_stream::{Sink, SinkFault, write_pieces};
use std::alloc::{AllocError, Global};

/// The paths of files, each of which has the module name of an earlier one.
pub fn same_named<'p>(
    alloc: Global,
    seed: Seed,
    paths: &[&'p str],
) -> Result<Vec<&'p str>, AllocError>
    ensures { IfOk result (λ found.
        AreSameNamed (map (λ path. path.now) paths.now) (map (λ path. path.now) found.items)) }
{
    let mut seen = Names::new(alloc, seed);
    let mut found = Vec::new(alloc);
    for path in paths {
        let (_, is_new) = seen.insert(module_name(path))?;
        if !is_new {
            found.push(*path)?;
        }
    }
    Ok(found)
}

/// Writes that a file has the module name of an earlier one.
fn write_same_name<E: Sink>(err: &mut E, path: &str) -> Result<(), SinkFault>
    ensures { Writes E.taken E.failures err.old err.new (same_name_line path.now) result }
{
    let more = b" has the module name of an earlier file\n";
    write_pieces(err, &[b"note: ", path.as_bytes(), more])
}

/// Writes which files have the module names of earlier ones.
pub fn write_same_names<E: Sink>(err: &mut E, paths: &[&str]) -> Result<(), SinkFault>
    ensures { Writes E.taken E.failures err.old err.new
        (flat_map (λ path. same_name_line path.now) paths.now) result }
{
    for path in paths {
        write_same_name(err, path)?;
    }
    Ok(())
}

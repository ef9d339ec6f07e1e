//! Folders, each of which stands for the CIL files in it.

ghost use Rattle.std.specs.Prelude.{◌≡◌, ◌++◌, List, ℕ, map, IfOk, OnOk};
ghost use Rattle.std.specs.List.{filter};
ghost use Rattle.std.specs.String.{string_bytes};
ghost use Rattle.cil_program.specs.Given.{StandFor, StandsFor, in_folder, is_cil_file};

use crate::command_line::files::{TextFiles, with_slash};
use std::alloc::{AllocError, Global};

/// Whether a name in a folder is that of a CIL file which isn't hidden.
fn is_cil_file(name: &str) -> bool
    ensures { result ≡ is_cil_file name.now }
{
    let bytes = name.as_bytes();
    bytes.ends_with(b".cil") && !bytes.starts_with(b".")
}

/// The path of a file in a folder.
fn in_folder(alloc: Global, folder: &str, name: &str) -> Result<String, AllocError>
    ensures { IfOk result (λ path. string_bytes path ≡ in_folder folder.now name.now) }
{
    let mut path = with_slash(alloc, folder)?;
    path.push_str(name)?;
    Ok(path)
}

/// Puts the paths of the CIL files in a folder behind others. These are the names in it.
fn add_files(
    alloc: Global,
    folder: &str,
    names: &[String],
    paths: &mut Vec<String>,
) -> Result<(), AllocError>
    ensures { OnOk result (map string_bytes paths.new.items ≡ map string_bytes paths.old.items
        ++ map (in_folder folder.now) (filter is_cil_file (map string_bytes names.now))) }
{
    for name in names {
        if is_cil_file(name.as_str()) {
            paths.push(in_folder(alloc, folder, name.as_str())?)?;
        }
    }
    Ok(())
}

/// Puts the paths that a given one stands for behind others.
fn add_paths<F: TextFiles>(
    from: &F,
    alloc: Global,
    given: &str,
    paths: &mut Vec<String>,
) -> Result<(), AllocError>
    ensures { OnOk result ((more : List (List ℕ)) × StandsFor (F.content from.now given.now) given.now more
        × (map string_bytes paths.new.items ≡ map string_bytes paths.old.items ++ more)) }
{
    match from.names(alloc, given)? {
        Some(mut names) => {
            names.sort_unstable();
            add_files(alloc, given, names.as_slice(), paths)
        }
        None => {
            paths.push(String::from_str(alloc, given)?)?;
            Ok(())
        }
    }
}

/// The paths that given ones stand for, in their order.
pub fn paths_for<F: TextFiles>(
    from: &F,
    alloc: Global,
    given: &[&str],
) -> Result<Vec<String>, AllocError>
    ensures { IfOk result (λ paths. StandFor (F.content from.now) (map (λ path. path.now) given.now)
        (map string_bytes paths.items)) }
{
    let mut paths = Vec::new(alloc);
    for path in given {
        add_paths(from, alloc, path, &mut paths)?;
    }
    Ok(paths)
}

/// The texts of paths, in their order.
pub fn texts_of<'p>(alloc: Global, paths: &'p [String]) -> Result<Vec<&'p str>, AllocError>
    ensures { IfOk result (λ texts. map (λ text. text.now) texts.items ≡ map string_bytes paths.entry.now) }
{
    paths.iter().map(|path| path.as_str()).collect(alloc)
}

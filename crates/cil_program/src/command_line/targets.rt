//! The files that projections are written to.

ghost use Rattle.std.specs.Prelude.{All, Contains, map, IfOk, IfErr, OnOk};
ghost use Rattle.std.specs.List.{AllZip};
ghost use Rattle.std.specs.Path.{path_buf_bytes};
ghost use Rattle.cil_program.specs.Targets.{IsTarget};

use crate::command_line::files::{ReadFile, TextFiles, base_name};
use crate::command_line::reason::Reason;
use std::alloc::{AllocError, Global};
use std::path::{Path, PathBuf};

/// A text, and the path of the file that it is written to.
#[derive(Drop)]
pub struct Target<'m> {
    pub path: PathBuf,
    pub text: &'m [u8],
}

/// A file's text, to be written to a folder under the file's base name.
fn target_of<'m>(
    alloc: Global,
    folder: &str,
    file: &'m ReadFile<'m, Global>,
) -> Result<Target<'m>, AllocError>
    ensures { IfOk result (λ target.
        IsTarget folder.now file.entry.now.path.now file.entry.now.text.items target) }
{
    let path = Path::new(folder).join(alloc, base_name(file.path))?;
    Ok(Target {
        path,
        text: file.text.as_slice(),
    })
}

/// The texts of files, each to be written to a folder under its file's base name.
pub fn targets_of<'m>(
    alloc: Global,
    folder: &str,
    files: &'m [ReadFile<'m, Global>],
) -> Result<Vec<Target<'m>>, AllocError>
    ensures { IfOk result (λ targets. AllZip (λ file target.
        IsTarget folder.now file.path.now file.text.items target) files.entry.now targets.items) }
{
    let mut targets = Vec::new(alloc);
    for file in files {
        targets.push(target_of(alloc, folder, file)?)?;
    }
    Ok(targets)
}

/// A file that can't be written, and why.
#[derive(Clone, Copy, Debug, PartialEq, Eq)]
pub struct Unwritable<'t> {
    pub path: &'t str,
    pub reason: Reason,
}

/// Writes texts to their files, in their order, up to the first that can't be written.
///
/// # Errors
///
/// Where one can't be written. Then those before it are written, and of the text of that one maybe a beginning.
pub fn write_targets<'t, F: TextFiles>(
    to: &F,
    targets: &'t [Target<'_>],
) -> Result<(), Unwritable<'t>>
    ensures ok { OnOk result (All (λ target.
        F.written to.now (path_buf_bytes target.path) target.text.now) targets.entry.now) }
    ensures err { IfErr result (λ unwritable. Contains
        (map (λ target. path_buf_bytes target.path) targets.entry.now) unwritable.path.now) }
{
    for target in targets {
        let path = target.path.as_str();
        if let Err(reason) = to.write(path, target.text) {
            return Err(Unwritable { path, reason });
        }
    }
    Ok(())
}

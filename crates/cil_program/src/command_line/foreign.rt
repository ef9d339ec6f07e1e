//! Files whose statements outside the language are taken by their names alone.

ghost use Rattle.std.specs.Prelude.{◌≡◌, ◌≤◌, ◌++◌, ◌∷◌, [], List, ℕ, length, map, IfOk, IfErr, OnOk};
ghost use Rattle.cil_projection.specs.Conditions.{Collects, settings_of};
ghost use Rattle.cil_projection.specs.Statements.{IsProjectionFault, Projects, Tallies};
ghost use Rattle.cil_text.specs.Image.{FaultIs};
ghost use Rattle.cil_program.specs.ByNames.{AreHindered, AreProjected, AreProjections, InTurn, IsGiven, IsKnown};
ghost use Rattle.cil_program.specs.Conditionals.{conditionals_in, setting_in};

use crate::command_line::conditionals::{Conditionals, Setting};
use crate::command_line::files::ReadFile;
use crate::command_line::packed::{Packed, packed_of};
use cil_projection::{Booleans, DECLARATIONS, Tally, project};
use cil_store::Seed;
use cil_text::TextFault;
use std::alloc::{AllocError, AllocFailed, Global};

/// Why files were not projected.
#[derive(Clone, Copy, Debug)]
pub enum NotProjected<'m> {
    /// The text of the file at a path has a fault, or memory ran out for it. It may look like a package.
    AtFault {
        path: &'m str,
        fault: TextFault<'m>,
        packed: Option<Packed>,
    },
    /// The text of the file at a path is longer than a store takes.
    TooLong {
        path: &'m str,
    },
    Memory,
}

impl<'m> From<AllocError> for NotProjected<'m> {
    ghost use Rattle.std.specs.Prelude.{◌≡◌};
    ghost use Rattle.cil_program.specs.declared.command_line.foreign.NotProjected.TheVariants.{Memory};

    ghost from_gives = { λ _ e. e ≡ Memory };

    fn from(_e: AllocError) -> NotProjected<'m> {
        NotProjected::Memory
    }
}

impl<'m, T: Drop> From<AllocFailed<T>> for NotProjected<'m> {
    ghost use Rattle.std.specs.Prelude.{◌≡◌};
    ghost use Rattle.cil_program.specs.declared.command_line.foreign.NotProjected.TheVariants.{Memory};

    ghost from_gives = { λ _ e. e ≡ Memory };

    fn from(_e: AllocFailed<T>) -> NotProjected<'m> {
        NotProjected::Memory
    }
}

/// The greatest length of a text that a store takes.
const GREATEST_TEXT: usize = 16_777_216;

/// The text of a file, if it isn't longer than a store takes.
fn text_of<'m, 'p: 'm>(file: &'m ReadFile<'p, Global>) -> Result<&'m [u8], NotProjected<'m>>
    ensures ok { IfOk result (λ text. text.now ≡ file.entry.now.text.items) }
    ensures short { IfOk result (λ text. length text.now ≤ 16777216) }
    ensures err { IfErr result (AreHindered ((file.entry.now.path.now, file.entry.now.text.items) ∷ [])) }
{
    let text = file.text.as_slice();
    if text.len() <= GREATEST_TEXT {
        Ok(text)
    } else {
        Err(NotProjected::TooLong { path: file.path })
    }
}

/// Why a file isn't projected whose text has a fault.
fn at_fault<'m, 'p: 'm>(file: &'m ReadFile<'p, Global>, fault: TextFault<'m>) -> NotProjected<'m>
    ensures { FaultIs fault.entry (IsProjectionFault file.entry.now.text.items) →
        AreHindered ((file.entry.now.path.now, file.entry.now.text.items) ∷ []) result }
{
    NotProjected::AtFault {
        path: file.path,
        fault,
        packed: packed_of(file.text.as_slice()),
    }
}

/// Gives booleans their values.
fn set_all<'m>(booleans: &mut Booleans<'m>, settings: &'m [Setting<'m>]) -> Result<(), AllocError>
    ensures { OnOk result (InTurn IsGiven (map setting_in settings.entry.now) booleans.old booleans.new) }
{
    for setting in settings {
        booleans.set(setting.name, setting.value)?;
    }
    Ok(())
}

/// Collects the values that a file declares.
fn collect_file<'m, 'p: 'm>(
    alloc: Global,
    booleans: &mut Booleans<'m>,
    file: &'m ReadFile<'p, Global>,
) -> Result<(), NotProjected<'m>>
    ensures ok { OnOk result (Collects file.entry.now.text.items booleans.old booleans.new) }
    ensures err { IfErr result (AreHindered ((file.entry.now.path.now, file.entry.now.text.items) ∷ [])) }
{
    let text = text_of(file)?;
    match booleans.collect(alloc, text) {
        Ok(()) => Ok(()),
        Err(fault) => Err(at_fault(file, fault)),
    }
}

/// Collects the values that files declare.
fn collect_all<'m, 'p: 'm>(
    alloc: Global,
    booleans: &mut Booleans<'m>,
    files: &'m [ReadFile<'p, Global>],
) -> Result<(), NotProjected<'m>>
    ensures ok { OnOk result (InTurn Collects (map (λ f. f.text.items) files.entry.now)
        booleans.old booleans.new) }
    ensures err { IfErr result (AreHindered
        (map (λ f. (f.path.now, f.text.items)) files.entry.now)) }
{
    for file in files {
        collect_file(alloc, booleans, file)?;
    }
    Ok(())
}

/// What is known of booleans by what is asked and by what files declare.
fn booleans_of<'m, 'p: 'm>(
    alloc: Global,
    seed: Seed,
    conditionals: &'m Conditionals<'m>,
    files: &'m [ReadFile<'p, Global>],
) -> Result<Booleans<'m>, NotProjected<'m>>
    ensures ok { IfOk result (IsKnown (conditionals_in conditionals.entry.now)
        (map (λ f. f.text.items) files.entry.now)) }
    ensures err { IfErr result (AreHindered
        (map (λ f. (f.path.now, f.text.items)) files.entry.now)) }
{
    let mut booleans = Booleans::new(alloc, seed);
    if conditionals.both {
        booleans.take_both();
    }
    set_all(&mut booleans, conditionals.settings.as_slice())?;
    collect_all(alloc, &mut booleans, files)?;
    Ok(booleans)
}

/// The projection of a file's text, and more behind it.
fn project_file<'m, 'p: 'm>(
    alloc: Global,
    file: &'m ReadFile<'p, Global>,
    booleans: &Booleans<'m>,
    more: &[u8],
    tally: &mut Tally<'m>,
) -> Result<Vec<u8>, NotProjected<'m>>
    ensures ok { IfOk result (λ projected. (projection : List ℕ)
        × Projects (settings_of booleans.now) file.entry.now.text.items projection
        × (projected.items ≡ projection ++ more.now)) }
    ensures counted { OnOk result (Tallies (settings_of booleans.now) file.entry.now.text.items
        tally.old tally.new) }
    ensures err { IfErr result (AreHindered ((file.entry.now.path.now, file.entry.now.text.items) ∷ [])) }
{
    let text = text_of(file)?;
    match project(alloc, text, booleans, tally) {
        Ok(mut projected) => {
            projected.extend_from_slice(more)?;
            projected.shrink_to_fit();
            Ok(projected)
        }
        Err(fault) => Err(at_fault(file, fault)),
    }
}

/// The projections of files, in their order. The declarations that they need stand behind the first.
fn project_all<'m, 'p: 'm>(
    alloc: Global,
    files: &'m [ReadFile<'p, Global>],
    booleans: &Booleans<'m>,
    tally: &mut Tally<'m>,
) -> Result<Vec<ReadFile<'p, Global>>, NotProjected<'m>>
    ensures paths { IfOk result (λ projected. map (λ f. f.path.now) projected.items
        ≡ map (λ f. f.path.now) files.entry.now) }
    ensures ok { IfOk result (λ projected. AreProjections (settings_of booleans.now) DECLARATIONS.now
        (map (λ f. f.text.items) files.entry.now) (map (λ f. f.text.items) projected.items)) }
    ensures counted { OnOk result (InTurn (Tallies (settings_of booleans.now))
        (map (λ f. f.text.items) files.entry.now) tally.old tally.new) }
    ensures err { IfErr result (AreHindered
        (map (λ f. (f.path.now, f.text.items)) files.entry.now)) }
{
    let mut projected = Vec::new(alloc);
    let mut more = DECLARATIONS;
    for file in files {
        let text = project_file(alloc, file, booleans, more, tally)?;
        projected.push(ReadFile {
            path: file.path,
            text,
        })?;
        more = b"";
    }
    Ok(projected)
}

/// Files that were projected, and what was taken of them by its names.
#[derive(Drop)]
pub struct Projected<'m, 'p> {
    pub files: Vec<ReadFile<'p, Global>>,
    pub tally: Tally<'m>,
}

/// Projects files.
pub fn project_files<'m, 'p: 'm>(
    alloc: Global,
    seed: Seed,
    conditionals: &'m Conditionals<'m>,
    files: &'m [ReadFile<'p, Global>],
) -> Result<Projected<'m, 'p>, NotProjected<'m>>
    ensures paths { IfOk result (λ p. map (λ f. f.path.now) p.files.items
        ≡ map (λ f. f.path.now) files.entry.now) }
    ensures ok { IfOk result (λ p. AreProjected (conditionals_in conditionals.entry.now)
        (map (λ f. f.text.items) files.entry.now) (map (λ f. f.text.items) p.files.items) p.tally) }
    ensures err { IfErr result (AreHindered
        (map (λ f. (f.path.now, f.text.items)) files.entry.now)) }
{
    let booleans = booleans_of(alloc, seed, conditionals, files)?;
    let mut tally = Tally::new(alloc, seed);
    let files = project_all(alloc, files, &booleans, &mut tally)?;
    Ok(Projected { files, tally })
}

//! The files that are compiled.

ghost use Rattle.std.specs.Prelude.{◌≡◌, ◌==◌, All, Contains, List, ℕ, map, option_map, IfOk, IfErr, IfSome, OnOk};
ghost use Rattle.std.specs.List.{AllZip, filter, slice_split};
ghost use Rattle.std.specs.Str.{is_utf8};
ghost use Rattle.std.specs.String.{string_bytes};
ghost use Rattle.cil_store.specs.Stored.{owned_entry};
ghost use Rattle.cil_program.specs.CommandLine.{Content, IsBaseName, IsEntryFor, IsListed, IsReadOf, IsTextOf, IsUnreadable, NamesModule, untold};
ghost use Rattle.cil_program.specs.Given.{with_slash};
ghost use Rattle.cil_program.specs.declared.command_line.files.ReadFault.TheVariants.{Unreadable};

use crate::command_line::reason::Reason;
use cil_store::OwnedEntry;
use std::alloc::{AllocError, AllocFailed, Allocator, Global};
use std::fs::File;
use std::io;
use std::io::{ErrorKind, Read, Write};
use std::rt::Files;

/// Why files were not read.
#[derive(Clone, Copy, Debug, PartialEq, Eq)]
pub enum ReadFault<'a> {
    /// The first that can't be read.
    Unreadable { path: &'a str, reason: Reason },
    Memory,
}

impl<'a, T: Drop> From<AllocFailed<T>> for ReadFault<'a> {
    ghost use Rattle.std.specs.Prelude.{◌≡◌};
    ghost use Rattle.cil_program.specs.declared.command_line.files.ReadFault.TheVariants.{Memory};

    ghost from_gives = { λ _ e. e ≡ Memory };

    fn from(_e: AllocFailed<T>) -> ReadFault<'a> {
        ReadFault::Memory
    }
}

/// Why a text was not read.
#[derive(Clone, Copy, Debug, PartialEq, Eq)]
pub enum TextFault {
    /// Its file can't be read.
    Unreadable(Reason),
    Memory,
}

/// The greatest length of a text that a store takes.
const GREATEST_TEXT: u64 = 16_777_216;

/// Why a read failed.
fn fault_of(error: &io::Error) -> TextFault {
    match error.kind() {
        ErrorKind::OutOfMemory => TextFault::Memory,
        kind => TextFault::Unreadable(Reason::of(kind, Reason::OtherOfRead)),
    }
}

/// Reads a text to its end, or until it is longer than a store takes.
fn read_text<R: Read + Drop, A: Allocator>(alloc: A, reader: R) -> Result<Vec<u8, A>, TextFault>
    ensures { IfOk result (λ text.
        IfSome (R.remaining reader) (λ whole. IsTextOf whole text.items)) }
{
    let mut text = Vec::new(alloc);
    match reader.take(GREATEST_TEXT + 1).read_to_end(&mut text) {
        Ok(_) => Ok(text),
        Err(error) => Err(fault_of(&error)),
    }
}

/// Files, of which the texts are read and written.
pub trait TextFiles {
    /// What it tells of the file at a path.
    ghost content: { Self → List ℕ → Content };

    /// That a text was written to the file at a path, where it tells that.
    ghost written: { Self → List ℕ → List ℕ → Type 0 };

    /// Reads the text of the file at a path, to its end, or until it is longer than a store takes.
    fn read<A: Allocator>(&self, alloc: A, path: &str) -> Result<Vec<u8, A>, TextFault>
        ensures ok { IfOk result (λ text. IsReadOf (content self.now path.now) text.items) }
        ensures err { IfErr result (λ fault. (reason : _) → fault ≡ TextFault.Unreadable reason
            → IsUnreadable (content self.now path.now)) };

    /// The names in the folder at a path, in any order; none where there is no folder that can be read.
    fn names(&self, alloc: Global, path: &str) -> Result<Option<Vec<String>>, AllocError>
        ensures { IfOk result (λ names. IsListed (content self.now path.now)
            (option_map (λ list. map string_bytes list.items) names)) };

    /// Writes a text to a file that it makes at a path.
    fn write(&self, path: &str, text: &[u8]) -> Result<(), Reason>
        ensures { OnOk result (written self.now path.now text.now) };
}

/// A path with a slash at its end, but for the empty one.
pub fn with_slash(alloc: Global, path: &str) -> Result<String, AllocError>
    ensures { IfOk result (λ slashed. string_bytes slashed ≡ with_slash path.now) }
{
    let mut slashed = String::from_str(alloc, path)?;
    let bytes = path.as_bytes();
    if !bytes.is_empty() && !bytes.ends_with(b"/") {
        slashed.push('/')?;
    }
    Ok(slashed)
}

/// The parts of a listing that NULs end, and what stands behind the last.
fn listed<'l>(alloc: Global, listing: &'l [u8]) -> Result<Vec<&'l [u8]>, AllocError>
    ensures { IfOk result (λ parts. map (λ part. part.now) parts.items
        ≡ slice_split (λ b. b == 0) listing.entry.now) }
{
    listing.split(|b| *b == 0).collect(alloc)
}

/// Those of some names that are UTF-8. No path has another.
fn texts_among(alloc: Global, names: &[&[u8]]) -> Result<Vec<String>, AllocError>
    ensures { IfOk result (λ texts. map string_bytes texts.items
        ≡ filter is_utf8 (map (λ name. name.now) names.now)) }
{
    let mut texts = Vec::new(alloc);
    for name in names {
        if let Ok(text) = str::from_utf8(name) {
            texts.push(String::from_str(alloc, text)?)?;
        }
    }
    Ok(texts)
}

/// The names that a folder gives as a listing, if it can be read. A listing that is longer than the longest text is answered as out
/// of memory.
fn read_names<R: Read + Drop>(alloc: Global, folder: R) -> Result<Option<Vec<String>>, AllocError>
    ensures { IfOk result (λ found. IfSome found (λ names. IfSome (R.remaining folder)
        (λ listing. map string_bytes names.items
        ≡ filter is_utf8 (slice_split (λ b. b == 0) listing)))) }
{
    let listing = match read_text(alloc, folder) {
        Ok(listing) => listing,
        Err(TextFault::Memory) => return Err(AllocError),
        Err(_) => return Ok(None),
    };
    if listing.len() as u64 > GREATEST_TEXT {
        return Err(AllocError);
    }
    let parts = listed(alloc, listing.as_slice())?;
    let names = texts_among(alloc, parts.as_slice())?;
    Ok(Some(names))
}

/// Writes a text to a new file. Where there is a file already, it stays as it is.
fn write_new<R: Files>(files: &R, path: &str, text: &[u8]) -> io::Result<()> {
    let mut file = File::create_new(files, path)?;
    file.write_all(text)
}

/// The files of the system. Of what stands in them nothing is told.
impl<R: Files> TextFiles for R {
    ghost content = { λ _ _. untold };

    ghost written = { λ _ _ _. Unit {0} };

    fn read<A: Allocator>(&self, alloc: A, path: &str) -> Result<Vec<u8, A>, TextFault> {
        match File::open(self, path) {
            Ok(file) => read_text(alloc, file),
            Err(error) => Err(fault_of(&error)),
        }
    }

    // The slash has the system follow a link to a folder.
    fn names(&self, alloc: Global, path: &str) -> Result<Option<Vec<String>>, AllocError> {
        let path = with_slash(alloc, path)?;
        match self.open_dir(path.as_str()) {
            Ok(folder) => read_names(alloc, folder),
            Err(_) => Ok(None),
        }
    }

    fn write(&self, path: &str, text: &[u8]) -> Result<(), Reason> {
        match write_new(self, path, text) {
            Ok(()) => Ok(()),
            Err(error) => Err(Reason::of(error.kind(), Reason::OtherOfWrite)),
        }
    }
}

/// A file that was read.
#[derive(Drop)]
pub struct ReadFile<'a, A: Allocator> {
    pub path: &'a str,
    pub text: Vec<u8, A>,
}

/// The priority at which files are installed, the default of `semodule(8)`.
const PRIORITY: u32 = 400;

/// What stands behind the last slash of a path.
pub fn base_name(path: &str) -> &str
    ensures { IsBaseName path.now result.now }
{
    match path.rsplit_once('/') {
        Some((_, base)) => base,
        None => path,
    }
}

/// The name of the module in a file: its base name less a final `.cil`.
pub fn module_name(path: &str) -> &[u8]
    ensures { NamesModule path.now result.now }
{
    let base = base_name(path).as_bytes();
    match base.strip_suffix(b".cil") {
        Some(name) => name,
        None => base,
    }
}

impl<'a, A: Allocator> ReadFile<'a, A> {
    ghost use Rattle.cil_store.specs.Stored.{owned_entry};
    ghost use Rattle.cil_program.specs.CommandLine.{IsEntryFor};

    /// Its entry in a store, which has its text.
    pub fn into_entry(self) -> OwnedEntry<'a, A>
        ensures { IsEntryFor self.entry.path.now self.entry.text.items (owned_entry result) }
    {
        OwnedEntry {
            name: module_name(self.path),
            priority: PRIORITY,
            text: self.text,
        }
    }
}

/// Reads a file.
fn read_file<'a, F: TextFiles, A: Allocator>(
    from: &F,
    alloc: A,
    path: &'a str,
) -> Result<ReadFile<'a, A>, ReadFault<'a>>
    ensures ok { IfOk result (λ file. file.path ≡ path.entry) }
    ensures text { IfOk result (λ file.
        IsReadOf (F.content from.now path.entry.now) file.text.items) }
    ensures err { IfErr result (λ fault. (unread : _) (reason : _)
        → fault ≡ Unreadable unread reason
        → (unread ≡ path.entry) × IsUnreadable (F.content from.now path.entry.now)) }
{
    match from.read(alloc, path) {
        Ok(text) => Ok(ReadFile { path, text }),
        Err(TextFault::Unreadable(reason)) => Err(ReadFault::Unreadable { path, reason }),
        Err(TextFault::Memory) => Err(ReadFault::Memory),
    }
}

/// Reads files, in their order.
pub fn read_files<'a, F: TextFiles, A: Allocator + Copy>(
    from: &F,
    alloc: A,
    paths: &[&'a str],
) -> Result<Vec<ReadFile<'a, A>, A>, ReadFault<'a>>
    ensures ok { IfOk result (λ files. map (λ file. file.path.now) files.items ≡ map (λ path. path.now) paths.now) }
    ensures texts { IfOk result (λ files.
        All (λ file. IsReadOf (F.content from.now file.path.now) file.text.items) files.items) }
    ensures err { IfErr result (λ fault. (unread : _) (reason : _)
        → fault ≡ Unreadable unread reason
        → Contains paths.now unread × IsUnreadable (F.content from.now unread.now)) }
{
    let mut files = Vec::new(alloc);
    for path in paths {
        files.push(read_file(from, alloc, *path)?)?;
    }
    Ok(files)
}

/// The entries of files, in their order. They have the files' texts.
pub fn entries_of<'b, A: Allocator + Copy>(
    alloc: A,
    files: Vec<ReadFile<'b, A>, A>,
) -> Result<Vec<OwnedEntry<'b, A>, A>, AllocError>
    ensures { IfOk result (λ entries.
        AllZip (λ file entry. IsEntryFor file.path.now file.text.items (owned_entry entry))
        files.entry.items entries.items) }
{
    let mut entries = Vec::with_capacity(alloc, files.len())?;
    for file in files {
        entries.push(file.into_entry())?;
    }
    Ok(entries)
}

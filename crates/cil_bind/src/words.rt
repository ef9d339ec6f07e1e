//! The words of modules in one numbering.

ghost use Rattle.std.specs.Prelude.{◌≡◌, ◌++◌, ◌∷◌, ◌⊎◌, ◌<◌, [], ℕ, List, bytes_eq, length, slice_get, IfOk, Some};
ghost use Rattle.cil_bind.specs.Common.{IsDistinct, AreNumbersOf, names_of, texts_of, AreWorded, AsKnown, LeadsTo};
ghost use Rattle.cil_specs.specs.Lookup.{is_global as is_global_text};

use crate::joined::Joined;
use cil_lookup::Lookup;
use cil_names::{Names, in_32_bits};
use cil_parse::{ParsedModule, Table};
use std::alloc::{AllocError, Allocator};

/// The number of a word, a new one where it has none. More than 4294967296 words are answered as out of memory.
pub fn number_word<'m, A: Allocator>(
    names: &mut Names<'m, A>,
    word: &'m [u8],
) -> Result<u32, AllocError>
    ensures named { IfOk result (λ n. slice_get names.new n ≡ Some word.now) }
    ensures kept { (names.new ≡ names.old) ⊎ (names.new ≡ names.old ++ word.now ∷ []) }
    ensures distinct { IfOk result (λ n. IsDistinct bytes_eq names.new) }
{
    let (index, _new) = names.insert(word)?;
    in_32_bits(index)
}

/// The numbers of the names of a module, in the order of their numbers there.
fn number_names<'m, A: Allocator + Copy>(
    alloc: A,
    names: &mut Names<'m, A>,
    module: &'m ParsedModule<A>,
) -> Result<Vec<u32, A>, AllocError>
    ensures numbers { IfOk result (λ words. AreNumbersOf names.new words.items (names_of «module».now)) }
    ensures kept { IfOk result (λ words. (more : List (List ℕ)) × (names.new ≡ names.old ++ more)) }
    ensures distinct { IfOk result (λ words. IsDistinct bytes_eq names.old → IsDistinct bytes_eq names.new) }
{
    let mut words = Vec::with_capacity(alloc, module.name_count())?;
    for i in 0..module.name_count() {
        let number = number_word(names, module.name(i))?;
        words.push(number)?;
    }
    Ok(words)
}

/// The numbers of the names of each module. It looks a word up by its bytes once for each module that has it.
pub fn number_modules<'m, A: Allocator + Copy>(
    alloc: A,
    names: &mut Names<'m, A>,
    joined: &Joined<'m, A>,
) -> Result<Vec<Vec<u32, A>, A>, AllocError>
    ensures worded { IfOk result (λ words. AreWorded names.new words.items joined.now.modules.items) }
    ensures distinct { IfOk result (λ words. IsDistinct bytes_eq names.old → IsDistinct bytes_eq names.new) }
{
    let mut words = Vec::with_capacity(alloc, joined.modules.len())?;
    for i in 0..joined.modules.len() {
        let numbers = number_names(alloc, names, joined.modules[i].module)?;
        words.push(numbers)?;
    }
    Ok(words)
}

/// Whether a reference has a leading dot.
fn is_global(text: &[u8]) -> bool
    ensures { result ≡ is_global_text text.now }
{
    match text {
        [b, ..] => *b == b'.',
        [] => false,
    }
}

/// Where a text of a module leads from a namespace. The words are the numbers of the module's names.
#[inline(never)]
pub fn lead<A: Allocator>(
    lookup: &Lookup<A>,
    module: &ParsedModule<A>,
    words: &[u32],
    table: Table,
    namespace: u32,
    text: u32,
) -> Option<u32>
    requires within { namespace < length lookup.now.namespaces }
    requires words { length words.now ≡ length (names_of «module».now) }
    requires text { text < length (texts_of «module».now) }
    ensures { AsKnown lookup.now «module».now words.now (λ names policy.
        LeadsTo names lookup.now.namespaces (texts_of «module».now) policy table namespace text result) }
{
    let path = module.components(text as usize);
    let global = is_global(module.text(text as usize));
    lookup.leads(table, namespace, global, path, words)
}

//! The permissions that statements name, by numbers.

ghost use Rattle.std.specs.Prelude.{◌≡◌, ◌<◌, [], ℕ, List, Some, length, slice_get, slice_index_or, is_some, IsTrue, IfOk, OnOk};
ghost use Rattle.cil_resolve.specs.Common.{list_all, Word, Placed, texts, has_name, read, texts_of, IsOneName, IsLowering, IsIn, KnowNumbers, StayKnown, HaveNumbers, AreListNumbers, list_at, lists_of, known_at, AreNumbersIn, listed_names, number_in};
ghost use Rattle.cil_bind.specs.Common.{Comes};
ghost use Rattle.cil_parse.specs.Forms.{permissions_in};
ghost use Rattle.cil_parse.specs.Lexicon.{AreNumbersOf};
ghost use Rattle.cil_parse.specs.Parsed.{names_of, permission_lists_of};

use crate::known_permissions::{KnownPermissions, ListPlace};
use crate::lowering::Lowering;
use crate::permission_numbers::PermissionNumbers;
use crate::words::number_at;
use cil_check::Seen;
use cil_parse::{Lists, NumberedWord, ParsedModule};
use std::alloc::{AllocError, Allocator};

impl<'l, 'p, 'm, A: Allocator + Copy> Lowering<'l, 'p, 'm, A> {
    /// The number of a permission.
    pub(crate) fn permission(&self, seen: &Seen<'p, 'm, A>, word: NumberedWord) -> usize
        requires { (w : Word) × (read (texts_of seen.now.«module».now) word ≡ Some w) }
        ensures { (policy : List Placed) (s : Placed) (w : Word) → IsIn self.now seen.now policy s → read (texts_of seen.now.«module».now) word ≡ Some w → IsOneName w
            → IsTrue (has_name (listed_names policy) w.text) → number_in self.now.numbering.now.names.items w.text ≡ Some result }
    {
        number_at(&self.numbering.permissions, seen.number(word) as usize) as usize
    }

    /// The numbers of the permissions that a statement names.
    pub(crate) fn permissions(&self, seen: &Seen<'p, 'm, A>) -> Result<Vec<usize, A>, AllocError>
        requires { (policy : List Placed) × ((s : Placed) × IsIn self.now seen.now policy s) }
        ensures { IfOk result (λ numbers. (policy : List Placed) (s : Placed) → IsIn self.now seen.now policy s → IsTrue (list_all (has_name (listed_names policy)) (texts (permissions_in s.form)))
            → AreNumbersIn self.now.numbering.now.names.items (texts (permissions_in s.form)) numbers.items) }
    {
        let words = seen.view.permissions();
        let mut permissions = Vec::with_capacity(self.alloc, words.len())?;
        for word in words {
            permissions.push(self.permission(seen, *word))?;
        }
        Ok(permissions)
    }

    /// The number of the permission of a text of a module, whose names have these numbers. A text that isn't the module's is answered as
    /// out of memory.
    fn text_permission(
        &self,
        module: &ParsedModule<A>,
        words: &[u32],
        text: u32,
    ) -> Result<usize, AllocError>
        ensures { IfOk result (λ number. (policy : List Placed) → IsLowering self.now policy
            → AreNumbersOf self.now.checker.now.bound.policy.now.names words.now (names_of «module».now)
            → IsTrue (has_name (listed_names policy) (slice_index_or (texts_of «module».now) text []))
            → number_in self.now.numbering.now.names.items (slice_index_or (texts_of «module».now) text []) ≡ Some number) }
    {
        if text as usize >= module.text_count() {
            return Err(AllocError);
        }
        let path = module.components(text as usize);
        let k = number_at(path, 0);
        let word = number_at(words, k as usize);
        let number = number_at(&self.numbering.permissions, word as usize);
        Ok(number as usize)
    }

    /// Puts the numbers of the permissions of a module's list in a list of their own. The module's names have these numbers.
    fn add_list(
        &self,
        module: &ParsedModule<A>,
        words: &[u32],
        n: usize,
        numbers: &mut Lists<usize, A>,
    ) -> Result<(), AllocError>
        requires within { n < length (permission_lists_of «module».now) }
        requires closed { numbers.old.1 ≡ [] }
        ensures closed { OnOk result (numbers.new.1 ≡ []) }
        ensures added { OnOk result (Comes (AreListNumbers self.now «module».now words.now n) numbers.old.0 numbers.new.0) }
    {
        for text in module.permission_texts(n) {
            let number = self.text_permission(module, words, *text)?;
            numbers.push(number)?;
        }
        numbers.close()?;
        Ok(())
    }

    /// The numbers of the permissions of all lists of the module of a place.
    fn module_lists(&self, m: usize) -> Result<Lists<usize, A>, AllocError>
        requires lowering { (policy : List Placed) × IsLowering self.now policy }
        requires within { m < length self.now.checker.now.bound.joined.now.modules.items }
        ensures long { IfOk result (λ lists. length lists.0 ≡ length (lists_of self.now.checker.now.bound.joined.now m)) }
        ensures numbers { IfOk result (λ lists. (policy : List Placed) (n : ℕ) (numbers : List ℕ) → IsLowering self.now policy
            → slice_get lists.0 n ≡ Some numbers → HaveNumbers self.now.numbering.now.names.items policy
            (list_at self.now.checker.now.bound.joined.now m n) numbers) }
    {
        let bound = &self.checker.bound;
        let module = bound.joined.modules[m].module;
        let words = bound.policy.words[m].as_slice();
        let count = module.permission_list_count();
        let mut numbers = Lists::with_capacity(self.alloc, count, 0)?;
        for n in 0..count {
            self.add_list(module, words, n, &mut numbers)?;
        }
        Ok(numbers)
    }

    /// The list of permissions of the statement of a place.
    fn list_place(&self, i: usize) -> ListPlace
        requires { (policy : List Placed) × IsLowering self.now policy × (i < length policy) }
        ensures within { result.«module» < length self.now.checker.now.bound.joined.now.modules.items }
        ensures there { result.list < length (lists_of self.now.checker.now.bound.joined.now result.«module») }
        ensures list { (policy : List Placed) (s : Placed) → IsLowering self.now policy → slice_get policy i ≡ Some s → list_at self.now.checker.now.bound.joined.now result.«module» result.list ≡ texts (permissions_in s.form) }
    {
        let bound = &self.checker.bound;
        let row = bound.policy.rows[i];
        let named = &bound.joined.modules[row.module as usize];
        ListPlace {
            module: row.module as usize,
            list: named.module.permission_list(row.index as usize),
        }
    }

    /// Makes the numbers of the permissions of all lists of the module of a place known.
    #[inline(never)]
    fn know_lists(&self, known: &mut KnownPermissions<A>, m: usize) -> Result<(), AllocError>
        requires lowering { (policy : List Placed) × IsLowering self.now policy }
        requires within { m < length self.now.checker.now.bound.joined.now.modules.items }
        ensures has { OnOk result ((n : ℕ) → n < length (lists_of self.now.checker.now.bound.joined.now m)
            → IsTrue (is_some (known_at known.new m n))) }
        ensures known { OnOk result ((policy : List Placed) → IsLowering self.now policy
            → KnowNumbers self.now known.new policy) }
    {
        let lists = self.module_lists(m)?;
        *known = KnownPermissions::of(self.alloc, m, lists)?;
        Ok(())
    }

    /// The numbers of the permissions that the statement of a place names, which the lists of its module own together. They are known
    /// then.
    #[inline(always)]
    pub(crate) fn shared_permissions(
        &self,
        known: &mut KnownPermissions<A>,
        i: usize,
    ) -> Result<PermissionNumbers<A>, AllocError>
        requires { (policy : List Placed) × (s : Placed) × IsLowering self.now policy × (slice_get policy i ≡ Some s) }
        ensures numbers { IfOk result (λ numbers. (policy : List Placed) (s : Placed) → IsLowering self.now policy → slice_get policy i ≡ Some s → KnowNumbers self.now known.old policy
            → IsTrue (list_all (has_name (listed_names policy)) (texts (permissions_in s.form)))
            → AreNumbersIn self.now.numbering.now.names.items (texts (permissions_in s.form)) numbers) }
        ensures known { OnOk result (StayKnown self.now known.old known.new) }
    {
        let at = self.list_place(i);
        if let Some(numbers) = known.get(at)? {
            return Ok(numbers);
        }
        self.know_lists(known, at.module)?;
        let Some(numbers) = known.get(at)? else {
            unreachable!("the module has the list");
        };
        Ok(numbers)
    }
}

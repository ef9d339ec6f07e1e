//! Rows of counters by type, with the bits of who was a member before the steps.

ghost use Rattle.std.specs.Prelude.{◌≡◌, ◌↔◌, ℕ, ◌+◌, ◌-◌, ◌/◌, ◌<◌, ◌≤◌, ◌^◌, true, false, length, min, slice_index, IfOk, IsTrue, MatchOption, OnErr, OnOk};
ghost use Rattle.cil_member_rows.specs.Common.{hit, IsNextPresent, IsPresence, NonePresent, hit_at, rows_in, IsChange, AreSome, IsOutside};
ghost use Rattle.cil_recorded.specs.Differences.{appeared_at, change_key, gone_at, Ascends};
ghost use Rattle.cil_member_rows.specs.Rows.{count_before, count_now, steps_in};

mod ended;
mod present_words;
mod settling;
mod shifting;

use crate::bit_row::BitRow;
use crate::words::Words;
use crate::{held, marks};
use cil_recorded::{Change, RecordedLines, Step};
use std::alloc::{AllocError, Allocator, Global};
use std::marker::Model;

// How many types a word has.
const WORD: usize = 64;

/// For each attribute a row of counters by type: how many set statements of the attribute hold the type. A type whose
/// counter is above 0 is a member. The rows are changed in steps; the steps since the last `settle` are logged, so that
/// `undo` takes them back, and who was a member before them can still be asked. The words of a row that had a step since then are marked.
#[derive(Drop)]
pub struct MemberRows<A: Allocator = Global> {
    rows: RecordedLines<A>,
    held: Vec<BitRow<A>, A>,
    turned: Vec<Words, A>,
    /// The room of the log while words are given up, and nothing otherwise.
    ended: Vec<Step, A>,
}

impl<A: Allocator> Model for MemberRows<A> {
    ghost use Rattle.cil_recorded.specs.Recorded.{State};
    ghost use Rattle.cil_member_rows.specs.Rows.{AreMarked, IsHeld};

    ghost Value = { State };

    ghost view = { λ m. m.rows };

    ghost invariant = { λ m. IsHeld m.held.items m.rows × AreMarked m.turned.items m.rows };
}

impl<A: Allocator + Copy> MemberRows<A> {
    /// No row and no step.
    pub fn new(alloc: A) -> Self
        ensures rows { rows_in result ≡ 0 }
        ensures steps { steps_in result ≡ 0 }
        ensures now { (r t : ℕ) → count_now result r t ≡ 0 }
        ensures before { (r t : ℕ) → count_before result r t ≡ 0 }
    {
        MemberRows {
            rows: RecordedLines::new(alloc),
            held: Vec::new(alloc),
            turned: Vec::new(alloc),
            ended: Vec::new(alloc),
        }
    }

    /// Adds a row without members, behind the others. It is no step.
    pub fn add_row(&mut self, alloc: A) -> Result<(), AllocError>
        ensures ok { OnOk result (rows_in self.new ≡ rows_in self.old + 1) }
        ensures err { OnErr result (rows_in self.new ≡ rows_in self.old) }
        ensures steps { steps_in self.new ≡ steps_in self.old }
        ensures now { (r t : ℕ) → count_now self.new r t ≡ count_now self.old r t }
        ensures before { (r t : ℕ) → count_before self.new r t ≡ count_before self.old r t }
    {
        let len = self.rows.len();
        held::add_row(&mut self.held, alloc, len)?;
        marks::add_row(&mut self.turned, len)?;
        self.rows.put_in(alloc)
    }

    /// A set statement of the attribute of a row held some types of a word before, and holds others now. This is at most
    /// two steps.
    pub fn shift(
        &mut self,
        alloc: A,
        row: usize,
        word: usize,
        was: u64,
        is: u64,
    ) -> Result<(), AllocError>
        requires row { row < rows_in self.old }
        requires word { word < 2 ^ 58 }
        requires above { (t : ℕ) → hit word was t ≤ count_now self.old row t + hit word is t }
        ensures ok { OnOk result ((r t : ℕ) → count_now self.new r t + hit_at row word was r t ≡ count_now self.old r t + hit_at row word is r t) }
        ensures err { OnErr result ((r t : ℕ) → count_now self.new r t ≡ count_now self.old r t) }
        ensures before { (r t : ℕ) → count_before self.new r t ≡ count_before self.old r t }
        ensures rows { rows_in self.new ≡ rows_in self.old }
        ensures steps { steps_in self.new ≤ steps_in self.old + 2 }
        ensures none { OnErr result (steps_in self.new ≡ steps_in self.old) }
    {
        let gone = was & !is;
        let come = is & !was;
        shifting::make_room(&mut self.rows, &mut self.held, alloc, row, word, come)?;
        shifting::lower(&mut self.rows, row, word, gone);
        shifting::raise(&mut self.rows, row, word, come);
        marks::mark(&mut self.turned, row, word, shifting::is_step(gone, come));
        Ok(())
    }

    /// The members among the types of the first so many words of a row, by words. What is behind the words isn't one of them.
    pub fn present_words(
        &self,
        alloc: A,
        row: usize,
        count: usize,
    ) -> Result<Vec<u64, A>, AllocError>
        ensures len { IfOk result (λ words. length words.items ≤ count) }
        ensures are { IfOk result (λ words. (w : ℕ) → w < count
            → IsPresence (count_now self.now row) w (slice_index words.items w)) }
    {
        let mut words = held::first_words(&self.held, alloc, row, count)?;
        present_words::put(&self.rows, row, self.turned_words(row), &mut words);
        Ok(words)
    }

    /// Those that were members before the steps, in the same way.
    pub fn held_words(&self, alloc: A, row: usize, count: usize) -> Result<Vec<u64, A>, AllocError>
        ensures len { IfOk result (λ words. length words.items ≤ count) }
        ensures are { IfOk result (λ words. (w : ℕ) → w < count
            → IsPresence (count_before self.now row) w (slice_index words.items w)) }
    {
        held::first_words(&self.held, alloc, row, count)
    }

    /// Who became a member since the last settling, and who is no member any more, by row and word. A word without
    /// either is left out.
    pub fn changes(&self, alloc: A) -> Result<Vec<Change, A>, AllocError>
        ensures order { IfOk result (λ v. Ascends change_key 0 v.items) }
        ensures appeared { IfOk result (λ v. (r t : ℕ) → appeared_at v.items r t ≡ min 1 (count_now self.now r t) - min 1 (count_before self.now r t)) }
        ensures gone { IfOk result (λ v. (r t : ℕ) → gone_at v.items r t ≡ min 1 (count_before self.now r t) - min 1 (count_now self.now r t)) }
    {
        self.rows.changes(alloc)
    }
}

impl<A: Allocator> MemberRows<A> {
    /// How many rows there are.
    pub fn len(&self) -> usize
        ensures { result ≡ rows_in self.now }
    {
        self.rows.len()
    }

    /// Whether there is no row.
    pub fn is_empty(&self) -> bool
        ensures { IsTrue result ↔ (rows_in self.now ≡ 0) }
    {
        self.rows.is_empty()
    }

    /// Whether a type is a member of the attribute of a row.
    pub fn has(&self, row: usize, target: usize) -> bool
        ensures { IsTrue result ↔ (0 < count_now self.now row target) }
    {
        self.rows.count(row, target) > 0
    }

    /// Whether a type was a member before the steps.
    pub fn had(&self, row: usize, target: usize) -> bool
        ensures { IsTrue result ↔ (0 < count_before self.now row target) }
    {
        let bits = self.held(row, target / WORD);
        (bits >> (target % WORD)) & 1 == 1
    }

    /// How many set statements of the attribute of a row hold a type, or the greatest `u64` where they are more.
    pub fn count(&self, row: usize, target: usize) -> u64
        ensures { result ≡ min (count_now self.now row target) (2 ^ 64 - 1) }
    {
        self.rows.count(row, target)
    }

    /// The first word of a row, from one on, with a type that is a member.
    pub fn next_present_word(&self, row: usize, from: usize) -> Option<usize>
        ensures { MatchOption result (NonePresent (count_now self.now row) from) (IsNextPresent (count_now self.now row) from) }
    {
        self.rows.next_present_word(row, from)
    }

    /// The members among the types of a word.
    pub fn present(&self, row: usize, word: usize) -> u64
        ensures { IsPresence (count_now self.now row) word result }
    {
        if self.turned_words(row).has(word) {
            self.rows.present(row, word)
        } else {
            self.held(row, word)
        }
    }

    /// Those that were members before the steps.
    pub fn held(&self, row: usize, word: usize) -> u64
        ensures { IsPresence (count_before self.now row) word result }
    {
        held::bits(&self.held, row, word)
    }

    /// Those that became members since the last settling, or are none any more.
    pub fn changed(&self, row: usize, word: usize) -> u64
        ensures { IsChange (count_before self.now row) (count_now self.now row) word result }
    {
        self.present(row, word) ^ self.held(row, word)
    }

    /// Whether there are steps that `undo` would take back.
    pub fn is_pending(&self) -> bool
        ensures steps { IsTrue result ↔ (0 < steps_in self.now) }
        ensures none { result ≡ false → (r t : ℕ) → count_before self.now r t ≡ count_now self.now r t }
    {
        self.rows.is_pending()
    }

    /// Whether a row may have changed since the last settling: whether it had a step. This reads none of its counters.
    pub fn has_turned(&self, row: usize) -> bool
        ensures same { result ≡ false → (t : ℕ) → count_before self.now row t ≡ count_now self.now row t }
        ensures steps { result ≡ true → 0 < steps_in self.now }
    {
        self.turned_words(row).are_some()
    }

    /// Words of a row outside which nothing has changed since the last settling: those that had steps, and what stands between them. This
    /// reads none of its counters.
    pub fn turned_words(&self, row: usize) -> Words
        ensures same { (t : ℕ) → IsOutside result (t / 64) → count_before self.now row t ≡ count_now self.now row t }
        ensures steps { AreSome result → 0 < steps_in self.now }
    {
        marks::marked(&self.turned, row)
    }

    /// Takes the steps back, and gives up the words that they leave without counters. It takes no memory.
    pub fn undo(&mut self)
        ensures rows { rows_in self.new ≡ rows_in self.old }
        ensures steps { steps_in self.new ≡ 0 }
        ensures now { (r t : ℕ) → count_now self.new r t ≡ count_before self.old r t }
        ensures before { (r t : ℕ) → count_before self.new r t ≡ count_before self.old r t }
    {
        self.rows.undo_into(&mut self.ended);
        ended::give_up(&mut self.rows, &mut self.ended);
        marks::clear(&mut self.turned);
    }

    /// Keeps the steps, so that they can't be taken back any more, and gives up the words that they left without counters. It takes no
    /// memory.
    pub fn settle(&mut self)
        ensures rows { rows_in self.new ≡ rows_in self.old }
        ensures steps { steps_in self.new ≡ 0 }
        ensures now { (r t : ℕ) → count_now self.new r t ≡ count_now self.old r t }
        ensures before { (r t : ℕ) → count_before self.new r t ≡ count_now self.old r t }
    {
        settling::hold(&self.rows, &mut self.held);
        self.rows.settle_into(&mut self.ended);
        ended::give_up(&mut self.rows, &mut self.ended);
        marks::clear(&mut self.turned);
    }

    /// `settle`, where there are no fewer steps than rows, so that going over the rows takes no more time than the steps took. Where there
    /// are fewer, they stay. It takes no memory.
    pub fn settle_many(&mut self)
        ensures rows { rows_in self.new ≡ rows_in self.old }
        ensures now { (r t : ℕ) → count_now self.new r t ≡ count_now self.old r t }
    {
        if self.rows.len() <= self.rows.steps() {
            self.settle();
        }
    }
}

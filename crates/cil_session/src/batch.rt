//! The batch of a session.

ghost use Rattle.std.specs.Prelude.{◌≡◌, ◌≤◌, ◌+◌, [], ℕ, List, length, min, true, false, IfOk, IfErr, OnOk, Err, Some, None, vec_capacity};
ghost use Rattle.cil_store_specs.specs.Next.{Edit as SpecEdit, install, held_bytes};
ghost use Rattle.cil_store_specs.specs.Answers.{Batch as Open, IsHeld, all_held, held_as, name_of};
ghost use Rattle.cil_session.specs.Common.{edit_of, behind_fault, held_of, held_answer, given_up, CanHold, IsOpen, Adds, IsGiven};

use crate::edit_list::EditList;
use crate::held_edit::{GREATEST_HELD, HeldEdit};
use cil_store::Edit;
use std::alloc::{AllocError, Allocator};
use std::marker::Model;

/// Why an edit isn't held, nor any behind it.
#[derive(Clone, Copy, Debug, PartialEq, Eq)]
pub enum NotHeld {
    /// The batch would be too long.
    TooLong,
    /// Memory ran out.
    Memory,
}

impl From<AllocError> for NotHeld {
    ghost use Rattle.std.specs.Prelude.{◌≡◌};
    ghost use Rattle.cil_session.specs.declared.batch.NotHeld.TheVariants.{Memory};

    ghost from_gives = { λ _ e. e ≡ Memory };

    fn from(_e: AllocError) -> NotHeld {
        NotHeld::Memory
    }
}

/// The batch that is open in a session, if one is, with the edits that it holds.
#[derive(Drop)]
pub struct Batch<A: Allocator> {
    alloc: A,
    /// How many line feeds stand before the line of its begin; none where no batch is open.
    begin: Option<u64>,
    edits: EditList<A>,
    /// Why an edit wasn't held.
    fault: Option<NotHeld>,
}

impl<A: Allocator> Model for Batch<A> {
    ghost use Rattle.std.specs.Prelude.{Option};
    ghost use Rattle.cil_store_specs.specs.Answers.{Batch as Open};
    ghost use Rattle.cil_session.specs.Batch.{opened, KeepsNoMore};

    ghost Value = { Option Open };

    ghost view = { λ b. opened b.begin b.fault b.edits };

    ghost invariant = { λ b. KeepsNoMore b.begin b.fault b.edits };
}

impl<A: Allocator + Copy> Batch<A> {
    /// No batch is open.
    pub fn new(alloc: A) -> Self
        ensures { result ≡ None }
    {
        Batch {
            alloc,
            begin: None,
            edits: EditList::new(alloc),
            fault: None,
        }
    }

    /// How many line feeds stand before the line of the begin of the batch that is open.
    pub fn begin(&self) -> Option<u64>
        ensures some { (n : ℕ) → result ≡ Some n → (b : Open) × (self.now ≡ Some b) × (b.line ≡ 1 + n) }
        ensures none { result ≡ None → self.now ≡ None }
    {
        self.begin
    }

    pub fn is_open(&self) -> bool
        ensures yes { result ≡ true → (b : Open) × (self.now ≡ Some b) }
        ensures no { result ≡ false → self.now ≡ None }
    {
        self.begin.is_some()
    }

    /// Opens a batch.
    pub fn open(&mut self, line_feeds: u64)
        ensures { self.new ≡ Some (record { line = 1 + line_feeds; held = all_held [] }) }
    {
        self.begin = Some(line_feeds);
        self.edits = EditList::new(self.alloc);
        self.fault = None;
    }

    /// Closes the batch, whose edits are given up.
    pub fn close(&mut self)
        ensures { self.new ≡ None }
    {
        self.begin = None;
        self.edits = EditList::new(self.alloc);
        self.fault = None;
    }

    /// Where its memory comes from.
    pub fn alloc(&self) -> A {
        self.alloc
    }

    /// Why an edit of the open batch wasn't held; none where all are.
    pub fn fault(&self) -> Option<NotHeld>
        requires { IsOpen self.now }
        ensures { (b : Open) → self.now ≡ Some b
            → (edits : List SpecEdit) × (b.held ≡ held_of result edits) }
    {
        self.fault
    }

    /// The edits that the open batch holds.
    pub fn edits(&self) -> &EditList<A>
        requires { IsOpen self.now }
        ensures { (b : Open) (edits : List SpecEdit) → self.now ≡ Some b → b.held ≡ all_held edits
            → result.now ≡ edits }
    {
        &self.edits
    }

    /// Says that an edit isn't held that was given to the batch, if one is open. The edits before it are given up.
    pub fn give_up(&mut self, fault: NotHeld)
        ensures { self.new ≡ behind_fault fault self.old }
    {
        if self.begin.is_some() {
            self.edits = EditList::new(self.alloc);
            self.fault = Some(fault);
        }
    }

    /// Whether the open batch has room for an edit of which this many bytes of text are counted. Memory may still run out.
    fn check(&self, len: usize) -> Result<(), NotHeld>
        requires { IsOpen self.now }
        ensures ok { OnOk result (CanHold self.now len) }
        ensures err { IfErr result (λ fault. (b : Open) (edit : SpecEdit) → self.now ≡ Some b
            → held_bytes edit ≡ len
            → IsHeld b.held edit (held_answer (Err fault) (name_of edit)) (given_up fault)) }
    {
        match self.fault {
            Some(fault) => Err(fault),
            None => {
                if self.edits.has_room(len) {
                    Ok(())
                } else {
                    Err(NotHeld::TooLong)
                }
            }
        }
    }

    /// An empty vector with room for the part of an install's text that the open batch would hold.
    pub fn text_room(&self, len: usize) -> Result<Vec<u8, A>, NotHeld>
        requires { IsOpen self.now }
        ensures empty { IfOk result (λ text. text.items ≡ []) }
        ensures room { IfOk result (λ text. min len 16777217 ≤ vec_capacity text) }
        ensures ok { OnOk result (CanHold self.now (min len 16777217)) }
        ensures err { IfErr result (λ fault. (b : Open) (edit : SpecEdit) → self.now ≡ Some b
            → held_bytes edit ≡ min len 16777217
            → IsHeld b.held edit (held_answer (Err fault) (name_of edit)) (given_up fault)) }
    {
        let len = len.min(GREATEST_HELD);
        self.check(len)?;
        Ok(Vec::with_capacity(self.alloc, len)?)
    }

    /// Adds an edit to the open batch.
    fn add(&mut self, edit: Edit<'_>) -> Result<(), NotHeld>
        requires { IsOpen self.old }
        ensures { Adds self.old self.new (edit_of edit.entry) result }
    {
        self.check(edit.held_bytes())?;
        let held = HeldEdit::of(self.alloc, edit)?;
        self.edits.push(held)?;
        Ok(())
    }

    /// Has the open batch hold an edit; or says why it doesn't, and gives up what it holds.
    pub fn hold(&mut self, edit: Edit<'_>) -> Result<(), NotHeld>
        requires { IsOpen self.old }
        ensures { IsGiven self.old self.new (edit_of edit.entry) result }
    {
        match self.add(edit) {
            Ok(()) => Ok(()),
            Err(fault) => {
                self.give_up(fault);
                Err(fault)
            }
        }
    }

    /// Adds an install to the open batch, with a text that isn't copied.
    fn add_install(&mut self, name: &[u8], priority: u32, text: Vec<u8, A>) -> Result<(), NotHeld>
        requires open { IsOpen self.old }
        requires held { length text.items ≤ 16777217 }
        ensures { (edit : SpecEdit) → held_as edit ≡ install name.now priority text.items
            → Adds self.old self.new edit result }
    {
        self.check(text.len())?;
        let held = HeldEdit::install(self.alloc, name, priority, text)?;
        self.edits.push(held)?;
        Ok(())
    }

    /// As `hold`, for an install, whose vector becomes the text that is held: at most 16777217 bytes.
    pub fn hold_install(
        &mut self,
        name: &[u8],
        priority: u32,
        text: Vec<u8, A>,
    ) -> Result<(), NotHeld>
        requires open { IsOpen self.old }
        requires held { length text.items ≤ 16777217 }
        ensures { (edit : SpecEdit) → held_as edit ≡ install name.now priority text.items
            → IsGiven self.old self.new edit result }
    {
        match self.add_install(name, priority, text) {
            Ok(()) => Ok(()),
            Err(fault) => {
                self.give_up(fault);
                Err(fault)
            }
        }
    }
}

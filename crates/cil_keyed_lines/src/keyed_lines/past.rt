//! What stood before the steps.

ghost use Rattle.std.specs.Prelude.{◌≡◌, ◌≢◌, ◌+◌, ◌-◌, ◌/◌, ◌^◌, ◌<◌, ◌≤◌, ◌==◌, ℕ, false, true, length, min, nat_lt, slice_index, slice_index_or, if◌then◌else◌, IfOk, IsTrue, MatchOption, OnErr, OnOk};
ghost use Rattle.std.specs.List.{All};
ghost use Rattle.cil_lines.specs.Line.{IsPresence};
ghost use Rattle.cil_recorded.specs.Differences.{appeared_at, change_key, gone_at, key_of, Ascends};
ghost use Rattle.cil_recorded.specs.Recorded as recorded;
ghost use Rattle.cil_keyed_lines.specs.Keyed.{before_at, now_at};
ghost use Rattle.cil_keyed_lines.specs.Names.{name_before, name_now};
ghost use Rattle.cil_keyed_lines.specs.Past.{is_before, turns_at, AreAlike, AreBits, AreMarked, AreOwnFrom, AreTurns, IsBelow, IsFrom, IsNextTurn, IsNextTurned, IsOwnTurn, IsPast, IsSplit, NoTurn, NoneTurned};

use crate::keyed_lines::KeyedLines;
use cil_recorded::{Change, RecordedLines};
use std::alloc::{AllocError, Allocator, Global};

/// What stood before the steps: which targets of lines turned since, line by line and word by word; whether any of a line did;
/// and the line that each place named.
#[derive(Drop)]
pub struct Past<A: Allocator = Global> {
    turned: Vec<Change, A>,
    has_turned: Vec<bool, A>,
    named: Vec<usize, A>,
}

/// Marks the line of a change.
fn mark<A: Allocator>(marks: &mut Vec<bool, A>, change: Change) -> Result<(), AllocError>
    ensures marked { OnOk result ((l : ℕ) → slice_index_or marks.new.items l false
        ≡ (if l == change.line then true else slice_index_or marks.old.items l false)) }
    ensures short { change.word < 2 ^ 64 }
{
    while marks.len() <= change.line {
        marks.push(false)?;
    }
    marks[change.line] = true;
    Ok(())
}

/// Marks the lines of changes. No line behind the last of these has a mark.
fn marks<A: Allocator + Copy>(alloc: A, changes: &[Change]) -> Result<Vec<bool, A>, AllocError>
    ensures marked { IfOk result (λ v. AreMarked v.items changes.now) }
    ensures short { IfOk result (λ v. All (λ c. c.word < 2 ^ 64) changes.now) }
{
    let mut marks = Vec::new(alloc);
    for change in changes {
        mark(&mut marks, *change)?;
    }
    Ok(marks)
}

/// The place of the first change of a word of a line, or of what is behind it.
fn first(changes: &[Change], line: usize, word: usize) -> usize
    requires order { Ascends change_key 0 changes.now }
    requires short { All (λ c. c.word < 2 ^ 64) changes.now }
    ensures split { IsSplit changes.now line word result }
    ensures within { result ≤ length changes.now }
{
    changes.partition_point(
        |change: &Change| -> bool
            ensures { result ≡ is_before line word change.now }
        { change.line < line || change.line == line && change.word < word },
    )
}

/// The change of a word of a line, or one of no target.
fn change_of(changes: &[Change], line: usize, word: usize) -> Change
    requires order { Ascends change_key 0 changes.now }
    requires short { All (λ c. c.word < 2 ^ 64) changes.now }
    ensures { AreBits changes.now line word result }
{
    let place = first(changes, line, word);
    if place < changes.len() && changes[place].line == line && changes[place].word == word {
        changes[place]
    } else {
        Change {
            line,
            word,
            appeared: 0,
            gone: 0,
        }
    }
}

/// The first word from one on of a line that has a change.
fn next_turn(changes: &[Change], line: usize, from: usize) -> Option<usize>
    requires order { Ascends change_key 0 changes.now }
    requires short { All (λ c. c.word < 2 ^ 64) changes.now }
    ensures { MatchOption result (NoTurn changes.now line from) (IsNextTurn changes.now line from) }
{
    let place = first(changes, line, from);
    if place < changes.len() && changes[place].line == line {
        Some(changes[place].word)
    } else {
        None
    }
}

/// The earlier of two words.
fn earlier(one: Option<usize>, other: Option<usize>) -> Option<usize>
    ensures below { (w : ℕ) → IsBelow result w → IsBelow one w × IsBelow other w }
    ensures from { (w : ℕ) → IsFrom w one → IsFrom w other → IsFrom w result }
{
    match (one, other) {
        (Some(one), Some(other)) => Some(one.min(other)),
        (Some(one), None) => Some(one),
        (None, other) => other,
    }
}

/// The end of the places, from one on, whose lines are those of it in both of two lists.
fn run_end(is: &[usize], was: &[usize], place: usize) -> usize
    requires { place < length is.now }
    ensures further { place < result }
    ensures within { result ≤ length is.now }
    ensures is { (p : ℕ) → place ≤ p → p < result → slice_index is.now p ≡ slice_index is.now place }
    ensures was { (p : ℕ) → place ≤ p → p < result → slice_index was.now p
        ≡ slice_index was.now place }
{
    let mut end = place + 1;
    if place >= was.len() {
        return end;
    }
    let len = is.len().min(was.len());
    let line = is[place];
    let before = was[place];
    while end < len && is[end] == line && was[end] == before {
        end += 1;
    }
    end
}

impl<A: Allocator> Past<A> {
    /// The line that a place named, or 0 where there was no such place.
    fn line(&self, place: usize) -> usize
        ensures { result ≡ slice_index self.now.named.items place }
    {
        if place < self.named.len() {
            self.named[place]
        } else {
            0
        }
    }

    /// Whether a target of a line may have turned.
    fn has_turned(&self, line: usize) -> bool
        ensures { result ≡ slice_index_or self.now.has_turned.items line false }
    {
        line < self.has_turned.len() && self.has_turned[line]
    }

    /// The targets of a word of a line whose counters were at least 1.
    fn present(&self, lines: &RecordedLines<A>, line: usize, word: usize) -> u64
        requires turns { AreTurns self.now.turned.items lines.now }
        requires marked { AreMarked self.now.has_turned.items self.now.turned.items }
        ensures { IsPresence (recorded.count_before lines.now line) word result }
    {
        let now = lines.present(line, word);
        if !self.has_turned(line) {
            return now;
        }
        let change = change_of(&self.turned, line, word);
        now & !change.appeared | change.gone
    }

    /// The first word from one on of a line in which a target may have turned.
    fn next_turn(&self, line: usize, from: usize) -> Option<usize>
        requires order { Ascends change_key 0 self.now.turned.items }
        requires short { All (λ c. c.word < 2 ^ 64) self.now.turned.items }
        requires marked { AreMarked self.now.has_turned.items self.now.turned.items }
        ensures { MatchOption result (NoTurn self.now.turned.items line from)
            (IsNextTurn self.now.turned.items line from) }
    {
        if !self.has_turned(line) {
            return None;
        }
        next_turn(&self.turned, line, from)
    }
}

impl<A: Allocator + Copy> KeyedLines<A> {
    /// What stood before the steps. It takes memory by the places and the lines.
    pub fn past(&self, alloc: A) -> Result<Past<A>, AllocError>
        ensures { IfOk result (IsPast self.now) }
    {
        let turned = self.lines.changes(alloc)?;
        let has_turned = marks(alloc, &turned)?;
        let named = self.names.before(alloc)?;
        Ok(Past {
            turned,
            has_turned,
            named,
        })
    }
}

impl<A: Allocator> KeyedLines<A> {
    /// Whether a place names the line that it named before the steps, of which no target has turned.
    pub fn is_same(&self, past: &Past<A>, place: usize) -> bool
        requires { IsPast self.now past.now }
        ensures { IsTrue result → NoneTurned self.now place 0 }
    {
        let line = self.line_of(place);
        line == past.line(place) && !past.has_turned(line)
    }

    /// Whether two places name one line.
    pub fn share_line(&self, place: usize, other: usize) -> bool
        ensures { IsTrue result → (t : ℕ) → now_at self.now place t ≡ now_at self.now other t }
    {
        self.line_of(place) == self.line_of(other)
    }

    /// The end of the places, from one on, that name the line that it names, and named the one that it named before the
    /// steps.
    pub fn alike_end(&self, past: &Past<A>, place: usize) -> usize
        requires past { IsPast self.now past.now }
        requires place { place < length self.now.keys }
        ensures further { place < result }
        ensures within { result ≤ length self.now.keys }
        ensures alike { (p : ℕ) → place ≤ p → p < result → AreAlike self.now p place }
    {
        run_end(self.names.named(), &past.named, place)
    }

    /// The targets of a word whose counters of the key of a place were at least 1 before the steps.
    pub fn present_before(&self, past: &Past<A>, place: usize, word: usize) -> u64
        requires { IsPast self.now past.now }
        ensures { IsPresence (before_at self.now place) word result }
    {
        past.present(&self.lines, past.line(place), word)
    }

    /// The first word from one on in which a target of the key of a place may have turned: in those before it none has.
    pub fn next_turned_word(&self, past: &Past<A>, place: usize, from: usize) -> Option<usize>
        requires { IsPast self.now past.now }
        ensures { MatchOption result (NoneTurned self.now place from)
            (IsNextTurned self.now place from) }
    {
        let was = past.line(place);
        let is = self.line_of(place);
        let turn = past.next_turn(was, from);
        if was == is {
            return turn;
        }
        let had = self.lines.next_present_word(was, from);
        let has = self.lines.next_present_word(is, from);
        earlier(turn, earlier(had, has))
    }

    /// Where the changes of the line of a place begin, if the place named that line before the steps too.
    pub fn first_turn(&self, past: &Past<A>, place: usize) -> Option<usize>
        requires { IsPast self.now past.now }
        ensures { MatchOption result
            (name_before self.now.names place ≢ name_now self.now.names place)
            (AreOwnFrom self.now past.now place 0) }
    {
        let line = self.line_of(place);
        if line != past.line(place) {
            return None;
        }
        Some(first(&past.turned, line, 0))
    }

    /// The change at an index of the list of changes, if it is of the line of a place.
    pub fn own_turn(&self, past: &Past<A>, place: usize, at: usize) -> Option<Change>
        requires { IsPast self.now past.now }
        ensures { (from : ℕ) → from < 2 ^ 64 → AreOwnFrom self.now past.now place from at
            → MatchOption result (NoneTurned self.now place from)
            (IsOwnTurn self.now past.now place from at) }
    {
        let line = self.line_of(place);
        if at < past.turned.len() && past.turned[at].line == line {
            Some(past.turned[at])
        } else {
            None
        }
    }
}

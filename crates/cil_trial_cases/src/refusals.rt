//! Trials in which growths are refused.

use crate::case::Refusal;
use crate::engine::Engines;
use crate::fault::Fault;
use crate::growths::{AS_WITH_MEMORY, Ample, is_same};
use crate::job::Job;
use crate::report::write_text;
use crate::trial::Trial;
use cil_stream::MemorySink;

/// More growths than any case makes.
const MOST: u64 = 1_000_000;

fn is_among(outcomes: &[MemorySink], found: &MemorySink) -> bool {
    for outcome in outcomes {
        if is_same(outcome, found) {
            return true;
        }
    }
    false
}

/// Writes an outcome, where it is none of those before. A growth that is refused alone may be made up for by a smaller one, so an answer
/// as with memory isn't written then.
fn note_outcome(
    report: &mut MemorySink,
    outcomes: &mut Vec<MemorySink>,
    is_alone: bool,
    found: MemorySink,
) -> Result<(), Fault> {
    let is_right = is_alone && found.bytes() == AS_WITH_MEMORY;
    if is_right || is_among(outcomes.as_slice(), &found) {
        return Ok(());
    }
    write_text(report, found.bytes())?;
    match outcomes.push(found) {
        Ok(()) => Ok(()),
        Err(_) => Err(Fault::Memory),
    }
}

/// Writes the outcome where no growth was refused, unless it is as with memory.
fn write_unrefused(report: &mut MemorySink, outcome: &MemorySink) -> Result<(), Fault> {
    if outcome.bytes() == AS_WITH_MEMORY {
        return Ok(());
    }
    write_text(report, b"no growth\n")?;
    write_text(report, outcome.bytes())
}

impl<'t, E: Engines> Trial<'t, E> {
    /// Refuses a growth, writes the outcome if it is another one, and says whether the case came to that growth.
    fn refuse_next(
        &self,
        ample: &Ample,
        refusal: Refusal,
        report: &mut MemorySink,
        outcomes: &mut Vec<MemorySink>,
    ) -> Result<bool, Fault> {
        let mut found = MemorySink::new(self.alloc);
        if !self.make(Job::Refused(refusal, ample), &mut found)? {
            write_unrefused(report, &found)?;
            return Ok(false);
        }
        let is_alone = matches!(refusal, Refusal::Alone(_));
        note_outcome(report, outcomes, is_alone, found)?;
        Ok(true)
    }

    /// Refuses each growth in turn, until the case doesn't come to it, and writes the different outcomes.
    fn refuse_in_turn(
        &self,
        ample: &Ample,
        is_alone: bool,
        report: &mut MemorySink,
    ) -> Result<(), Fault> {
        let mut outcomes = Vec::new(self.alloc);
        for nth in 1..MOST {
            let refusal = if is_alone {
                Refusal::Alone(nth)
            } else {
                Refusal::From(nth)
            };
            if !self.refuse_next(ample, refusal, report, &mut outcomes)? {
                return Ok(());
            }
        }
        Err(Fault::Case)
    }

    fn refuse_in_both_ways(&self, ample: &Ample, report: &mut MemorySink) -> Result<(), Fault> {
        ample.write(report)?;
        write_text(report, b"each growth alone\n")?;
        self.refuse_in_turn(ample, true, report)?;
        write_text(report, b"each growth and those after it\n")?;
        self.refuse_in_turn(ample, false, report)
    }

    fn with_memory(&self, report: &mut MemorySink) -> Result<Ample, Fault> {
        let mut ample = Ample::new(self.alloc);
        match self.make(Job::Ample(&mut ample), report) {
            Ok(_) => Ok(ample),
            Err(fault) => Err(fault),
        }
    }

    /// Refuses each growth of a case in turn, alone and then with each one after it, and writes the different outcomes.
    pub fn refuse_each(&self, report: &mut MemorySink) -> Result<(), Fault> {
        let ample = self.with_memory(report)?;
        self.refuse_in_both_ways(&ample, report)
    }

    fn refuse_one(&self, ample: &Ample, report: &mut MemorySink) -> Result<(), Fault> {
        let mut found = MemorySink::new(self.alloc);
        ample.write(report)?;
        if self.make(Job::Refused(self.case.refusal, ample), &mut found)? {
            return write_text(report, found.bytes());
        }
        write_unrefused(report, &found)
    }

    /// Refuses the growth that a case names.
    pub fn refuse_growth(&self, report: &mut MemorySink) -> Result<(), Fault> {
        let ample = self.with_memory(report)?;
        self.refuse_one(&ample, report)
    }
}

//! Trials over devices with limits, and which trial a case asks for.

use crate::case::{Case, Each, Refusal, Way, read_case};
use crate::engine::Engines;
use crate::fault::Fault;
use crate::job::Job;
use crate::limits::Limits;
use crate::stretch::Stretch;
use cil_stream::MemorySink;
use std::alloc::Global;

/// The limits of a case where a device of it fails or ends after so many bytes.
fn limits_at(case: &Case<'_>, each: Each, bytes: usize) -> Limits {
    let mut limits = case.limits;
    match each {
        Each::SourceFails => limits.given = bytes,
        Each::SourceEnds => limits.end = bytes,
        Each::SinkFails => limits.taken = bytes,
        Each::Growth => {}
    }
    limits
}

/// What is done where nothing is tried in turn.
fn whole(case: &Case<'_>) -> Job<'static> {
    if matches!(case.way, Way::Work) {
        Job::Work
    } else {
        Job::Session(case.limits)
    }
}

/// A case, and what makes engines for it.
#[derive(Drop)]
pub struct Trial<'t, E: Engines> {
    pub alloc: Global,
    pub case: &'t Case<'t>,
    pub engines: &'t E,
}

impl<'t, E: Engines> Trial<'t, E> {
    /// Does something with a new engine over the store of the case, and says whether it came to what was to fail.
    pub fn make(&self, job: Job<'_>, report: &mut MemorySink) -> Result<bool, Fault> {
        self.engines.make(self.case, job, report)
    }

    /// Has a device fail or end, and says whether it is to be tried with one byte more.
    fn try_one(
        &self,
        each: Each,
        bytes: usize,
        stretch: &mut Stretch,
        report: &mut MemorySink,
    ) -> Result<bool, Fault> {
        let mut found = MemorySink::new(self.alloc);
        let job = Job::Session(limits_at(self.case, each, bytes));
        let has_failed = self.make(job, &mut found)?;
        stretch.go_on(bytes, found, report)?;
        Ok(if matches!(each, Each::SinkFails) {
            has_failed
        } else {
            bytes < self.case.script.len()
        })
    }

    /// Has a device fail or end after each number of bytes, and writes what comes of it, alike outcomes once.
    fn try_numbers(
        &self,
        each: Each,
        stretch: &mut Stretch,
        report: &mut MemorySink,
    ) -> Result<(), Fault> {
        for bytes in 0..usize::MAX {
            if !self.try_one(each, bytes, stretch, report)? {
                break;
            }
        }
        stretch.write(report)
    }

    fn try_each(&self, each: Each, report: &mut MemorySink) -> Result<(), Fault> {
        let mut stretch = Stretch::new(self.alloc);
        self.try_numbers(each, &mut stretch, report)
    }

    fn try_once(&self, job: Job<'_>, report: &mut MemorySink) -> Result<(), Fault> {
        match self.make(job, report) {
            Ok(_) => Ok(()),
            Err(fault) => Err(fault),
        }
    }

    /// Makes the trial, and writes what came of it.
    fn write(&self, report: &mut MemorySink) -> Result<(), Fault> {
        let case = self.case;
        match (&case.peer, case.flushes, case.each, case.refusal) {
            (Some(peer), _, _, _) => self.try_once(Job::Dialogue(peer), report),
            (None, Some(flushes), _, _) => self.try_once(Job::Flushes(flushes), report),
            (None, None, Some(Each::Growth), _) => self.refuse_each(report),
            (None, None, Some(each), _) => self.try_each(each, report),
            (None, None, None, Refusal::None) => self.try_once(whole(case), report),
            (None, None, None, _) => self.refuse_growth(report),
        }
    }
}

/// Makes the trial of a case, and writes what came of it.
fn write_trial<E: Engines>(
    alloc: Global,
    case: &Case<'_>,
    engines: &E,
    report: &mut MemorySink,
) -> Result<(), Fault> {
    let trial = Trial {
        alloc,
        case,
        engines,
    };
    trial.write(report)
}

/// What came of the case that a text describes.
pub fn answer<E: Engines>(alloc: Global, engines: &E, text: &[u8]) -> Result<MemorySink, Fault> {
    let case = read_case(alloc, text)?;
    let mut report = MemorySink::new(alloc);
    match write_trial(alloc, &case, engines, &mut report) {
        Ok(()) => Ok(report),
        Err(fault) => Err(fault),
    }
}

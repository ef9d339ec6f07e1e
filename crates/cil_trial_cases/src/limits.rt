//! What the devices of a trial give and take.

use crate::fault::Fault;

/// How much the source gives a call and in all before it fails, after how many bytes it ends, and how much the sink takes a call and in
/// all before it fails.
#[derive(Clone, Copy)]
pub struct Limits {
    pub give: usize,
    pub given: usize,
    pub end: usize,
    pub take: usize,
    pub taken: usize,
}

impl Limits {
    /// Devices that give and take all.
    pub fn none() -> Limits {
        Limits {
            give: usize::MAX,
            given: usize::MAX,
            end: usize::MAX,
            take: usize::MAX,
            taken: usize::MAX,
        }
    }

    /// Notes one of them by its word.
    pub fn note(&mut self, about: &str, size: usize) -> Result<(), Fault> {
        match about {
            "give" => self.give = size,
            "given" => self.given = size,
            "end" => self.end = size,
            "take" => self.take = size,
            "taken" => self.taken = size,
            _ => return Err(Fault::Case),
        }
        Ok(())
    }
}

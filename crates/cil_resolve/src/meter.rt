//! Counts of work.

ghost use Rattle.std.specs.Prelude.{◌≡◌, ◌+◌, ◌-◌, ◌^◌, min};
ghost use Rattle.cil_resolve.specs.Common.{evaluations_in, adjustments_in};

/// Two counts of work: how often a set statement was evaluated at a type, and how often the count of an access was adjusted. A count
/// stays at the greatest u128 where it would pass it.
#[derive(Debug, Drop)]
pub struct Meter {
    evaluations: u128,
    adjustments: u128,
}

impl Meter {
    /// Both at 0.
    pub fn new() -> Self
        ensures evaluations { evaluations_in result ≡ 0 }
        ensures adjustments { adjustments_in result ≡ 0 }
    {
        Meter {
            evaluations: 0,
            adjustments: 0,
        }
    }

    /// How many evaluations were counted.
    pub fn evaluations(&self) -> u128
        ensures { result ≡ evaluations_in self.now }
    {
        self.evaluations
    }

    /// How many adjustments were counted.
    pub fn adjustments(&self) -> u128
        ensures { result ≡ adjustments_in self.now }
    {
        self.adjustments
    }

    /// Counts one evaluation more.
    pub fn evaluated(&mut self)
        ensures evaluations { evaluations_in self.new ≡ min (evaluations_in self.old + 1) (2 ^ 128 - 1) }
        ensures adjustments { adjustments_in self.new ≡ adjustments_in self.old }
    {
        self.evaluations = self.evaluations.saturating_add(1);
    }

    /// Counts so many adjustments more.
    pub fn adjusted(&mut self, count: u128)
        ensures evaluations { evaluations_in self.new ≡ evaluations_in self.old }
        ensures adjustments { adjustments_in self.new ≡ min (adjustments_in self.old + count) (2 ^ 128 - 1) }
    {
        self.adjustments = self.adjustments.saturating_add(count);
    }
}

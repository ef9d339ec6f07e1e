//! Numbers, each once, up to one more than a class may have permissions.

ghost use Rattle.std.specs.Prelude.{◌≡◌, ◌<◌, [], length, fold, nat_lt};
ghost use Rattle.cil_check.specs.Few.{with_number};

use std::marker::Model;

/// The greatest number of permissions of a class, its common's included (the kernel's access vectors have 32 bits).
const GREATEST_CLASS: usize = 32;

/// The first of some numbers, each once, up to one more than a class may have permissions.
#[derive(Drop)]
pub struct Few {
    numbers: [u32; 33],
    count: usize,
}

impl Model for Few {
    ghost use Rattle.std.specs.Prelude.{List, ℕ, ◌≤◌, take, length};

    ghost Value = { List ℕ };

    ghost view = { λ f. take f.count f.numbers };

    ghost invariant = { λ f. f.count ≤ 33 };
}

impl Few {
    /// No number.
    pub fn new() -> Self
        ensures { result ≡ [] }
    {
        Few {
            numbers: [0; 33],
            count: 0,
        }
    }

    /// Whether there are more numbers than a class may have permissions.
    pub fn is_over(&self) -> bool
        ensures { result ≡ nat_lt 32 (length self.now) }
    {
        self.count > GREATEST_CLASS
    }

    /// Takes up a number, if it is new and there is room.
    fn insert(&mut self, number: u32)
        ensures { self.new ≡ with_number self.old number }
    {
        if self.is_over() || self.numbers[..self.count].contains(&number) {
            return;
        }
        self.numbers[self.count] = number;
        self.count += 1;
    }

    /// Takes up numbers, until there is no room.
    pub fn insert_all(&mut self, numbers: &[u32])
        ensures { self.new ≡ fold with_number self.old numbers.now }
    {
        for number in numbers {
            if self.is_over() {
                return;
            }
            self.insert(*number);
        }
    }
}

//! Laws of the definitions, which make the contract of `read` exact. They have no code.

ghost use Rattle.std.specs.Prelude.{◌≡◌, ℕ, List, drop};
ghost use Rattle.cil_reader.specs.Common.{Stops, IsStuck, IsReadingFault, Trees, Reads};
ghost use Rattle.cil_specs.specs.Parts.{Part, IsClean};
ghost use Rattle.cil_specs.specs.TextFault.{TextFaultKind, TextFault};

/// A text spells one list of trees at most.
pub fn one_reading()
    ensures { (bytes : List ℕ) (trees others : Trees) → Reads bytes trees → Reads bytes others → trees ≡ others }
{}

/// A text that spells trees has no fault of reading.
pub fn no_fault_beside_a_reading()
    ensures { (bytes : List ℕ) (trees : Trees) (fault : TextFault) → Reads bytes trees → IsReadingFault bytes fault → ⊥ }
{}

/// A text has one fault of reading at most.
pub fn one_reading_fault()
    ensures { (bytes : List ℕ) (fault other : TextFault) → IsReadingFault bytes fault → IsReadingFault bytes other → fault ≡ other }
{}

/// Where a fault stands no part makes the clean front longer.
pub fn faults_are_stuck()
    ensures { (bytes : List ℕ) (at : ℕ) (lists : List ℕ) (parts : List Part) (kind : TextFaultKind) (shown : List ℕ) →
        IsClean bytes at lists parts → Stops kind lists (drop at bytes) shown → IsStuck bytes at parts }
{}

//! Lines of counters that keys share, changed in steps that can be taken back.
//!
//! A key (kind, source, class, permission) has a counter for each target: how many rules give it. Most keys of a policy count the
//! same as others, so keys name lines, and a line that several keys name is kept once, with the number of keys that name it.
//!
//! - `KeyedLines::shift` moves the counters of a list of keys alike. It puts in the keys that have no place (`keyed_lines.rt`),
//!   sorts the places by the lines that they name (`named.rt`), goes over the runs of one line (`moves.rt`), and moves each of these
//!   groups once (`group.rt`, `line_moves.rt`): in place where no other key names the line, and else on a copy, which the group is
//!   given (`reach.rt`). All memory of a group is taken before a counter or a name of it changes. The work is linear but for the sort.
//! - Line 0 has no counter above 0, and a key without a counter above 0 names it: a key that comes, and keys whose line lost its last
//!   counter. So a line that no key names any more has none either.
//! - There are two logs: the steps of words of lines (`cil_recorded`), and the keys that changed their line, each with the line that
//!   it named before (`names.rt`). `undo` takes both back without memory, and cuts off the keys and the lines that came (`ended.rt`).
//!   `settle` drops both, takes out the keys that name line 0, which are all among those that changed, and cuts off the lines behind
//!   the last that a key names. A line between others that no key names keeps its place, without memory for words, until `settle`
//!   packs the lines: the last ones move to such places, without memory, once there are more than twice as many lines as when they
//!   were packed last, and more than a quarter as many as keys (`names/packed.rt`).
//! - What a key counts, now and before the steps, is told by key and target: no contract tells which keys share a line.
#![tactic(auto)]

mod ended;
mod group;
mod keyed_lines;
mod line_moves;
mod moved;
mod moves;
mod named;
mod names;
mod reach;
mod symbol_key;

pub use keyed_lines::{KeyedLines, Past};
pub use moved::Moved;
pub use symbol_key::SymbolKey;

//! Calls of the crates below the store that no program makes: what is asked by place, growths that
//! are refused, targets far behind, and how many chunks there are. What programs answer is shown by
//! scripts and trials.
#![tactic(auto)]

#[cfg(test)]
mod chunks;
#[cfg(test)]
mod counters;
#[cfg(test)]
mod growths;
#[cfg(test)]
mod lines;
#[cfg(test)]
mod numberings;
#[cfg(test)]
mod places;
#[cfg(test)]
mod policies;

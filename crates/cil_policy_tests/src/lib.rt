//! Tests of the crates from texts to resolved policies, by their public calls: what is answered that no script shows.
#![tactic(auto)]

#[cfg(test)]
mod devices;
#[cfg(test)]
mod faults;
#[cfg(test)]
mod parsed;
#[cfg(test)]
mod policies;
#[cfg(test)]
mod resolved;
#[cfg(test)]
mod shown;
#[cfg(test)]
mod texts;

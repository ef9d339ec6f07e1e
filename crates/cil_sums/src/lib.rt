//! Sums over the numbers of two lists some of whose places are put together.
#![tactic(auto)]

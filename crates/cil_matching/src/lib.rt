//! Which set statements and which rules of one policy stand in another one.
#![tactic(auto)]

mod compared;
mod inverse;
mod name_numbers;
mod numbers;
mod paired_rules;
mod paired_sets;
mod passed_over;
mod places;
mod positions;
mod rule_matching;
mod rule_places;
mod same_content;
mod same_set;
mod set_matching;
mod set_walk;

pub use rule_matching::RuleMatching;
pub use set_matching::SetMatching;

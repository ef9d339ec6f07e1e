//! The definitions of what differs between two policies, over those of the language.
#![tactic(auto)]

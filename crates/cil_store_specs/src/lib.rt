//! The definitions of the store, its edits, scripts and sessions, over those of the language.
#![tactic(auto)]

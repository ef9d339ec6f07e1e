//! The definitions that every contract of cilsem cites, over lists, numbers and data of their own.
#![tactic(auto)]

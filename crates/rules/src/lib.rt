// The rules that say which parts of a note are addresses, and the search for mail addresses.
#![tactic(auto)]

pub mod addresses;
pub mod examples;
pub mod mail;
pub mod notes;
pub mod web;

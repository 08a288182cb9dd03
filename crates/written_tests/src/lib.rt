// Tests of the written forms and of the events that a reader holds: rows of docs/FORMATS.md, rooms and refusals, readers
// that are used again, other punctuation sets, and the most addresses that a note has.
#![tactic(auto)]

#[cfg(test)]
mod event_tests;
#[cfg(test)]
mod form_tests;
#[cfg(test)]
mod forms;
#[cfg(test)]
mod refusal_tests;
#[cfg(test)]
mod set_tests;

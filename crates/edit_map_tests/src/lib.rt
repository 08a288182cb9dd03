// Tests of the edit map: its limits, its refusals, and edits that meet at a place.
#![tactic(auto)]

#[cfg(test)]
mod tests;

// Tests of places, characters, kinds and punctuation sets, and a set that shows that a set may change while its meaning stays.
#![tactic(auto)]

#[cfg(test)]
mod character_tests;
mod counting_set;
#[cfg(test)]
mod kind_tests;
#[cfg(test)]
mod place_tests;
#[cfg(test)]
mod range_list_tests;

//! Tests of the words of a network that threads narrow at once.

#![tactic(auto)]

#[cfg(test)]
mod asserts;
#[cfg(test)]
mod edge_words;

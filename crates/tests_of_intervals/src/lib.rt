//! Tests of intervals that realise scenarios.

#![tactic(auto)]

#[cfg(test)]
mod asserts;
#[cfg(test)]
mod realisations;

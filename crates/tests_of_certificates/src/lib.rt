//! Tests of certificates.

#![tactic(auto)]

#[cfg(test)]
mod asserts;
#[cfg(test)]
mod certificates;

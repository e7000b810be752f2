//! Tests of versions of facts that sessions state and withdraw.

#![tactic(auto)]

#[cfg(test)]
mod asserts;
#[cfg(test)]
mod versions;

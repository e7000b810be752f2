//! Tests of versions and scripts of sessions.

#![tactic(auto)]

#[cfg(test)]
mod asserts;
#[cfg(test)]
mod scripts;

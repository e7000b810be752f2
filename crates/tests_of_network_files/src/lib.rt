//! Tests of network files.

#![tactic(auto)]

#[cfg(test)]
mod asserts;
#[cfg(test)]
mod network_files;

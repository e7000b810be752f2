//! Tests of labels of base relations.

#![tactic(auto)]

#[cfg(test)]
mod asserts;
#[cfg(test)]
mod labels;
#[cfg(test)]
mod nets;
#[cfg(test)]
mod networks;

//! Tests of calculi: tables, compositions, sets of names, table files and classes.

#![tactic(auto)]

#[cfg(test)]
mod asserts;
#[cfg(test)]
mod built_in;
#[cfg(test)]
mod calculi;
#[cfg(test)]
mod compositions;
#[cfg(test)]
mod tables;

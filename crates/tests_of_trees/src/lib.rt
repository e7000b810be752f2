//! Tests of scenarios, refutations, certificates and searches.

#![tactic(auto)]

#[cfg(test)]
mod asserts;
#[cfg(test)]
mod colours;
#[cfg(test)]
mod nets;
#[cfg(test)]
mod parallel;
#[cfg(test)]
mod refutations;
#[cfg(test)]
mod scenarios;
#[cfg(test)]
mod searches;

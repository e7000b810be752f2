//! Tests of closures: on one thread, of words that threads narrow at once, and by workers.

#![tactic(auto)]

#[cfg(test)]
mod asserts;
#[cfg(test)]
mod closures;
#[cfg(test)]
mod nets;
#[cfg(test)]
mod workers;

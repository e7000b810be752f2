//! Tests of the reasoner as a whole, over forms in memory: what it writes and how it ends, by command.

#![tactic(auto)]

#[cfg(test)]
mod asserts;
#[cfg(test)]
mod certifying;
#[cfg(test)]
mod closing;
#[cfg(test)]
mod gating;
#[cfg(test)]
mod labelling;
#[cfg(test)]
mod realising;
#[cfg(test)]
mod relating;
#[cfg(test)]
mod runs;
#[cfg(test)]
mod serving;
#[cfg(test)]
mod solving;
#[cfg(test)]
mod starting;

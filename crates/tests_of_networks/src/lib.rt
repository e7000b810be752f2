//! Tests of networks: their facts and names, their files, and schedules of actors that narrow them.

#![tactic(auto)]

#[cfg(test)]
mod asserts;
#[cfg(test)]
mod nets;
#[cfg(test)]
mod networks;
#[cfg(test)]
mod schedules;

//! Tests of polygons: rings, matrices and polygon files.

#![tactic(auto)]

#[cfg(test)]
mod asserts;
#[cfg(test)]
mod matrices;
#[cfg(test)]
mod ring_texts;
#[cfg(test)]
mod rings;

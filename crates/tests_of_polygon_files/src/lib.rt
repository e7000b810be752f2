//! Tests of polygon files, of the facts of polygons and of demonstrations.

#![tactic(auto)]

#[cfg(test)]
mod asserts;
#[cfg(test)]
mod polygon_files;

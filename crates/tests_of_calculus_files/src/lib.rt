//! Tests of the names of sets, of table files and of classes.

#![tactic(auto)]

#[cfg(test)]
mod asserts;
#[cfg(test)]
mod classes;
#[cfg(test)]
mod set_names;
#[cfg(test)]
mod straight;
#[cfg(test)]
mod table_files;

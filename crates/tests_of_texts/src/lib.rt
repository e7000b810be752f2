//! Tests of texts: tokens, line files, words of the command line, and sources and sinks.

#![tactic(auto)]

#[cfg(test)]
mod asserts;
#[cfg(test)]
mod files;
#[cfg(test)]
mod outside;
#[cfg(test)]
mod tokens;

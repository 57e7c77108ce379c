//! Tests of the reading call: worked lines, its edges and refusals, and a few hundred random lines against a second reader.
#![tactic(auto)]

#[cfg(test)]
mod edges;
#[cfg(test)]
mod plain;
#[cfg(test)]
mod random;

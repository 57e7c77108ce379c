//! Tests of the register's calls: every refusal with its figure, names of both kinds, and frames of other registers.
#![tactic(auto)]

#[cfg(test)]
mod frames_apart;
#[cfg(test)]
mod roll;

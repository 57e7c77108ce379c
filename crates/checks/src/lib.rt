//! Tests of the libraries through their public calls: worked examples, and every refusal at its edge.
#![tactic(auto)]

#[cfg(test)]
mod answers;
#[cfg(test)]
mod faults_tests;
#[cfg(test)]
mod fields_tests;
#[cfg(test)]
mod frames_tests;
#[cfg(test)]
mod plans_tests;
#[cfg(test)]
mod records_tests;
#[cfg(test)]
mod words_tests;

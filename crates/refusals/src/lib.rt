//! Refusals: what refuses, and the line of a refusal.
#![tactic(auto)]

pub mod refusal;

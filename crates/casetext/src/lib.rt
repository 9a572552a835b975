//! The text of a case: its kinds of lines, what their fields must be, what they say, and what can
//! be wrong with them.
#![tactic(auto)]

pub mod fault;
pub mod line;
pub mod ranks;

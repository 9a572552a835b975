//! Tables of rows over any arena: definitions and the laws that hold of them.
#![tactic(auto)]

pub mod accepted;
pub mod fault;
pub mod odd;
pub mod rounds;
pub mod row;

//! Reads the text of a case.
#![tactic(auto)]

mod capped;
pub mod case;
mod columns;
mod draft;
mod form;
mod interval;
mod item;
mod layout;
pub mod limits;
mod line;
mod lines;
pub mod reader;
pub mod room;
mod text;

// Reading plan files: whether a file is a plan file, and how large its plan is.
#![tactic(auto)]

mod body;
mod checking;
mod header;
mod items;
mod named;
mod numbers;
mod reader;
mod rows;
mod scope;
mod short_list;
mod tables;

pub use checking::check;
pub use numbers::Numbers;

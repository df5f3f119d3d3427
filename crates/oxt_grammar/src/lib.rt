//! The grammar of the tree as a table: kinds, categories, words and the fields of each kind.
#![tactic(auto)]

pub mod category;
pub mod context;
pub mod field;
pub mod holds;
pub mod kind;
pub mod places;
pub mod row;
pub mod word;

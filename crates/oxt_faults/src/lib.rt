//! What is refused: nodes that stand where they may not, and names that would change their owner. Beside them the words
//! at the level of a piece of code, which would mean something else where the code is moved.
#![tactic(auto)]

pub mod around;
pub mod captured;
pub mod earliest;
pub mod free;
pub mod globals;
mod hidden;
pub mod initializer;
pub mod level;
pub mod misplaced;
pub mod moved;
pub mod namespace;
mod outside;
mod private_in;
pub mod reach;
mod redeclared;
mod rules;
mod seat;
pub mod silent;
mod waiting;
pub mod word;
mod written;

//! Hooks on the nodes of a tree, and which of them a node reaches; and what a walk does where it enters and leaves nodes and lists of
//! statements.
#![tactic(auto)]

pub mod body;
pub mod both;
pub mod close;
pub mod dispatch;
pub mod nothing;
pub mod place;
pub mod record;
pub mod traverse;

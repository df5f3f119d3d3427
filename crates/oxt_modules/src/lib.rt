//! The imports and exports of a module: which specifiers and which `import =` are kept once TypeScript is lowered, which
//! statements are removed, and what is left of a program then.
#![tactic(auto)]

pub mod alias;
pub mod due;
pub mod jsx;
pub mod kept;
pub mod marked;
pub mod names;
pub mod removed;
pub mod retain;
pub mod symbols;

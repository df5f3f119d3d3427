//! The words of the command line, as options.
#![tactic(auto)]

mod choices;
pub mod flags;
mod matching;
pub mod options;

pub use flags::Flag;
pub use options::options_of;

//! What each scope of a tree declares, which nodes stand for nothing at run time, which classes and elements of classes
//! decorators call, and the outermost enums of a program, found once for the searches for what can only stand at enums.
#![tactic(auto)]

pub mod all;
pub mod bare;
pub mod calls;
pub mod class;
pub mod collect;
pub mod declaration;
pub mod declares;
pub mod dropped;
pub mod find;
pub mod imports;
pub mod languages;
pub mod names;
pub mod role;
pub mod role_of;
pub mod sites;
pub mod types_alone;

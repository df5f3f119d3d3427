//! The private names of a class.
ghost use Rattle.std.specs.Prelude.{◌≡◌, OnErr, OnOk, option_map};
ghost use Rattle.oxt_names.specs.Made.{added, is_among};
ghost use Rattle.oxt_facts.specs.Privates.{after_front, no_privates, one_of, owner_of_end, storage_owner};

use oxt_names::ids::OutOfMemory;
use oxt_names::uid::UidNames;
use std::alloc::Global;
use std::marker::Model;

/// The private names that a class has of its own, and the made names that are the keys of its setters.
#[derive(Drop)]
pub struct ClassPrivates {
    names: UidNames,
    made: UidNames,
}

impl Model for ClassPrivates {
    ghost use Rattle.oxt_facts.specs.Privates.{Privates};

    ghost Value = { Privates };

    ghost view = { λ c. record { names = c.names; made = c.made } };
}

impl ClassPrivates {
    /// Of a class without elements.
    pub fn new(alloc: Global) -> ClassPrivates
        ensures { result ≡ no_privates }
    {
        ClassPrivates {
            names: UidNames::new(alloc),
            made: UidNames::new(alloc),
        }
    }

    /// Adds a private name of an element.
    ///
    /// # Errors
    ///
    /// Fails only where memory runs out.
    pub fn add_name(&mut self, name: &str) -> Result<(), OutOfMemory>
        ensures added { OnOk result (self.new ≡ record self.old { names = added name.now self.old.names }) }
        ensures kept { OnErr result (self.new ≡ self.old) }
    {
        self.names.take(name)
    }

    /// Adds a made name that is the key of a setter.
    ///
    /// # Errors
    ///
    /// Fails only where memory runs out.
    pub fn add_made(&mut self, name: &str) -> Result<(), OutOfMemory>
        ensures added { OnOk result (self.new ≡ record self.old { made = added name.now self.old.made }) }
        ensures kept { OnErr result (self.new ≡ self.old) }
    {
        self.made.take(name)
    }

    /// Whether the class has the private name of its own.
    pub(crate) fn has(&self, name: &str) -> bool
        ensures { result ≡ is_among name.now self.now.names }
    {
        self.names.has(name)
    }

    /// The made name of a setter of the class whose accessor that private name stores.
    pub(crate) fn made_of<'a>(&self, name: &'a str) -> Option<&'a str>
        ensures { option_map (λ made. made.now) result ≡ one_of self.now.made (storage_owner name.now) }
    {
        match storage_owner(name) {
            Some(made) if self.made.has(made) => Some(made),
            _ => None,
        }
    }
}

/// The end of the names of storages.
const STORAGE_END: &str = "_computed_accessor_storage";

/// The name `m` in `_m_computed_accessor_storage`.
fn storage_owner(name: &str) -> Option<&str>
    ensures { option_map (λ made. made.now) result ≡ storage_owner name.now }
{
    match without_front(name) {
        Some(rest) => without_end(rest),
        None => None,
    }
}

/// The text after an underscore.
#[tactic(auto, using(crate::proofs::Strips::front_of))]
fn without_front(name: &str) -> Option<&str>
    ensures { option_map (λ rest. rest.now) result ≡ after_front name.now }
{
    name.strip_prefix("_")
}

/// The text before the end of the names of storages.
fn without_end(name: &str) -> Option<&str>
    ensures { option_map (λ made. made.now) result ≡ owner_of_end name.now }
{
    name.strip_suffix(STORAGE_END)
}

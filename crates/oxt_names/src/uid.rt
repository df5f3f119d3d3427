//! Names that are made.
ghost use Rattle.std.specs.Prelude.{◌≡◌, [], IfOk, OnErr, OnOk, false};
ghost use Rattle.oxt_names.specs.Names.{name_bytes};
ghost use Rattle.oxt_names.specs.Made.{added, is_among, made_name};

use crate::base::base_of;
use crate::ids::OutOfMemory;
use crate::name::Name;
use crate::table::{self, Table};
use std::alloc::Global;
use std::collections::BTreeMap;
use std::marker::Model;

/// The names that are taken, by the source or by names made before. Contracts see their texts, in the order of their bytes.
#[derive(Drop)]
pub struct UidNames {
    alloc: Global,
    table: Table,
}

impl Model for UidNames {
    ghost use Rattle.std.specs.Prelude.{List, ℕ};
    ghost use Rattle.oxt_names.specs.Tried.{IsTried, spellings};

    ghost Value = { List (List ℕ) };

    ghost view = { λ names. spellings names.table.entries };

    ghost invariant = { λ names. IsTried names.table.entries };
}

impl UidNames {
    /// No names.
    pub fn new(alloc: Global) -> UidNames
        ensures { result ≡ [] }
    {
        UidNames {
            alloc,
            table: BTreeMap::new(alloc),
        }
    }

    /// The same names once more.
    pub fn copy(&self) -> Result<UidNames, OutOfMemory>
        ensures { IfOk result (λ copy. copy ≡ self.now) }
    {
        Ok(UidNames {
            alloc: self.alloc,
            table: self.table.clone()?,
        })
    }

    /// Whether the name is taken.
    pub fn has(&self, name: &str) -> bool
        ensures { result ≡ is_among name.now self.now }
    {
        table::has(&self.table, name)
    }

    /// Takes the name, if it is not taken.
    pub fn take(&mut self, name: &str) -> Result<(), OutOfMemory>
        ensures added { OnOk result (self.new ≡ added name.now self.old) }
        ensures kept { OnErr result (self.new ≡ self.old) }
    {
        table::add(self.alloc, &mut self.table, name)
    }

    /// Makes a name of the text and takes it: an underscore and the text without the underscores at
    /// its front and the digits at its end, and then the same with 2, 3 and so on; the first that is
    /// not taken.
    pub fn generate_uid_name(&mut self, name: &str) -> Result<Name, OutOfMemory>
        ensures first { IfOk result (λ made. name_bytes made ≡ made_name self.old name.now) }
        ensures free { IfOk result (λ made. is_among (name_bytes made) self.old ≡ false) }
        ensures taken { IfOk result (λ made. self.new ≡ added (name_bytes made) self.old) }
        ensures kept { OnErr result (self.new ≡ self.old) }
    {
        let base = base_of(self.alloc, name)?;
        table::make(self.alloc, &mut self.table, base)
    }
}

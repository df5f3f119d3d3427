//! What the names in an initializer mean.
ghost use Rattle.oxt_enums.specs.Tables.{table_meanings};

use crate::owners::Owners;
use crate::tables::Tables;
use oxt_constant::meanings::Meanings;
use oxt_names::constant::ConstantValue;
use oxt_names::ids::NodeId;

/// What names mean behind the members of which the tables tell.
#[derive(Clone, Copy)]
pub struct Names<'t, 'a> {
    pub owners: &'t Owners,
    pub tables: &'t Tables<'a>,
}

impl<'t, 'a> Meanings for Names<'t, 'a> {
    ghost env = { λ s. table_meanings s.owners.now s.tables.now };

    fn bare(&self, reference: NodeId, name: &str) -> Option<&ConstantValue> {
        match self.owners.owner_of(reference) {
            Some(body) => self.tables.in_body(body, name),
            None => None,
        }
    }

    fn member(&self, reference: NodeId, name: &str, key: &str) -> Option<&ConstantValue> {
        match self.owners.owner_of(reference) {
            Some(scope) => self.tables.in_enum(scope, name, key),
            None => None,
        }
    }
}

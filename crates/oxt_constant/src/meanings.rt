//! What names mean where an initializer stands.
ghost use Rattle.std.specs.Prelude.{◌≡◌, ℕ, option_map};
ghost use Rattle.oxt_constant.specs.Evaluated.{Env};
ghost use Rattle.oxt_names.specs.Constant.{constant_view};

use oxt_names::constant::ConstantValue;
use oxt_names::ids::NodeId;

/// The constants that names have where an initializer stands: those of the members that stand
/// before it.
pub trait Meanings {
    // What contracts see of it.
    ghost env: { Self → Env };

    /// The constant of the enum member that the bare name means, by the number of its node and its
    /// text.
    fn bare(&self, reference: NodeId, name: &str) -> Option<&ConstantValue>
        ensures { option_map (λ value. constant_view value.now) result
            ≡ (env self.now).bare reference.0 name.now };

    /// The constant of the member `key` of the enum that the bare name means.
    fn member(&self, reference: NodeId, name: &str, key: &str) -> Option<&ConstantValue>
        ensures { option_map (λ value. constant_view value.now) result
            ≡ (env self.now).member reference.0 name.now key.now };
}

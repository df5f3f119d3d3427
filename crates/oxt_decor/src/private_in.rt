//! Tests of private names with `in`.
//!
//! ```js
//! #size in other
//! ```
ghost use Rattle.std.specs.Prelude.{◌≡◌};
ghost use Rattle.oxt_decor.specs.Tests.{holds_test, is_test};
ghost use Rattle.oxt_tree.specs.View.{node_doc};

use oxt_grammar::kind::Kind;
use oxt_tree::tree::Node;
use oxt_visit::look::visit_js;
use oxt_visit::visitor::VisitJs;

/// A visitor that notes whether it met a test of a private name. The pass asks `oxt_fields`, which leaves out
/// what is erased.
#[derive(Clone, Copy)]
pub struct PrivateInExpressionDetector {
    has_met_one: bool,
}

impl PrivateInExpressionDetector {
    /// Whether one of the expressions in the expression, itself among them, is such a test.
    #[tactic(auto, using(crate::proofs::Tests::tests_noted))]
    pub fn has_private_in_expression(expression: &Node) -> bool
        ensures { result ≡ holds_test (node_doc expression.now) }
    {
        let mut detector = PrivateInExpressionDetector { has_met_one: false };
        visit_js(&mut detector, expression);
        detector.has_met_one
    }
}

impl VisitJs for PrivateInExpressionDetector {
    ghost use Rattle.std.specs.Prelude.{Bool};
    ghost use Rattle.oxt_decor.specs.Tests.{note_test};

    ghost Notes = { Bool };

    ghost notes = { λ detector. detector.has_met_one };

    ghost note = { note_test };

    fn visit_expression(&mut self, node: &Node) {
        if is_test(node) {
            self.has_met_one = true;
        }
    }
}

/// Whether the node is such a test.
fn is_test(node: &Node) -> bool
    ensures { result ≡ is_test (node_doc node.now) }
{
    node.kind.is(Kind::PrivateInExpression)
}

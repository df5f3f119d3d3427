//! The first nodes that declare spellings in scopes.
ghost use Rattle.std.specs.Prelude.{◌≡◌, IfOk, List, OnOk, Some, if◌then◌else◌, ℕ};
ghost use Rattle.oxt_declares.specs.Declarations.{declared_view};
ghost use Rattle.oxt_resolve.specs.Groups.{all_noted, first_at, first_of, is_there, node_at, noted, noted_in, used_group};
ghost use Rattle.oxt_scopes.specs.Stack.{number_at};
ghost use Rattle.oxt_scopes.specs.Views.{opened_view, opened_views};

use oxt_declares::declaration::Declaration;
use oxt_names::ids::{NodeId, OutOfMemory};
use oxt_scopes::owners::OwnedName;
use oxt_scopes::scopes::OpenedScope;
use std::alloc::Global;
use std::collections::HashMap;

/// The number of the first node that declares each spelling in each scope.
#[derive(Drop)]
pub struct Firsts<'a> {
    nodes: HashMap<(u64, &'a str), u64>,
}

impl<'a> Firsts<'a> {
    /// What these scopes declare.
    ///
    /// # Errors
    ///
    /// Fails only where memory runs out.
    pub fn of(alloc: Global, scopes: &[OpenedScope<'a>]) -> Result<Firsts<'a>, OutOfMemory>
        ensures { IfOk result (λ firsts. first_at firsts ≡ first_of (opened_views scopes.now)) }
    {
        let mut firsts = Firsts {
            nodes: HashMap::new(alloc),
        };
        firsts.note_all(scopes)?;
        Ok(firsts)
    }

    /// Notes what the scopes declare.
    fn note_all(&mut self, scopes: &[OpenedScope<'a>]) -> Result<(), OutOfMemory>
        ensures { OnOk result (first_at self.new ≡ all_noted (opened_views scopes.now) (first_at self.old)) }
    {
        for scope in scopes {
            self.note_each(scope)?;
        }
        Ok(())
    }

    /// Notes what the scope declares.
    fn note_each(&mut self, scope: &OpenedScope<'a>) -> Result<(), OutOfMemory>
        ensures { OnOk result (first_at self.new ≡ noted_in (first_at self.old) (opened_view scope.now)) }
    {
        let number = scope.number;
        for declaration in scope.declarations.as_slice() {
            self.note(number, declaration)?;
        }
        Ok(())
    }

    /// Notes the declaration in the scope of that number, unless one of its spelling is noted there.
    #[tactic(auto, using(crate::proofs::Noted::note_steps))]
    fn note(&mut self, scope: NodeId, declaration: &Declaration<'a>) -> Result<(), OutOfMemory>
        ensures { OnOk result (first_at self.new ≡ noted scope.0 (first_at self.old) (declared_view declaration.now)) }
    {
        match self.first_of(scope, declaration.name) {
            Some(_) => Ok(()),
            None => self.put(scope, declaration.name, declaration.node),
        }
    }

    /// Puts the node that declares the spelling in the scope of that number.
    fn put(&mut self, scope: NodeId, name: &'a str, node: NodeId) -> Result<(), OutOfMemory>
        ensures { OnOk result ((n : ℕ) (t : List ℕ) → node_at n t self.new.nodes.entries
            ≡ (if is_there n t scope.0 name.now then Some node.0 else node_at n t self.old.nodes.entries)) }
    {
        self.nodes.insert((scope.0, name), node.0)?;
        Ok(())
    }

    /// The number of the first node that declares the spelling in the scope of that number.
    pub fn first_of(&self, scope: NodeId, name: &str) -> Option<u64>
        ensures { result ≡ node_at scope.0 name.now self.now.nodes.entries }
    {
        self.nodes.get(&(scope.0, name)).copied()
    }

    /// The same of the spelling of a name that is used, in the scope that owns it.
    pub fn used_group(&self, name: &OwnedName) -> Option<u64>
        ensures { result ≡ used_group (first_at self.now) (number_at name.now.owner) name.now.name.now }
    {
        match name.owner {
            Some(scope) => self.first_of(scope, name.name),
            None => None,
        }
    }
}

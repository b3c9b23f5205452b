//! A declaration.

ghost use Rattle.std.specs.Prelude.{◌≡◌, IfOk};
ghost use Rattle.lasp_graph.specs.Prelude.{decl_of};

use super::kind::Kind;
use lasp_value::Name;
use std::alloc::AllocError;

/// A declaration: a variable's name, and what the variable is.
#[derive(Drop)]
pub struct Decl {
    /// The name, which no other declaration of the graph has.
    pub name: Name,
    /// What the variable is.
    pub kind: Kind,
}

impl Decl {
    /// An equal declaration, with a copy of the name and of the operations of its function.
    pub fn try_clone(&self) -> Result<Decl, AllocError>
        ensures { IfOk result (λ d. decl_of d ≡ decl_of self.now) }
    {
        let name = self.name.try_clone()?;
        let kind = self.kind.try_clone()?;
        Ok(Decl { name, kind })
    }
}

// What the bodies of functions come to (C99 6.9.1).

use mdr_core::{Items, Local, OutOfMemory, Place};
use mdr_faults::{Fault, Scope};
use mdr_rich::Stmt;
use mdr_syntax::{Head, Node};
use std::alloc::Global;

/// A function's body: which of its parameters are objects, its locals and its statements.
#[derive(Drop)]
pub struct Body {
    pub objects: Items<bool>,
    pub locals: Items<Local>,
    pub statements: Items<Stmt>,
}

/// The rule of bodies. The scope is that behind the name of the function.
pub trait Bodies {
    ghost use Rattle.std.specs.Prelude.{◌≡◌, ℕ, List, Option, IfOk};
    ghost use Rattle.mdr_core.specs.declared.place.Place.{Place as OnePlace};
    ghost use Rattle.mdr_syntax.specs.declared.tree.Head.{Head as OneHead};
    ghost use Rattle.mdr_syntax.specs.declared.tree.Node.{Node as OneNode};
    ghost use Rattle.mdr_headings.specs.declared.body.Body.{Body as OneBody};
    ghost use Rattle.mdr_faults.specs.declared.scope.Scope.{Scope as OneScope};
    ghost use Rattle.mdr_faults.specs.Faults.{Checked, told};

    ghost rule: { Self → OneScope → OneHead → List OneNode → Checked OneBody };

    ghost used: { Self → OneHead → List OneNode → List ℕ → Option OnePlace };

    /// What a body comes to.
    fn body(
        &self,
        alloc: Global,
        scope: &Scope,
        h: &Head,
        nodes: &[Node],
    ) -> Result<Result<Body, Fault>, OutOfMemory>
        ensures { IfOk result (λ r. r ≡ told (rule self.now scope.now h.now nodes.now)) };

    /// Where a body first uses a name for what the file declares by it.
    fn first_use(&self, h: &Head, nodes: &[Node], name: &[u8]) -> Option<Place>
        ensures { result ≡ used self.now h.now nodes.now name.now };
}

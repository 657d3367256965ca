//! Denied bindings, and which of them have a mark.
ghost use Rattle.std.specs.Prelude.{◌≡◌, ◌≢◌, [], ◌∷◌, ◌++◌, Some, IfOk, OnOk, OnErr};
ghost use Rattle.std.specs.List.{flat_map};
ghost use Rattle.audit_core.specs.Text.{denied_text};

use crate::denied::Denied;
use crate::marks::Marks;
use std::alloc::{AllocError, Global};
use std::fmt;
use std::marker::Model;

/// Denied bindings, in order.
pub struct DeniedList {
    marks: Marks,
    // The first denied binding that has no mark, since its number or the place of its key does not
    // fit 16 bits, and all that come behind it. A request of at most `MAX_REQUEST` octets has none,
    // but no caller owes that, so that any list can be kept.
    rest: Vec<Denied>,
}

// By hand, so that who lets one go knows nothing of its parts.
impl Drop for DeniedList {
    fn drop(self) {
        let DeniedList {
            marks: _marks,
            rest: _rest,
        } = self;
    }
}

impl Model for DeniedList {
    ghost use Rattle.std.specs.Prelude.{List, ◌++◌};
    ghost use Rattle.audit_core.specs.declared.denied.Denied.{Denied};
    ghost use Rattle.audit_core.specs.Marks.{AreUnmarked};

    ghost Value = { List Denied };

    ghost view = { λ d. d.marks ++ d.rest.items };

    ghost invariant = { λ d. AreUnmarked d.marks d.rest.items };
}

impl DeniedList {
    /// No denied bindings. Takes no memory.
    pub fn new(alloc: Global) -> DeniedList
        ensures { result ≡ [] }
    {
        DeniedList {
            marks: Marks::new(alloc),
            rest: Vec::new(alloc),
        }
    }

    /// A copy. Takes memory, but for no denied bindings.
    pub fn try_copy(&self, alloc: Global) -> Result<DeniedList, AllocError>
        ensures value { IfOk result (λ copy. copy ≡ self.now) }
    {
        let marks = self.marks.try_copy(alloc)?;
        let rest = copied(alloc, self.rest.as_slice())?;
        Ok(DeniedList { marks, rest })
    }

    /// Adds a denied binding at the end. Takes memory; without it, nothing changes and the denied
    /// binding is let go.
    pub fn push(&mut self, denied: Denied) -> Result<(), AllocError>
        ensures ok { OnOk result (self.new ≡ self.old ++ denied ∷ []) }
        ensures err { OnErr result (self.new ≡ self.old) }
    {
        let unmarked = if self.rest.is_empty() {
            self.marks.push(denied)?
        } else {
            Some(denied)
        };
        if let Some(denied) = unmarked {
            self.rest.push(denied)?;
        }
        Ok(())
    }
}

/// One behind the other.
impl fmt::Display for DeniedList {
    ghost output = { λ all. Some (flat_map denied_text all) };

    fn fmt<W: fmt::Write>(&self, f: &mut fmt::Formatter<W>) -> fmt::Result {
        let marks = &self.marks;
        let rest = WrittenRest(self.rest.as_slice());
        write!(f, "{marks}{rest}")
    }
}

// Copies of denied bindings. Takes memory where there are some.
fn copied(alloc: Global, items: &[Denied]) -> Result<Vec<Denied>, AllocError>
    ensures { IfOk result (λ copies. copies.items ≡ items.now) }
{
    let mut copies = Vec::with_capacity(alloc, items.len())?;
    for denied in items {
        copies.push(denied.try_copy(alloc)?)?;
    }
    Ok(copies)
}

// How denied bindings are written.
#[derive(Drop)]
struct WrittenRest<'a>(&'a [Denied]);

/// One behind the other.
impl fmt::Display for WrittenRest<'_> {
    ghost output = { λ rest. Some (flat_map denied_text rest.0.now) };

    fn fmt<W: fmt::Write>(&self, f: &mut fmt::Formatter<W>) -> fmt::Result {
        for denied in self.0 {
            write!(f, "{denied}")?;
        }
        Ok(())
    }
}

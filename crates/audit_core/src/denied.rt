//! The variable bindings of a request that are not in the view.
ghost use Rattle.std.specs.Prelude.{◌≡◌, ◌≢◌, ◌↔◌, [], ◌∷◌, ◌++◌, ◌<◌, length, Some, None, IsTrue, IfSome, IsOk, IfOk, OnOk, OnErr};
ghost use Rattle.std.specs.List.{flat_map};
ghost use Rattle.std.specs.Option.{option_copied};
ghost use Rattle.audit_core.specs.Text.{denied_text};

use crate::denied_list::DeniedList;
use crate::keys::FamilyKey;
use oid_core::INLINE_NUMBERS;
use std::alloc::{AllocError, Global};
use std::fmt;
use std::marker::Model;

/// A variable binding of a request whose name is not in the view.
#[derive(Drop)]
pub struct Denied {
    /// The number of the binding, from 1 on.
    pub index: usize,
    /// The family that excludes the name, or none where no family of the view has it.
    pub family: Option<FamilyKey>,
}

impl Denied {
    /// A copy. There can be no memory for it only where the subtree of its family has more than
    /// `INLINE_NUMBERS` sub-identifiers.
    pub fn try_copy(&self, alloc: Global) -> Result<Denied, AllocError>
        ensures value { IfOk result (λ copy. copy ≡ self.now) }
        ensures inline { OnErr result (IfSome self.now.family (λ family.
            INLINE_NUMBERS < length family.subtree)) }
        ensures none { self.now.family ≡ None → IsOk result }
    {
        let family = match &self.family {
            Some(family) => Some(family.try_copy(alloc)?),
            None => None,
        };
        Ok(Denied {
            index: self.index,
            family,
        })
    }
}

/// As ` denied 1 family(bridge,1.3.6.1.2.1.17)` or ` denied 1 none`.
impl fmt::Display for Denied {
    ghost output = { λ denied. Some (denied_text denied) };

    fn fmt<W: fmt::Write>(&self, f: &mut fmt::Formatter<W>) -> fmt::Result {
        let index = self.index;
        let family = self.family.as_ref();
        let denied = WrittenDenied { index, family };
        write!(f, "{denied}")
    }
}

/// How a denied binding is written, whose key stands elsewhere.
#[derive(Drop)]
pub struct WrittenDenied<'a> {
    /// The number of the binding.
    pub index: usize,
    /// The key of the family that excludes its name, if one does.
    pub family: Option<&'a FamilyKey>,
}

/// As that of [`Denied`].
impl fmt::Display for WrittenDenied<'_> {
    ghost output = { λ denied. Some (denied_text (record {
      index = denied.index;
      family = option_copied denied.family;
    })) };

    fn fmt<W: fmt::Write>(&self, f: &mut fmt::Formatter<W>) -> fmt::Result {
        let index = self.index;
        match self.family {
            Some(family) => write!(f, " denied {index} {family}"),
            None => write!(f, " denied {index} none"),
        }
    }
}

/// The denied bindings of a request, in order. The key of each family is kept once, and a binding
/// takes a few octets: its number, and the place of its key among those. They lie in memory of their
/// own, for audits are moved about, and few have some.
pub struct DeniedBindings {
    alloc: Global,
    // None where nothing is denied.
    list: Option<Box<DeniedList>>,
}

// By hand, so that who lets one go knows nothing of its parts.
impl Drop for DeniedBindings {
    fn drop(self) {
        let DeniedBindings {
            alloc: _alloc,
            list: _list,
        } = self;
    }
}

impl Model for DeniedBindings {
    ghost use Rattle.std.specs.Prelude.{List};
    ghost use Rattle.audit_core.specs.declared.denied.Denied.{Denied};
    ghost use Rattle.audit_core.specs.Denials.{denied_in, IsDenials};

    ghost Value = { List Denied };

    ghost view = { λ d. denied_in d.list };

    ghost invariant = { λ d. IsDenials d.list };
}

impl DeniedBindings {
    /// No denied bindings. Takes no memory.
    pub fn new(alloc: Global) -> DeniedBindings
        ensures { result ≡ [] }
    {
        DeniedBindings { alloc, list: None }
    }

    /// Whether nothing is denied.
    pub fn is_empty(&self) -> bool
        ensures { IsTrue result ↔ (self.now ≡ []) }
    {
        self.list.is_none()
    }

    /// A copy. Takes memory, but for no denied bindings.
    pub fn try_copy(&self, alloc: Global) -> Result<DeniedBindings, AllocError>
        ensures value { IfOk result (λ copy. copy ≡ self.now) }
        ensures some { OnErr result (self.now ≢ []) }
    {
        let list = match &self.list {
            Some(list) => Some(Box::new(alloc, list.try_copy(alloc)?)?),
            None => None,
        };
        Ok(DeniedBindings { alloc, list })
    }

    /// Adds a denied binding at the end. Takes memory; without it, nothing changes and the denied
    /// binding is let go.
    pub fn push(&mut self, denied: Denied) -> Result<(), AllocError>
        ensures ok { OnOk result (self.new ≡ self.old ++ denied ∷ []) }
        ensures err { OnErr result (self.new ≡ self.old) }
    {
        if let Some(list) = &mut self.list {
            return list.push(denied);
        }
        let mut list = DeniedList::new(self.alloc);
        list.push(denied)?;
        self.list = Some(Box::new(self.alloc, list)?);
        Ok(())
    }
}

/// One behind the other.
impl fmt::Display for DeniedBindings {
    ghost output = { λ all. Some (flat_map denied_text all) };

    fn fmt<W: fmt::Write>(&self, f: &mut fmt::Formatter<W>) -> fmt::Result {
        match &self.list {
            Some(list) => write!(f, "{list}"),
            None => Ok(()),
        }
    }
}

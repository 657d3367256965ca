//! A variable binding, and a list of them (RFC 3416, section 3).
ghost use Rattle.std.specs.Prelude.{◌≡◌, ◌≢◌, ◌<◌, ◌↔◌, [], ◌∷◌, ◌++◌, length, vec_capacity, IsTrue, IsOk, IfOk, OnOk, OnErr};
ghost use Rattle.message_core.specs.Inline.{IsInlineBinding};
ghost use Rattle.message_core.specs.Encodable.{IsEncodableBinding};

use crate::value::Value;
use oid_core::Oid;
use std::alloc::{AllocError, Global};
use std::marker::Model;

/// A variable binding: a name and its value (VarBind of RFC 3416, section 3).
#[derive(Drop)]
pub struct Binding {
    /// The name of the variable.
    pub name: Oid,
    /// Its value.
    pub value: Value,
}

impl Binding {
    /// A copy. Takes memory only where its value's copy does, and for a name of more than
    /// `INLINE_NUMBERS` sub-identifiers.
    pub fn try_copy(&self, alloc: Global) -> Result<Binding, AllocError>
        ensures value { IfOk result (λ copy. copy ≡ self.now) }
        ensures inline { IsInlineBinding self.now → IsOk result }
    {
        let name = self.name.try_copy(alloc)?;
        let value = self.value.try_copy(alloc)?;
        Ok(Binding { name, value })
    }

    /// Whether it has an encoding: whether its name and an OBJECT IDENTIFIER value begin as X.690,
    /// 8.19.4 asks.
    pub fn is_encodable(&self) -> bool
        ensures { IsTrue result ↔ IsEncodableBinding self.now }
    {
        self.name.is_encodable() && self.value.is_encodable()
    }

    /// Whether two bindings are equal. Takes no memory.
    pub fn same(&self, other: &Binding) -> bool
        ensures { IsTrue result ↔ (self.now ≡ other.now) }
    {
        self.name == other.name && self.value.same(&other.value)
    }
}

/// The variable bindings of a message, in order (VarBindList of RFC 3416, section 3).
pub struct Bindings {
    items: Vec<Binding>,
}

// By hand: who drops one then knows nothing of its parts.
impl Drop for Bindings {
    fn drop(self) {
        let Bindings { items: _items } = self;
    }
}

impl Model for Bindings {
    ghost use Rattle.std.specs.Prelude.{List};
    ghost use Rattle.message_core.specs.declared.binding.Binding.{Binding};

    ghost Value = { List Binding };

    ghost view = { λ b. b.items.items };
}

// Takes memory for another binding, if none is left. The first takes memory for itself alone.
fn make_space(items: &mut Vec<Binding>) -> Result<(), AllocError>
    ensures same { items.new.items ≡ items.old.items }
    ensures space { OnOk result (length items.new.items < vec_capacity items.new) }
{
    if items.len() < items.capacity() {
        return Ok(());
    }
    if items.is_empty() {
        return items.reserve_exact(1);
    }
    items.reserve(1)
}

impl Bindings {
    /// No bindings.
    pub fn new(alloc: Global) -> Bindings
        ensures { result ≡ [] }
    {
        Bindings {
            items: Vec::new(alloc),
        }
    }

    /// The bindings of a vector. Takes no memory.
    pub fn from_vec(items: Vec<Binding>) -> Bindings
        ensures { result ≡ items.items }
    {
        Bindings { items }
    }

    /// The bindings as a vector. Takes no memory.
    pub fn into_vec(self) -> Vec<Binding>
        ensures { result.items ≡ self }
    {
        let Bindings { items } = self;
        items
    }

    /// Takes memory for so many bindings more. The list stays as it is.
    pub fn reserve(&mut self, more: usize) -> Result<(), AllocError>
        ensures { self.new ≡ self.old }
    {
        self.items.reserve_exact(more)
    }

    /// Adds a binding at the end. Takes memory where none is reserved; without it nothing changes, and the
    /// binding is dropped. Most lists have one binding, so the first takes memory for itself alone.
    #[inline(always)]
    pub fn push(&mut self, binding: Binding) -> Result<(), AllocError>
        ensures ok { OnOk result (self.new ≡ self.old ++ binding ∷ []) }
        ensures err { OnErr result (self.new ≡ self.old) }
    {
        make_space(&mut self.items)?;
        self.items.push_reserved(binding);
        Ok(())
    }

    /// The bindings.
    pub fn as_slice(&self) -> &[Binding]
        ensures { result.now ≡ self.now }
    {
        self.items.as_slice()
    }

    /// A copy. Takes memory, but for no bindings.
    pub fn try_copy(&self, alloc: Global) -> Result<Bindings, AllocError>
        ensures value { IfOk result (λ copy. copy ≡ self.now) }
        ensures some { OnErr result (self.now ≢ []) }
    {
        let mut items = Vec::with_capacity(alloc, self.items.len())?;
        for binding in self.as_slice() {
            items.push(binding.try_copy(alloc)?)?;
        }
        Ok(Bindings { items })
    }

    /// Whether two lists are equal, in their order too. Takes no memory.
    pub fn same(&self, other: &Bindings) -> bool
        ensures { IsTrue result ↔ (self.now ≡ other.now) }
    {
        let (items, others) = (self.as_slice(), other.as_slice());
        items.len() == others.len() && items.iter().zip(others).all(|(one, two)| one.same(two))
    }
}

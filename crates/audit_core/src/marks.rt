//! Denied bindings as small marks, beside the distinct keys of their families.
ghost use Rattle.std.specs.Prelude.{◌≡◌, ◌≢◌, ◌↔◌, [], ◌∷◌, ◌++◌, Some, IsTrue, IfOk, OnOk, OnErr, MatchOption};
ghost use Rattle.std.specs.Option.{option_copied};
ghost use Rattle.std.specs.List.{flat_map};
ghost use Rattle.audit_core.specs.Text.{denied_text};
ghost use Rattle.audit_core.specs.Marks.{key_at, Differ, IsPlaceFor, IsPlaceOf, IsMarkFor, HasNoMark, IsUnmarked, IsWith};

use crate::denied::{Denied, WrittenDenied};
use crate::keys::FamilyKey;
use std::alloc::{AllocError, Global};
use std::fmt;
use std::marker::Model;

// A denied binding, by two numbers of 16 bits.
#[derive(Clone, Copy)]
struct Mark {
    // The number of the binding.
    index: u16,
    // The place of the key of its family among the distinct keys.
    family: Option<u16>,
}

impl Mark {
    // Whether the key of the family has this place.
    fn is_at(&self, place: usize) -> bool
        ensures { IsTrue result ↔ (self.now.family ≡ Some place) }
    {
        match self.family {
            Some(own) => usize::from(own) == place,
            None => false,
        }
    }
}

/// Denied bindings as marks, and the key of each family once.
pub struct Marks {
    marks: Vec<Mark>,
    keys: Vec<FamilyKey>,
}

// By hand, so that who lets one go knows nothing of its parts.
impl Drop for Marks {
    fn drop(self) {
        let Marks {
            marks: _marks,
            keys: _keys,
        } = self;
    }
}

impl Model for Marks {
    ghost use Rattle.std.specs.Prelude.{List};
    ghost use Rattle.audit_core.specs.declared.denied.Denied.{Denied};
    ghost use Rattle.audit_core.specs.Marks.{marked, AreMarks};

    ghost Value = { List Denied };

    ghost view = { λ m. marked m.keys.items m.marks.items };

    ghost invariant = { λ m. AreMarks m.keys.items m.marks.items };
}

impl Marks {
    /// No marks. Takes no memory.
    pub fn new(alloc: Global) -> Marks
        ensures { result ≡ [] }
    {
        Marks {
            marks: Vec::new(alloc),
            keys: Vec::new(alloc),
        }
    }

    /// A copy. Takes memory, but for no marks.
    pub fn try_copy(&self, alloc: Global) -> Result<Marks, AllocError>
        ensures value { IfOk result (λ copy. copy ≡ self.now) }
        ensures some { OnErr result (self.now ≢ []) }
    {
        if self.marks.is_empty() {
            return Ok(Marks::new(alloc));
        }
        let marks = Vec::from_slice(alloc, self.marks.as_slice())?;
        let keys = copied_keys(alloc, self.keys.as_slice())?;
        Ok(Marks { marks, keys })
    }

    /// Adds the mark of a denied binding at the end, or gives the denied binding back, if it has no
    /// mark: its number or the place of its key does not fit 16 bits. Takes memory; without it,
    /// nothing changes and the denied binding is let go.
    pub fn push(&mut self, denied: Denied) -> Result<Option<Denied>, AllocError>
        ensures ok { IfOk result (λ back. MatchOption back (self.new ≡ self.old ++ denied ∷ [])
            (λ unmarked. (unmarked ≡ denied) × IsUnmarked self.old denied
            × (self.new ≡ self.old))) }
        ensures err { OnErr result (self.new ≡ self.old) }
    {
        let Some(mark) = mark_for(self.keys.as_slice(), &denied) else {
            return Ok(Some(denied));
        };
        self.marks.reserve(1)?;
        let Denied { index: _, family } = denied;
        put_key(&mut self.keys, &mark, family)?;
        self.marks.push_reserved(mark);
        Ok(None)
    }
}

/// One behind the other.
impl fmt::Display for Marks {
    ghost output = { λ all. Some (flat_map denied_text all) };

    fn fmt<W: fmt::Write>(&self, f: &mut fmt::Formatter<W>) -> fmt::Result {
        for mark in self.marks.as_slice() {
            let denied = written(self.keys.as_slice(), mark);
            write!(f, "{denied}")?;
        }
        Ok(())
    }
}

// Copies of keys. Takes memory where there are some.
fn copied_keys(alloc: Global, keys: &[FamilyKey]) -> Result<Vec<FamilyKey>, AllocError>
    ensures { IfOk result (λ copies. copies.items ≡ keys.now) }
{
    let mut copies = Vec::with_capacity(alloc, keys.len())?;
    for key in keys {
        copies.push(key.try_copy(alloc)?)?;
    }
    Ok(copies)
}

// The place of a key among distinct ones, or behind them all where it does not stand among them. The
// last is compared first, since bindings side by side mostly have one family. Takes no memory.
fn place_for(keys: &[FamilyKey], key: &FamilyKey) -> usize
    requires { Differ keys.now }
    ensures { IsPlaceFor keys.now key.now result }
{
    match keys.iter().rposition(|other| other.same(key)) {
        Some(place) => place,
        None => keys.len(),
    }
}

// The mark of a denied binding, if its number and the place of its key fit 16 bits. Takes no memory.
fn mark_for(keys: &[FamilyKey], denied: &Denied) -> Option<Mark>
    requires { Differ keys.now }
    ensures { MatchOption result (HasNoMark keys.now denied.now)
        (λ mark. IsMarkFor keys.now denied.now mark) }
{
    let index = u16::try_from(denied.index).ok()?;
    let family = match &denied.family {
        Some(key) => Some(u16::try_from(place_for(keys, key)).ok()?),
        None => None,
    };
    Some(Mark { index, family })
}

// Adds the key of a family behind the others, if that is the place that its mark has. Without memory
// for it, nothing changes.
fn put_key(
    keys: &mut Vec<FamilyKey>,
    mark: &Mark,
    family: Option<FamilyKey>,
) -> Result<(), AllocError>
    requires { IsPlaceOf keys.old.items family mark.now.family }
    ensures ok { OnOk result (key_at keys.new.items mark.now.family ≡ family) }
    ensures added { OnOk result (IsWith keys.old.items family keys.new.items) }
    ensures err { OnErr result (keys.new.items ≡ keys.old.items) }
{
    let Some(key) = family else {
        return Ok(());
    };
    if mark.is_at(keys.len()) {
        keys.push(key)?;
    }
    Ok(())
}

// What is written of a mark.
fn written<'a>(keys: &'a [FamilyKey], mark: &Mark) -> WrittenDenied<'a>
    ensures index { result.index ≡ mark.now.index }
    ensures family { option_copied result.family ≡ key_at keys.now mark.now.family }
{
    WrittenDenied {
        index: usize::from(mark.index),
        family: match mark.family {
            Some(place) => keys.get(usize::from(place)),
            None => None,
        },
    }
}

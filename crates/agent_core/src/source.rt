//! What a walk and a request are answered from, and what a view shows, as traits.
ghost use Rattle.std.specs.Prelude.{◌≡◌, ◌+◌, ◌++◌, ◌<◌, ◌≤◌, IfOk, IfSome, OnErr, length};
ghost use Rattle.oid_core.specs.declared.limits.TheConstants.{INLINE_NUMBERS, MAX_NUMBERS};
ghost use Rattle.setphase_core.specs.Walking.{first_place};

use message_core::Value;
use oid_core::Oid;
use setphase_core::Spot;
use std::alloc::{AllocError, Global};
use std::sync::ledger::Ledger;
use steps::Steps;

/// Near no object: a search for a name has no place to begin at.
pub(crate) const NOWHERE: usize = usize::MAX;

/// Where a walk stands at a name: the place of the name among the objects, and up to where it is
/// known that the view shows them whole.
#[derive(Clone, Copy, Debug, PartialEq, Eq)]
pub struct Stand {
    /// `Ok`: the place of the object whose name begins the name. `Err`: there is none, and this is the
    /// place of the first object whose name is greater, or the end.
    pub place: Result<usize, usize>,
    /// Of the objects from that place on and in front of this one the view shows every name.
    pub until: usize,
    /// Of those in front of this one it is known that the view is not seen to hide them whole.
    pub open_until: usize,
    /// The place of the object at which the view was asked last for a front. At that place no other
    /// front is asked for. No clause depends on it, only time does.
    pub asked: Option<usize>,
}

impl Stand {
    /// Where a walk stands at the place of a name, when it knows nothing of the view.
    pub fn at(place: Result<usize, usize>) -> Stand
        ensures place { result.place ≡ place }
        ensures until { result.until ≡ 0 }
        ensures open { result.open_until ≡ 0 }
    {
        Stand {
            place,
            until: 0,
            open_until: 0,
            asked: None,
        }
    }
}

// The place of the first object that may have an instance behind a name, by the place of the name.
pub(crate) fn first_place(place: Result<usize, usize>) -> usize
    ensures { result ≡ first_place place }
{
    match place {
        Ok(place) => place,
        Err(place) => place,
    }
}

/// A view of names (RFC 3415, 2.4): which of them may be read.
pub trait View {
    ghost use Rattle.std.specs.Prelude.{List, ℕ, Bool};

    // Whether a name is in the view.
    ghost shows: { Self → List ℕ → Bool };

    /// What a walk keeps of the view from one name to the next.
    type Lookup: Drop;

    // Whether something is kept of this view.
    ghost is_lookup: { Self → Self.Lookup → Type 0 };

    /// Whether a name is in the view (RFC 3415, 2.4).
    fn has_name(&self, name: &Oid) -> bool
        ensures { result ≡ shows self.now name.now };

    /// What a walk keeps of the view, of no name yet. There is none where nothing is to be kept, or where
    /// there is no memory for it; no answer depends on that.
    fn lookup(&self, alloc: Global) -> Option<Self::Lookup>
        ensures { IfSome result (λ lookup. is_lookup self.now lookup) };

    /// The same as `has_name`, with what is kept of the name before: it takes less time where the two
    /// begin alike.
    fn has_name_by(&self, name: &Oid, lookup: &mut Self::Lookup) -> bool
        requires { is_lookup self.now lookup.old }
        ensures shown { result ≡ shows self.now name.now }
        ensures lookup { is_lookup self.now lookup.new };
}

/// Instances in the order of their names, each of which can be served, as a walk sees them, and the
/// view that shows some of them: the walk may ask where the instance after a name stands, and each
/// time is a step in the ledger that the trait names. Its name and its value are made where they are
/// wanted. A function of this bound alone asks for no value under a name, and counts its steps in no
/// other ledger.
pub trait Successors<L: Ledger>: View {
    ghost use Rattle.std.specs.Prelude.{List, ℕ, true, if◌then◌else◌, Some, None, IsTrue};
    ghost use Rattle.setphase_core.specs.declared.passing.Spot.{Spot};
    ghost use Rattle.message_core.specs.Instances.{IsServable, next_of};
    ghost use Rattle.message_core.specs.declared.binding.Binding.{Binding};
    ghost use Rattle.agent_core.specs.declared.source.Stand.{Stand};

    // All instances.
    ghost instances: { Self → List Binding };

    // The instance at a spot, and whether one stands there.
    ghost at: { Self → Spot → Binding };

    ghost is_there: { Self → Spot → Type 0 };

    // Whether a walk stands at a name.
    ghost stands: { Self → Stand → List ℕ → Type 0 };

    /// Hands on that the names rise and that each instance can be served. It does nothing, and only
    /// proofs want it.
    fn known(&self)
        ensures { IsServable (instances self.now) };

    /// Where a walk from a name stands. It takes no memory.
    fn start(&self, name: &[u32]) -> Stand
        ensures { stands self.now result name.now };

    /// The same, beside a walk that stands at another name. It may take less time where both names
    /// are under one object, or under neighbours.
    fn start_beside(&self, name: &[u32], other: &Stand) -> Stand
        requires { (at : List ℕ) × stands self.now other.now at }
        ensures { stands self.now result name.now };

    /// Writes where the first instance after a name stands, and says whether there is one (RFC 3416,
    /// 4.2.2): the walk stands at its name then; where there is none, it stands at no known name, and
    /// the spot may be any. It is one step, and takes no memory.
    fn next(&self, name: &[u32], stand: &mut Stand, spot: &mut Spot, steps: &mut Steps<L>) -> bool
        requires { stands self.now stand.old name.now }
        ensures found { (if result then Some (at self.now spot.new) else None)
            ≡ next_of (instances self.now) name.now }
        ensures there { IsTrue result → is_there self.now spot.new }
        ensures stands { IsTrue result → stands self.now stand.new (at self.now spot.new).name }
        ensures work { steps.new ≡ steps.old + 1 };

    /// The front of the name of the instance at a spot, behind which its index stands; together they have
    /// at most `MAX_NUMBERS`, 128, numbers. It takes no memory.
    fn prefix(&self, spot: &Spot) -> &[u32]
        requires { is_there self.now spot.now }
        ensures name { result.now ++ spot.now.index.items ≡ (at self.now spot.now).name }
        ensures most { length (at self.now spot.now).name ≤ MAX_NUMBERS };

    /// The name of the instance at a spot. Only memory can fail, and only for a name above
    /// `INLINE_NUMBERS`, 24, numbers.
    fn name(&self, alloc: Global, spot: &Spot) -> Result<Oid, AllocError>
        requires { is_there self.now spot.now }
        ensures name { IfOk result (λ name. name ≡ (at self.now spot.now).name) }
        ensures long { OnErr result (INLINE_NUMBERS < length (at self.now spot.now).name) };

    /// Writes its value in place of the value that it is lent. It takes no memory.
    fn value_into(&self, alloc: Global, spot: &Spot, into: &mut Value)
        requires { is_there self.now spot.now }
        ensures { into.new ≡ (at self.now spot.now).value };

    /// Whether it is known already that the view shows the name at which a walk stands.
    fn is_known_shown(&self, stand: &Stand) -> bool
        ensures { result ≡ true → (name : List ℕ) → stands self.now stand.now name →
            Self.shows self.now name ≡ true };

    /// Whether the view shows a name at which a walk stands. It asks the view: `is_known_shown` says where
    /// that is not needed.
    fn is_shown(&self, name: &Oid, stand: &mut Stand) -> bool
        requires { stands self.now stand.old name.now }
        ensures shown { result ≡ Self.shows self.now name.now }
        ensures stands { stands self.now stand.new name.now };
}

/// The same instances, whose values can be asked for by name, and the objects that they belong to, none
/// of whose names begins another's.
pub trait Source<L: Ledger>: Successors<L> {
    ghost use Rattle.std.specs.Prelude.{List, ℕ};
    ghost use Rattle.setphase_core.specs.Registry.{AreApart};
    ghost use Rattle.agent_core.specs.Reading.{object_of};
    ghost use Rattle.message_core.specs.Instances.{value_of};

    // The names of the objects.
    ghost objects: { Self → List (List ℕ) };

    /// The name of the object whose name begins a name, where there is one. Only memory can fail.
    fn object(&self, alloc: Global, name: &Oid) -> Result<Option<Oid>, AllocError>
        ensures found { IfOk result (λ found. found ≡ object_of (objects self.now) name.now) }
        ensures apart { AreApart (objects self.now) };

    /// A copy of the value under a name, where an instance has that name (RFC 3416, 4.2.1). Only
    /// memory can fail.
    fn get(&self, alloc: Global, name: &Oid) -> Result<Option<Value>, AllocError>
        ensures { IfOk result (λ found. found ≡ value_of (Self.instances self.now) name.now) };
}

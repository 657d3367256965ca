//! The view of a request, and what is known of the objects in it.
ghost use Rattle.std.specs.Prelude.{◌≡◌, ◌≤◌, ℕ, List, All, true, length, take, IfSome};
ghost use Rattle.oid_core.specs.Order.{is_prefix};
ghost use Rattle.vacm_core.specs.Families.{in_view, is_included, family_answer};
ghost use Rattle.vacm_core.specs.Hiding.{hides_all};

use oid_core::Oid;
use setphase_core::{MibObject, Registry};
use std::alloc::Global;
use std::marker::Model;
use vacm_core::{FamilyLookup, FrontAnswer, Name, Vacm};

// The most names of a request that each ask the view of each object, whatever rows it has.
const FEW_NAMES: usize = 3;

// The most family rows that so many names compare in all, before each object is asked of once.
const FEW_ROWS: usize = 3_000;

// The most family rows that so many names compare in all where each walk asks for a front at each object
// at which it stands.
const FRONT_ROWS: usize = 1_000;

// The most family rows of which a walk keeps nothing from one name to the next.
const FEW_FAMILIES: usize = 64;

// An object, and whether a view is seen to hide it whole.
#[derive(Drop)]
struct KnownObject<'a> {
    prefix: &'a [u32],
    is_hidden: bool,
}

/// A view, by its name and the tables of access control (RFC 3415, 2.4), and of some objects whether it
/// is seen to hide them whole. It is seen as the family rows and the name.
#[derive(Drop)]
pub struct RequestView<'a> {
    vacm: &'a Vacm,
    name: &'a Name,
    // By the places of the objects; where nothing is known there is none.
    objects: Vec<KnownObject<'a>>,
    // Whether answers have fronts.
    gives_fronts: bool,
}

impl<'a> Model for RequestView<'a> {
    ghost use Rattle.std.specs.Prelude.{All, ◌≡◌};
    ghost use Rattle.vacm_core.specs.Hiding.{hides_all};
    ghost use Rattle.agent_core.specs.Views.{ViewRows};

    ghost Value = { ViewRows };

    ghost view = { λ v. record { families = v.vacm.now.families; view = v.name.now } };

    ghost invariant = { λ v. All (λ known.
        known.is_hidden ≡ hides_all v.vacm.now.families v.name.now known.prefix.now) v.objects.items };
}

// What is known of each object, as far as there is memory for it.
fn known_objects<'a, O: MibObject>(
    alloc: Global,
    vacm: &Vacm,
    name: &Name,
    registry: &'a Registry<O>,
) -> Vec<KnownObject<'a>>
    ensures { All (λ known. known.is_hidden ≡ hides_all vacm.now.families name.now known.prefix.now)
        result.items }
{
    let mut objects = Vec::new(alloc);
    for place in 0..registry.len() {
        let prefix = registry.prefix_at(place);
        let is_hidden = vacm.hides_all(name, prefix);
        if objects.push(KnownObject { prefix, is_hidden }).is_err() {
            break;
        }
    }
    objects
}

impl<'a> RequestView<'a> {
    /// The view of a request with so many names. Of many names under many rows the view is asked of
    /// each object once, ahead of them, as far as there is memory for it, and its answers have no fronts,
    /// each of which compares all rows. No answer depends on that.
    pub fn of<O: MibObject>(
        alloc: Global,
        vacm: &'a Vacm,
        name: &'a Name,
        registry: &'a Registry<O>,
        names: usize,
    ) -> RequestView<'a>
        ensures families { result.families ≡ vacm.now.families }
        ensures view { result.view ≡ name.now }
    {
        let compared = names.saturating_mul(vacm.family_count());
        let objects = if names <= FEW_NAMES || compared <= FEW_ROWS {
            Vec::new(alloc)
        } else {
            known_objects(alloc, vacm, name, registry)
        };
        RequestView {
            vacm,
            name,
            objects,
            gives_fronts: compared <= FRONT_ROWS,
        }
    }

    /// Whether the view is seen to hide an object whole, by its name (`Vacm::hides_all`). The place where
    /// the object stands is a hint, on which no answer depends. It takes no memory.
    pub fn hides_all(&self, place: usize, prefix: &[u32]) -> bool
        ensures { result ≡ hides_all self.now.families self.now.view prefix.now }
    {
        match self.objects.get(place) {
            Some(known) if known.prefix == prefix => known.is_hidden,
            _ => self.vacm.hides_all(self.name, prefix),
        }
    }

    /// Whether a name is in the view (RFC 3415, 3.2, step 5). It takes no memory.
    pub fn has(&self, name: &Oid) -> bool
        ensures { result ≡ in_view self.now.families self.now.view name.now }
    {
        self.vacm.in_view(self.name, name).is_included()
    }

    /// The family rows, as a walk asks them of one name after the other. There is none of few rows, or where
    /// there is no memory for it.
    pub fn lookup(&self, alloc: Global) -> Option<FamilyLookup<'a>>
        ensures { IfSome result (λ lookup. lookup ≡ self.now.families) }
    {
        if self.vacm.family_count() <= FEW_FAMILIES {
            return None;
        }
        self.vacm.lookup(alloc).ok()
    }

    /// The same as [`RequestView::has`], with what is kept of the name before.
    pub fn has_by(&self, name: &Oid, lookup: &mut FamilyLookup<'a>) -> bool
        requires { lookup.old ≡ self.now.families }
        ensures shown { result ≡ in_view self.now.families self.now.view name.now }
        ensures lookup { lookup.new ≡ self.now.families }
    {
        lookup.has(self.name, name)
    }

    /// Whether a name is in the view, and, where answers have fronts, the shortest front of it under which the
    /// answer holds for every name (`Vacm::in_view_under`). It takes no memory.
    pub fn under(&self, name: &Oid) -> FrontAnswer
        ensures answer { result.answer ≡ family_answer self.now.families self.now.view name.now }
        ensures shown { IfSome result.front (λ k. (k ≤ length name.now)
            × (is_included result.answer ≡ true → (other : List ℕ) →
            is_prefix (take k name.now) other ≡ true
            → in_view self.now.families self.now.view other ≡ true)) }
    {
        if self.gives_fronts {
            self.vacm.in_view_under(self.name, name)
        } else {
            FrontAnswer {
                answer: self.vacm.in_view(self.name, name),
                front: None,
            }
        }
    }
}

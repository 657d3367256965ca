//! Runs of instances that a view hides, which the walks of one request have passed.
ghost use Rattle.std.specs.Prelude.{◌≡◌, ◌↔◌, List, ℕ, ◌≤◌, ◌<◌, ◌+◌, ◌++◌, [], ◌∷◌, true, false, IfOk, OnOk, IfSome, OnErr, IsTrue, MatchOption, if◌then◌else◌, Some, None, All, Contains, length, vec_capacity};
ghost use Rattle.std.specs.List.{list_any};
ghost use Rattle.std.specs.Option.{option_copied};
ghost use Rattle.oid_core.specs.Order.{name_lt};
ghost use Rattle.oid_core.specs.declared.limits.TheConstants.{INLINE_NUMBERS};
ghost use Rattle.message_core.specs.Instances.{next_of};
ghost use Rattle.agent_core.specs.Reading.{visible};
ghost use Rattle.agent_core.specs.Lookups.{IsPassed, PassesLong};
ghost use Rattle.agent_core.specs.Hidden.{in_run, hidden_left, hidden_beside, IsNoneShown, IsHiddenRun, AreHiddenRuns, IsAheadOf, BeginsBehind};

use crate::source::{Stand, Successors};
use oid_core::{Oid, precedes};
use setphase_core::Spot;
use std::alloc::{AllocError, Global};
use std::sync::ledger::Ledger;
use steps::Steps;

/// Instances that follow one another, none of which a view shows, and the first instance behind them
/// that it shows.
#[derive(Drop)]
pub struct HiddenRun {
    /// The name of the first of them.
    pub first: Oid,
    /// The name of the last.
    pub last: Oid,
    /// Whether the view shows an instance behind them.
    pub found: bool,
    /// Where that instance stands; where there is none, any spot.
    pub spot: Spot,
    /// Where a walk stands at its name.
    pub stand: Stand,
}

impl HiddenRun {
    // Whether a name stands in it: from the name of its first instance to that of its last.
    fn has(&self, name: &Oid) -> bool
        ensures { result ≡ in_run self.now name.now }
    {
        let name = name.as_slice();
        !precedes(name, self.first.as_slice()) && !precedes(self.last.as_slice(), name)
    }

    // Writes where the first instance behind it stands that the view shows, and says whether there is one.
    fn end(&self, stand: &mut Stand, spot: &mut Spot) -> bool
        ensures found { result ≡ self.now.found }
        ensures spot { spot.new ≡ self.now.spot }
        ensures stand { stand.new ≡ self.now.stand }
    {
        copy_spot(&self.spot, spot);
        *stand = self.stand;
        self.found
    }
}

// Writes a spot over another.
fn copy_spot(from: &Spot, into: &mut Spot)
    ensures { into.new ≡ from.now }
{
    into.place = from.place;
    into.index.clear();
    into.index
        .try_extend_from_slice(from.index.as_slice())
        .unwrap();
}

/// The runs of hidden instances that the walks of one request passed, as far as there is memory for them.
#[derive(Drop)]
pub struct HiddenRuns {
    /// The runs.
    pub runs: Vec<HiddenRun>,
}

impl HiddenRuns {
    /// No runs, and no memory for any.
    pub fn none(alloc: Global) -> HiddenRuns
        ensures { result.runs.items ≡ [] }
    {
        HiddenRuns {
            runs: Vec::new(alloc),
        }
    }

    /// No runs, and memory for so many.
    ///
    /// # Errors
    /// `AllocError` where there is no such memory.
    pub fn with_capacity(alloc: Global, most: usize) -> Result<HiddenRuns, AllocError>
        ensures none { IfOk result (λ hidden. hidden.runs.items ≡ []) }
        ensures capacity { IfOk result (λ hidden. most ≤ vec_capacity hidden.runs) }
    {
        Ok(HiddenRuns {
            runs: Vec::with_capacity(alloc, most)?,
        })
    }

    /// Memory for one run more.
    ///
    /// # Errors
    /// `AllocError` where there is no such memory; the runs are as before then.
    pub fn reserve(&mut self) -> Result<(), AllocError>
        ensures same { self.new.runs.items ≡ self.old.runs.items }
        ensures capacity { OnOk result
            (length self.old.runs.items < vec_capacity self.new.runs) }
    {
        self.runs.reserve(1)
    }

    // The run in which a name stands, where there is one.
    fn around(&self, name: &Oid) -> Option<&HiddenRun>
        ensures { MatchOption result
            (list_any (λ run. in_run run name.now) self.now.runs.items ≡ false)
            (λ run. Contains self.now.runs.items run.now × (in_run run.now name.now ≡ true)) }
    {
        for run in &self.runs {
            if run.has(name) {
                return Some(run);
            }
        }
        None
    }

    // The first of the runs that begin behind a name, where there is one.
    fn ahead(&self, name: &Oid) -> Option<&HiddenRun>
        ensures { IsAheadOf self.now.runs.items name.now (option_copied result) }
    {
        let mut least: Option<&HiddenRun> = None;
        for run in &self.runs {
            if is_between(name, &run.first, least) {
                least = Some(run);
            }
        }
        least
    }

    // Keeps a run, where there is memory for it.
    fn keep(&mut self, run: HiddenRun)
        ensures kept { length self.old.runs.items < vec_capacity self.old.runs →
            self.new.runs.items ≡ self.old.runs.items ++ run ∷ [] }
        ensures full { vec_capacity self.old.runs ≤ length self.old.runs.items →
            self.new ≡ self.old }
        ensures capacity { vec_capacity self.new.runs ≡ vec_capacity self.old.runs }
    {
        if self.runs.len() < self.runs.capacity() {
            self.runs.push_reserved(run);
        }
    }
}

// Whether a name is behind another, and in front of that of a run, if there is one.
fn is_between(behind: &Oid, name: &Oid, least: Option<&HiddenRun>) -> bool
    ensures { IsTrue result ↔ (name_lt behind.now name.now ≡ true)
        × BeginsBehind name.now (option_copied least.entry) }
{
    if !precedes(behind.as_slice(), name.as_slice()) {
        return false;
    }
    match least {
        Some(run) => precedes(name.as_slice(), run.first.as_slice()),
        None => true,
    }
}

/// Writes where the first instance behind a hidden one stands that the view shows, and says whether
/// there is one: the walk stands at its name then. The hidden one stands at the spot that is lent. Where
/// it is in a run that is kept, or where the walk reaches one, no instance of that run is passed again; and
/// what the walk passed is kept as a run, as far as there is memory for it.
///
/// Each lookup is a step. Only memory can fail, and only for the name of the hidden instance, or of one
/// that the walk passes or ends at.
pub fn pass_hidden<S: Successors<L>, L: Ledger>(
    alloc: Global,
    source: &S,
    stand: &mut Stand,
    spot: &mut Spot,
    hidden: &mut HiddenRuns,
    steps: &mut Steps<L>,
) -> Result<bool, AllocError>
    requires there { S.is_there source.now spot.old }
    requires stands { S.stands source.now stand.old (S.at source.now spot.old).name }
    requires hides { S.shows source.now (S.at source.now spot.old).name ≡ false }
    requires contained { Contains (S.instances source.now) (S.at source.now spot.old) }
    requires runs { AreHiddenRuns (S.shows source.now) (S.instances source.now) (S.at source.now)
        (S.is_there source.now) (S.stands source.now) hidden.old.runs.items }
    ensures found { IfOk result (λ found. (if found then Some (S.at source.now spot.new) else None)
        ≡ next_of (visible (S.shows source.now) (S.instances source.now))
        (S.at source.now spot.old).name) }
    ensures there { IfOk result (λ found. IsTrue found → S.is_there source.now spot.new) }
    ensures stands { IfOk result (λ found. IsTrue found →
        S.stands source.now stand.new (S.at source.now spot.new).name) }
    ensures runs { AreHiddenRuns (S.shows source.now) (S.instances source.now) (S.at source.now)
        (S.is_there source.now) (S.stands source.now) hidden.new.runs.items }
    ensures few { steps.new ≤ steps.old
        + hidden_left (S.shows source.now) (S.instances source.now) hidden.old.runs.items }
    ensures once { IfOk result (λ found.
        length hidden.old.runs.items < vec_capacity hidden.old.runs →
        steps.new + hidden_left (S.shows source.now) (S.instances source.now) hidden.new.runs.items
        ≤ steps.old
        + hidden_left (S.shows source.now) (S.instances source.now) hidden.old.runs.items) }
    ensures grown { length hidden.new.runs.items ≤ length hidden.old.runs.items + 1 }
    ensures capacity { vec_capacity hidden.new.runs ≡ vec_capacity hidden.old.runs }
    ensures lacks { OnErr result ((name : List ℕ) →
        IsPassed (S.shows source.now) (S.instances source.now) name (S.at source.now spot.old) →
        PassesLong (S.shows source.now) (S.instances source.now) name) }
{
    source.known();
    let first = source.name(alloc, spot)?;
    if let Some(run) = hidden.around(&first) {
        return Ok(run.end(stand, spot));
    }
    let (last, found) = walk_hidden(alloc, source, hidden, stand, spot, steps)?;
    let mut kept = Spot::new();
    copy_spot(spot, &mut kept);
    hidden.keep(HiddenRun {
        first,
        last,
        found,
        spot: kept,
        stand: *stand,
    });
    Ok(found)
}

// Whether the view shows a name at which a walk stands, with what the walk keeps of the name before.
fn is_shown_by<S: Successors<L>, L: Ledger>(
    source: &S,
    name: &Oid,
    stand: &mut Stand,
    lookup: &mut Option<S::Lookup>,
) -> bool
    requires stands { S.stands source.now stand.old name.now }
    requires lookup { IfSome lookup.old (λ lookup. S.is_lookup source.now lookup) }
    ensures shown { result ≡ S.shows source.now name.now }
    ensures stands { S.stands source.now stand.new name.now }
    ensures lookup { IfSome lookup.new (λ lookup. S.is_lookup source.now lookup) }
{
    if source.is_known_shown(stand) {
        return true;
    }
    match lookup {
        Some(lookup) => source.has_name_by(name, lookup),
        None => source.is_shown(name, stand),
    }
}

// The name of the last instance that a walk passes from a hidden one on, which is in no run, and whether
// the view shows an instance behind it: where that one stands is written over the spot. The walk ends also where it
// reaches a run.
fn walk_hidden<S: Successors<L>, L: Ledger>(
    alloc: Global,
    source: &S,
    hidden: &HiddenRuns,
    stand: &mut Stand,
    spot: &mut Spot,
    steps: &mut Steps<L>,
) -> Result<(Oid, bool), AllocError>
    requires there { S.is_there source.now spot.old }
    requires stands { S.stands source.now stand.old (S.at source.now spot.old).name }
    requires hides { S.shows source.now (S.at source.now spot.old).name ≡ false }
    requires contained { Contains (S.instances source.now) (S.at source.now spot.old) }
    requires runs { AreHiddenRuns (S.shows source.now) (S.instances source.now) (S.at source.now)
        (S.is_there source.now) (S.stands source.now) hidden.now.runs.items }
    requires apart { list_any (λ run. in_run run (S.at source.now spot.old).name)
        hidden.now.runs.items ≡ false }
    ensures found { IfOk result (λ walked.
        (if walked.1 then Some (S.at source.now spot.new) else None)
        ≡ next_of (visible (S.shows source.now) (S.instances source.now))
        (S.at source.now spot.old).name) }
    ensures there { IfOk result (λ walked. IsTrue walked.1 → S.is_there source.now spot.new) }
    ensures stands { IfOk result (λ walked. IsTrue walked.1 →
        S.stands source.now stand.new (S.at source.now spot.new).name) }
    ensures ordered { IfOk result (λ walked.
        name_lt walked.0 (S.at source.now spot.old).name ≡ false) }
    ensures none { IfOk result (λ walked. IsNoneShown (S.shows source.now) (S.instances source.now)
        (S.at source.now spot.old).name walked.0) }
    ensures few { steps.new ≤ steps.old
        + hidden_left (S.shows source.now) (S.instances source.now) hidden.now.runs.items }
    ensures once { IfOk result (λ walked. steps.new + hidden_beside (S.shows source.now)
        (S.instances source.now) hidden.now.runs.items (S.at source.now spot.old).name walked.0
        ≤ steps.old
        + hidden_left (S.shows source.now) (S.instances source.now) hidden.now.runs.items) }
    ensures lacks { OnErr result ((name : List ℕ) →
        IsPassed (S.shows source.now) (S.instances source.now) name (S.at source.now spot.old) →
        PassesLong (S.shows source.now) (S.instances source.now) name) }
{
    source.known();
    let mut last = source.name(alloc, spot)?;
    let ahead = hidden.ahead(&last);
    let mut found = source.next(last.as_slice(), stand, spot, steps);
    let mut lookup = source.lookup(alloc);
    while found {
        let own = source.name(alloc, spot)?;
        if is_shown_by(source, &own, stand, &mut lookup) {
            return Ok((last, true));
        }
        if let Some(run) = reached(ahead, &own) {
            return Ok((last, run.end(stand, spot)));
        }
        last = own;
        found = source.next(last.as_slice(), stand, spot, steps);
    }
    Ok((last, false))
}

// The run ahead, where a walk that stands at a name has reached it.
fn reached<'a>(ahead: Option<&'a HiddenRun>, name: &Oid) -> Option<&'a HiddenRun>
    ensures { MatchOption (option_copied result) (BeginsBehind name.now (option_copied ahead.entry))
        (λ run. (option_copied ahead.entry ≡ Some run) × (name_lt name.now run.first ≡ false)) }
{
    let run = ahead?;
    if precedes(name.as_slice(), run.first.as_slice()) {
        return None;
    }
    Some(run)
}

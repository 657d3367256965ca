//! The family rows as a radix tree, so that a name is compared with few of them.
ghost use Rattle.std.specs.Prelude.{◌≡◌, ◌≢◌, ℕ, true, false, option_map, nat_le, if◌then◌else◌, length, drop, IsTrue, List, [], ◌∷◌, ◌++◌, MatchOption, IfOk};
ghost use Rattle.std.specs.List.{list_all};
ghost use Rattle.vacm_core.specs.Trees.{leads, reaches, runs, after_run, counting, same_parts, IsAlone};
ghost use Rattle.vacm_core.specs.declared.tree.Step.{Step};

use crate::tree::{Node, Step, Tree};
use std::alloc::{AllocError, Global};

/// The rows of a table by the numbers of their ways, in which numbers that lead on alone stand in
/// one run.
#[cycle(radix)]
#[derive(Drop)]
pub enum Radix {
    /// No row.
    Empty,
    /// The rows on the three sides of a number.
    Fork(Box<Branch>),
    /// The rows whose ways all go on alike.
    Segment(Box<Segment>),
}

/// Where ways part or end.
#[cycle(radix)]
#[derive(Drop)]
pub struct Branch {
    /// The number that ways part by.
    pub part: u32,
    /// The row whose way ends with this number.
    pub row: Option<usize>,
    /// Whether some step at this place does not count.
    pub loose: bool,
    /// Whether some step of this number does not count.
    pub loose_equal: bool,
    /// Where smaller numbers lead.
    pub less: Radix,
    /// Where the number itself leads.
    pub equal: Radix,
    /// Where greater numbers lead.
    pub greater: Radix,
}

/// Numbers that each way has here.
#[cycle(radix)]
#[derive(Drop)]
pub struct Segment {
    /// The numbers.
    pub parts: Vec<u32>,
    /// Whether some of their steps does not count.
    pub loose: bool,
    /// Where the last of them leads.
    pub below: Radix,
}

/// What follows these numbers in a list that begins with them.
pub fn behind<'a>(list: &'a [u32], numbers: &[u32]) -> Option<&'a [u32]>
    ensures { MatchOption result ((rest : List ℕ) → list.now ≢ numbers.now ++ rest)
        (λ rest. list.now ≡ numbers.now ++ rest.now) }
{
    list.strip_prefix(numbers)
}

// What follows as many numbers of a list.
fn past(list: &[u32], long: usize) -> Option<&[u32]>
    ensures { option_map (λ rest. rest.now) result ≡ (if nat_le long (length list.now)
        then Some (drop long list.now) else None) }
{
    if long <= list.len() {
        Some(&list[long..])
    } else {
        None
    }
}

impl Segment {
    /// What follows in a name that may go along.
    pub fn after<'a>(&self, name: &'a [u32]) -> Option<&'a [u32]>
        ensures { option_map (λ rest. rest.now) result ≡ after_run self.now.loose self.now.parts.items name.now }
    {
        if self.loose {
            past(name, self.parts.len())
        } else {
            behind(name, self.parts.as_slice())
        }
    }
}

// Whether all steps count.
fn all_count(steps: &[Step]) -> bool
    ensures { result ≡ list_all (λ step. step.counts) steps.now }
{
    steps.iter().all(|step| step.counts)
}

impl Radix {
    /// Whether there is no row.
    pub fn is_empty(&self) -> bool
        ensures { IsTrue result → self.now ≡ Radix.Empty }
    {
        matches!(self, Radix::Empty)
    }

    /// Whether some step at the first place where ways part does not count.
    pub fn starts_loose(&self) -> bool {
        let first = match self {
            Radix::Segment(run) => &run.below,
            _ => self,
        };
        match first {
            Radix::Fork(node) => node.loose,
            _ => false,
        }
    }

    /// Marks each place on a way where its step does not count.
    pub fn mark(&mut self, way: &[Step])
        ensures kept { (other : List Step) (row : ℕ) → reaches self.old other row ≡ true
            → reaches self.new other row ≡ true }
        ensures marked { (other : List Step) (row : ℕ) → same_parts other way.now ≡ true
            → reaches self.old other row ≡ true → reaches self.new way.now row ≡ true }
    {
        let [step, rest @ ..] = way else {
            return;
        };
        match self {
            Radix::Empty => {}
            Radix::Segment(run) => {
                let run: &mut Segment = run;
                let long = run.parts.len();
                if long <= way.len() {
                    run.loose = run.loose || !all_count(&way[..long]);
                    run.below.mark(&way[long..]);
                }
            }
            Radix::Fork(node) => {
                let node: &mut Branch = node;
                node.loose = node.loose || !step.counts;
                if step.part < node.part {
                    node.less.mark(way);
                } else if node.part < step.part {
                    node.greater.mark(way);
                } else {
                    node.loose_equal = node.loose_equal || !step.counts;
                    node.equal.mark(rest);
                }
            }
        }
    }

    /// Takes all marks away.
    pub fn clear(&mut self)
        ensures { (way : List Step) (row : ℕ) → reaches self.old way row ≡ true
            → reaches self.new (counting way) row ≡ true }
    {
        match self {
            Radix::Empty => {}
            Radix::Segment(run) => {
                let run: &mut Segment = run;
                run.loose = false;
                run.below.clear();
            }
            Radix::Fork(node) => {
                let node: &mut Branch = node;
                node.loose = false;
                node.loose_equal = false;
                node.less.clear();
                node.equal.clear();
                node.greater.clear();
            }
        }
    }
}

impl Node {
    // Whether all ways go on alike from here, and none ends.
    fn is_alone(&self) -> bool
        ensures { IsTrue result → IsAlone self.now }
    {
        self.row.is_none() && !self.loose && self.less.is_empty() && self.greater.is_empty()
    }
}

// The rows below, behind a step of this number.
fn run_on(alloc: Global, part: u32, below: Radix) -> Result<Radix, AllocError>
    ensures { IfOk result (λ radix. (way : List Step) (row : ℕ) →
        runs false (part ∷ []) (λ rest. reaches below rest row) way ≡ true
        → reaches radix way row ≡ true) }
{
    match below {
        Radix::Segment(mut run) => {
            run.parts.insert(0, part)?;
            Ok(Radix::Segment(run))
        }
        below => {
            let mut parts = Vec::new(alloc);
            parts.push(part)?;
            let run = Segment {
                parts,
                loose: false,
                below,
            };
            Ok(Radix::Segment(Box::new(alloc, run)?))
        }
    }
}

/// The rows of a tree.
///
/// # Errors
///
/// Where there is no memory.
pub fn packed(alloc: Global, tree: &Tree) -> Result<Radix, AllocError>
    ensures { IfOk result (λ radix. (way : List Step) (row : ℕ) →
        leads tree.now way row ≡ true → reaches radix way row ≡ true) }
{
    let Tree::Fork(node) = tree else {
        return Ok(Radix::Empty);
    };
    let node: &Node = node;
    let equal = packed(alloc, &node.equal)?;
    if node.is_alone() {
        return run_on(alloc, node.part, equal);
    }
    let branch = Branch {
        part: node.part,
        row: node.row,
        loose: node.loose,
        loose_equal: node.loose_equal,
        less: packed(alloc, &node.less)?,
        equal,
        greater: packed(alloc, &node.greater)?,
    };
    Ok(Radix::Fork(Box::new(alloc, branch)?))
}

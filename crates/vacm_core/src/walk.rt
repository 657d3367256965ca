//! The best of the rows of these numbers, and of the rows of a tree whose way a name fits.
ghost use Rattle.std.specs.Prelude.{◌≡◌, ◌≢◌, ◌<◌, ◌≤◌, ◌&&◌, ◌==◌, ℕ, List, Contains, IsTrue, true, false, Some, length};
ghost use Rattle.std.specs.Option.{ForSome};
ghost use Rattle.vacm_core.specs.Best.{takes_over};
ghost use Rattle.vacm_core.specs.Trees.{reaches, reaches_fork, fits, IsFit, Covers, IsLater};
ghost use Rattle.vacm_core.specs.declared.tree.Step.{Step};

use crate::contest::{Contest, takes_over};
use crate::radix::{Branch, Radix};

/// How many steps a fork takes from which a name may go on in several ways.
const LOOSE_STEPS: usize = 32;

// Whether a row is better than the best so far, and passes.
fn is_better<C: Contest>(contest: &C, rows: &[C::Row], best: Option<usize>, row: &C::Row) -> bool
    requires { ForSome best (λ b. b < length rows.now) }
    ensures { result ≡ (takes_over (C.beats contest.now) rows.now best row.now
        && C.passes contest.now row.now) }
{
    takes_over(contest, rows, best, row) && contest.passes(row)
}

// The better of the best row so far and one more.
fn better<C: Contest>(
    contest: &C,
    rows: &[C::Row],
    best: Option<usize>,
    row: Option<usize>,
) -> Option<usize>
    requires { IsFit (C.passes contest.now) rows.now best }
    ensures later { IsLater (C.passes contest.now) (C.beats contest.now) rows.now best result }
    ensures here { (n : ℕ) → row ≡ Some n
        → Covers (C.passes contest.now) (C.beats contest.now) rows.now result n }
{
    match row {
        Some(n) if n < rows.len() && is_better(contest, rows, best, &rows[n]) => Some(n),
        _ => best,
    }
}

/// The best of the rows of these numbers. It takes no memory.
pub fn best_among<C: Contest>(contest: &C, rows: &[C::Row], numbers: &[usize]) -> Option<usize>
    ensures fit { IsFit (C.passes contest.now) rows.now result }
    ensures found { (n : ℕ) → Contains numbers.now n
        → Covers (C.passes contest.now) (C.beats contest.now) rows.now result n }
{
    let mut best = None;
    for n in numbers {
        best = better(contest, rows, best, Some(*n));
    }
    best
}

// Whether all ways go on by the number of a fork, or end there.
fn is_only_way(node: &Branch) -> bool
    ensures less { IsTrue result → node.now.less ≡ Radix.Empty }
    ensures greater { IsTrue result → node.now.greater ≡ Radix.Empty }
{
    node.less.is_empty() && node.greater.is_empty()
}

// Whether no name goes on by the number of a fork that has another number here.
fn is_aside(node: &Branch, number: u32) -> bool
    ensures loose { IsTrue result → node.now.loose_equal ≡ false }
    ensures other { IsTrue result → number ≢ node.now.part }
{
    !node.loose_equal && number != node.part
}

// Counts so many steps off those that are left, and answers whether none is left then.
fn is_spent(left: &mut usize, steps: usize) -> bool
    ensures fewer { left.new ≤ left.old }
    ensures spent { result ≡ (left.new == 0) }
{
    *left = left.saturating_sub(steps);
    *left == 0
}

/// The best of the rows so far and those of a tree whose way a name fits, in which the deepest are
/// read first. It takes no memory. It takes fewer steps than are left, one for each fork that it
/// enters and [`LOOSE_STEPS`] where it may go on in several ways: where none is left afterwards, it gave
/// up, and there may be a better row.
#[cycle(best)]
pub fn best_below<C: Contest>(
    tree: &Radix,
    contest: &C,
    rows: &[C::Row],
    name: &[u32],
    best: Option<usize>,
    left: &mut usize,
) -> Option<usize>
    requires { IsFit (C.passes contest.now) rows.now best }
    ensures later { IsLater (C.passes contest.now) (C.beats contest.now) rows.now best result }
    ensures fewer { left.new ≤ left.old }
    ensures found { 0 < left.new → (way : List Step) (n : ℕ) → reaches tree.now way n ≡ true
        → fits way name.now ≡ true
        → Covers (C.passes contest.now) (C.beats contest.now) rows.now result n }
{
    match tree {
        Radix::Empty => best,
        Radix::Segment(run) => match run.after(name) {
            Some(after) => best_below(&run.below, contest, rows, after, best, left),
            None => best,
        },
        Radix::Fork(node) => best_of_fork(node, contest, rows, name, best, left),
    }
}

// The same of the rows that ways lead to from a fork.
#[cycle(best)]
fn best_of_fork<C: Contest>(
    node: &Branch,
    contest: &C,
    rows: &[C::Row],
    name: &[u32],
    best: Option<usize>,
    left: &mut usize,
) -> Option<usize>
    requires { IsFit (C.passes contest.now) rows.now best }
    ensures later { IsLater (C.passes contest.now) (C.beats contest.now) rows.now best result }
    ensures fewer { left.new ≤ left.old }
    ensures found { 0 < left.new → (way : List Step) (n : ℕ) → reaches_fork node.now way n ≡ true
        → fits way name.now ≡ true
        → Covers (C.passes contest.now) (C.beats contest.now) rows.now result n }
{
    let [first, after @ ..] = name else {
        return best;
    };
    if node.loose {
        if is_only_way(node) {
            if is_spent(left, 1) || is_aside(node, *first) {
                return best;
            }
            let best = best_below(&node.equal, contest, rows, after, best, left);
            if *left == 0 {
                return best;
            }
            return better(contest, rows, best, node.row);
        }
        if is_spent(left, LOOSE_STEPS) {
            return best;
        }
        let best = best_below(&node.less, contest, rows, name, best, left);
        let best = best_below(&node.greater, contest, rows, name, best, left);
        if is_aside(node, *first) {
            return best;
        }
        let best = best_below(&node.equal, contest, rows, after, best, left);
        return better(contest, rows, best, node.row);
    }
    if is_spent(left, 1) {
        return best;
    }
    if *first < node.part {
        return best_below(&node.less, contest, rows, name, best, left);
    }
    if node.part < *first {
        return best_below(&node.greater, contest, rows, name, best, left);
    }
    if node.row.is_none() {
        return best_below(&node.equal, contest, rows, after, best, left);
    }
    let best = best_below(&node.equal, contest, rows, after, best, left);
    better(contest, rows, best, node.row)
}

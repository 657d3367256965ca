//! The family rows as a tree, as they are put into it one by one.
ghost use Rattle.std.specs.Prelude.{◌≡◌, ◌≤◌, ℕ, true, false, IsTrue, List, length, IfOk, OnOk};
ghost use Rattle.vacm_core.specs.Trees.{leads, same_parts};

use std::alloc::{AllocError, Global};

/// One step of the way to a row.
#[derive(Clone, Copy, Default)]
pub struct Step {
    /// The number of the step.
    pub part: u32,
    /// Whether a name has to have this number here: whether the mask's bit is 1.
    pub counts: bool,
}

/// A ternary search tree: the rows of a table by the numbers of their ways.
#[cycle(tree)]
#[derive(Drop)]
pub enum Tree {
    /// No row.
    Empty,
    /// The rows whose next step has this number, and those on either side.
    Fork(Box<Node>),
}

/// A number, and the rows on its three sides.
#[cycle(tree)]
#[derive(Drop)]
pub struct Node {
    /// The number of the step.
    pub part: u32,
    /// The row whose way ends with this step.
    pub row: Option<usize>,
    /// Whether the step of some row from here on does not count at this place.
    pub loose: bool,
    /// Whether that of some row that goes on after this step, or ends with it, does not.
    pub loose_equal: bool,
    /// The rows whose step here has a smaller number.
    pub less: Tree,
    /// The rows that go on after this step.
    pub equal: Tree,
    /// The rows whose step here has a greater number.
    pub greater: Tree,
}

impl Tree {
    /// Whether there is no row.
    pub fn is_empty(&self) -> bool
        ensures { IsTrue result → self.now ≡ Tree.Empty }
    {
        matches!(self, Tree::Empty)
    }

    /// Puts a row at the end of its way, which is not empty, in place of what ends there.
    ///
    /// # Errors
    ///
    /// Where there is no memory; the tree may then have a part of the marks.
    pub fn insert(&mut self, alloc: Global, way: &[Step], row: usize) -> Result<(), AllocError>
        ensures leads { OnOk result (1 ≤ length way.now → leads self.new way.now row ≡ true) }
        ensures kept { OnOk result ((other : List Step) (n : ℕ) →
            same_parts other way.now ≡ false → leads self.old other n ≡ true
            → leads self.new other n ≡ true) }
    {
        let [step, rest @ ..] = way else {
            return Ok(());
        };
        match self {
            Tree::Empty => {
                *self = chain(alloc, way, row)?;
                Ok(())
            }
            Tree::Fork(node) => {
                let node: &mut Node = node;
                node.loose = node.loose || !step.counts;
                if step.part < node.part {
                    node.less.insert(alloc, way, row)
                } else if node.part < step.part {
                    node.greater.insert(alloc, way, row)
                } else {
                    node.loose_equal = node.loose_equal || !step.counts;
                    if rest.is_empty() {
                        node.row = Some(row);
                        Ok(())
                    } else {
                        node.equal.insert(alloc, rest, row)
                    }
                }
            }
        }
    }
}

// The tree of one row: the steps of its way, one below the other.
fn chain(alloc: Global, way: &[Step], row: usize) -> Result<Tree, AllocError>
    ensures { IfOk result (λ tree. 1 ≤ length way.now → leads tree way.now row ≡ true) }
{
    let [step, rest @ ..] = way else {
        return Ok(Tree::Empty);
    };
    let node = Node {
        part: step.part,
        row: if rest.is_empty() { Some(row) } else { None },
        loose: !step.counts,
        loose_equal: !step.counts,
        less: Tree::Empty,
        equal: chain(alloc, rest, row)?,
        greater: Tree::Empty,
    };
    Ok(Tree::Fork(Box::new(alloc, node)?))
}

//! The wires of a run, and what its lines leave.
use live_agent::Ran;

/// The wires of a run.
#[derive(Drop)]
pub struct Lines<A, W, T> {
    /// The wire of each worker, counted from 0, with its gate.
    pub workers: Vec<A>,
    /// The wire of each port, from port 1 on.
    pub ports: Vec<W>,
    /// The wire over which the ticker sends, with its pace.
    pub ticker: T,
}

/// How each line of a run ended, and what it left.
#[derive(Drop)]
pub struct Runs {
    /// Of each worker.
    pub workers: Vec<Ran>,
    /// Of each port, from port 1 on.
    pub ports: Vec<Ran>,
    /// Of the ticker.
    pub ticker: Ran,
}

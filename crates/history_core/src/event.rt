//! What happens to an agent.
ghost use Rattle.std.specs.Prelude.{◌≡◌, ◌↔◌, IsTrue, IfOk, OnErr};
ghost use Rattle.history_core.specs.Receipts.{reported_of, TakesMemory};
ghost use Rattle.history_core.specs.declared.event.ReceiptEvent.{ReceiptEvent as Reported};

use community_core::Policy;
use frame_core::FrameIn;
use message_core::Request;
use std::alloc::{AllocError, Global};

/// What happens to an agent.
#[derive(Drop)]
pub enum Event {
    /// A frame comes in by a port.
    Frame {
        /// The number of the port.
        port: u16,
        /// What is read of the frame.
        frame: FrameIn,
    },
    /// A second passes.
    Tick,
    /// The link of a port goes up, or down.
    Link {
        /// The number of the port.
        port: u16,
        /// Whether it goes up.
        up: bool,
    },
    /// A policy comes into force in place of the one that was there.
    Policy(Policy),
    /// A request comes.
    Request(Request),
}

/// What a receipt reports of its event: all of it, but of a policy that it was one.
#[derive(Drop)]
pub enum ReceiptEvent {
    /// A frame came in by a port.
    Frame {
        /// The number of the port.
        port: u16,
        /// What was read of the frame.
        frame: FrameIn,
    },
    /// A second passed.
    Tick,
    /// The link of a port went up, or down.
    Link {
        /// The number of the port.
        port: u16,
        /// Whether it went up.
        up: bool,
    },
    /// A policy came into force.
    Policy,
    /// A request came.
    Request(Request),
}

impl Event {
    /// What a receipt reports of this event. Takes memory only for a request with a community of more
    /// than `INLINE_OCTETS` octets or with variable bindings.
    pub fn reported(&self, alloc: Global) -> Result<ReceiptEvent, AllocError>
        ensures value { IfOk result (λ reported. reported ≡ reported_of self.now) }
        ensures some { OnErr result (TakesMemory (reported_of self.now)) }
    {
        Ok(match self {
            Event::Frame { port, frame } => ReceiptEvent::Frame {
                port: *port,
                frame: *frame,
            },
            Event::Tick => ReceiptEvent::Tick,
            Event::Link { port, up } => ReceiptEvent::Link {
                port: *port,
                up: *up,
            },
            Event::Policy(_) => ReceiptEvent::Policy,
            Event::Request(request) => ReceiptEvent::Request(request.try_copy(alloc)?),
        })
    }

    /// Whether a receipt with this reports this event. Takes no memory.
    pub fn is_reported_by(&self, reported: &ReceiptEvent) -> bool
        ensures { IsTrue result ↔ (reported_of self.now ≡ reported.now) }
    {
        match (self, reported) {
            (
                Event::Frame { port, frame },
                ReceiptEvent::Frame {
                    port: by,
                    frame: fields,
                },
            ) => *port == *by && frame.same(fields),
            (Event::Tick, ReceiptEvent::Tick) => true,
            (Event::Link { port, up }, ReceiptEvent::Link { port: of, up: rose }) => {
                *port == *of && *up == *rose
            }
            (Event::Policy(_), ReceiptEvent::Policy) => true,
            (Event::Request(request), ReceiptEvent::Request(other)) => request.same(other),
            _ => false,
        }
    }
}

impl ReceiptEvent {
    /// A copy. Takes memory only for a request with a community of more than `INLINE_OCTETS` octets
    /// or with variable bindings.
    pub fn try_copy(&self, alloc: Global) -> Result<ReceiptEvent, AllocError>
        ensures value { IfOk result (λ copy. copy ≡ self.now) }
        ensures some { OnErr result (TakesMemory self.now) }
    {
        Ok(match self {
            ReceiptEvent::Frame { port, frame } => ReceiptEvent::Frame {
                port: *port,
                frame: *frame,
            },
            ReceiptEvent::Tick => ReceiptEvent::Tick,
            ReceiptEvent::Link { port, up } => ReceiptEvent::Link {
                port: *port,
                up: *up,
            },
            ReceiptEvent::Policy => ReceiptEvent::Policy,
            ReceiptEvent::Request(request) => ReceiptEvent::Request(request.try_copy(alloc)?),
        })
    }

    /// Whether two say the same. Takes no memory.
    pub fn same(&self, other: &ReceiptEvent) -> bool
        ensures { IsTrue result ↔ (self.now ≡ other.now) }
    {
        match (self, other) {
            (
                ReceiptEvent::Frame { port, frame },
                ReceiptEvent::Frame {
                    port: by,
                    frame: fields,
                },
            ) => *port == *by && frame.same(fields),
            (ReceiptEvent::Tick, ReceiptEvent::Tick) => true,
            (ReceiptEvent::Link { port, up }, ReceiptEvent::Link { port: of, up: rose }) => {
                *port == *of && *up == *rose
            }
            (ReceiptEvent::Policy, ReceiptEvent::Policy) => true,
            (ReceiptEvent::Request(request), ReceiptEvent::Request(other)) => request.same(other),
            _ => false,
        }
    }
}

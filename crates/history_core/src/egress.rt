//! The ports by which a frame goes out.
ghost use Rattle.std.specs.Prelude.{◌≡◌, ◌↔◌, [], IsTrue};

use arrayvec::ArrayVec;
use rstp_settings::settings::MAX_PORTS;
use std::marker::Model;

/// The numbers of the ports by which a frame goes out, seen as their list; none of any other event.
#[derive(Drop)]
pub struct Egress {
    ports: ArrayVec<u16, MAX_PORTS>,
}

impl Model for Egress {
    ghost use Rattle.std.specs.Prelude.{ℕ, List};

    ghost Value = { List ℕ };

    ghost view = { λ e. e.ports.items };
}

impl Egress {
    /// No ports.
    pub fn none() -> Egress
        ensures { result ≡ [] }
    {
        Egress {
            ports: ArrayVec::new(),
        }
    }

    /// These ports. Takes no memory.
    pub fn of(ports: ArrayVec<u16, MAX_PORTS>) -> Egress
        ensures { result ≡ ports.items }
    {
        Egress { ports }
    }

    /// The ports.
    pub fn as_slice(&self) -> &[u16]
        ensures { result.now ≡ self.now }
    {
        self.ports.as_slice()
    }

    /// The ports again. Takes no memory.
    pub fn copy(&self) -> Egress
        ensures { result ≡ self.now }
    {
        let mut ports = ArrayVec::new();
        match ports.try_extend_from_slice(self.ports.as_slice()) {
            Ok(()) => Egress { ports },
            Err(_) => unreachable!(),
        }
    }

    /// Whether the ports are the same, in the same order. Takes no memory.
    pub fn same(&self, other: &Egress) -> bool
        ensures { IsTrue result ↔ (self.now ≡ other.now) }
    {
        self.as_slice() == other.as_slice()
    }
}

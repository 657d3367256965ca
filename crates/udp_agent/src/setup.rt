//! Where an agent is served, and how many rounds its lines make.
ghost use Rattle.std.specs.Prelude.{◌≡◌, ◌≤◌, All, IfOk, IfSome, IsNone, OnErr, OnSome, length};
ghost use Rattle.std.specs.Result.{result_err};
ghost use Rattle.rstp_settings.specs.declared.settings.TheConstants.{MAX_PORTS};
ghost use Rattle.udp_agent.specs.Setups.{HasSockets, IsSockets, AreSockets, IsSetup, HasSetup, IsUnserved};

use arrayvec::ArrayVec;
use configuration::{Port, Serve};
use frame_core::Mac;
use rstp_settings::settings::MAX_PORTS;
use std::net::{IpAddr, Ipv4Addr, SocketAddr};

/// Where the frames of a port come in, and where they go.
#[derive(Clone, Copy, Debug, PartialEq, Eq)]
pub struct PortSockets {
    /// Where the port's frames come in.
    pub listen: SocketAddr,
    /// Where the port's frames go.
    pub peer: SocketAddr,
}

// `ArrayVec` wants a default. It names no socket.
impl Default for PortSockets {
    fn default() -> PortSockets {
        let nowhere = SocketAddr::new(IpAddr::V4(Ipv4Addr::UNSPECIFIED), 0);
        PortSockets {
            listen: nowhere,
            peer: nowhere,
        }
    }
}

/// Where an agent is served, and how many rounds its lines make.
#[derive(Drop)]
pub struct Setup {
    /// The bridge's address, from which its ports send their BPDUs.
    pub address: Mac,
    /// The bridge's ports, from port 1 on: where the frames of each come in, and where they go.
    pub ports: ArrayVec<PortSockets, MAX_PORTS>,
    /// Where requests come in, how many threads answer them, and how many rounds each line makes: in
    /// all, or where it is served without an end, in an interval.
    pub serve: Serve,
}

/// Why a configuration cannot be served.
#[derive(Clone, Copy, Debug, PartialEq, Eq, Drop)]
pub enum Unserved {
    /// It does not say how to serve.
    NoServe,
    /// It does not say of each port where its frames come in, and where they go.
    NoSockets,
}

// Where a port's frames come in and where they go, if both are stated.
fn sockets_of(port: &Port) -> Option<PortSockets>
    ensures some { IfSome result (IsSockets port.now) }
    ensures none { IsNone result → HasSockets port.now → ⊥ }
{
    let listen = port.listen?;
    let peer = port.peer?;
    Some(PortSockets { listen, peer })
}

// The same of each of these ports, in their order, if it is stated of all.
fn all_sockets(ports: &[Port]) -> Option<ArrayVec<PortSockets, MAX_PORTS>>
    requires { length ports.now ≤ MAX_PORTS }
    ensures some { IfSome result (λ all. AreSockets ports.now all.items) }
    ensures each { OnSome result (All HasSockets ports.now) }
    ensures none { IsNone result → All HasSockets ports.now → ⊥ }
{
    let mut all = ArrayVec::new();
    for port in ports {
        all.push(sockets_of(port)?);
    }
    Some(all)
}

/// The setup of a bridge of this address and these ports.
///
/// # Errors
/// `NoServe` where the configuration does not say how to serve; else `NoSockets` where it does not
/// say of each port where its frames come in and where they go.
pub fn setup_of(
    address: Mac,
    ports: &ArrayVec<Port, MAX_PORTS>,
    serve: Option<Serve>,
) -> Result<Setup, Unserved>
    ensures setup { IfOk result (IsSetup address ports.now.items serve) }
    ensures none { OnErr result (HasSetup ports.now.items serve → ⊥) }
    ensures why { IsUnserved ports.now.items serve (result_err result) }
{
    let serve = serve.ok_or(Unserved::NoServe)?;
    let ports = all_sockets(ports.as_slice()).ok_or(Unserved::NoSockets)?;
    Ok(Setup {
        address,
        ports,
        serve,
    })
}

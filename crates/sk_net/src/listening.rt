// A listener that only this machine reaches.
ghost use Rattle.std.specs.Prelude.{◌≡◌, IfOk};
ghost use Rattle.std.specs.Net.Socket.{socket_port};
ghost use Rattle.sk_net.specs.Address.{local_address};

use std::io;
use std::net::{Ipv4Addr, Net, SocketAddr};

/// A listener, and the address that it was bound to.
#[derive(Drop)]
pub struct Listening<L> {
    pub listener: L,
    pub address: SocketAddr,
    ghost local: { address ≡ local_address (socket_port address) },
}

/// Listens at this port of this machine.
pub fn listen_at<R: Net>(rt: &R, port: u16) -> io::Result<Listening<R::Listener>>
    ensures { IfOk result (λ it. it.address ≡ local_address port) }
{
    let address = SocketAddr::from((Ipv4Addr::LOCALHOST, port));
    let listener = rt.bind(address)?;
    Ok(Listening { listener, address })
}

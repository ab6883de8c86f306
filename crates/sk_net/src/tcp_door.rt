// Where connections over TCP are accepted.
ghost use Rattle.std.specs.Prelude.{◌≡◌, ◌+◌, ◌≤◌, [], ◌∷◌, All, IfOk, IfSome, OnOk, OnErr, None, IsSome, length, vec_len, vec_capacity};
ghost use Rattle.std.specs.Option.{option_map};
ghost use Rattle.sk_model.specs.Causes.{HasCause, Rose};
ghost use Rattle.sk_io.specs.Traffic.{IsUntouched, Arrive};
ghost use Rattle.sk_net.specs.Address.{local_address};
ghost use Rattle.sk_net.specs.Doors.{all_ended};
ghost use Rattle.sk_net.specs.Links.{waiting_of};
ghost use Rattle.sk_net.specs.Waiting.{IsUnused};

use crate::listening::{Listening, listen_at};
use crate::replies::Replies;
use crate::tcp_link::TcpLink;
use sk_io::{Door, DoorFault, Failed, Link, count_fault};
use std::alloc::{AllocError, Global};
use std::io;
use std::io::ErrorKind;
use std::net::{Net, OpenListener, OpenStream, SocketAddr};
use std::time::Duration;

// How many bytes may wait on a link before they are sent.
const WAITING: usize = 16_384;

// How long one wait of a send lasts, in seconds. A send that has moved some bytes by then succeeds: the last one
// or two before a peer stopped reading do, and then one waits as often as it may, which is half a minute.
const SEND_WAIT: u64 = 5;

/// A link that was closed.
#[derive(Clone, Copy, Debug, PartialEq, Eq)]
pub struct ClosedLink {
    /// How often a call of it has failed.
    pub faults: u64,
    /// How many of the bytes that were written on it were not sent before its close.
    pub waiting: usize,
}

/// A door over TCP at a port of 127.0.0.1, at port 0 one that the system chooses. When it listens it takes
/// the memory of this many links, and links beyond them hold nothing back. It knows of no link before it comes.
/// A call on a link that sends fails at the latest a minute after the peer has stopped reading.
#[derive(Drop)]
pub struct TcpDoor<R: Net> {
    rt: R,
    alloc: Global,
    listening: Option<Listening<R::Listener>>,
    spare: Vec<Replies>,
    closed: Vec<ClosedLink>,
    accepted: u64,
    room: u32,
    faults: u64,
    // How long one wait of a send on a link lasts.
    pub(crate) send_wait: Duration,
    ghost reserved: { vec_len closed + room ≤ vec_capacity closed },
    ghost unused: { All IsUnused spare.items },
}

impl<R: Net> TcpDoor<R> {
    /// A door that does not listen yet.
    pub fn new(rt: R, alloc: Global) -> Self
        ensures faults { ⟦<TcpDoor<R> as Door>⟧.faults result ≡ 0 }
        ensures accepted { ⟦<TcpDoor<R> as Door>⟧.accepted result ≡ 0 }
        ensures doorway { ⟦<TcpDoor<R> as Door>⟧.doorway result ≡ record { port = None; coming = None; closed = [] } }
        ensures room { ⟦<TcpDoor<R> as Door>⟧.room result ≡ 0 }
    {
        TcpDoor {
            rt,
            alloc,
            listening: None,
            spare: Vec::new(alloc),
            closed: Vec::new(alloc),
            accepted: 0,
            room: 0,
            faults: 0,
            send_wait: Duration::from_secs(SEND_WAIT),
        }
    }

    /// The address that was asked for when it began to listen.
    pub fn address(&self) -> Option<SocketAddr>
        ensures { result ≡ option_map local_address (⟦<TcpDoor<R> as Door>⟧.doorway self.now).port }
    {
        let listening = self.listening.as_ref()?;
        Some(listening.address)
    }

    /// The port at which the system says that it listens.
    pub fn port(&self) -> Option<u16>
        ensures { (⟦<TcpDoor<R> as Door>⟧.doorway self.now).port ≡ None → result ≡ None }
    {
        let listening = self.listening.as_ref()?;
        match listening.listener.local_addr() {
            Ok(addr) => Some(addr.port()),
            Err(_) => None,
        }
    }

    /// What is known of the links that were closed, in order.
    pub fn closed(&self) -> &[ClosedLink]
        ensures { all_ended result.now ≡ (⟦<TcpDoor<R> as Door>⟧.doorway self.now).closed }
    {
        &self.closed
    }
}

impl<R: Net> Door for TcpDoor<R> {
    type Link = TcpLink<R::Stream>;

    ghost faults = { λ d. d.faults };

    ghost accepted = { λ d. d.accepted };

    ghost use Rattle.sk_net.specs.Doors.{doorway_of};

    ghost doorway = { λ d. doorway_of d.listening d.closed.items };

    ghost room = { λ d. d.room };

    fn listen(&mut self, port: u16, links: u32) -> Result<(), DoorFault> {
        let spare = spare_replies(self.alloc, links)?;
        self.closed.reserve(links as usize)?;
        let Ok(listening) = listen_at(&self.rt, port) else {
            return Err(count_fault(&mut self.faults).into());
        };
        self.listening = Some(listening);
        self.spare = spare;
        self.room = links;
        Ok(())
    }

    fn accept(&mut self) -> Result<TcpLink<R::Stream>, Failed>
        requires { IsSome (⟦<TcpDoor<R> as Door>⟧.doorway self.old).port }
        ensures untouched { IfOk result (λ link. IfSome None IsUntouched) }
        ensures count { IfOk result (λ link. ⟦<TcpLink<R::Stream> as Link>⟧.faults link ≡ 0) }
        ensures cause { let faults = ⟦<TcpDoor<R> as Door>⟧.faults in HasCause (faults self.old) (faults self.new) result }
        ensures accepts { let accepted = ⟦<TcpDoor<R> as Door>⟧.accepted in OnOk result (Rose (accepted self.old) (accepted self.new)) }
        ensures arrives { let doorway = ⟦<TcpDoor<R> as Door>⟧.doorway in IfOk result (λ link. Arrive (doorway self.old) (doorway self.new) (None ∷ [])) }
        ensures none { let door = ⟦<TcpDoor<R> as Door>⟧ in OnErr result ((door.doorway self.new ≡ door.doorway self.old) × (door.accepted self.new ≡ door.accepted self.old)) }
        ensures room { let room = ⟦<TcpDoor<R> as Door>⟧.room in room self.new ≡ room self.old }
        ensures sent { IfOk result (λ link. length (waiting_of link) ≡ 0) }
    {
        let Some(listening) = &self.listening else {
            unreachable!()
        };
        let mut accepted = self.accepted;
        let Ok(stream) = next_stream(&listening.listener, &mut accepted, self.send_wait) else {
            return Err(count_fault(&mut self.faults));
        };
        let replies = self.spare.pop().unwrap_or(Replies::none(self.alloc));
        self.accepted = accepted;
        Ok(TcpLink::new(stream, replies))
    }

    fn close(&mut self, mut link: TcpLink<R::Stream>) {
        let closed = ClosedLink {
            faults: link.faults(),
            waiting: link.waiting(),
        };
        link.send_last();
        self.room -= 1;
        self.closed.push_reserved(closed);
    }
}

// Replies for this many links.
fn spare_replies(alloc: Global, links: u32) -> Result<Vec<Replies>, AllocError>
    ensures { IfOk result (λ spare. All IsUnused spare.items) }
{
    let mut spare = Vec::with_capacity(alloc, links as usize)?;
    'link: for _link in 0..links {
        spare.push(Replies::new(alloc, WAITING)?)?;
    }
    Ok(spare)
}

// Waits for the next connection that its peer has not broken off yet. Each wait of its sends lasts this long at most.
fn next_stream<L: OpenListener>(
    listener: &L,
    accepted: &mut u64,
    send_wait: Duration,
) -> Result<L::Stream, Failed>
where
    L::Stream: OpenStream + Drop,
    ensures counts { OnOk result (Rose accepted.old accepted.new) }
{
    'next: for _ in 0..u64::MAX {
        match accept_counted(listener, accepted) {
            Ok(stream) => return prepared(stream, send_wait),
            Err(e) if is_passing(e.kind()) => {}
            Err(_) => return Err(Failed),
        }
    }
    Err(Failed)
}

// The only accept of a connection. It counts each that it gets.
fn accept_counted<L: OpenListener>(listener: &L, accepted: &mut u64) -> io::Result<L::Stream>
    ensures counts { OnOk result (Rose accepted.old accepted.new) }
    ensures none { OnErr result (accepted.new ≡ accepted.old) }
{
    let (stream, _) = listener.accept()?;
    *accepted = accepted.saturating_add(1);
    Ok(stream)
}

// A stream that sends without delay, and ends each wait after this long. A peer that is gone refuses neither.
fn prepared<S: OpenStream + Drop>(stream: S, send_wait: Duration) -> Result<S, Failed> {
    // Without it replies come later, and nothing else changes.
    let _ = stream.set_nodelay(true);
    match stream.set_write_timeout(Some(send_wait)) {
        Ok(()) => Ok(stream),
        Err(_) => Err(Failed),
    }
}

// Whether an error of `accept` says nothing of the door: a signal came, or a peer broke off.
fn is_passing(kind: ErrorKind) -> bool {
    matches!(kind, ErrorKind::Interrupted | ErrorKind::ConnectionAborted)
}

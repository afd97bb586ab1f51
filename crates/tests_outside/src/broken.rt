//! A runtime whose UDP sockets fail. `causes` and `failures` use it to make each call of a socket fail.

use std::io;
use std::net::{Ipv4Addr, Net, SocketAddr, SocketAddrV4, UdpSocket};
use std::sync::Wait;
use std::thread::Threads;
use std::time::{Clock, Duration};

/// What is wrong with each UDP socket.
#[derive(Clone, Copy)]
pub(crate) enum Wrong {
    /// It is bound to an address of another machine, which fails.
    Address,
    /// It is a Unix stream socket, which can neither connect to, send to nor receive from an internet address.
    Kind,
}

/// Returns an address that no machine has: it is reserved for documents (RFC 5737).
fn elsewhere(port: u16) -> SocketAddr {
    SocketAddr::V4(SocketAddrV4::new(Ipv4Addr::new(192, 0, 2, 1), port))
}

/// A runtime whose UDP sockets have this fault. All other calls go to `rt`.
#[derive(Clone, Copy, Drop)]
pub(crate) struct Broken<R> {
    pub(crate) rt: R,
    pub(crate) wrong: Wrong,
}

impl<R: Net> Net for Broken<R> {
    type Stream = R::Stream;

    type Listener = R::Listener;

    fn bind(&self, addr: SocketAddr) -> io::Result<R::Listener> {
        self.rt.bind(addr)
    }

    fn connect(&self, addr: SocketAddr) -> io::Result<R::Stream> {
        self.rt.connect(addr)
    }

    fn bind_udp(&self, addr: SocketAddr) -> io::Result<UdpSocket> {
        match self.wrong {
            Wrong::Address => self.rt.bind_udp(elsewhere(addr.port())),
            Wrong::Kind => Ok(UdpSocket::from(self.rt.unix_socket()?)),
        }
    }
}

impl<R: Wait> Wait for Broken<R> {}

impl<R: Threads> Threads for Broken<R> {}

impl<R: Clock> Clock for Broken<R> {
    fn monotonic(&self) -> io::Result<Duration> {
        self.rt.monotonic()
    }

    fn since_1970(&self) -> io::Result<Duration> {
        self.rt.since_1970()
    }

    fn sleep(&self, duration: Duration) {
        self.rt.sleep(duration)
    }
}

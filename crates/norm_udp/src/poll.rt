//! A wait on several sockets at once: [`Polled`].

use libc::net::{POLLIN, poll};
use libc::types::pollfd;
use std::net::UdpSocket;
use std::os::fd::AsRawFd;
use udp_rules::{found_by_poll, waited_by_poll};

/// The most sockets that a node takes from: those of all members, in one process.
const MOST_SOCKETS: usize = 17;

/// Milliseconds of the longest wait.
// Our own choice: a node at rest then wakes a thousand times a second at most.
const LONGEST: i32 = 1;

/// No socket. A poll passes over a negative descriptor.
const NONE: pollfd = pollfd {
    fd: -1,
    events: POLLIN,
    revents: 0,
};

/// How a wait ended.
#[derive(Clone, Copy)]
pub(crate) enum Woken {
    /// A datagram is there.
    ByDatagram,
    /// Nothing came in time.
    ByTime,
    /// The wait failed, was interrupted, or ended for an error of a socket. It may have taken no time.
    ByError,
}

/// The sockets on which a node waits.
#[derive(Drop)]
pub(crate) struct Polled {
    sockets: [pollfd; MOST_SOCKETS],
    count: usize,
}

impl Polled {
    pub(crate) fn new() -> Polled {
        Polled {
            sockets: [NONE; MOST_SOCKETS],
            count: 0,
        }
    }

    /// Adds a socket. One more than [`MOST_SOCKETS`] is left out.
    pub(crate) fn add(&mut self, socket: &UdpSocket) {
        if let Some(place) = self.sockets.get_mut(self.count) {
            place.fd = socket.as_raw_fd();
            self.count = self.count.saturating_add(1);
        }
    }

    /// Whether a socket may be read.
    fn is_readable(&self) -> bool {
        for socket in &self.sockets {
            if socket.revents & POLLIN != 0 {
                return true;
            }
        }
        false
    }

    /// Waits until one of the sockets has a datagram, for [`LONGEST`] at most.
    pub(crate) fn wait(&mut self) -> Woken {
        let count = poll(&mut self.sockets, LONGEST);
        if found_by_poll(count, self.is_readable()) {
            return Woken::ByDatagram;
        }
        if waited_by_poll(count) {
            return Woken::ByTime;
        }
        Woken::ByError
    }
}

//! A test that passes more objects than there are transport ids from a sender to a receiver, one after the other.

use crate::spelled::{filled, octets_of, profile_of};
use driven_sender::Driven;
use norm_base::{Datagram, InstanceId, Key, Memory, Moment, NodeId, Octets, Origin, Profile, Sent};
use norm_order::Up;
use norm_receiver::Receiver;
use norm_send_rules::{Job, Receipt};
use std::alloc::Global;
use std::test::Fail;

/// The DATA of the first object, which has one octet. Octets 2 and 3 are its sequence number, and octets 14 and 15 its id.
const FIRST: &str = "12080000 00000001 00074041 00050000 00000000 40030000 00000001 00400406 61";

/// The origin of each command.
const BY: Origin = Origin {
    producer: 1,
    number: 1,
};

/// A sender, a receiver, and the last datagram that the sender wrote.
#[derive(Drop)]
struct Jobs {
    sender: Driven,
    receiver: Receiver,
    out: Datagram,
}

/// Returns the expected datagram of the object with this index.
fn datagram(alloc: Global, index: u32) -> Result<Vec<u8>, Fail> {
    let mut octets = octets_of(alloc, FIRST, (0, 0))?;
    let high = u8::try_from(index / 256 % 256).unwrap_or(0);
    let low = u8::try_from(index % 256).unwrap_or(0);
    for (place, octet) in [(2usize, high), (3, low), (14, high), (15, low)] {
        if let Some(at) = octets.get_mut(place) {
            *at = octet;
        }
    }
    Ok(octets)
}

/// Whether a hand-up is the object with this index and the one octet `a`.
fn is_object(up: &Option<Up>, wanted: u32) -> bool {
    match up {
        Some(Up::Object { index, bytes, .. }) => *index == wanted
            && bytes.bytes() == b"a".as_slice(),
        _ => false,
    }
}

impl Jobs {
    /// Whether the sender accepts an object and gives it this index.
    fn joins(&mut self, octet: Octets, index: u32) -> bool {
        let job = Job::Data {
            info: None,
            bytes: octet,
        };
        self.sender.command(BY, job, Moment(0)) == Ok(Receipt::Object { index, len: 1 })
    }

    /// Whether a tick of the sender sends exactly these octets.
    fn sends(&mut self, now: Moment, wanted: &[u8]) -> bool {
        self.sender.tick(now, &mut self.out) == Sent::Datagram && self.out.bytes() == wanted
    }

    /// Delivers the sender's last datagram to the receiver.
    fn come(&mut self, now: Moment) -> Result<(), Fail> {
        Ok(self.receiver.deliver(self.out.bytes(), now, 0)?)
    }

    /// Whether the receiver hands up the object with this index, and nothing else.
    fn hands_up(&mut self, index: u32) -> bool {
        is_object(&self.receiver.take_up(), index) && self.receiver.take_up().is_none()
    }

    /// Enqueues, sends and delivers an object. Returns whether it gets this index, and is handed up once, right after it was delivered.
    fn passes(&mut self, alloc: Global, index: u32) -> Result<bool, Fail> {
        let now = Moment(u64::from(index).saturating_mul(1000));
        let octet = filled(alloc, &[(1, 0x61)])?;
        let wanted = datagram(alloc, index)?;
        if !self.joins(octet, index) || !self.sends(now, wanted.as_slice()) {
            return Ok(false);
        }
        self.come(now)?;
        Ok(self.hands_up(index))
    }
}

/// Returns the receiver with this node id. `Memory` if memory runs out.
// The call stands alone: an exit after it, by `?`, costs much to prove, since a receiver has many parts.
fn receiver_of(alloc: Global, profile: &Profile, node: NodeId) -> Result<Receiver, Memory> {
    Receiver::new(alloc, profile, node)
}

/// Returns a receiver, and a sender whose window has one object. If another one comes, the sender drops the one that it sent.
fn begun(alloc: Global) -> Result<Jobs, Fail> {
    let keys = [(Key::E, 64), (Key::B, 4), (Key::Mode, 1), (Key::Window, 1)];
    let (profile, node) = match (profile_of(&keys), NodeId::of(2)) {
        (Some(profile), Some(node)) => (profile, node),
        _ => Err("no profile")?,
    };
    Ok(Jobs {
        sender: Driven::new(alloc, &profile, InstanceId(7))?,
        receiver: receiver_of(alloc, &profile, node)?,
        out: Datagram::new(alloc)?,
    })
}

/// Passes up to `count` objects of one octet each. Returns the index of the first one that does not pass, or `None` if all do.
fn first_of(alloc: Global, jobs: &mut Jobs, count: u32) -> Result<Option<u32>, Fail> {
    for index in 0..count {
        if !jobs.passes(alloc, index)? {
            return Ok(Some(index));
        }
    }
    Ok(None)
}

/// As [`first_of`], with a new sender and a new receiver.
fn first_that_stays(alloc: Global, count: u32) -> Result<Option<u32>, Fail> {
    let mut jobs = begun(alloc)?;
    first_of(alloc, &mut jobs, count)
}

/// Object 65,536 has the id 0 again. Each object is still handed up once, in order.
#[test]
fn ids_begin_again_and_indices_go_on(rt: HostRuntime) -> Result<(), Fail> {
    if let Some(index) = first_that_stays(rt.alloc(), 70_000)? {
        panic!(rt; "object {index}");
    }
    Ok(())
}

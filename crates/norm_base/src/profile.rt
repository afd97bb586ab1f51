//! The settings of a session, which are the same in all its nodes. [`Profile::of`] makes them, and nearly every crate reads them.

ghost use Rattle.std.specs.Prelude.{◌≡◌, ◌+◌, ◌<◌};
ghost use Rattle.norm_base.specs.Settings.{mode_at, fabric_at};
ghost use Rattle.norm_base.specs.Given.{profile_given};
ghost use Rattle.norm_base.specs.Members.{is_receiver};

use crate::given::Given;
use crate::key::Key;
use crate::kinds::{FabricKind, Mode};
use crate::node::NodeId;
use std::marker::Model;

/// The settings of a session: one field for each [`Key`], within that key's range. Also, `max_n`
/// is at least `b`, and `blocks * b * e` is at most 16,777,216.
// Every value is in its key's range. Code that would otherwise overflow relies on the ranges.
#[derive(Clone, Copy, Debug, PartialEq, Eq)]
pub struct Profile {
    /// The sender's first instance id.
    pub instance: u16,
    /// The object transport id of an instance's first object.
    pub first: u16,
    /// The sender's node id. The receivers' ids follow it.
    pub sender: u32,
    pub receivers: u8,
    pub producers: u8,
    /// The octets of a symbol. In a stream, a segment's header of eight comes before them.
    pub e: u16,
    /// The most source symbols of a block.
    pub b: u8,
    /// The encoding symbols of a block with `b` source symbols.
    pub max_n: u8,
    /// How many parity symbols of a full block are sent unasked. If a block has fewer, all of them.
    pub auto: u8,
    /// The most objects and streams that the sender keeps.
    pub window: u16,
    /// The most octets of contents that the sender keeps, and that each receiver holds, streams with their whole buffers.
    pub octets: u32,
    /// The blocks of a stream's buffer, at the sender and at each receiver.
    pub blocks: u16,
    pub mode: Mode,
    /// The fewest microseconds from one datagram of the sender to the next.
    pub gap: u32,
    /// The group's round trip time in microseconds.
    pub grtt: u32,
    /// The round trip time as messages encode it (RFC 5740 section 4.2.1). Nothing decides by it.
    pub grtt_code: u8,
    /// The group's size as messages encode it (RFC 5740 section 4.2.1). Nothing decides by it.
    pub gsize_code: u8,
    /// The back-off factor (K in RFC 5740).
    pub k: u8,
    /// Microseconds from turn to turn. If it is 0, the clock gives the moments.
    pub step: u32,
    /// The most turns of a run.
    pub turns: u32,
    pub fabric: FabricKind,
    /// The seed of the draws of the network `chance`. Those of the receivers' back-offs have the next number.
    pub chance: u32,
    /// How many of 1,000 copies the network `chance` loses, on average.
    pub loss: u16,
    /// How many of 1,000 copies that the network `chance` does not lose arrive twice, on average.
    pub repeat: u16,
    /// The most offers that a copy is late by in the network `chance`.
    pub late: u8,
    pub port: u16,
}

impl Model for Profile {
    ghost use Rattle.norm_base.specs.Settings.{Settings};

    ghost Value = { Settings };

    ghost use Rattle.norm_base.specs.Settings.{InRange};
    ghost use Rattle.norm_base.specs.ProfileView.{settings_of, profile_of};

    ghost view = { settings_of };

    ghost invariant = { λ p. InRange (settings_of p) };

    ghost inverse = { profile_of };
}

// A value is the index of the key's word, and in range. So the last word needs no number of its own.
fn mode_at(value: u32) -> Mode
    ensures { result ≡ mode_at value }
{
    match value {
        0 => Mode::Hold,
        _ => Mode::Drop,
    }
}

fn fabric_at(value: u32) -> FabricKind
    ensures { result ≡ fabric_at value }
{
    match value {
        0 => FabricKind::Direct,
        1 => FabricKind::Chance,
        _ => FabricKind::Udp,
    }
}

impl Profile {
    /// Returns the profile with the given values, and defaults for all other keys. Returns `None` if a value is
    /// outside its key's range, or if one of the two rules across keys does not hold.
    pub fn of(given: &Given) -> Option<Profile>
        ensures { result ≡ profile_given given.now }
    {
        if !given.are_in_range() {
            return None;
        }
        Some(Profile {
            instance: given.value(Key::Instance) as u16,
            first: given.value(Key::First) as u16,
            sender: given.value(Key::Sender),
            receivers: given.value(Key::Receivers) as u8,
            producers: given.value(Key::Producers) as u8,
            e: given.value(Key::E) as u16,
            b: given.value(Key::B) as u8,
            max_n: given.value(Key::MaxN) as u8,
            auto: given.value(Key::Auto) as u8,
            window: given.value(Key::Window) as u16,
            octets: given.value(Key::Octets),
            blocks: given.value(Key::Blocks) as u16,
            mode: mode_at(given.value(Key::Mode)),
            gap: given.value(Key::Gap),
            grtt: given.value(Key::Grtt),
            grtt_code: given.value(Key::GrttCode) as u8,
            gsize_code: given.value(Key::GsizeCode) as u8,
            k: given.value(Key::K) as u8,
            step: given.value(Key::Step),
            turns: given.value(Key::Turns),
            fabric: fabric_at(given.value(Key::Fabric)),
            chance: given.value(Key::Chance),
            loss: given.value(Key::Loss) as u16,
            repeat: given.value(Key::Repeat) as u16,
            late: given.value(Key::Late) as u8,
            port: given.value(Key::Port) as u16,
        })
    }

    /// Returns the id of receiver `i`, counted from 0. Ids follow the sender's without gaps.
    pub fn receiver(&self, i: u32) -> NodeId
        requires { i < self.now.receivers }
        ensures { result ≡ self.now.sender + 1 + i }
    {
        // It does not fail: the greatest sender leaves numbers for 16 receivers.
        NodeId::of(self.sender + 1 + i).unwrap()
    }

    /// Whether this node is one of the session's receivers. One that was struck out still is.
    pub fn is_receiver(&self, node: NodeId) -> bool
        ensures { result ≡ is_receiver self.now node }
    {
        let number = node.number();
        self.sender < number && number <= self.sender + u32::from(self.receivers)
    }
}

impl Default for Profile {
    ghost use Rattle.std.specs.Prelude.{◌≡◌};
    ghost use Rattle.norm_base.specs.Settings.{defaults};

    ghost is_default = { λ p. p ≡ defaults };

    fn default() -> Profile {
        // It does not fail: the defaults are in their ranges, and meet both rules.
        Profile::of(&Given::new()).unwrap()
    }
}

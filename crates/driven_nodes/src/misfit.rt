//! Why two sessions are not relayed at a node, and how long both may take. `norm_program` calls [`no_relay`] and [`patience_of`].

ghost use Rattle.std.specs.Prelude.{◌≡◌};
ghost use Rattle.norm_base.specs.Members.{is_node};
ghost use Rattle.norm_relay.specs.RelayState.{is_hold};
ghost use Rattle.driven_nodes.specs.Misfits.{misfit, no_relay, patience_of, shared};

use crate::gathering::sender_of;
use norm_base::{Key, Mode, NodeId, Profile};
use relay_words::{NoRelay, Patience};

/// After how many of its round trips without an acknowledgement a sender gives a watermark up.
// Twenty flushes, two round trips apart (RFC 5740 section 5.5.3 leaves the number open).
const FLUSHED_ROUNDS: u64 = 40;

fn is_node(profile: &Profile, node: NodeId) -> bool
    ensures { result ≡ is_node profile.now node }
{
    if node.number() == profile.sender {
        return true;
    }
    profile.is_receiver(node)
}

/// Returns the first member of the session above that is one of the session below too. Call it if there is one.
fn shared(up: &Profile, down: &Profile) -> NoRelay
    ensures { result ≡ shared up.now down.now }
{
    let sender = sender_of(up);
    if is_node(down, sender) {
        return NoRelay::Shared { node: sender };
    }
    for i in 0..u32::from(up.receivers) {
        let node = up.receiver(i);
        if is_node(down, node) {
            return NoRelay::Shared { node };
        }
    }
    // Not taken if there is one.
    NoRelay::Shared { node: sender }
}

fn is_hold(mode: Mode) -> bool
    ensures { result ≡ is_hold mode }
{
    match mode {
        Mode::Hold => true,
        Mode::Drop => false,
    }
}

fn misfit(up: &Profile, node: NodeId, down: &Profile) -> NoRelay
    ensures { result ≡ misfit up.now node down.now }
{
    if !is_hold(down.mode) {
        return NoRelay::Mode;
    }
    if !up.is_receiver(node) {
        return NoRelay::Node {
            node,
            first: up.sender + 1,
            last: up.sender + u32::from(up.receivers),
        };
    }
    shared(up, down)
}

/// Returns why two sessions are not relayed at a node. Call it if they are not.
pub fn no_relay(up: &Profile, node: NodeId, down: &Profile) -> NoRelay
    ensures { result ≡ no_relay up.now node down.now }
{
    if up.e != down.e {
        return NoRelay::Size {
            key: Key::E,
            up: u32::from(up.e),
            down: u32::from(down.e),
        };
    }
    if up.b != down.b {
        return NoRelay::Size {
            key: Key::B,
            up: u32::from(up.b),
            down: u32::from(down.b),
        };
    }
    if up.blocks != down.blocks {
        return NoRelay::Size {
            key: Key::Blocks,
            up: u32::from(up.blocks),
            down: u32::from(down.blocks),
        };
    }
    if up.octets != down.octets {
        return NoRelay::Size {
            key: Key::Octets,
            up: up.octets,
            down: down.octets,
        };
    }
    misfit(up, node, down)
}

pub fn patience_of(up: &Profile, down: &Profile) -> Patience
    ensures { result ≡ patience_of up.now down.now }
{
    Patience {
        above: FLUSHED_ROUNDS * u64::from(up.grtt),
        below: u64::from(down.octets / u32::from(down.e)) * u64::from(down.gap),
    }
}

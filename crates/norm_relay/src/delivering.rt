//! What comes from above: the relay's receiver hears it, and what it hands up waits.

ghost use Rattle.std.specs.Prelude.{◌≡◌, ◌++◌, [], map, OnOk};
ghost use Rattle.norm_receive_rules.specs.ReceiverState.{ReceiverState};
ghost use Rattle.norm_receive_rules.specs.Receiving.{received};
ghost use Rattle.norm_receiver.specs.ReceiverSound.{StandsFor};
ghost use Rattle.norm_relay.specs.Holding.{left};
ghost use Rattle.norm_relay.specs.RelayKept.{with_ups};
ghost use Rattle.norm_relay.specs.RelayStep.{goes_on};
ghost use Rattle.norm_relay.specs.Waiting.{waiting_of};

use crate::ticking::{Held, goes_on};
use crate::waiting::{Waiting, waiting_of};
use norm_base::{Memory, Moment};
use norm_receiver::Receiver;
use std::collections::VecDeque;

/// Delivers a datagram to the receiver. If that goes on to another instance, nothing of the former one is held back any more.
///
/// # Errors
///
/// `Memory` if memory runs out.
pub(crate) fn hear(
    receiver: &mut Receiver,
    held: &mut Held,
    bytes: &[u8],
    now: Moment,
    draw: u32,
) -> Result<(), Memory>
    ensures profile { receiver.new.p ≡ receiver.old.p }
    ensures stands { OnOk result ((s : ReceiverState) → StandsFor receiver.old s → StandsFor receiver.new (received receiver.old.p s bytes.now now draw)) }
    ensures leaves { OnOk result ((s : ReceiverState) → StandsFor receiver.old s
        → held.new ≡ left (goes_on s.instance (received receiver.old.p s bytes.now now draw).instance) held.old) }
{
    let was = receiver.instance();
    receiver.deliver(bytes, now, draw)?;
    held.leave(goes_on(was, receiver.instance()));
    Ok(())
}

/// Takes all hand-ups of the receiver, which wait after what waits.
///
/// # Errors
///
/// `Memory` if memory runs out.
pub(crate) fn take_all(
    receiver: &mut Receiver,
    waiting: &mut VecDeque<Waiting>,
) -> Result<(), Memory>
    ensures profile { receiver.new.p ≡ receiver.old.p }
    ensures taken { OnOk result ((s : ReceiverState) → StandsFor receiver.old s → StandsFor receiver.new (with_ups [] s)) }
    ensures waits { OnOk result ((s : ReceiverState) → StandsFor receiver.old s
        → waiting.new.items ≡ waiting.old.items ++ map waiting_of s.holding.ups) }
{
    let many = receiver.ups();
    for _ in 0..many {
        let Some(up) = receiver.take_up() else {
            // Not taken: there are this many.
            return Err(Memory);
        };
        waiting.push_back(waiting_of(up))?;
    }
    Ok(())
}

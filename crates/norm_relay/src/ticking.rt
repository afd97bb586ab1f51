//! What is said above: acknowledgements are held back until the session below has confirmed what they confirm.

ghost use Rattle.std.specs.Prelude.{◌≡◌, [], IfSome, None, length};
ghost use Rattle.norm_receive_rules.specs.ReceiverState.{ReceiverState};
ghost use Rattle.norm_receive_rules.specs.Ticking.{ticked};
ghost use Rattle.norm_receiver.specs.ReceiverSound.{StandsFor};
ghost use Rattle.norm_relay.specs.Holding.{nothing_held, left, with_unmarked, with_promise, met_by, without_promise, IsHeldTick};
ghost use Rattle.norm_relay.specs.Pumping.{mark_position};
ghost use Rattle.norm_relay.specs.RelayStep.{goes_on};
ghost use Rattle.norm_send_rules.specs.SenderState.{SenderState};
ghost use Rattle.norm_send_rules.specs.Watermarks.{all_past};
ghost use Rattle.norm_sender.specs.SenderKept.{Stands};

use fec_plan::{Position, reached_by};
use norm_base::{Datagram, InstanceId, Moment, Sent};
use norm_receiver::Receiver;
use norm_send_rules::Receipt;
use norm_sender::Sender;

/// The octets of an acknowledgement of a flush.
// RFC 5740 section 4.3: 20 octets of NORM_ACK's header, and the object, the payload id and what is before them, which are 12 (section 5.5.3).
pub const ACK_LEN: usize = 32;

/// An acknowledgement that is sent once every member below has confirmed everything up to `at`.
#[derive(Clone, Copy, Debug)]
pub struct Promise {
    pub ack: [u8; ACK_LEN],
    pub at: Position,
}

/// What a relay holds back.
// Arrays, so that no tick takes memory.
#[derive(Clone, Copy, Debug)]
pub struct Held {
    /// The upper session began anew, so the one below has to begin anew before anything else.
    pub anew: bool,
    /// The last acknowledgement of the receiver that has no watermark.
    pub unmarked: Option<[u8; ACK_LEN]>,
    /// The acknowledgement that has one. A later one does not replace it: each repeated flush above would put it off again.
    pub promise: Option<Promise>,
}

impl Held {
    pub(crate) fn nothing() -> Held
        ensures { result ≡ nothing_held }
    {
        Held {
            anew: false,
            unmarked: None,
            promise: None,
        }
    }

    /// Forgets what is held back, if the receiver went on to another instance: its sender knows nothing of the former one.
    pub(crate) fn leave(&mut self, is_other: bool)
        ensures { self.new ≡ left is_other self.old }
    {
        if !is_other {
            return;
        }
        self.anew = true;
        self.unmarked = None;
        self.promise = None;
    }

    /// Keeps the acknowledgement that a tick wrote, in place of an older one.
    pub(crate) fn keep(&mut self, out: &Datagram)
        ensures { length out.now ≡ 32 → self.new ≡ with_unmarked out.now self.old }
    {
        let bytes = out.bytes();
        // Not taken: each acknowledgement of a flush has this length.
        if bytes.len() != ACK_LEN {
            return;
        }
        let mut ack = [0u8; ACK_LEN];
        ack.copy_from_slice(bytes);
        self.unmarked = Some(ack);
    }

    /// Notes that a mark was made for an acknowledgement.
    pub(crate) fn note_mark(&mut self, ack: [u8; ACK_LEN], receipt: Receipt)
        ensures { self.new ≡ with_promise ack (mark_position receipt) self.old }
    {
        let Some(at) = mark_position(receipt) else {
            return;
        };
        self.unmarked = None;
        self.promise = Some(Promise { ack, at });
    }

    /// Takes the acknowledgement that may be sent now: it has a watermark, and every member below is listed past that. `None` if there is none.
    // By the listings and not by the watermark's outcome, which is forgotten once it was reported.
    pub(crate) fn take_met(&mut self, sender: &Sender) -> Option<[u8; ACK_LEN]>
        ensures met { (s : SenderState) → Stands sender.now s → result ≡ met_by (all_past s) self.old.promise }
        ensures some { IfSome result (λ _. self.new ≡ without_promise self.old) }
        ensures none { result ≡ None → self.new ≡ self.old }
    {
        let Some(promise) = self.promise else {
            return None;
        };
        if !is_past(sender, promise.at) {
            return None;
        }
        self.promise = None;
        Some(promise.ack)
    }
}

fn mark_position(receipt: Receipt) -> Option<Position>
    ensures { result ≡ mark_position receipt }
{
    match receipt {
        Receipt::Mark { at, .. } => Some(at),
        // The receipts of other jobs.
        Receipt::Object { .. }
        | Receipt::Opened { .. }
        | Receipt::Wrote { .. }
        | Receipt::Closed { .. }
        | Receipt::Restarted { .. }
        | Receipt::Struck { .. } => None,
    }
}

/// Whether the receiver went on from one instance to another. The first one of all is no other.
pub(crate) fn goes_on(was: Option<InstanceId>, is: Option<InstanceId>) -> bool
    ensures { result ≡ goes_on was is }
{
    let Some(was) = was else {
        return false;
    };
    let Some(is) = is else {
        return false;
    };
    was.0 != is.0
}

/// Whether every member of a session is listed past a position.
pub(crate) fn is_past(sender: &Sender, at: Position) -> bool
    ensures { (s : SenderState) → Stands sender.now s → result ≡ all_past s at }
{
    reached_by(sender.book().least(), &at)
}

/// Writes an acknowledgement that was held back.
pub(crate) fn write(ack: [u8; ACK_LEN], out: &mut Datagram)
    ensures { out.new ≡ ack }
{
    out.clear();
    out.push(&ack);
}

/// Ticks the receiver. An acknowledgement that it gives is held back, and anything else is sent.
pub(crate) fn tick(
    receiver: &mut Receiver,
    held: &mut Held,
    now: Moment,
    out: &mut Datagram,
) -> Sent
    requires { receiver.old.hold.ups ≡ [] }
    ensures profile { receiver.new.p ≡ receiver.old.p }
    ensures ticks { (s : ReceiverState) → StandsFor receiver.old s
        → IsHeldTick receiver.new held.old held.new out.new result (ticked receiver.old.p s now) }
{
    let due = receiver.due();
    let sent = receiver.tick(now, out);
    if due.is_some() {
        held.keep(out);
        return Sent::Nothing;
    }
    sent
}

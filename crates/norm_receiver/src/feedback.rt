//! The datagrams of a receiver (RFC 5740 section 4.3).

ghost use Rattle.std.specs.Prelude.{◌≡◌, [], length};
ghost use Rattle.norm_ext.specs.Octets.{octets_of};
ghost use Rattle.norm_receive_rules.specs.ReceiverState.{ReceiverState};
ghost use Rattle.norm_receive_rules.specs.Nack.{ack_message, nack_message, instance_id};
ghost use Rattle.norm_receiver.specs.Numbers.{numbers_of};

use crate::numbers::{FlushPlace, Numbers};
use norm_base::{Datagram, InstanceId, NodeId, Profile};
use norm_ext::items::item_of;
use norm_ext::{Extensions, Requests};
use norm_fbmsg::{AckBody, AckMsg, FLUSH_ACK, NackMsg, write_ack, write_nack};

impl Numbers {
    /// Returns the current instance, or 0 if none began.
    fn instance_id(&self) -> InstanceId
        ensures { (s : ReceiverState) → self.now ≡ numbers_of s → result ≡ instance_id s }
    {
        match self.instance {
            Some(instance) => instance,
            // Not written: without an instance nothing is due and nothing is needed.
            None => InstanceId(0),
        }
    }
}

/// Writes the acknowledgement of a flush that named this position.
pub(crate) fn write_mark(profile: &Profile, numbers: &Numbers, at: FlushPlace, out: &mut Datagram)
    ensures { (s : ReceiverState) → numbers.now ≡ numbers_of s → out.new ≡ octets_of (ack_message profile.now s at) }
{
    let exts = Extensions::none();
    out.clear();
    write_ack(
        &AckMsg {
            source: numbers.node,
            sequence: numbers.sequence,
            // It does not fail: a profile's sender is a node.
            sender: NodeId::of(profile.sender).unwrap(),
            instance: numbers.instance_id(),
            ack_type: FLUSH_ACK,
            // RFC 5740 section 4.3.2: it answers the ack_id of an ACK_REQ, and a flush has none.
            ack_id: 0,
            exts,
            body: AckBody::Mark(item_of(profile, at.position())),
        },
        out,
    );
}

/// Writes a NACK up to where its requests begin.
pub(crate) fn write_nack_front(profile: &Profile, numbers: &Numbers, out: &mut Datagram)
    ensures exact { (s : ReceiverState) → numbers.now ≡ numbers_of s → out.new ≡ octets_of (nack_message profile.now s []) }
    ensures size { length out.new ≡ 24 }
{
    let exts = Extensions::none();
    let requests = Requests::none();
    out.clear();
    write_nack(
        &NackMsg {
            source: numbers.node,
            sequence: numbers.sequence,
            sender: NodeId::of(profile.sender).unwrap(),
            instance: numbers.instance_id(),
            exts,
            requests,
        },
        out,
    );
}

//! What standard error says of a relay, for people. `norm_endings` prints it.

ghost use Rattle.std.specs.Prelude.{◌≡◌, ◌||◌, Some};
ghost use Rattle.std.specs.Fmt.{DisplaysOnOk};
ghost use Rattle.relay_words.specs.Reasons.{relay_reason, stream_reason, enqueue_reason, command_reason, relayed_reason, has_lost, is_short, is_told};

use crate::ends::{Losses, NoEvent, NoRelay, Patience};
use norm_send_rules::{EnqueueFault, SendFault, StreamFault};
use std::fmt;

/// Says why two sessions are not relayed.
pub fn say_no_relay<W: fmt::Write>(why: NoRelay, f: &mut fmt::Formatter<W>) -> fmt::Result
    ensures { DisplaysOnOk W.write_str_gives f.old result (Some (relay_reason why)) f.new }
{
    match why {
        NoRelay::Size { key, up, down } => {
            let name = key.row().name;
            write!(f, "{name} is {up} above and {down} below")
        }
        NoRelay::Mode => f.write_str("the mode below is drop, and a relay wants hold"),
        NoRelay::Node { node, first, last } => {
            let id = node.number();
            write!(
                f,
                "the node {id} is no receiver above, where they are {first} to {last}"
            )
        }
        NoRelay::Shared { node } => {
            let id = node.number();
            write!(f, "the id {id} is a member above and below")
        }
    }
}

impl fmt::Display for NoEvent {
    ghost use Rattle.std.specs.Prelude.{Some};
    ghost use Rattle.relay_words.specs.Reasons.{event_reason};

    ghost output = { λ why. Some (event_reason why) };

    fn fmt<W: fmt::Write>(&self, f: &mut fmt::Formatter<W>) -> fmt::Result {
        match *self {
            NoEvent::Spelt { why } => write!(f, "{why}"),
            NoEvent::Form => f.write_str("it is neither `up HEX` nor `down HEX` nor `tick`"),
            NoEvent::Digits { why } => write!(f, "its HEX is no datagram: {why}"),
        }
    }
}

// Of a relay no other refusals come than a restart's and a write's, since what fits above fits below.
const OTHER_JOB: &str = "a job below is refused";

fn say_stream<W: fmt::Write>(why: StreamFault, f: &mut fmt::Formatter<W>) -> fmt::Result
    ensures { DisplaysOnOk W.write_str_gives f.old result (Some (stream_reason why)) f.new }
{
    match why {
        StreamFault::Spent { octets } => write!(
            f,
            "the write below is refused: after {octets} octets the stream cannot take so many more"
        ),
        _ => f.write_str(OTHER_JOB),
    }
}

fn say_enqueue<W: fmt::Write>(why: EnqueueFault, f: &mut fmt::Formatter<W>) -> fmt::Result
    ensures { DisplaysOnOk W.write_str_gives f.old result (Some (enqueue_reason why)) f.new }
{
    match why {
        EnqueueFault::Stream(why) => say_stream(why, f),
        _ => f.write_str(OTHER_JOB),
    }
}

/// Says which job of the session below was refused, and why.
pub fn say_command<W: fmt::Write>(fault: SendFault, f: &mut fmt::Formatter<W>) -> fmt::Result
    ensures { DisplaysOnOk W.write_str_gives f.old result (Some (command_reason fault)) f.new }
{
    match fault {
        SendFault::IdUsed { instance } => {
            let id = instance.0;
            write!(
                f,
                "the restart below under instance {id} is refused: no relay restarts below more than 32767 times"
            )
        }
        SendFault::Enqueue(why) => say_enqueue(why, f),
        _ => f.write_str(OTHER_JOB),
    }
}

impl fmt::Display for Losses {
    ghost use Rattle.std.specs.Prelude.{Some};
    ghost use Rattle.relay_words.specs.Reasons.{loss_reason};

    ghost output = { λ lost. Some (loss_reason lost) };

    fn fmt<W: fmt::Write>(&self, f: &mut fmt::Formatter<W>) -> fmt::Result {
        let count = self.count;
        let index = self.index;
        let instance = self.instance.0;
        write!(
            f,
            "the sender above dropped data, so objects or streams are not sent below whole: {count} in all, the first is {index} of instance {instance}"
        )
    }
}

impl fmt::Display for Patience {
    ghost use Rattle.std.specs.Prelude.{Some};
    ghost use Rattle.relay_words.specs.Reasons.{patience_reason};

    ghost output = { λ patience. Some (patience_reason patience) };

    fn fmt<W: fmt::Write>(&self, f: &mut fmt::Formatter<W>) -> fmt::Result {
        let above = self.above;
        let below = self.below;
        write!(
            f,
            "40 grtt above are {above} microseconds, and octets / e * gap below are {below}: the sender above may give up before a large object is sent on"
        )
    }
}

fn has_lost(lost: Losses) -> bool
    ensures { result ≡ has_lost lost }
{
    !(lost.count == 0)
}

fn is_short(patience: Patience) -> bool
    ensures { result ≡ is_short patience }
{
    patience.above < patience.below
}

/// Whether there is something to say once all lines were relayed.
pub fn is_told(lost: Losses, patience: Patience) -> bool
    ensures { result ≡ is_told lost patience }
{
    has_lost(lost) || is_short(patience)
}

/// Says what the sender above dropped, and whether it may give up too early. Says nothing if neither applies.
pub fn say_relayed<W: fmt::Write>(
    lost: Losses,
    patience: Patience,
    f: &mut fmt::Formatter<W>,
) -> fmt::Result
    ensures { DisplaysOnOk W.write_str_gives f.old result (Some (relayed_reason lost patience)) f.new }
{
    if has_lost(lost) {
        if is_short(patience) {
            return write!(f, "{lost}\n{patience}");
        }
        return write!(f, "{lost}");
    }
    if is_short(patience) {
        return write!(f, "{patience}");
    }
    Ok(())
}

//! Datagrams of senders that come to a receiver alone, and that its rules pass over: [`Strays`].

ghost use Rattle.std.specs.Prelude.{◌≡◌, Some};
ghost use Rattle.norm_watch.specs.Following.{goes_to, names_index, followed, followed_by, is_older};

use norm_base::{InstanceId, Local, NodeId, Profile};
use norm_ext::places::{INSTANCE_AT, SOURCE_AT};
use norm_ext::{index_named, is_above, read_16, read_32};
use std::fmt;
use std::time::Duration;
use udp_rules::{Heard, heard_in};

/// After this many seconds a second datagram shows that the first was not just late. Our own choice.
// We expect a slow network to deliver old datagrams only for a moment.
const LATE: u64 = 1;

/// The offset after the instance of a sender's datagram (RFC 5740 section 4.2).
const INSTANCE_END: usize = INSTANCE_AT + 2;

/// What to say, once for each kind, of datagrams that a receiver passes over.
#[derive(Clone, Copy, Debug)]
pub(crate) enum Stray {
    /// They are of the receiver's sender, in an instance that the receiver does not go back to.
    Older {
        instance: InstanceId,
        own: InstanceId,
    },
    /// They are of another sender than the profile's, which is `own`.
    Other {
        sender: NodeId,
        own: u32,
    },
}

impl fmt::Display for Stray {
    fn fmt<W: fmt::Write>(&self, f: &mut fmt::Formatter<W>) -> fmt::Result {
        match self {
            Stray::Older { instance, own } => {
                let theirs = instance.0;
                let own = own.0;
                write!(
                    f,
                    "datagrams of instance {theirs} come, and this receiver is in {own}: they are passed over"
                )
            }
            Stray::Other { sender, own } => {
                let theirs = sender.number();
                write!(
                    f,
                    "datagrams of sender {theirs} come, and the profile's sender is {own}"
                )
            }
        }
    }
}

/// Something to say once, if the kept number is seen again a second or more after it was kept: a network may be late. Another number that is
/// seen then is kept in its place.
#[derive(Clone, Copy)]
struct Again {
    /// The instance or the sender id that was seen. `None` before the first.
    number: Option<u32>,
    /// When it was kept, from which the second counts.
    since: Duration,
    is_said: bool,
}

impl Again {
    fn new() -> Again {
        Again {
            number: None,
            since: Duration::ZERO,
            is_said: false,
        }
    }

    /// Notes that a number is seen at this moment. Returns whether to say so now: once at most.
    fn see(&mut self, number: u32, now: Duration) -> bool {
        if self.is_said {
            return false;
        }
        if let Some(seen) = self.number {
            if now.saturating_sub(self.since) < Duration::from_secs(LATE) {
                return false;
            }
            if seen == number {
                self.is_said = true;
                return true;
            }
        }
        self.number = Some(number);
        self.since = now;
        false
    }
}

/// Whether a receiver that is in the instance `current` goes on to `instance`: to any if it is in none, and else to one above its own. RFC
/// 5740 section 4.2.1 has it go on to a new one. That only one above is new is our own choice.
fn goes_to(current: &Option<InstanceId>, instance: InstanceId) -> bool
    ensures { result ≡ goes_to current.now instance }
{
    match current {
        Some(current) => is_above(*current, instance),
        None => true,
    }
}

/// Whether a message names an object to a receiver that begins its instance.
fn names_index(profile: &Profile, object: Option<u16>) -> bool
    ensures { result ≡ names_index profile.now object }
{
    match object {
        Some(object) => index_named(profile, 0, object).is_some(),
        None => false,
    }
}

/// Returns the instance that a receiver is in after a message of its sender. It goes on to that of the message only if that names an
/// object.
fn followed(profile: &Profile, current: &Option<InstanceId>, heard: &Heard) -> Option<InstanceId>
    ensures { result ≡ followed profile.now current.now heard.now }
{
    if goes_to(current, heard.instance) && names_index(profile, heard.object) {
        return Some(heard.instance);
    }
    *current
}

/// Whether an instance is neither the receiver's own nor above it. None is, as long as the receiver is in no instance.
fn is_older(current: &Option<InstanceId>, instance: InstanceId) -> bool
    ensures { result ≡ is_older current.now instance }
{
    match current {
        Some(current) => !(*current == instance || is_above(*current, instance)),
        None => false,
    }
}

/// Whether a datagram, if it is a sender's, is of the profile's sender and of this instance.
fn is_from(profile: &Profile, instance: &InstanceId, octets: &[u8]) -> bool {
    octets.len() >= INSTANCE_END
        && read_32(octets, SOURCE_AT) == profile.sender
        && read_16(octets, INSTANCE_AT) == instance.0
}

/// Which instance a receiver alone is in, and what its rules pass over. Call [`unusual`](Strays::unusual) for each datagram that is taken,
/// and [`hear`](Strays::hear) for what it returns.
#[derive(Drop)]
pub(crate) struct Strays {
    profile: Profile,
    current: Option<InstanceId>,
    older: Again,
    other: Again,
}

impl Strays {
    /// Returns the state of a receiver alone, before it heard anything. `None` for a sender, the hub and all members.
    pub(crate) fn of(profile: &Profile, local: &Local) -> Option<Strays> {
        match local {
            Local::One(node) if node.number() != profile.sender => Some(Strays {
                profile: *profile,
                current: None,
                older: Again::new(),
                other: Again::new(),
            }),
            _ => None,
        }
    }

    /// Whether a datagram, if it is a sender's, is of the sender and instance that the receiver follows, as most are.
    fn is_usual(&self, octets: &[u8]) -> bool {
        match &self.current {
            Some(current) => is_from(&self.profile, current, octets),
            None => false,
        }
    }

    /// Returns what a datagram says of its sender. `None` if that is what the receiver follows, or if the datagram is no sender's.
    pub(crate) fn unusual(&self, octets: &[u8]) -> Option<Heard> {
        if self.is_usual(octets) {
            return None;
        }
        heard_in(octets)
    }

    /// Notes what the receiver's sender says. Returns [`Stray::Older`] if an older instance is to be reported now.
    fn hear_own(&mut self, heard: &Heard, now: Duration) -> Option<Stray>
        ensures { self.new.current ≡ followed self.old.profile self.old.current heard.now }
    {
        self.current = followed(&self.profile, &self.current, heard);
        if !is_older(&self.current, heard.instance) {
            return None;
        }
        if !self.older.see(u32::from(heard.instance.0), now) {
            return None;
        }
        match self.current {
            Some(own) => Some(Stray::Older {
                instance: heard.instance,
                own,
            }),
            None => None,
        }
    }

    /// Notes what another sender says. Returns [`Stray::Other`] if that sender is to be reported now.
    fn hear_other(&mut self, heard: &Heard, now: Duration) -> Option<Stray>
        ensures { self.new.current ≡ self.old.current }
    {
        if !self.other.see(heard.sender.number(), now) {
            return None;
        }
        Some(Stray::Other {
            sender: heard.sender,
            own: self.profile.sender,
        })
    }

    /// Notes what a datagram says that was taken now. Returns what to say of it, if anything.
    pub(crate) fn hear(&mut self, heard: &Heard, now: Duration) -> Option<Stray>
        ensures { self.new.current ≡ followed_by self.old.profile self.old.current (Some heard.now) }
    {
        if heard.sender.number() == self.profile.sender {
            return self.hear_own(heard, now);
        }
        self.hear_other(heard, now)
    }
}

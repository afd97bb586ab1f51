//! A sender's instance that does not fit this receiver's profile.

ghost use Rattle.std.specs.Prelude.{◌≡◌};
ghost use Rattle.udp_rules.specs.Misfits.{says_stream, has_sizes, fits, difference_of, misfit_of};

use crate::heard::Heard;
use norm_base::{InstanceId, NodeId, Profile};
use norm_ext::Fti;
use norm_ext::flags::STREAM;
use norm_ext::items::has_flag;
use std::fmt;

/// Octets of a symbol (`e`), and the most source symbols (`b`) and encoding symbols (`max_n`) of a block.
#[derive(Clone, Copy, Debug)]
pub struct Sizes {
    pub e: u16,
    pub b: u8,
    pub max_n: u8,
}

/// How a sender's transmission information differs from a receiver's profile. If sizes and length do, it is `Sizes`.
#[derive(Clone, Copy, Debug)]
pub enum Difference {
    /// Symbols or blocks have other sizes.
    Sizes { theirs: Sizes, own: Sizes },
    /// An object that is no stream has more octets than the profile allows.
    Length { octets: u64, most: u32 },
}

/// A message that did not fit, by its sender and instance, and how it differs.
#[derive(Clone, Copy, Debug)]
pub struct Misfit {
    pub sender: NodeId,
    pub instance: InstanceId,
    pub difference: Difference,
}

impl fmt::Display for Difference {
    fn fmt<W: fmt::Write>(&self, f: &mut fmt::Formatter<W>) -> fmt::Result {
        match self {
            Difference::Sizes { theirs, own } => {
                let Sizes { e, b, max_n } = *theirs;
                write!(f, "sends with e {e}, b {b}, max_n {max_n}")?;
                let Sizes { e, b, max_n } = *own;
                write!(f, ", and this profile has {e}, {b}, {max_n}")
            }
            Difference::Length { octets, most } => write!(
                f,
                "sends an object of {octets} octets, and this profile's octets are {most}"
            ),
        }
    }
}

impl fmt::Display for Misfit {
    fn fmt<W: fmt::Write>(&self, f: &mut fmt::Formatter<W>) -> fmt::Result {
        let sender = self.sender.number();
        let difference = self.difference;
        let InstanceId(instance) = self.instance;
        write!(
            f,
            "sender {sender} {difference}: nothing of instance {instance} is taken"
        )
    }
}

/// Whether INFO or DATA with these flags is of a stream (NORM_FLAG_STREAM, RFC 5740 section 4.2.1).
fn is_stream(flags: u8) -> bool
    ensures { result ≡ says_stream flags }
{
    has_flag(flags, STREAM)
}

fn has_sizes(profile: &Profile, fti: &Fti) -> bool
    ensures { result ≡ has_sizes profile.now fti.now }
{
    fti.e == profile.e && fti.b == profile.b && fti.max_n == profile.max_n
}

/// Whether transmission information fits the profile. `flags` are those of its message: if it is a stream's, the length says nothing.
pub fn fits(profile: &Profile, fti: &Fti, flags: u8) -> bool
    ensures { result ≡ fits profile.now fti.now flags }
{
    has_sizes(profile, fti) && (is_stream(flags) || fti.l <= u64::from(profile.octets))
}

/// Returns how transmission information that does not fit differs.
fn difference_of(profile: &Profile, fti: &Fti) -> Difference
    ensures { result ≡ difference_of profile.now fti.now }
{
    if has_sizes(profile, fti) {
        return Difference::Length {
            octets: fti.l,
            most: profile.octets,
        };
    }
    Difference::Sizes {
        theirs: Sizes {
            e: fti.e,
            b: fti.b,
            max_n: fti.max_n,
        },
        own: Sizes {
            e: profile.e,
            b: profile.b,
            max_n: profile.max_n,
        },
    }
}

/// `fti` is that of `heard`, and does not fit.
pub fn misfit_of(profile: &Profile, heard: &Heard, fti: &Fti) -> Misfit
    ensures { result ≡ misfit_of profile.now heard.now fti.now }
{
    Misfit {
        sender: heard.sender,
        instance: heard.instance,
        difference: difference_of(profile, fti),
    }
}

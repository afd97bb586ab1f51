//! What a receiver's network passes over: a [`Sieve`] decides, and [`PassesOver`] gives the outcome to `norm_watch`.

ghost use Rattle.std.specs.Prelude.{◌≡◌, Some, None};
ghost use Rattle.norm_base.specs.Faults.{one_more, counted};
ghost use Rattle.udp_rules.specs.Hearing.{heard_in};
ghost use Rattle.udp_rules.specs.Misfits.{compared, is_in, cut_by, cut_after, cut_then, is_cut_off, first_misfit, misfit_then};

use crate::heard::{Heard, heard_in};
use crate::misfit::{Misfit, fits, misfit_of};
use norm_base::{InstanceId, Local, Profile};

/// A network that may pass over datagrams, and reports it for people.
pub trait PassesOver {
    /// Returns how many datagrams of this session were passed over because their sender's instance did not fit.
    fn passed_over(&self) -> u64;

    /// Returns what did not fit at the first of them. It stays after a later datagram fits.
    fn misfit(&self) -> Option<Misfit>;
}

/// What a receiver alone passes over. If transmission information of its sender does not fit its profile, all INFO, DATA and commands of
/// that instance are passed over, until INFO or DATA of the instance fits, or that of another instance does not. So a forged datagram cuts
/// the sender off until then. A sender that only flushes sends neither.
// In the network and not in the rules: a network may lose anything, so no clause above it changes.
#[derive(Drop)]
pub struct Sieve {
    /// The receiver's profile. `None` at any other node, which passes nothing over.
    pub profile: Option<Profile>,
    /// The instance that is cut off, if one is.
    pub cut: Option<InstanceId>,
    /// How many datagrams were passed over, commands too.
    pub count: u64,
    /// The first that did not fit.
    pub misfit: Option<Misfit>,
}

/// Returns the profile that a node compares with. `None` unless it is a receiver alone.
fn compared(profile: &Profile, local: &Local) -> Option<Profile>
    ensures { result ≡ compared profile.now local.now }
{
    match local {
        Local::All => None,
        Local::One(node) => {
            if node.number() == profile.sender {
                None
            } else {
                Some(*profile)
            }
        }
        Local::Hub => None,
    }
}

fn is_in(cut: &Option<InstanceId>, instance: InstanceId) -> bool
    ensures { result ≡ is_in cut.now instance }
{
    match cut {
        Some(cut) => *cut == instance,
        None => false,
    }
}

/// Returns which instance is cut off after transmission information of this one: this one if it does not fit, and no longer this one if it
/// fits.
fn cut_by(is_fit: bool, cut: Option<InstanceId>, instance: InstanceId) -> Option<InstanceId>
    ensures { result ≡ cut_by is_fit cut instance }
{
    // All of the instance, and not only what does not fit: a receiver would otherwise ask for that anew in each round.
    if !is_fit {
        return Some(instance);
    }
    if is_in(&cut, instance) { None } else { cut }
}

/// Returns which instance is cut off after INFO, DATA or a command of the profile's sender. One without transmission information changes
/// nothing.
fn cut_after(profile: &Profile, cut: Option<InstanceId>, heard: &Heard) -> Option<InstanceId>
    ensures { result ≡ cut_after profile.now cut heard.now }
{
    match heard.fti {
        Some(fti) => cut_by(fits(profile, &fti, heard.flags), cut, heard.instance),
        None => cut,
    }
}

impl Sieve {
    /// Returns a sieve with nothing cut off. It lets everything through unless `local` is a receiver alone.
    pub fn of(profile: &Profile, local: &Local) -> Sieve
        ensures profile { result.profile ≡ compared profile.now local.now }
        ensures cut { result.cut ≡ None }
        ensures count { result.count ≡ 0 }
        ensures misfit { result.misfit ≡ None }
    {
        Sieve {
            profile: compared(profile, local),
            cut: None,
            count: 0,
            misfit: None,
        }
    }

    /// Returns a sieve that lets everything through, for a network without a session.
    pub fn open() -> Sieve
        ensures profile { result.profile ≡ None }
        ensures count { result.count ≡ 0 }
        ensures misfit { result.misfit ≡ None }
    {
        Sieve {
            profile: None,
            cut: None,
            count: 0,
            misfit: None,
        }
    }

    /// Counts a datagram that is passed over, and keeps the first that does not fit.
    fn count(&mut self, profile: &Profile, heard: &Heard)
        ensures profile { self.new.profile ≡ self.old.profile }
        ensures cut { self.new.cut ≡ self.old.cut }
        ensures count { self.new.count ≡ one_more self.old.count }
        ensures misfit { self.new.misfit ≡ first_misfit profile.now self.old.misfit heard.now }
    {
        self.count = self.count.saturating_add(1);
        if self.misfit.is_none() {
            if let Some(fti) = heard.fti {
                self.misfit = Some(misfit_of(profile, heard, &fti));
            }
        }
    }

    /// Whether INFO, DATA or a command is passed over. If so, counts it. It may itself cut its instance off, or end that.
    fn cuts_off(&mut self, profile: &Profile, heard: &Heard) -> bool
        ensures profile { self.new.profile ≡ self.old.profile }
        ensures cut { self.new.cut ≡ cut_then (Some profile.now) self.old.cut (Some heard.now) }
        ensures exact { result ≡ is_cut_off (Some profile.now) self.new.cut (Some heard.now) }
        ensures count { self.new.count ≡ counted self.old.count result }
        ensures misfit { self.new.misfit ≡ misfit_then (Some profile.now) result self.old.misfit (Some heard.now) }
    {
        // Only the profile's sender can misfit. Another one is passed over by the receiver itself.
        if heard.sender.number() != profile.sender {
            return false;
        }
        self.cut = cut_after(profile, self.cut, heard);
        if !is_in(&self.cut, heard.instance) {
            return false;
        }
        self.count(profile, heard);
        true
    }

    /// Whether a datagram is passed over. If so, counts it.
    pub fn passes_over(&mut self, bytes: &[u8]) -> bool
        ensures profile { self.new.profile ≡ self.old.profile }
        ensures cut { self.new.cut ≡ cut_then self.old.profile self.old.cut (heard_in bytes.now) }
        ensures exact { result ≡ is_cut_off self.new.profile self.new.cut (heard_in bytes.now) }
        ensures count { self.new.count ≡ counted self.old.count result }
        ensures misfit { self.new.misfit ≡ misfit_then self.old.profile result self.old.misfit (heard_in bytes.now) }
    {
        let Some(profile) = self.profile else {
            return false;
        };
        match heard_in(bytes) {
            Some(heard) => self.cuts_off(&profile, &heard),
            None => false,
        }
    }
}

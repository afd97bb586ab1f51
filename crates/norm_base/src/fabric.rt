//! The trait of the network between the members of a session. `norm_memory` implements it in memory, `norm_udp` over sockets, `norm_host`
//! by the one of these that a profile names, and `norm_watch` around another network.

ghost use Rattle.std.specs.Prelude.{◌≡◌, ◌≤◌, ℕ, [], length, IfOk, IfNone, OnOk, OnErr};
ghost use Rattle.norm_base.specs.Faults.{Counts, network_failed};
ghost use Rattle.norm_base.specs.Sizes.{datagram_room};
ghost use Rattle.norm_base.specs.Network.{Network, Starts, with_offer, with_answer, answer_of, IsHonestAnswer, IsDirectAnswer};

use crate::datagram::Datagram;
use crate::fault::FabricFault;
use crate::kinds::Local;
use crate::node::NodeId;
use crate::profile::Profile;

/// A network that copies each datagram to every other member. It may lose, repeat, delay and reorder copies, and
/// `take` may return `None` at any time, unless the network is direct. [`start`](Fabric::start) comes first.
pub trait Fabric {
    /// The recorded history: the starts, and what was offered and taken since the last one. It also says if the
    /// network is honest (each datagram that is taken was offered by another member), and if it is direct (none is
    /// lost, repeated, delayed or reordered).
    ghost told: { Self → Network };

    /// How many calls failed, at most `u64::MAX`. Running out of memory is not counted.
    ghost fault_count: { Self → ℕ };

    /// Begins a session of the profile's members. The recorded lists of offered and taken datagrams are then empty. A start that fails leaves the
    /// recorded history as it was.
    fn start(&mut self, profile: &Profile, local: Local) -> Result<(), FabricFault>
        ensures ok { OnOk result (Starts (told self.old) (told self.new) profile.now local) }
        ensures err { OnErr result (told self.new ≡ told self.old) }
        ensures cause { Counts (fault_count self.old) (fault_count self.new) (network_failed result) };

    /// Offers a member's datagram to all other members. An offer that fails is not recorded, though some copies may have been sent.
    fn offer(&mut self, from: NodeId, bytes: &[u8]) -> Result<(), FabricFault>
        requires { length bytes.now ≤ datagram_room }
        ensures ok { OnOk result (told self.new ≡ with_offer (told self.old) from bytes.now) }
        ensures err { OnErr result (told self.new ≡ told self.old) }
        ensures cause { Counts (fault_count self.old) (fault_count self.new) (network_failed result) };

    /// Takes the next datagram that is ready, if there is one, and returns the member it is for. `into` is
    /// empty if none was ready or the call failed.
    fn take(&mut self, into: &mut Datagram) -> Result<Option<NodeId>, FabricFault>
        ensures ok { IfOk result (λ node. told self.new ≡ with_answer (told self.old) (answer_of node into.new)) }
        ensures none { IfOk result (λ node. IfNone node (into.new ≡ [])) }
        ensures honest { IfOk result (λ node. IsHonestAnswer (told self.old) (answer_of node into.new)) }
        ensures direct { IfOk result (λ node. IsDirectAnswer (told self.old) (answer_of node into.new)) }
        ensures err { OnErr result ((told self.new ≡ told self.old) × (into.new ≡ [])) }
        ensures cause { Counts (fault_count self.old) (fault_count self.new) (network_failed result) };

    /// Returns how many calls failed, at most `u64::MAX`. It never falls, also not at a start.
    fn faults(&self) -> u64
        ensures { result ≡ fault_count self.now };
}

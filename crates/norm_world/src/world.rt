//! [`World`]: the nodes of a session, and the calls that are their events.

ghost use Rattle.std.specs.Prelude.{◌≡◌, ◌≢◌, ℕ, ◌+◌, ◌<◌, ◌++◌, true, List, [], Option, Some, IfOk, IfErr, OnErr, IfNone, IfSome, IsErr, IsSome, Err, length, slice_get};
ghost use Rattle.norm_base.specs.Members.{is_receiver, is_node};
ghost use Rattle.norm_base.specs.Settings.{Settings};
ghost use Rattle.norm_receive_rules.specs.ReceiverState.{receiver_opening};
ghost use Rattle.norm_receiver.specs.ReceiverKept.{ReceiverKept};
ghost use Rattle.norm_safety.specs.Events.{Commanded, Delivered, Ticked, Offered, UpTaken, NewsAsked, Gave, Took, Told, Silent};
ghost use Rattle.norm_safety.specs.Hands.{instance_at as instance_in};
ghost use Rattle.norm_safety.specs.World.{World as Rules, world_opening};
ghost use Rattle.norm_send_rules.specs.declared.fault.SendFault.TheVariants as send;
ghost use Rattle.norm_sender.specs.Commands.{answer_of, GivesBack};
ghost use Rattle.norm_world.specs.WorldKept.{StandsFor, IsReady, IsBegun, IsFilling, IsMissing, IsFilled, HasBegun, place_of};
ghost use Rattle.norm_world.specs.WorldMoves.{IsEvent, IsNoEvent, MayWant, IsRefused, IsEnded, IsLeft, IsSent, AreTaken, receiver_of, AreBegun};

use norm_base::{Datagram, InstanceId, Memory, Moment, NodeId, Octets, Origin, Profile, Sent};
use norm_order::Up;
use norm_receiver::Receiver;
use norm_send_rules::{Job, News, Receipt, SendFault};
use norm_sender::Sender;
use std::alloc::Global;
use std::marker::Model;

/// A sender and the receivers of its profile, in the order of their ids.
///
/// The events of a world are calls: a command ([`job`](World::job)), a datagram that is delivered, a node's tick, an offer of what it
/// gave, a hand-up that is taken, or news that are asked for. A file in pieces is one event, at its end. Except before that end, a world
/// stands for the list of its events unless a file was given up ([`leave_file`](World::leave_file)), and what holds of each such list
/// ([`laws`](crate::laws)) holds of what it did. It keeps no datagrams: its caller has to see that what is delivered was offered before.
///
/// The order of calls is free, except for two things. Before a receiver ticks ([`tick_receiver`](World::tick_receiver)), call
/// [`take_up`](World::take_up) until it returns `None`. The command of a file may come in pieces: [`begin_file`](World::begin_file), then
/// [`file_piece`](World::file_piece) until all octets are there, then [`end_file`](World::end_file), or at any time
/// [`leave_file`](World::leave_file). From the first of them to the last, no other call that changes the sender may come, and no delivery
/// to a receiver.
// The receivers lie in the order of their ids, one for each receiver of the profile. The function `place` computes an index from an id; with a gap,
// a datagram could go to another node.
#[derive(Debug, Drop)]
pub struct World {
    profile: Profile,
    sender: Sender,
    receivers: Vec<Receiver>,
}

impl Model for World {
    ghost use Rattle.std.specs.Prelude.{◌≡◌, length};
    ghost use Rattle.norm_world.specs.WorldKept.{WorldKept};

    ghost Value = { WorldKept };

    ghost view = { λ w. record { p = w.profile; sender = w.sender; receivers = w.receivers.items } };

    ghost invariant = { λ w. length w.receivers.items ≡ w.profile.receivers };
}

/// The receivers of a profile in the order of their ids, each in no instance yet. `Memory` if memory runs out.
fn receivers(alloc: Global, profile: &Profile) -> Result<Vec<Receiver>, Memory>
    ensures { IfOk result (λ receivers. AreBegun profile.now receivers.items profile.now.receivers) }
{
    let mut receivers = Vec::new(alloc);
    for i in 0..u32::from(profile.receivers) {
        let receiver = Receiver::new(alloc, profile, profile.receiver(i))?;
        receivers.push(receiver)?;
    }
    Ok(receivers)
}

/// The index of a receiver among those of its profile, whose ids follow that of the sender without a gap.
// Proof: the receiver at an index is that of its node, so laws by node need no list of states.
fn place(profile: &Profile, node: NodeId) -> usize
    requires { is_receiver profile.now node ≡ true }
    ensures place { result ≡ place_of profile.now node }
    ensures there { result < profile.now.receivers }
{
    (node.number() - profile.sender - 1) as usize
}

impl World {
    /// The nodes of a profile: the sender in the instance that the profile names, with nothing enqueued, and the receivers in no instance yet.
    ///
    /// # Errors
    ///
    /// `Memory` if memory runs out.
    pub fn new(alloc: Global, profile: &Profile) -> Result<World, Memory>
        ensures profile { IfOk result (λ world. world.p ≡ profile.now) }
        ensures ready { IfOk result (λ world. IsReady world) }
        ensures stands { IfOk result (λ world. StandsFor world (world_opening profile.now)) }
    {
        let sender = Sender::new(alloc, profile, InstanceId(profile.instance))?;
        let receivers = receivers(alloc, profile)?;
        Ok(World {
            profile: *profile,
            sender,
            receivers,
        })
    }

    /// Whether a node is one of the receivers, struck or not.
    pub fn is_receiver(&self, node: NodeId) -> bool
        ensures { result ≡ is_receiver self.now.p node }
    {
        self.profile.is_receiver(node)
    }

    /// Whether a node is the sender or one of the receivers, struck or not.
    pub fn is_member(&self, node: NodeId) -> bool
        ensures { result ≡ is_node self.now.p node }
    {
        if self.profile.is_receiver(node) {
            return true;
        }
        node.number() == self.profile.sender
    }

    /// The sender, to ask it what is no event.
    pub fn sender(&self) -> &Sender
        ensures { result.now ≡ self.now.sender }
    {
        &self.sender
    }

    /// The receiver of a node, to ask it what is no event.
    pub fn receiver(&self, node: NodeId) -> &Receiver
        requires { is_receiver self.now.p node ≡ true }
        ensures { receiver_of self.now node ≡ Some result.now }
    {
        &self.receivers[place(&self.profile, node)]
    }

    /// The instance of the sender that a receiver takes in. `None` until a message begins the first one.
    pub fn instance_at(&self, node: NodeId) -> Option<InstanceId>
        requires { is_receiver self.now.p node ≡ true }
        ensures { (w : Rules) → StandsFor self.now w → result ≡ instance_in w node }
    {
        self.receivers[place(&self.profile, node)].instance()
    }

    /// Gives a producer's command to the sender.
    ///
    /// # Errors
    ///
    /// The fault that the rules name, with the command, or `Memory` without it if memory runs out. After `Memory` nothing changed. After any
    /// other fault nothing changed, except that a refused mark may have cut the open stream.
    pub fn job(
        &mut self,
        by: Origin,
        job: Job,
        now: Moment,
    ) -> Result<Receipt, (Option<Job>, SendFault)>
        requires ready { IsReady self.old }
        ensures profile { self.new.p ≡ self.old.p }
        ensures ready { IsReady self.new }
        ensures event { answer_of result ≢ Err send.Memory → IsEvent self.old self.new (Commanded by job now) (λ answer. answer ≡ Gave (answer_of result)) }
        ensures back { IfErr result (λ refusal. GivesBack job refusal) }
        ensures memory { answer_of result ≡ Err send.Memory → self.new ≡ self.old }
    {
        self.sender.command(by, job, now)
    }

    /// Begins a file of `len` octets with this name. No other call for the file takes memory.
    ///
    /// # Errors
    ///
    /// The fault by which the rules refuse each file of this name and length, with the name, or `Memory` without it if memory runs out. Then
    /// nothing changed.
    pub fn begin_file(&mut self, name: Octets, len: u64) -> Result<(), (Option<Octets>, SendFault)>
        requires { IsReady self.old }
        ensures profile { self.new.p ≡ self.old.p }
        ensures filling { IfOk result (λ _. IsFilling self.new name len []) }
        ensures begun { IfOk result (λ _. (w : Rules) → StandsFor self.old w → HasBegun self.new w name len []) }
        ensures refused { IfErr result (λ refusal. IsRefused self.old self.new name len refusal.1) }
        ensures back { IfErr result (λ refusal. GivesBack name refusal) }
        ensures same { IsErr result → self.new ≡ self.old }
    {
        self.sender.begin_file(name, len)
    }

    /// Takes the next octets of the file that was begun. In all, they may not be more than its length.
    pub fn file_piece(&mut self, piece: &[u8])
        requires { IsMissing self.old (length piece.now) }
        ensures profile { self.new.p ≡ self.old.p }
        ensures filling { (name octets : List ℕ) (len : ℕ) → IsFilling self.old name len octets → IsFilling self.new name len (octets ++ piece.now) }
        ensures begun { (w : Rules) (name octets : List ℕ) (len : ℕ) → HasBegun self.old w name len octets
            → HasBegun self.new w name len (octets ++ piece.now) }
    {
        self.sender.file_piece(piece);
    }

    /// Adds the file that was begun to the transport order, as this producer's command. All its octets must be there.
    pub fn end_file(&mut self, by: Origin, now: Moment) -> Receipt
        requires { IsFilled self.old }
        ensures profile { self.new.p ≡ self.old.p }
        ensures ready { IsReady self.new }
        ensures event { IsEnded self.old self.new by now result }
    {
        self.sender.end_file(by, now)
    }

    /// Gives up the file that was begun. What was dropped to make room for it stays dropped. That is no event, so afterwards the world may stand for
    /// no list of events.
    pub fn leave_file(&mut self)
        requires { IsBegun self.old }
        ensures profile { self.new.p ≡ self.old.p }
        ensures ready { IsReady self.new }
        ensures left { IsLeft self.old self.new }
    {
        self.sender.leave_file();
    }

    /// Delivers a datagram to a node. A receiver uses `draw` for the back-off that may begin. The sender ignores it and takes no memory.
    ///
    /// # Errors
    ///
    /// `Memory` if memory runs out. Then all is as if the datagram had been lost. Only a receiver may need memory, and only for a datagram
    /// that [`Receiver::deliver`] names.
    pub fn deliver(
        &mut self,
        to: NodeId,
        bytes: &[u8],
        now: Moment,
        draw: u32,
    ) -> Result<(), Memory>
        requires ready { IsReady self.old }
        requires member { is_node self.old.p to ≡ true }
        ensures profile { self.new.p ≡ self.old.p }
        ensures ready { IsReady self.new }
        ensures event { IfOk result (λ _. IsEvent self.old self.new (Delivered to bytes.now now draw) (λ answer. answer ≡ Silent)) }
        ensures refused { OnErr result (IsNoEvent self.old self.new) }
        ensures wanted { OnErr result (MayWant self.old to bytes.now) }
    {
        if !self.profile.is_receiver(to) {
            // No draw: a sender backs off from nothing.
            self.sender.deliver(bytes, now);
            return Ok(());
        }
        let place = place(&self.profile, to);
        self.receivers[place].deliver(bytes, now, draw)?;
        Ok(())
    }

    /// Ticks the sender, which writes the datagram that is to be sent now, if there is one. It takes no memory.
    // Two calls in place of one that asks which node ticks: each is one event of the list, and its clause is that event's alone.
    pub fn tick_sender(&mut self, now: Moment, out: &mut Datagram) -> Sent
        requires { IsReady self.old }
        ensures ready { IsReady self.new }
        ensures profile { self.new.p ≡ self.old.p }
        ensures event { IsEvent self.old self.new (Ticked self.old.p.sender now) (IsSent result out.new) }
    {
        self.sender.tick(now, out)
    }

    /// Ticks a receiver, which writes the datagram that is to be sent now, if there is one. Call it after all hand-ups of the receiver were
    /// taken. It takes no memory.
    pub fn tick_receiver(&mut self, node: NodeId, now: Moment, out: &mut Datagram) -> Sent
        requires receiver { is_receiver self.old.p node ≡ true }
        requires taken { AreTaken (receiver_of self.old node) }
        ensures profile { self.new.p ≡ self.old.p }
        ensures sender { self.new.sender ≡ self.old.sender }
        ensures event { IsEvent self.old self.new (Ticked node now) (IsSent result out.new) }
    {
        let place = place(&self.profile, node);
        self.receivers[place].tick(now, out)
    }

    /// States that a node's datagram was offered to the network. It keeps nothing and does nothing.
    // `norm_tail` calls it for its contract alone: an offer is an event after which the same world stands.
    // It keeps no octets: they would grow with the session, and the call could run out of memory.
    pub fn offered(&self, from: NodeId, bytes: &[u8])
        ensures { IsEvent self.now self.now (Offered from bytes.now) (λ answer. answer ≡ Silent) }
    {}

    /// Takes the next hand-up of a receiver. `None` if all were taken. Then nothing changed. It takes no memory.
    pub fn take_up(&mut self, node: NodeId) -> Option<Up>
        requires { is_receiver self.old.p node ≡ true }
        ensures profile { self.new.p ≡ self.old.p }
        ensures sender { self.new.sender ≡ self.old.sender }
        ensures event { IsEvent self.old self.new (UpTaken node) (λ answer. answer ≡ Took result) }
        ensures none { IfNone result (AreTaken (receiver_of self.new node) × (self.new ≡ self.old)) }
        ensures some { IfSome result (λ _. (w : Rules) → StandsFor self.old w → IsSome (instance_in w node)) }
    {
        let place = place(&self.profile, node);
        self.receivers[place].take_up()
    }

    /// Takes the sender's next change that was not reported yet. `None` if none is left. Then nothing changed. It takes no memory.
    pub fn news(&mut self) -> Option<News>
        requires { IsReady self.old }
        ensures ready { IsReady self.new }
        ensures profile { self.new.p ≡ self.old.p }
        ensures event { IsEvent self.old self.new NewsAsked (λ answer. answer ≡ Told result) }
        ensures none { IfNone result (self.new ≡ self.old) }
    {
        self.sender.news()
    }
}

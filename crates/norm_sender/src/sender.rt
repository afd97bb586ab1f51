//! The type that callers drive.

ghost use Rattle.std.specs.Prelude.{ℕ, ◌≡◌, ◌≢◌, ◌+◌, ◌≤◌, ◌++◌, List, [], IfOk, IfErr, IfNone, IsErr, IsSome, Some, None, Ok, Err, MatchOption, length};
ghost use Rattle.norm_base.specs.Members.{receivers_of};
ghost use Rattle.norm_base.specs.declared.node.Origin.{Origin as By};
ghost use Rattle.norm_send_rules.specs.SenderState.{SenderState, sender_opening};
ghost use Rattle.norm_send_rules.specs.Commanding.{commanded};
ghost use Rattle.norm_send_rules.specs.Hearing.{heard};
ghost use Rattle.norm_send_rules.specs.Marking.{marked};
ghost use Rattle.norm_send_rules.specs.Repairable.{repairable};
ghost use Rattle.norm_send_rules.specs.Restarting.{restarted};
ghost use Rattle.norm_send_rules.specs.Striking.{strikes};
ghost use Rattle.norm_send_rules.specs.Telling.{told};
ghost use Rattle.norm_send_rules.specs.Ticking.{ticked, is_idle};
ghost use Rattle.norm_send_rules.specs.Watermarks.{open_watermarks};
ghost use Rattle.norm_send_rules.specs.declared.fault.MarkFault.TheVariants as fault;
ghost use Rattle.norm_send_rules.specs.declared.fault.SendFault.TheVariants as send_fault;
ghost use Rattle.norm_send_rules.specs.declared.job.Job.TheVariants as job;
ghost use Rattle.tx_window.specs.Taking.{room_made, with_piece};
ghost use Rattle.tx_window.specs.WindowState.{Filling};
ghost use Rattle.norm_sender.specs.Commands.{answer_of, GivesBack};
ghost use Rattle.norm_sender.specs.Filling.{HasBegun, file_of};
ghost use Rattle.norm_sender.specs.SenderKept.{Stands};
ghost use Rattle.norm_sender.specs.SenderMoves.{IsTick};

use crate::pace::Pace;
use crate::parts::{Parts, hold_range};
use mark_book::Book;
use nack_union::Union;
use norm_base::{Datagram, InstanceId, Memory, Moment, NodeId, Octets, Origin, Profile, Sent};
use norm_send_rules::{Job, MarkFault, News, Receipt, SendFault, StrikeFault};
use std::alloc::Global;
use std::marker::Model;
use tx_window::Window;

/// The sender of a session: one transport order for each instance, repaired as its receivers ask.
///
/// A timer drives it. At each moment:
/// 1. [`deliver`](Sender::deliver) each datagram that arrived, in any order. Any octets are allowed.
/// 2. [`tick`](Sender::tick) writes the datagram to send, if there is one.
///
/// Call [`news`](Sender::news) until it returns `None`, to learn what members confirmed and which watermarks ended. None of these calls
/// takes memory.
///
/// [`command`](Sender::command) may come between any two calls. A file may come in pieces: [`begin_file`](Sender::begin_file), then
/// [`file_piece`](Sender::file_piece) until all its octets are there, then [`end_file`](Sender::end_file), or at any time
/// [`leave_file`](Sender::leave_file). Between these, no other call that changes the sender may come.
///
/// What calls cost. There are at most 16 members. The *late watermarks* begin with the first one that is open or whose end was not
/// reported.
///
/// - A tick costs mostly the octets of its datagram, or for a parity symbol those of all source symbols of the block. A tick that ends a
///   round also visits the objects from the first to the last that the round asked for. One that may flush visits the members and the late
///   watermarks.
/// - A NACK costs what its requests name.
/// - An acknowledgement, a mark, a strike, `news` and [`untold`](Sender::untold) may visit all members and late watermarks. A restart also
///   visits the window's entries.
/// - An object or a write costs mostly its octets, which are copied once. Opening a stream costs its whole buffer.
/// - [`repairable`](Sender::repairable) visits the window's entries. The other calls that change nothing take constant time.
// It stands for some state of the rules at each moment, or for one in which a file is being taken in. Otherwise the clauses of its calls would
// promise nothing.
#[derive(Debug, Drop)]
pub struct Sender {
    parts: Parts,
}

impl Model for Sender {
    ghost use Rattle.norm_sender.specs.SenderKept.{SenderKept};
    ghost use Rattle.norm_sender.specs.SenderSound.{SenderSound};
    ghost use Rattle.norm_sender.specs.Inside.{kept_of};

    ghost Value = { SenderKept };

    ghost view = { λ s. kept_of s.parts };

    ghost invariant = { λ s. SenderSound (kept_of s.parts) };
}

fn receivers(alloc: Global, profile: &Profile) -> Result<Vec<NodeId>, Memory>
    ensures { IfOk result (λ nodes. nodes.items ≡ receivers_of profile.now profile.now.receivers) }
{
    let mut nodes = Vec::new(alloc);
    for i in 0..u32::from(profile.receivers) {
        nodes.push(profile.receiver(i))?;
    }
    Ok(nodes)
}

impl Sender {
    /// Returns a sender in its first instance, with nothing enqueued. Takes the memory for the octets of all objects that its window may have. A
    /// stream takes its own when it opens.
    ///
    /// # Errors
    ///
    /// `Memory` if memory runs out.
    pub fn new(alloc: Global, profile: &Profile, instance: InstanceId) -> Result<Sender, Memory>
        ensures profile { IfOk result (λ sender. sender.p ≡ profile.now) }
        ensures ready { IfOk result (λ sender. sender.window.filling ≡ None) }
        ensures stands { IfOk result (λ sender. Stands sender (sender_opening profile.now instance)) }
    {
        hold_range(profile);
        let window = Window::new(alloc, profile)?;
        let union = Union::new(alloc, profile);
        let nodes = receivers(alloc, profile)?;
        let book = Book::new(alloc, &nodes)?;
        Ok(Sender {
            parts: Parts {
                profile: *profile,
                window,
                union,
                book,
                pace: Pace::begun(instance),
            },
        })
    }

    /// Hears a datagram: a NACK of a receiver, even of a struck one, or an acknowledgement of a member, if it is to this sender and its
    /// current instance. Ignores any other octets.
    pub fn deliver(&mut self, bytes: &[u8], now: Moment)
        requires { self.old.window.filling ≡ None }
        ensures profile { self.new.p ≡ self.old.p }
        ensures ready { self.new.window.filling ≡ None }
        ensures stands { (s : SenderState) → Stands self.old s → Stands self.new (heard self.old.p s bytes.now now) }
    {
        self.parts.deliver(bytes, now);
    }

    /// Closes the repair round if its time has come, even if no datagram may be sent yet. Then writes the datagram to send now, if there is
    /// one. This may expire the oldest watermark.
    pub fn tick(&mut self, now: Moment, out: &mut Datagram) -> Sent
        requires { self.old.window.filling ≡ None }
        ensures profile { self.new.p ≡ self.old.p }
        ensures ready { self.new.window.filling ≡ None }
        ensures stands { (s : SenderState) → Stands self.old s → IsTick self.new out.new result (ticked self.old.p s now) }
    {
        self.parts.tick(now, out)
    }

    /// Obeys a command of a producer. Neither who gave it nor when it came changes what the sender keeps.
    ///
    /// # Errors
    ///
    /// The fault of the rules, with the command; or `Memory` without it, if memory ran out anywhere. `Memory` changes nothing. Neither does
    /// any other fault, except that a mark cuts the open stream, as in [`mark`](Sender::mark).
    pub fn command(
        &mut self,
        by: Origin,
        job: Job,
        now: Moment,
    ) -> Result<Receipt, (Option<Job>, SendFault)>
        requires { self.old.window.filling ≡ None }
        ensures profile { self.new.p ≡ self.old.p }
        ensures ready { self.new.window.filling ≡ None }
        ensures stands { (s : SenderState) → Stands self.old s → answer_of result ≢ Err send_fault.Memory
            → Stands self.new (commanded self.old.p s by job).0 × (answer_of result ≡ (commanded self.old.p s by job).1) }
        ensures back { IfErr result (λ refusal. GivesBack job refusal) }
        ensures memory { answer_of result ≡ Err send_fault.Memory → self.new ≡ self.old }
    {
        // Both are part of the event in the rules, and `by` is named by the clause. A sender keeps nothing of them.
        let _ = (by, now);
        self.parts.command(job)
    }

    /// Begins a file of `len` octets under a name, and drops what has to go for it. No later call of the file takes memory.
    ///
    /// # Errors
    ///
    /// The fault with which [`command`](Sender::command) would refuse any file of this name and length, with the name; or `Memory` without it. Then
    /// nothing changes.
    // That no file is begun is a condition on what is kept, and each other call that changes a sender says that it holds afterwards, except
    // `file_piece`. So a caller need not know for which state the sender stands.
    pub fn begin_file(&mut self, name: Octets, len: u64) -> Result<(), (Option<Octets>, SendFault)>
        requires { self.old.window.filling ≡ None }
        ensures profile { self.new.p ≡ self.old.p }
        ensures filling { IfOk result (λ _. self.new.window.filling ≡ Some (file_of name len [])) }
        ensures begun { IfOk result (λ _. (s : SenderState) → Stands self.old s → HasBegun self.new s name len []) }
        ensures refused { IfErr result (λ refusal. (s : SenderState) (by : By) (octets : List ℕ) → Stands self.old s → length octets ≡ len
            → refusal.1 ≢ send_fault.Memory → commanded self.old.p s by (job.File name octets) ≡ (s, Err refusal.1)) }
        ensures back { IfErr result (λ refusal. GivesBack name refusal) }
        ensures same { IsErr result → self.new ≡ self.old }
    {
        self.parts.begin_file(name, len)
    }

    /// Copies the next octets of the begun file into the window.
    pub fn file_piece(&mut self, piece: &[u8])
        requires { MatchOption self.old.window.filling ⊥ (λ f. length f.octets + length piece.now ≤ f.len) }
        ensures profile { self.new.p ≡ self.old.p }
        ensures filling { (f : Filling) → self.old.window.filling ≡ Some f → self.new.window.filling ≡ Some (with_piece piece.now f) }
        ensures begun { (s : SenderState) (name octets : List ℕ) (len : ℕ) → HasBegun self.old s name len octets
            → HasBegun self.new s name len (octets ++ piece.now) }
    {
        self.parts.fill(piece);
    }

    /// Adds the begun file to the order, so that ticks send it. Returns the receipt that [`command`](Sender::command) would give for all
    /// its octets.
    pub fn end_file(&mut self, by: Origin, now: Moment) -> Receipt
        requires { MatchOption self.old.window.filling ⊥ (λ f. length f.octets ≡ f.len) }
        ensures profile { self.new.p ≡ self.old.p }
        ensures ready { self.new.window.filling ≡ None }
        ensures stands { (s : SenderState) (name octets : List ℕ) (len : ℕ) → HasBegun self.old s name len octets
            → Stands self.new (commanded self.old.p s by (job.File name octets)).0
            × (Ok result ≡ (commanded self.old.p s by (job.File name octets)).1) }
    {
        let _ = (by, now);
        self.parts.finish()
    }

    /// Gives up the begun file. What was dropped for it stays dropped.
    // The sender goes on in the state in which room was made for the file.
    pub fn leave_file(&mut self)
        requires { IsSome self.old.window.filling }
        ensures profile { self.new.p ≡ self.old.p }
        ensures ready { self.new.window.filling ≡ None }
        ensures left { (s : SenderState) (name octets : List ℕ) (len : ℕ) → HasBegun self.old s name len octets
            → Stands self.new (room_made self.old.p len s) }
    {
        self.parts.leave();
    }

    /// Cuts the open stream, and asks that `quorum` members, or all if it is `None` or fewer are left, confirm everything that was enqueued
    /// before. The watermark is satisfied at once if enough members are past it.
    ///
    /// # Errors
    ///
    /// The first that applies:
    /// - `Quorum` if the quorum is 0 or greater than the number of receivers. Then nothing changes.
    /// - `NothingEnqueued` if this instance has no closed source symbol after the cut. The open stream is cut all the same.
    /// - `TooMany` if 16 watermarks are open. The open stream is cut all the same.
    ///
    /// Or `Memory` if memory runs out. Then nothing changes.
    // This, `restart` and `strike` are for programs over a sender. In a session, commands come by `command`.
    // Proof: the invariant goes by cases: the answer is Memory and all is as it was, or the rule holds.
    pub fn mark(&mut self, quorum: Option<u32>) -> Result<Receipt, MarkFault>
        requires { self.old.window.filling ≡ None }
        ensures profile { self.new.p ≡ self.old.p }
        ensures ready { self.new.window.filling ≡ None }
        ensures stands { (s : SenderState) (by : By) → Stands self.old s → result ≢ Err fault.Memory
            → Stands self.new (marked self.old.p s by quorum).0 × (result ≡ (marked self.old.p s by quorum).1) }
        ensures memory { result ≡ Err fault.Memory → self.new ≡ self.old }
    {
        self.parts.mark(quorum)
    }

    /// Begins another instance with an order of its own: window, wants and round are empty, members are listed past nothing, and open watermarks are
    /// cut. Listings that were not reported are forgotten. Takes no memory.
    ///
    /// # Errors
    ///
    /// `IdUsed` if the id, counted round from that of the first instance, is not above the current one, or is 32,768 or more above the first. Then
    /// nothing changes.
    pub fn restart(&mut self, instance: InstanceId) -> Result<Receipt, SendFault>
        requires { self.old.window.filling ≡ None }
        ensures profile { self.new.p ≡ self.old.p }
        ensures ready { self.new.window.filling ≡ None }
        ensures stands { (s : SenderState) → Stands self.old s → Stands self.new (restarted s instance).0 × (result ≡ (restarted s instance).1) }
    {
        self.parts.restart(instance)
    }

    /// Strikes a member for good: no acknowledgement of it is waited for any more. Takes no memory.
    ///
    /// # Errors
    ///
    /// `NotMember` if the node is no receiver or was struck. `LastMember` if it is the only member. Then nothing changes.
    pub fn strike(&mut self, node: NodeId) -> Result<Receipt, StrikeFault>
        requires { self.old.window.filling ≡ None }
        ensures profile { self.new.p ≡ self.old.p }
        ensures ready { self.new.window.filling ≡ None }
        ensures stands { (s : SenderState) → Stands self.old s → Stands self.new (strikes s node).0 × (result ≡ (strikes s node).1) }
    {
        self.parts.strike(node)
    }

    /// Returns the next change to report: a member that is newly listed past a position, or, once all of these are reported, a watermark
    /// that ended. Of a member only the latest position is reported. `None` if there is nothing to report.
    pub fn news(&mut self) -> Option<News>
        requires { self.old.window.filling ≡ None }
        ensures profile { self.new.p ≡ self.old.p }
        ensures ready { self.new.window.filling ≡ None }
        ensures stands { (s : SenderState) → Stands self.old s → Stands self.new (told s).0 × (result ≡ (told s).1) }
        ensures same { IfNone result (self.new ≡ self.old) }
    {
        self.parts.news()
    }

    /// How many changes [`news`](Sender::news) has still to report.
    pub fn untold(&self) -> usize
        ensures { (s : SenderState) → Stands self.now s → result ≡ length s.untold_nodes + length s.untold_marks }
    {
        self.parts.untold()
    }

    /// Whether no squelch is due, nothing is wanted, nothing new is left to send, and no round is open. An idle sender may still flush for an open
    /// watermark, and have changes to report.
    pub fn idle(&self) -> bool
        ensures { (s : SenderState) → Stands self.now s → result ≡ is_idle self.now.p s }
    {
        self.parts.is_idle()
    }

    /// How many watermarks are open: neither satisfied nor expired nor cut. At most 16.
    pub fn open_requests(&self) -> u32
        ensures { (s : SenderState) → Stands self.now s → result ≡ length (open_watermarks s) }
    {
        self.parts.open_requests()
    }

    /// How many flushes were sent since another watermark became the oldest, a round made a want, or the instance began. At most 20.
    // This and `repairable` are for callers that compute how long a watermark may stay open.
    pub fn flushes(&self) -> u32
        ensures { (s : SenderState) → Stands self.now s → result ≡ s.flushes }
    {
        self.parts.flushes()
    }

    /// How many infos and encoded symbols the window has. All of them may still have to be repaired.
    pub fn repairable(&self) -> u64
        ensures { (s : SenderState) → Stands self.now s → result ≡ repairable self.now.p s }
    {
        self.parts.window.repairable()
    }

    /// The id of the current instance: that of the last restart, or the one given to [`new`](Sender::new).
    pub fn instance(&self) -> InstanceId
        ensures { (s : SenderState) → Stands self.now s → result ≡ s.current.id }
    {
        self.parts.instance()
    }

    /// The book of members and watermarks, which tells for example who a watermark waits for.
    pub fn book(&self) -> &Book
        ensures { result.now ≡ self.now.book }
    {
        &self.parts.book
    }

    /// The window: the objects and streams that the sender may still repair. It has a file that is being taken in only after `end_file`.
    pub fn window(&self) -> &Window
        ensures { result.now ≡ self.now.window }
    {
        &self.parts.window
    }
}

//! The book of a sender's members and watermarks. A sender changes it, and its callers ask it.

ghost use Rattle.std.specs.Prelude.{◌≡◌, ◌≢◌, ◌<◌, ◌≤◌, ◌+◌, ◌*◌, ◌^◌, ◌++◌, ◌==◌, true, length, map, find, slice_get, option_map, option_and_then, IfOk, IfErr, IfNone, Ok, Err, None, ℕ, []};
ghost use Rattle.std.specs.List.{list_any};
ghost use Rattle.norm_base.specs.Settings.{Settings};
ghost use Rattle.norm_base.specs.Members.{receivers_of};
ghost use Rattle.norm_base.specs.declared.node.Origin.{Origin};
ghost use Rattle.fec_plan.specs.Points.{reached_by};
ghost use Rattle.fec_plan.specs.declared.position.Position.{Position};
ghost use Rattle.norm_ext.specs.Octets.{nodes_octets};
ghost use Rattle.norm_send_rules.specs.SenderState.{SenderState, Watermark as Mark, Listing, sender_opening};
ghost use Rattle.norm_send_rules.specs.Watermarks as rules;
ghost use Rattle.norm_send_rules.specs.Hearing.{credited};
ghost use Rattle.norm_send_rules.specs.Marking.{watermark_at, with_watermark};
ghost use Rattle.norm_send_rules.specs.Flushing.{expired};
ghost use Rattle.norm_send_rules.specs.Restarting.{begun_anew};
ghost use Rattle.norm_send_rules.specs.Striking.{strikes, struck_off};
ghost use Rattle.norm_send_rules.specs.Telling.{listing_of, told};
ghost use Rattle.norm_send_rules.specs.declared.fault.MarkFault.TheVariants as fault;
ghost use Rattle.mark_book.specs.BookState.{Stands, begun_book};
ghost use Rattle.mark_book.specs.Answers.{numbered, quorum_refused, asked_for, strike_receipt, open_watermark, once_each};

use crate::listings::Listings;
use crate::untold::{put_node, take_node};
use crate::watermark::OpenWatermark;
use crate::watermarks::Watermarks;
use fec_plan::Position;
use norm_base::{Datagram, Memory, NodeId};
use norm_send_rules::{MarkFault, News, Outcome, StrikeFault};
use std::alloc::Global;
use std::marker::Model;

/// The most watermarks that are open at once.
// Our own choice. A mark beyond it is refused with `TooMany` until one of them ended.
const MOST_OPEN: u32 = 16;

/// What a sender knows of its members and watermarks. Its calls may come in any order.
// `receivers` counts the struck ones too: a quorum is compared with those of the profile, and met by the lesser of it and the members that are
// left.
#[derive(Debug, Drop)]
pub struct Book {
    receivers: u32,
    listings: Listings,
    watermarks: Watermarks,
    untold: Vec<NodeId>,
}

// Proof: the rules' watermark has a command that is not kept here. Both sides are mapped to a record without it (through, found_in_both).
impl Model for Book {
    ghost use Rattle.mark_book.specs.BookState.{BookState};

    ghost Value = { BookState };

    ghost use Rattle.mark_book.specs.BookSound.{BookSound, book_view};

    ghost view = { book_view };

    ghost invariant = { BookSound };
}

impl Book {
    /// Creates a book over these receivers, which keep this order. One that is named twice counts once.
    ///
    /// # Errors
    ///
    /// `Memory` if memory runs out.
    pub fn new(alloc: Global, nodes: &[NodeId]) -> Result<Book, Memory>
        requires some { 0 < length nodes.now }
        requires few { length nodes.now ≤ 16 }
        ensures begun { IfOk result (λ book. book ≡ begun_book (once_each nodes.now)) }
        ensures stands { IfOk result (λ book. (p : Settings) (instance : ℕ) → nodes.now ≡ receivers_of p p.receivers → Stands p book (sender_opening p instance)) }
    {
        // Room for each receiver from the start: who hears an acknowledgement cannot report that memory ran out.
        let untold = Vec::with_capacity(alloc, nodes.len())?;
        let listings = Listings::begun(alloc, nodes)?;
        Ok(Book {
            receivers: listings.len(),
            listings,
            watermarks: Watermarks::new(alloc),
            untold,
        })
    }

    /// Whether a node is a member: a receiver that was not struck.
    pub fn lists(&self, node: NodeId) -> bool
        ensures { (p : Settings) (s : SenderState) → Stands p self.now s → result ≡ rules.has_member node s }
    {
        self.listings.lists(node)
    }

    /// Returns what a node is listed past. `None` if it is not a member, or is listed past nothing.
    // Only tests call this and `position`. They stay for programs that ask a sender for its book.
    pub fn past(&self, node: NodeId) -> Option<Position>
        ensures { (p : Settings) (s : SenderState) → Stands p self.now s → result ≡ listing_of s node }
    {
        self.listings.past(node)
    }

    /// Returns the least position that a member is listed past. `None` if a member is listed past nothing.
    pub fn least(&self) -> Option<Position>
        ensures { (p : Settings) (s : SenderState) (at : Position) → Stands p self.now s → rules.all_past s at ≡ reached_by result at }
    {
        self.listings.least()
    }

    /// Takes the acknowledgement of a node: lists it past `at`, and satisfies each open watermark that enough members are past then. Does nothing
    /// if the node is not a member, or is listed past `at` already.
    pub fn ack(&mut self, node: NodeId, at: Position)
        ensures { (p : Settings) (s : SenderState) → Stands p self.old s → Stands p self.new (credited node at s) }
    {
        // What is no news is passed over before anything else: a member that is flushed again before its answer came may confirm twice.
        if !self.listings.rises(node, at) {
            return;
        }
        self.listings.raise(node, at);
        // Proof: untold nodes differ and are all listed, so there is room for each (length-le_from_is_member).
        put_node(&mut self.untold, node);
        self.watermarks.settle(&self.listings);
    }

    /// Gives up a watermark, if it is open.
    pub fn expire(&mut self, mark: u32)
        ensures { (p : Settings) (s : SenderState) → Stands p self.old s → Stands p self.new (expired mark s) }
    {
        self.watermarks.expire(&self.listings, mark);
    }

    /// Returns the position of a watermark, open or ended. `None` if none has this number.
    pub fn position(&self, mark: u32) -> Option<Position>
        ensures { (p : Settings) (s : SenderState) → Stands p self.now s → result ≡ option_map (λ (w : Mark). w.at) (rules.watermark_of s mark) }
    {
        let watermark = self.watermarks.find(mark)?;
        Some(watermark.at)
    }

    /// Returns what became of a watermark. `None` if none has this number: a watermark that ended keeps its number.
    pub fn outcome(&self, mark: u32) -> Option<Outcome>
        ensures { (p : Settings) (s : SenderState) → Stands p self.now s → result ≡ option_map (rules.outcome_of s) (rules.watermark_of s mark) }
    {
        let watermark = self.watermarks.find(mark)?;
        Some(watermark.outcome(&self.listings))
    }

    /// Returns member `i`, from 0, of those that are not listed past the position of a watermark, in the order of the receivers. `None` if
    /// there are no more, or no watermark has this number.
    pub fn pending(&self, mark: u32, i: u32) -> Option<NodeId>
        ensures { (p : Settings) (s : SenderState) → Stands p self.now s
            → result ≡ option_and_then (λ (w : Mark). slice_get (rules.pending s w.at) i) (rules.watermark_of s mark) }
    {
        let watermark = self.watermarks.find(mark)?;
        self.listings.nth_left(watermark.at, i)
    }

    /// Appends the nodes of all members that are not listed past a position, 4 octets each, in the order of the receivers, as a flush names
    /// them.
    pub fn write_pending(&self, at: Position, out: &mut Datagram)
        requires { length out.old + 64 ≤ 1500 }
        ensures { (p : Settings) (s : SenderState) → Stands p self.now s → out.new ≡ out.old ++ nodes_octets (rules.pending s at) }
    {
        self.listings.write_left(at, out);
    }

    /// Returns the oldest open watermark. `None` if none is open.
    pub fn oldest(&self) -> Option<OpenWatermark>
        ensures { (p : Settings) (s : SenderState) → Stands p self.now s → result ≡ option_map open_watermark (rules.oldest s) }
    {
        let watermark = self.watermarks.oldest()?;
        Some(OpenWatermark {
            mark: watermark.mark,
            at: watermark.at,
        })
    }

    /// Returns how many watermarks are open, at most 16.
    pub fn open(&self) -> u32
        ensures { (p : Settings) (s : SenderState) → Stands p self.now s → result ≡ length (rules.open_watermarks s) }
    {
        self.watermarks.count_open()
    }

    /// Returns how many changes [`news`](Book::news) has still to report.
    pub fn untold(&self) -> usize
        ensures { (p : Settings) (s : SenderState) → Stands p self.now s → result ≡ length s.untold_nodes + length s.untold_marks }
    {
        self.untold.len() + self.watermarks.count_untold() as usize
    }

    /// Begins another instance: cuts each open watermark, and forgets all listed positions, with the listings that were not reported. A struck
    /// node stays struck.
    pub fn cut_all(&mut self)
        ensures { (p : Settings) (s : SenderState) (id : ℕ) → Stands p self.old s → Stands p self.new (begun_anew id s) }
    {
        self.listings.forget();
        self.untold.clear();
        self.watermarks.cut();
    }

    /// Strikes a member for good. Its listing is forgotten, also if it was not reported, and each open watermark is satisfied if enough of the
    /// other members are past it.
    ///
    /// # Errors
    ///
    /// `NotMember` if the node is not a member, or `LastMember` if it is the only one. Nothing changes then.
    pub fn strike(&mut self, node: NodeId) -> Result<(), StrikeFault>
        ensures { (p : Settings) (s : SenderState) → Stands p self.old s
            → Stands p self.new (strikes s node).0 × (strike_receipt node result ≡ (strikes s node).1) }
    {
        if !self.listings.lists(node) {
            return Err(StrikeFault::NotMember { node });
        }
        if self.listings.len() == 1 {
            return Err(StrikeFault::LastMember { node });
        }
        self.strike_off(node);
        Ok(())
    }

    /// Strikes a node without a check: [`strike`](Book::strike) found that it is a member, and not the only one.
    fn strike_off(&mut self, node: NodeId)
        requires { 1 < length self.old.listings }
        ensures { (p : Settings) (s : SenderState) → Stands p self.old s → Stands p self.new (struck_off node s) }
    {
        self.listings.strike(node);
        // If the node stayed there, `news` would find no listing of it, and return `None`.
        take_node(&mut self.untold, node);
        self.watermarks.settle(&self.listings);
    }

    /// Returns why a watermark of this quorum is refused: the quorum is 0, or above the number of receivers, struck ones included. `None` if the
    /// quorum is possible.
    pub fn quorum_fault(&self, quorum: Option<u32>) -> Option<MarkFault>
        ensures { (p : Settings) (s : SenderState) → Stands p self.now s → result ≡ quorum_refused p quorum }
    {
        let q = quorum?;
        if q == 0 || q > self.receivers {
            return Some(MarkFault::Quorum { q });
        }
        None
    }

    /// Makes a watermark for everything up to `at`, which `quorum` members have to confirm, or all if that is `None` or fewer are left.
    /// Returns its number: one above the last one's, or 1. The watermark is satisfied at once if enough members are past `at`.
    ///
    /// # Errors
    ///
    /// `Quorum` if [`quorum_fault`](Book::quorum_fault) says so, else `NothingEnqueued` if there is no position, else `TooMany` if 16 are open,
    /// else `Memory` if memory runs out or no number is left. Nothing changes then.
    pub fn request(&mut self, at: Option<Position>, quorum: Option<u32>) -> Result<u32, MarkFault>
        ensures stands { (p : Settings) (s : SenderState) (by : Origin) → Stands p self.old s → result ≢ Err fault.Memory
            → Stands p self.new (asked_for p s by quorum at).0 × (result ≡ numbered (asked_for p s by quorum at).1) }
        ensures memory { result ≡ Err fault.Memory → self.new ≡ self.old }
    {
        if let Some(fault) = self.quorum_fault(quorum) {
            return Err(fault);
        }
        self.place(at, quorum)
    }

    /// Makes a watermark as [`request`](Book::request) does. Its quorum is possible.
    fn place(&mut self, at: Option<Position>, quorum: Option<u32>) -> Result<u32, MarkFault>
        ensures stands { (p : Settings) (s : SenderState) (by : Origin) → Stands p self.old s → result ≢ Err fault.Memory
            → Stands p self.new (watermark_at s by quorum at).0 × (result ≡ numbered (watermark_at s by quorum at).1) }
        ensures memory { result ≡ Err fault.Memory → self.new ≡ self.old }
    {
        let Some(at) = at else {
            return Err(MarkFault::NothingEnqueued);
        };
        let count = self.watermarks.count_open();
        if count >= MOST_OPEN {
            return Err(MarkFault::TooMany { count });
        }
        self.join(at, quorum)
    }

    /// Makes a watermark as [`request`](Book::request) does. Fewer than 16 are open.
    fn join(&mut self, at: Position, quorum: Option<u32>) -> Result<u32, MarkFault>
        ensures stands { (p : Settings) (s : SenderState) (by : Origin) → Stands p self.old s → result ≢ Err fault.Memory
            → Stands p self.new (with_watermark s by quorum at) × (result ≡ Ok (length s.watermarks + 1)) }
        ensures memory { result ≡ Err fault.Memory → self.new ≡ self.old }
        ensures other { IfErr result (λ e. e ≡ fault.Memory) }
    {
        let Ok(mark) = self.watermarks.push(at, quorum) else {
            return Err(MarkFault::Memory);
        };
        self.watermarks.settle(&self.listings);
        Ok(mark)
    }

    /// Takes out the first change that was not reported: a member that is newly listed past a position, in order of node, and after all of
    /// these a watermark that ended, in order of number. A listing is reported with its latest position. `None` if there is nothing to
    /// report.
    pub fn news(&mut self) -> Option<News>
        ensures stands { (p : Settings) (s : SenderState) → Stands p self.old s → Stands p self.new (told s).0 × (result ≡ (told s).1) }
        ensures same { IfNone result (self.new ≡ self.old) }
        ensures nothing { (p : Settings) (s : SenderState) → Stands p self.old s → IfNone result ((told s).0 ≡ s) }
    {
        if self.untold.is_empty() {
            return self.tell_outcome();
        }
        // Never `None`: only a member that is listed past something waits here. A strike takes its node out, and a restart all of them.
        let at = self.listings.past(self.untold[0])?;
        let node = self.untold.remove(0);
        Some(News::Past { node, at })
    }

    /// Takes out the first outcome that was not reported.
    fn tell_outcome(&mut self) -> Option<News>
        requires { self.old.untold_nodes ≡ [] }
        ensures stands { (p : Settings) (s : SenderState) → Stands p self.old s → Stands p self.new (told s).0 × (result ≡ (told s).1) }
        ensures same { IfNone result (self.new ≡ self.old) }
        ensures nothing { (p : Settings) (s : SenderState) → Stands p self.old s → IfNone result ((told s).0 ≡ s) }
    {
        let watermark = self.watermarks.tell_first()?;
        Some(News::Done {
            mark: watermark.mark,
            outcome: watermark.outcome(&self.listings),
        })
    }
}

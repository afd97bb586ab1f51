//! Takes objects in (RFC 5740 section 5.1): an object is begun, filled and finished, and is then the last entry of the order.

ghost use Rattle.std.specs.Prelude.{ℕ, ⊤, ◌≡◌, ◌+◌, ◌-◌, ◌<◌, ◌≤◌, ◌⊎◌, ◌++◌, Bool, true, is_some, List, [], ◌∷◌, None, Some, Option, IfOk, IsErr, MatchOption, MatchResult, length, map, drop, option_to_list};
ghost use Rattle.std.specs.VecDeque.{deque_capacity};
ghost use Rattle.norm_base.specs.declared.node.Origin.{Origin};
ghost use Rattle.fec_plan.specs.Partition.{all_symbols};
ghost use Rattle.norm_order.specs.Shapes.{last_in};
ghost use Rattle.tx_object.specs.Held.{octets_of};
ghost use Rattle.tx_object.specs.Placed.{taken_by};
ghost use Rattle.tx_window.specs.declared.entry.HeldEntry.TheVariants.{Object as OfHeld};
ghost use Rattle.norm_send_rules.specs.SenderState.{SenderState};
ghost use Rattle.norm_send_rules.specs.InWindow.{next_index as next_index_of};
ghost use Rattle.norm_send_rules.specs.Enqueuing.{object_fault, info_length, with_entry};
ghost use Rattle.norm_send_rules.specs.Restarting.{begun_anew};
ghost use Rattle.tx_window.specs.WindowState.{Filling, Stands, most_kept};
ghost use Rattle.tx_window.specs.Ending.{IsEnded};
ghost use Rattle.tx_window.specs.declared.extent.Extent.TheVariants.{Object as OfObject};
ghost use Rattle.tx_window.specs.Taking.{room_made, filled_entry, with_piece, GivesBack, IsRefusal, IsEnqueued};
ghost use Rattle.tx_window.specs.WindowMoves.{WindowMoves};

use crate::entry::HeldEntry;
use crate::extent::Extent;
use crate::room::{join, make_room};
use crate::window::Window;
use fec_plan::Position;
use norm_base::{Kind, Octets};
use norm_send_rules::EnqueueFault;
use std::collections::VecDeque;
use tx_object::{Held, Ring};

/// How many octets an info has. 0 if there is none.
pub fn info_len(info: &Option<Octets>) -> usize
    ensures { result ≡ info_length info.now }
{
    match info {
        Some(info) => info.bytes().len(),
        None => 0,
    }
}

/// Puts zeros after the octets of a filled object, up to the end of its last symbol. Returns how many octets it has, and its last position if it has
/// this index.
fn end_octets(ring: &mut Ring, begun: &Held, filled: usize, index: u32) -> (u32, Position)
    requires start { begun.now.start < length ring.old }
    requires room { taken_by begun.now ≤ length ring.old }
    requires within { filled ≤ taken_by begun.now }
    requires least { taken_by begun.now - filled ≤ 1400 }
    ensures ended { IsEnded ring.old ring.new filled begun.now }
    ensures len { result.0 ≡ octets_of begun.now.cut }
    ensures last { (info : Bool) → last_in index (record { cut = begun.now.cut; closed = all_symbols begun.now.cut; info = info }) ≡ Some result.1 }
{
    let at = ring.behind(begun.start(), filled);
    ring.clear(at, begun.taken() - filled);
    (begun.len(), begun.last(index))
}

/// Adds the begun object after the entries, and its extent after theirs. Returns how many extents are forgotten in all.
fn join_begun(
    held: &mut VecDeque<HeldEntry>,
    begun: &mut Option<Held>,
    extents: &mut VecDeque<Extent>,
    forgotten: u32,
    len: u32,
) -> u32
    requires begun { is_some begun.old ≡ true }
    requires held_room { length held.old.items < deque_capacity held.old }
    requires extents_room { length extents.old.items < deque_capacity extents.old }
    requires number { forgotten < 4294967295 }
    ensures held { held.new.items ≡ held.old.items ++ map OfHeld (option_to_list begun.old) }
    ensures begun { begun.new ≡ None }
    ensures extents { extents.new.items ≡ drop (result - forgotten) (extents.old.items ++ OfObject len ∷ []) }
    ensures kept { (result ≡ forgotten) ⊎ ((result ≡ forgotten + 1) × (most_kept ≤ length extents.old.items)) }
{
    // Not taken: `finish` looked at it just before.
    let Some(object) = begun.take() else {
        return forgotten;
    };
    let extent = Extent::Object { len };
    join(held, extents, forgotten, HeldEntry::Object(object), extent)
}

impl Window {
    /// Begins an object of `len` octets, and drops what has to go for it. Takes all its memory before anything is dropped.
    ///
    /// # Errors
    ///
    /// The first of `Empty`, `TooBig`, `InfoTooBig`, `StreamOpen`, `IdsSpent` and `WindowFull` that applies, with the info; or `Memory` without it.
    /// Then the window is as it was.
    // The outer `Option` says whether the info comes back, the inner one is the info. One alone could not tell a lost info from none.
    // Proof: objects are counted in whole symbols: there is room for floor(octets / e) + window of them.
    pub fn begin(
        &mut self,
        kind: Kind,
        info: Option<Octets>,
        len: u64,
    ) -> Result<(), (Option<Option<Octets>>, EnqueueFault)>
        requires { self.old.filling ≡ None }
        ensures begun { IfOk result (λ _. self.new.filling ≡ Some (record { kind = kind; info = info; len = len; octets = [] })) }
        ensures stands { IfOk result (λ _. WindowMoves self.old self.new (room_made self.old.p len)) }
        ensures free { IfOk result (λ _. (s : SenderState) (octets : List ℕ) → Stands self.old s → length octets ≡ len
            → object_fault self.old.p s info octets ≡ None) }
        ensures profile { self.new.p ≡ self.old.p }
        ensures refused { MatchResult result (λ _. ⊤) (λ refusal. (s : SenderState) (octets : List ℕ) → Stands self.old s → length octets ≡ len
            → IsRefusal self.old.p s info octets refusal.1) }
        ensures back { MatchResult result (λ _. ⊤) (λ refusal. GivesBack info refusal) }
        ensures same { IsErr result → self.new ≡ self.old }
    {
        if let Some(fault) = self.object_fault(info_len(&info), len) {
            return Err((Some(info), fault));
        }
        let len = len as u32;
        let Ok(begun) = Held::new(
            self.alloc,
            &self.profile,
            &mut self.codes,
            kind,
            info,
            len,
            self.free,
        ) else {
            // `Held::new` had the info, and it is gone.
            return Err((None, EnqueueFault::Memory));
        };
        let Some(made) = make_room(
            &self.profile,
            &mut self.held,
            &mut self.extents,
            self.octets,
            len,
        ) else {
            return Err((None, EnqueueFault::Memory));
        };
        self.octets = made.1 + len;
        self.dropped += made.0 as u32;
        self.free = self.ring.behind(self.free, begun.taken());
        self.begun = Some(begun);
        self.filled = 0;
        Ok(())
    }

    /// How many octets the begun object has once it is full. 0 if none is begun.
    pub fn begun_len(&self) -> u32
        ensures { (f : Filling) → self.now.filling ≡ Some f → result ≡ f.len }
    {
        match &self.begun {
            Some(begun) => begun.len(),
            None => 0,
        }
    }

    /// Copies the next octets of the begun object into the window, in pieces of any length.
    pub fn fill(&mut self, piece: &[u8])
        requires { MatchOption self.old.filling ⊥ (λ f. length f.octets + length piece.now ≤ f.len) }
        ensures filling { (f : Filling) → self.old.filling ≡ Some f → self.new.filling ≡ Some (with_piece piece.now f) }
        ensures stands { WindowMoves self.old self.new (λ s. s) }
        ensures profile { self.new.p ≡ self.old.p }
    {
        // Not taken: a caller fills only after `begin`.
        let Some(begun) = &self.begun else {
            return;
        };
        let at = self.ring.behind(begun.start(), self.filled);
        self.ring.write(at, piece);
        self.filled += piece.len();
    }

    /// Adds the begun object to the order, and returns its index. Cannot fail: [`begin`](Window::begin) took the memory.
    pub fn finish(&mut self) -> u32
        requires { MatchOption self.old.filling ⊥ (λ f. length f.octets ≡ f.len) }
        ensures index { (s : SenderState) → Stands self.old s → result ≡ next_index_of s }
        ensures stands { (s : SenderState) (by : Origin) (f : Filling) → Stands self.old s → self.old.filling ≡ Some f
            → Stands self.new (with_entry (filled_entry by f) s) }
        ensures finished { self.new.filling ≡ None }
        ensures profile { self.new.p ≡ self.old.p }
    {
        let index = self.next_index();
        // Not taken: a caller finishes only after `begin`.
        let Some(begun) = &self.begun else {
            return index;
        };
        let (len, last) = end_octets(&mut self.ring, begun, self.filled, index);
        // Proof: `join_begun` moves the object, and is lent only the fields that it needs.
        // Proof: if a value of its type were owned here, each further statement on a window of so many fields would be dear.
        let forgotten = join_begun(
            &mut self.held,
            &mut self.begun,
            &mut self.extents,
            self.forgotten,
            len,
        );
        self.forgotten = forgotten;
        self.last = Some(last);
        index
    }

    /// Gives up the begun object. What was dropped for it stays dropped.
    pub fn leave(&mut self)
        ensures exact { self.new ≡ record self.old { filling = None } }
        ensures stands { WindowMoves self.old self.new (λ s. s) }
    {
        if let Some(begun) = self.begun.take() {
            // The octets of the ring that it took are the last ones, so setting `free` back gives them up.
            self.free = begun.start();
            self.octets -= begun.len();
        }
    }

    /// Empties the window for another instance.
    // The codes stay: each depends on a block's length and the profile alone, which no instance changes.
    pub fn clear(&mut self)
        ensures begun { (id : ℕ) → WindowMoves self.old self.new (begun_anew id) }
        ensures profile { self.new.p ≡ self.old.p }
        ensures finished { self.new.filling ≡ None }
    {
        self.held.clear();
        self.extents.clear();
        self.begun = None;
        self.octets = 0;
        self.free = 0;
        self.filled = 0;
        self.dropped = 0;
        self.forgotten = 0;
        self.last = None;
        self.past = None;
    }

    /// Enqueues an object at the end of the order, and returns its index. Drops what has to go for it.
    ///
    /// # Errors
    ///
    /// The first of `Empty`, `TooBig`, `InfoTooBig`, `StreamOpen`, `IdsSpent` and `WindowFull` that applies, with the info and the octets; or
    /// `Memory` without them. Then the window is as it was.
    // Only tests call it: a sender makes the steps itself, since a file may come in pieces. It stays for programs over this crate.
    pub fn enqueue(
        &mut self,
        kind: Kind,
        info: Option<Octets>,
        bytes: Octets,
    ) -> Result<u32, (Option<(Option<Octets>, Octets)>, EnqueueFault)>
        requires { self.old.filling ≡ None }
        ensures enqueued { IfOk result (λ index. (s : SenderState) (by : Origin) → Stands self.old s
            → IsEnqueued self.old.p s by kind info bytes index self.new) }
        ensures refused { MatchResult result (λ _. ⊤) (λ refusal. (s : SenderState) → Stands self.old s
            → IsRefusal self.old.p s info bytes refusal.1) }
        ensures back { MatchResult result (λ _. ⊤) (λ refusal. GivesBack (info, bytes) refusal) }
        ensures same { IsErr result → self.new ≡ self.old }
        ensures finished { self.new.filling ≡ None }
        ensures profile { self.new.p ≡ self.old.p }
    {
        match self.begin(kind, info, bytes.bytes().len() as u64) {
            Ok(()) => {
                self.fill(bytes.bytes());
                Ok(self.finish())
            }
            Err((back, fault)) => match back {
                Some(info) => Err((Some((info, bytes)), fault)),
                None => Err((None, fault)),
            },
        }
    }
}

//! [`Object`]: what is held of one object of data or a file, which of its blocks are incomplete, and its hand-up.

ghost use Rattle.std.specs.Prelude.{ℕ, ◌≡◌, ◌==◌, ◌<◌, ◌≤◌, ◌*◌, ◌+◌, ◌-◌, IfOk, IsTrue, None, Some, is_some, true, false, length, take, slice_get, slice_index};
ghost use Rattle.norm_base.specs.Settings.{Settings};
ghost use Rattle.fec_plan.specs.Partition.{blocks, source_symbols, all_symbols};
ghost use Rattle.fec_plan.specs.Points.{position};
ghost use Rattle.norm_order.specs.declared.up.Up.TheVariants.{Object as ObjectUp};
ghost use Rattle.norm_receive_rules.specs.Holding.{new_plan};
ghost use Rattle.norm_receive_rules.specs.Plans.{says_info, says_stream, cut_of_plan, holds, lacking, is_done, has_its_info};
ghost use Rattle.norm_receive_rules.specs.Putting.{put_by};
ghost use Rattle.norm_receive_rules.specs.HandingUp.{is_whole, kind_of, told_info, object_octets};
ghost use Rattle.std.specs.List.{list_all, range_with_len};
ghost use Rattle.norm_order.specs.Symbols.{padded};
ghost use Rattle.norm_receive_rules.specs.declared.words.Put.TheVariants as put;
ghost use Rattle.rx_object.specs.ObjectState.{empty_object, alone, offered_to, short_blocks};
ghost use Rattle.rx_object.specs.Offering.{is_payload};
ghost use Rattle.rx_object.specs.Places.{AreApart, free_places, has_id};
ghost use Rattle.norm_receive_rules.specs.Short.{IsShortFrom};
ghost use Rattle.rx_object.specs.Rows.{block_ids, coded_symbol, with_coded, start_of};
ghost use Rattle.short_blocks.specs.State.{is_short, settled};

use crate::block::FREE;
use crate::rows::Rows;
use fec_plan::Plan;
use norm_base::{Kind, Memory, Octets};
use norm_ext::Fti;
use norm_ext::flags::{FILE, INFO};
use norm_ext::items::has_flag;
use norm_order::{Up, first_octets};
use norm_receive_rules::Put;
use rs_block::Solver;
use short_blocks::Shorts;
use std::alloc::Global;
use std::marker::Model;

/// What is held of an object of data or a file. [`offer`](Object::offer) symbols in any order, and [`put_info`](Object::put_info) once. When
/// it [`is_whole`](Object::is_whole), [`into_up`](Object::into_up) hands up the one buffer that has all its octets.
#[derive(Debug, Drop)]
pub struct Object {
    index: u32,
    fti: Fti,
    flags: u8,
    info: Option<Octets>,
    rows: Rows,
    /// How many symbols are held of each block.
    // Always as many as the block has slots that are not free. A greater count would have a block solved too early, with wrong
    // octets for what did not come.
    counts: Vec<u8>,
    /// Which blocks are incomplete. It tells the first and the next one in constant time.
    shorts: Shorts,
}

impl Model for Object {
    ghost use Rattle.std.specs.List.{list_all, range_with_len};
    ghost use Rattle.norm_receive_rules.specs.declared.words.Put.TheVariants as put;
    ghost use Rattle.rx_object.specs.ObjectState.{ObjectState};

    ghost Value = { ObjectState };

    ghost use Rattle.rx_object.specs.ObjectSound.{IsObject, object_view};

    ghost view = { object_view };

    ghost invariant = { IsObject };
}

/// Whether a symbol is an encoded symbol of an object, and the payload has its length.
fn is_payload(plan: &Plan, block: u32, symbol: u8, payload: &[u8]) -> bool
    ensures exact { result ≡ is_payload plan.now block symbol payload.now }
    ensures id { IsTrue result → symbol < 255 }
{
    block < plan.blocks()
        && symbol < plan.encoded_len(block)
        && payload.len() == usize::from(plan.symbol_octets(block, symbol))
}

/// Notes that a symbol came for a block that lacked this many: settles the block if that was the last one.
fn note(shorts: &mut Shorts, block: u32, lacked: u8)
    requires reached { shorts.old.start ≤ block }
    requires short { is_short shorts.old block ≡ true }
    ensures last { lacked ≡ 1 → shorts.new ≡ settled block shorts.old }
    ensures more { (lacked ≡ 1 → ⊥) → shorts.new ≡ shorts.old }
{
    if lacked == 1 {
        shorts.settle(block);
    }
}

/// Returns `File` if the flags have FILE (RFC 5740 section 4.2.1), and `Data` otherwise.
fn kind_of(flags: u8) -> Kind
    ensures { result ≡ kind_of flags }
{
    if has_flag(flags, FILE) {
        return Kind::File;
    }
    Kind::Data
}

/// Returns the info to hand up: none without the flag INFO (RFC 5740 section 4.2.1), whatever is held.
fn told_info(flags: u8, info: Option<Octets>) -> Option<Octets>
    ensures { result ≡ elim (says_info flags) [ true ↦ info | false ↦ None ] }
{
    if has_flag(flags, INFO) {
        return info;
    }
    None
}

impl Object {
    /// Creates an object of which nothing is held. It takes all the memory that its symbols need.
    ///
    /// # Errors
    ///
    /// `Memory` if memory runs out.
    pub fn new(
        alloc: Global,
        index: u32,
        fti: &Fti,
        flags: u8,
        plan: &Plan,
    ) -> Result<Object, Memory>
        requires cut { plan.now ≡ cut_of_plan (new_plan index fti.now flags) }
        requires kind { says_stream flags ≡ false }
        requires length { fti.now.l ≤ 16777216 }
        ensures { IfOk result (λ o. o ≡ empty_object (new_plan index fti.now flags)) }
    {
        let rows = Rows::new(alloc, plan)?;
        let count = plan.blocks();
        let counts = vec![in alloc; 0; count as usize]?;
        let shorts = Shorts::new(alloc, count)?;
        Ok(Object {
            index,
            fti: *fti,
            flags,
            info: None,
            rows,
            counts,
            shorts,
        })
    }

    pub fn fti(&self) -> Fti
        ensures { result ≡ self.now.plan.fti }
    {
        self.fti
    }

    /// Returns how many octets the object will have when it is handed up, not how many came.
    pub fn octets(&self) -> u64
        ensures { result ≡ self.now.plan.fti.l }
    {
        self.fti.l
    }

    pub fn flags(&self) -> u8
        ensures { result ≡ self.now.plan.flags }
    {
        self.flags
    }

    pub fn plan(&self) -> Plan
        ensures { result ≡ cut_of_plan self.now.plan }
    {
        self.rows.plan
    }

    /// Whether the info is held.
    pub fn has_info(&self) -> bool
        ensures { result ≡ is_some self.now.info }
    {
        self.info.is_some()
    }

    /// Whether a symbol came and was kept. It takes constant time. A symbol that was decoded did not come. `false` if the object has no such symbol.
    pub fn holds(&self, block: u32, symbol: u8) -> bool
        ensures { result ≡ holds (alone self.now) (position self.now.plan.index block symbol) }
    {
        // 255 stands for a slot that is free, and is no symbol's id.
        if block >= self.rows.plan.blocks() || symbol == FREE {
            return false;
        }
        self.rows.holds(block, symbol)
    }

    /// Returns how many more symbols a block needs to be decoded. It takes constant time.
    pub fn lacking(&self, block: u32) -> u8
        requires { block < blocks (cut_of_plan self.now.plan) }
        ensures { result ≡ lacking (alone self.now) self.now.plan block }
    {
        self.rows.plan.source_len(block) - self.counts[block as usize]
    }

    /// Whether a block is one of the object's and is done.
    fn is_done(&self, block: u32) -> bool
        ensures { result ≡ is_done (alone self.now) self.now.plan block }
    {
        block < self.rows.plan.blocks() && self.lacking(block) == 0
    }

    /// Whether a symbol is an encoded symbol of the object, and the payload has its length.
    fn fits(&self, block: u32, symbol: u8, payload: &[u8]) -> bool
        ensures exact { result ≡ is_payload (cut_of_plan self.now.plan) block symbol payload.now }
        ensures id { IsTrue result → symbol < 255 }
        ensures kind { says_stream self.now.plan.flags ≡ false }
    {
        is_payload(&self.rows.plan, block, symbol, payload)
    }

    /// Returns the first incomplete block. `None` if all are done. It takes constant time.
    pub fn first_short(&self) -> Option<u32>
        ensures { result ≡ slice_get (short_blocks self.now) 0 }
    {
        self.shorts.first()
    }

    /// Returns the next incomplete block after this one, which is incomplete. `None` if all later blocks are done. It takes constant time.
    pub fn next_short(&self, block: u32) -> Option<u32>
        requires block { block < blocks (cut_of_plan self.now.plan) }
        requires short { is_done (alone self.now) self.now.plan block ≡ false }
        ensures { IsShortFrom (alone self.now) self.now.plan (block + 1) result }
    {
        self.shorts.next(block)
    }

    /// Whether all blocks are done. It takes constant time.
    fn all_done(&self) -> bool
        ensures { result ≡ list_all (is_done (alone self.now) self.now.plan) (range_with_len 0 (blocks (cut_of_plan self.now.plan))) }
    {
        self.shorts.first().is_none()
    }

    /// Whether the info is held, or the object has none.
    fn has_its_info(&self) -> bool
        ensures { result ≡ has_its_info (alone self.now) self.now.plan }
    {
        !has_flag(self.flags, INFO) || self.info.is_some()
    }

    /// Whether the object can be handed up: all blocks are done, and if it has an info, that is held. It takes constant time.
    pub fn is_whole(&self) -> bool
        ensures { result ≡ is_whole (alone self.now) self.now.plan }
    {
        self.has_its_info() && self.all_done()
    }

    /// Keeps the info. It takes no memory.
    pub fn put_info(&mut self, info: Octets)
        requires { self.old.info ≡ None }
        ensures { self.new ≡ record self.old { info = Some info } }
    {
        self.info = Some(info);
    }

    /// Keeps a new symbol of an incomplete block. If the block lacks no more symbols then, `solver` decodes it.
    fn put(&mut self, block: u32, symbol: u8, payload: &[u8], solver: &mut Solver)
        requires id { symbol < 255 }
        requires new { holds (alone self.old) (position self.old.plan.index block symbol) ≡ false }
        requires lacks { is_done (alone self.old) self.old.plan block ≡ false }
        requires fits { is_payload (cut_of_plan self.old.plan) block symbol payload.now ≡ true }
        requires solver { solver.old ≡ record { k = self.old.plan.fti.b; size = self.old.plan.fti.e } }
        ensures state { self.new ≡ offered_to put.Kept block symbol payload.now self.old }
        ensures same { solver.new ≡ solver.old }
    {
        let lacking = self.lacking(block);
        self.rows.put(block, symbol, payload, lacking, solver);
        self.counts[block as usize] += 1;
        note(&mut self.shorts, block, lacking);
    }

    /// Keeps a symbol if it is new. If its block lacks no more symbols then, `solver` decodes it. It takes no memory.
    ///
    /// Returns the first result that applies:
    /// - `Had` if the symbol is held, or its block is done.
    /// - `Unfit` if the object has no such encoded symbol, or the payload does not have its length.
    /// - `Kept`.
    pub fn offer(&mut self, block: u32, symbol: u8, payload: &[u8], solver: &mut Solver) -> Put
        requires solver { solver.old ≡ record { k = self.old.plan.fti.b; size = self.old.plan.fti.e } }
        ensures word { (p : Settings) → result ≡ put_by p (alone self.old) self.old.plan (position self.old.plan.index block symbol) payload.now }
        ensures state { self.new ≡ offered_to result block symbol payload.now self.old }
        ensures same { solver.new ≡ solver.old }
    {
        if self.holds(block, symbol) {
            return Put::Had;
        }
        if self.is_done(block) {
            return Put::Had;
        }
        if !self.fits(block, symbol, payload) {
            return Put::Unfit;
        }
        self.put(block, symbol, payload, solver);
        Put::Kept
    }

    /// Returns the hand-up of a whole object. It takes no memory, and copies no octets.
    // Proof: each symbol is whole or reaches as far as is taken (Covers), so it need not be known which one is the last.
    pub fn into_up(self) -> Up
        requires { is_whole (alone self) self.plan ≡ true }
        ensures { result ≡ ObjectUp self.plan.index (kind_of self.plan.flags) (told_info (alone self) self.plan) (object_octets (alone self) self.plan) }
    {
        let Object {
            index,
            fti,
            flags,
            info,
            rows,
            ..
        } = self;
        Up::Object {
            index,
            kind: kind_of(flags),
            info: told_info(flags, info),
            bytes: first_octets(rows.octets, fti.l as usize),
        }
    }
}

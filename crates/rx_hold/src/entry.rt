//! What is held of one object: data or a file, or a stream.
//!
//! Only this module matches on which of the two an object is.
//! `making` creates an [`Entry`], `asking` tells what it needs, and `handing` tells what it hands up.

ghost use Rattle.std.specs.Prelude.{ℕ, ◌≡◌, ◌≤◌, ◌<◌, ◌+◌, ◌*◌, IfOk, OnErr, None, Some, is_some, length};
ghost use Rattle.norm_base.specs.Settings.{Settings};
ghost use Rattle.fec_plan.specs.Partition.{blocks};
ghost use Rattle.fec_plan.specs.Points.{position};
ghost use Rattle.norm_receive_rules.specs.Plans.{cut_of_plan, holds, lacking, says_stream};
ghost use Rattle.norm_receive_rules.specs.Putting.{put_by};
ghost use Rattle.rx_hold.specs.EntryState.{IsOfKind, IsOfProfile, alone_in, entry_of, with_seen, with_word};

mod asking;
mod handing;
mod making;

pub use crate::entry::making::{is_stream, plan_by, room_of};
use fec_plan::{PayloadId, Plan};
use norm_base::{Memory, Octets};
use norm_ext::Fti;
use norm_receive_rules::Put;
use rs_block::Solver;
use rx_object::Object;
use rx_stream::Stream;

/// What is held of one object, after it was taken up and until it is handed up or lost.
#[derive(Debug, Drop)]
pub enum Entry {
    /// Data or a file, which is handed up whole.
    Object(Object),
    /// A stream, which is handed up segment by segment.
    Stream(Stream),
}

impl Entry {
    pub fn fti(&self) -> Fti
        ensures { result ≡ (entry_of self.now).plan.fti }
    {
        match self {
            Entry::Object(object) => object.fti(),
            Entry::Stream(stream) => stream.fti(),
        }
    }

    pub fn flags(&self) -> u8
        ensures { result ≡ (entry_of self.now).plan.flags }
    {
        match self {
            Entry::Object(object) => object.flags(),
            Entry::Stream(stream) => stream.flags(),
        }
    }

    pub fn says_stream(&self) -> bool
        ensures { result ≡ says_stream (entry_of self.now).plan.flags }
    {
        is_stream(self.flags())
    }

    pub fn plan(&self) -> Plan
        ensures { result ≡ cut_of_plan (entry_of self.now).plan }
    {
        match self {
            Entry::Object(object) => object.plan(),
            Entry::Stream(stream) => stream.plan(),
        }
    }

    /// Whether its info is held. `false` also if it has none.
    pub fn has_info(&self) -> bool
        ensures { result ≡ is_some (entry_of self.now).info }
    {
        match self {
            Entry::Object(object) => object.has_info(),
            Entry::Stream(stream) => stream.has_info(),
        }
    }

    /// Returns the block of the next source symbol to hand up: 0 for data and files.
    pub fn first_block(&self) -> u32
        ensures { result ≡ (entry_of self.now).point.block }
    {
        match self {
            Entry::Object(_) => 0,
            Entry::Stream(stream) => stream.first_block(),
        }
    }

    /// Returns the next source symbol to hand up, within its block: 0 for data and files.
    pub fn first_symbol(&self) -> u8
        ensures { result ≡ (entry_of self.now).point.symbol }
    {
        match self {
            Entry::Object(_) => 0,
            Entry::Stream(stream) => stream.first_symbol(),
        }
    }

    /// Whether a symbol came and was kept. A symbol that was decoded did not come.
    pub fn holds(&self, block: u32, symbol: u8) -> bool
        requires { (entry_of self.now).point.block ≤ block }
        ensures { result ≡ holds (alone_in (entry_of self.now)) (position (entry_of self.now).plan.index block symbol) }
    {
        match self {
            Entry::Object(object) => object.holds(block, symbol),
            Entry::Stream(stream) => stream.holds(block, symbol),
        }
    }

    /// Returns how many more symbols a block needs to be decoded.
    pub fn lacking(&self, block: u32) -> u8
        requires reached { (entry_of self.now).point.block ≤ block }
        requires block { block < blocks (cut_of_plan (entry_of self.now).plan) }
        ensures { result ≡ lacking (alone_in (entry_of self.now)) (entry_of self.now).plan block }
    {
        match self {
            Entry::Object(object) => object.lacking(block),
            Entry::Stream(stream) => stream.lacking(block),
        }
    }

    /// Notes that a block was seen, whether or not its symbol was kept. Only a stream keeps it.
    pub fn see(&mut self, block: u32)
        requires { IsOfKind self.old }
        ensures state { entry_of self.new ≡ with_seen block (entry_of self.old) }
        ensures kind { IsOfKind self.new }
    {
        if let Entry::Stream(stream) = self {
            stream.see(block);
        }
    }

    /// Keeps the info. It takes no memory.
    pub fn put_info(&mut self, info: Octets)
        requires kind { IsOfKind self.old }
        requires new { (entry_of self.old).info ≡ None }
        ensures state { entry_of self.new ≡ record (entry_of self.old) { info = Some info } }
        ensures kind { IsOfKind self.new }
    {
        match self {
            Entry::Object(object) => object.put_info(info),
            Entry::Stream(stream) => stream.put_info(info),
        }
    }

    /// Keeps a symbol if it is new, fits, and its block has room for it and is not done; if not, returns why. If its block lacks no more symbols
    /// then, `solver` decodes it, or `stream_solver` if this is a stream.
    ///
    /// # Errors
    ///
    /// `Memory` if memory runs out, which can happen for a stream only; then nothing changes.
    pub fn offer(
        &mut self,
        id: PayloadId,
        payload: &[u8],
        solver: &mut Solver,
        stream_solver: &mut Solver,
    ) -> Result<Put, Memory>
        requires kind { IsOfKind self.old }
        requires reached { (entry_of self.old).point.block ≤ id.block }
        requires solver { solver.old ≡ record { k = (entry_of self.old).plan.fti.b; size = (entry_of self.old).plan.fti.e } }
        requires stream_solver { stream_solver.old ≡ record { k = (entry_of self.old).plan.fti.b; size = (entry_of self.old).plan.fti.e + 8 } }
        ensures word { IfOk result (λ word. (p : Settings) → IsOfProfile p (entry_of self.old)
            → word ≡ put_by p (alone_in (entry_of self.old)) (entry_of self.old).plan (position (entry_of self.old).plan.index id.block id.symbol) payload.now) }
        ensures state { IfOk result (λ word. entry_of self.new ≡ with_word word id.block id.symbol payload.now (entry_of self.old)) }
        ensures refused { OnErr result (entry_of self.new ≡ entry_of self.old) }
        ensures kind { IsOfKind self.new }
        ensures solver { solver.new ≡ solver.old }
        ensures stream_solver { stream_solver.new ≡ stream_solver.old }
    {
        match self {
            Entry::Object(object) => Ok(object.offer(id.block, id.symbol, payload, solver)),
            Entry::Stream(stream) => stream.offer(id.block, id.symbol, payload, stream_solver),
        }
    }
}

//! The [`ObjectBuf`]: one object in memory with its codes.

ghost use Rattle.std.specs.Prelude.{ℕ, ◌≡◌, ◌+◌, ◌<◌, ◌≤◌, ◌++◌, List, Option, IfOk, length, option_map, option_copied};
ghost use Rattle.norm_base.specs.Sizes.{datagram_room};
ghost use Rattle.norm_base.specs.Settings.{Settings};
ghost use Rattle.fec_plan.specs.Partition.{cut_of, blocks, encoding_symbols};
ghost use Rattle.norm_order.specs.Shapes.{shape_of};
ghost use Rattle.norm_order.specs.Symbols.{symbol_octets};
ghost use Rattle.obj_buffer.specs.BufferState.{BufferState, object_of, fti_of};

use crate::codes::Codes;
use crate::symbol::symbol_of;
use crate::table::CodeTable;
use fec_plan::Plan;
use norm_base::{Datagram, Kind, Memory, Octets, Profile};
use norm_ext::Fti;
use std::alloc::Global;
use std::marker::Model;

/// A data object or a file with its info, whole in memory, and the codes of its blocks.
///
/// [`whole`](ObjectBuf::whole) creates it. Then [`symbol`](ObjectBuf::symbol) appends any of its symbols, in any order.
// The octets are padded with zeros to whole symbols, as the code sees them. With anything else there parity would not be that of the object.
// Only a bench calls it. It stays for programs over this crate: a sender keeps its objects in a ring.
#[derive(Debug, Drop)]
pub struct ObjectBuf {
    plan: Plan,
    codes: Codes,
    kind: Kind,
    info: Option<Octets>,
    /// The object's octets, padded with zeros to whole symbols.
    symbols: Vec<u8>,
    fti: Fti,
}

impl Model for ObjectBuf {
    ghost use Rattle.obj_buffer.specs.BufferState.{BufferState, buffer_view, BufferSound};

    ghost Value = { BufferState };

    ghost view = { buffer_view };

    ghost invariant = { BufferSound };
}

fn plan_of(profile: &Profile, len: u64) -> Plan
    requires some { 1 ≤ len }
    requires most { len ≤ 16777216 }
    ensures { result ≡ cut_of len profile.now.e profile.now.b profile.now.max_n }
{
    // It does not fail: a profile's sizes are in their ranges, and 16,777,216 octets never need more blocks than 24 bits name.
    Plan::of(len, profile.e, profile.b, profile.max_n).unwrap()
}

impl ObjectBuf {
    /// Creates the object of these octets, 1 to 16,777,216 of them. Its info is sent in one message, so it may have at most the profile's `e`
    /// octets. All memory that its symbols need is taken here.
    ///
    /// # Errors
    ///
    /// `Memory` if memory runs out.
    pub fn whole(
        alloc: Global,
        profile: &Profile,
        kind: Kind,
        info: Option<Vec<u8>>,
        bytes: Vec<u8>,
    ) -> Result<ObjectBuf, Memory>
        requires some { 1 ≤ length bytes.items }
        requires most { length bytes.items ≤ 16777216 }
        ensures { IfOk result (λ buffer. buffer ≡ record {
          cut = cut_of (length bytes.items) profile.now.e profile.now.b profile.now.max_n;
          kind = kind;
          info = option_map (λ v. v.items) info;
          octets = bytes.items;
        }) }
    {
        let len = bytes.len() as u64;
        let plan = plan_of(profile, len);
        let codes = Codes::of(alloc, &mut CodeTable::new(alloc), &plan)?;
        let e = u64::from(profile.e);
        let mut symbols = bytes;
        // Padded once, so that parity is made of whole symbols (RFC 5510 section 8) without a copy of the last one.
        symbols.resize((len.div_ceil(e) * e) as usize, 0)?;
        Ok(ObjectBuf {
            plan,
            codes,
            kind,
            info: info.map(Octets::of),
            symbols,
            fti: Fti {
                l: len,
                e: profile.e,
                b: profile.b,
                max_n: profile.max_n,
            },
        })
    }

    /// Appends a symbol of the object. It has `e` octets, except that the object's last source symbol may have less. Parity is made anew at each
    /// call. It takes no memory.
    pub fn symbol(&self, block: u32, symbol: u8, out: &mut Datagram)
        requires block { block < blocks self.now.cut }
        requires symbol { symbol < encoding_symbols self.now.cut block }
        requires room { length out.old + self.now.cut.e ≤ datagram_room }
        ensures { (p : Settings) → self.now.cut ≡ (shape_of p (object_of self.now)).cut
            → out.new ≡ out.old ++ symbol_octets p (object_of self.now) block symbol }
    {
        symbol_of(
            &self.plan,
            &self.codes,
            &self.symbols,
            &[],
            block,
            symbol,
            out,
        );
    }

    /// Returns how the object is cut into blocks and symbols. It never changes.
    pub fn plan(&self) -> Plan
        ensures { result ≡ self.now.cut }
    {
        self.plan
    }

    /// Returns what EXT_FTI says of the object (RFC 5510 section 5.2.4). It never changes.
    pub fn fti(&self) -> Fti
        ensures { result ≡ fti_of self.now }
    {
        self.fti
    }

    pub fn kind(&self) -> Kind
        ensures { result ≡ self.now.kind }
    {
        self.kind
    }

    /// Returns the object's info if it has one. The info of a file is its name.
    pub fn info(&self) -> Option<&[u8]>
        ensures { option_copied result ≡ self.now.info }
    {
        match &self.info {
            Some(info) => Some(info.bytes()),
            None => None,
        }
    }

    /// Returns how many octets the object has, without the padding of its last symbol.
    pub fn len(&self) -> u64
        ensures { result ≡ length self.now.octets }
    {
        self.fti.l
    }
}

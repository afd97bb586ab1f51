//! Computes the source symbols of a block from any k of its symbols (RFC 5510 section 8.3). Receivers call it when a block has k symbols,
//! unless these are just its source symbols.

ghost use Rattle.std.specs.Prelude.{◌≡◌, ◌≤◌, ◌*◌, IfOk, length, map};
ghost use Rattle.norm_base.specs.Octets.{AreOctets};
ghost use Rattle.norm_base.specs.Sizes.{symbol_room};
ghost use Rattle.gf_field.specs.Power.{power};
ghost use Rattle.gf_field.specs.Symbol.{AreSymbols, solved_sources};
ghost use Rattle.rs_block.specs.Codeword.{AreIds, AreSources};

use crate::in_place::{put_lacking, set_aside};
use crate::interpolation::place_of;
use crate::piece::Piece;
use crate::row::Row;
use crate::weights::weigh_by_ids;
use norm_base::Memory;
use std::alloc::{AllocError, Global};
use std::marker::Model;

/// Solves blocks of at most k source symbols. `new` takes all memory: 3 k octets, and room for k symbols. Make it once
/// for each size of symbols, then call `solve_in` or `solve_rows` for each block.
// Made by `new`, so that solving cannot fail: by then the symbol that completes the block is kept.
#[derive(Debug, Drop)]
pub struct Solver {
    k: u8,
    size: usize,
    places: Vec<u8>,
    weights: Vec<u8>,
    row: Vec<u8>,
    /// Copies of the symbols whose id is not their index.
    aside: Vec<u8>,
}

impl Model for Solver {
    ghost use Rattle.rs_block.specs.Solver.{SolverState, SolverSound};

    ghost Value = { SolverState };

    ghost view = { λ s. record { k = s.k; size = s.size } };

    ghost invariant = { λ s. SolverSound s.k s.size s.places.items s.weights.items s.row.items s.aside.items };
}

impl Solver {
    ghost use Rattle.rs_block.specs.Solver.{SolverState};

    /// Returns a solver for blocks of at most `k` source symbols of `size` octets each. `size` is at most 1,408.
    ///
    /// # Errors
    ///
    /// `Memory` if memory runs out.
    pub fn new(alloc: Global, k: u8, size: usize) -> Result<Solver, Memory>
        requires some { 1 ≤ k }
        requires octets { 1 ≤ size }
        requires most { size ≤ symbol_room }
        ensures { IfOk result (λ solver. solver ≡ record { k = k; size = size }) }
    {
        let places = room_for(alloc, k).map_err(|_| Memory)?;
        let weights = room_for(alloc, k).map_err(|_| Memory)?;
        let row = room_for(alloc, k).map_err(|_| Memory)?;
        let aside = vec![in alloc; 0; usize::from(k) * size]?;
        Ok(Solver {
            k,
            size,
            places,
            weights,
            row,
            aside,
        })
    }

    /// Replaces the symbols in `row` with the block's source symbols. `row` has as many symbols as the block has source symbols, one after
    /// the other, and `ids` are their ids. A symbol whose id is its index is not written. Each other is copied aside and then written over.
    /// Each missing source symbol costs a sum over all symbols. Takes no memory and cannot fail.
    pub fn solve_in(&mut self, ids: &[u8], row: &mut [u8])
        requires some { 1 ≤ length ids.now }
        requires few { length ids.now ≤ self.old.k }
        requires ids { AreIds (length ids.now) 255 ids.now }
        requires row { length row.old ≡ length ids.now * self.old.size }
        ensures sources { AreSources (length ids.now) self.old.size ids.now row.old row.new }
        ensures same { self.new ≡ self.old }
    {
        hold_octets(row);
        solve_pieces(
            ids,
            self.size,
            &mut self.places,
            &mut self.weights,
            &mut self.row,
            &mut self.aside,
            row,
        );
    }

    /// Like `solve_in`, if each symbol is in a buffer of its own. Takes no memory and cannot fail.
    pub fn solve_rows(&mut self, ids: &[u8], rows: &mut [Row])
        requires some { 1 ≤ length ids.now }
        requires few { length ids.now ≤ self.old.k }
        requires ids { AreIds (length ids.now) 255 ids.now }
        requires rows { AreSymbols (length ids.now) self.old.size rows.old }
        ensures sources { rows.new ≡ solved_sources self.old.size ids.now rows.old }
        ensures symbols { AreSymbols (length ids.now) self.old.size rows.new }
        ensures same { self.new ≡ self.old }
    {
        solve_pieces(
            ids,
            self.size,
            &mut self.places,
            &mut self.weights,
            &mut self.row,
            &mut self.aside,
            rows,
        );
    }
}

/// Replaces `pieces` with the block's source symbols. The other mutable buffers are scratch space: `aside` has room for at least as many
/// symbols, and each of the others for an octet of each.
fn solve_pieces<P: Piece>(
    ids: &[u8],
    size: usize,
    places: &mut [u8],
    weights: &mut [u8],
    coefficients: &mut [u8],
    aside: &mut [u8],
    pieces: &mut [P],
)
    requires some { 1 ≤ length ids.now }
    requires few { length ids.now ≤ 255 }
    requires ids { AreIds (length ids.now) 255 ids.now }
    requires short { size ≤ symbol_room }
    requires places { length ids.now ≤ length places.old }
    requires weights { length ids.now ≤ length weights.old }
    requires coefficients { length ids.now ≤ length coefficients.old }
    requires symbols { P.are_symbols (length ids.now) size pieces.old }
    requires octets { AreOctets (P.octets pieces.old) }
    requires room { length ids.now * size ≤ length aside.old }
    ensures sources { AreSources (length ids.now) size ids.now (P.octets pieces.old) (P.octets pieces.new) }
    ensures symbols { P.are_symbols (length ids.now) size pieces.new }
{
    let count = ids.len();
    let places = &mut places[..count];
    let weights = &mut weights[..count];
    set_aside(ids, pieces, size, aside);
    place(ids, places);
    weigh_by_ids(ids, places, weights);
    put_lacking(
        ids,
        places,
        weights,
        size,
        aside,
        &mut coefficients[..count],
        pieces,
    );
}

// Proof: a slice of octets has octets alone.
fn hold_octets(row: &[u8])
    ensures { AreOctets row.now }
{}

/// Returns scratch space of an octet for each of k symbols.
fn room_for(alloc: Global, k: u8) -> Result<Vec<u8>, AllocError>
    ensures { IfOk result (λ v. length v.items ≡ k) }
{
    vec![in alloc; 0; usize::from(k)]
}

/// Fills `places` with the points of the symbols that came.
fn place(ids: &[u8], places: &mut [u8])
    requires { length places.old ≡ length ids.now }
    ensures { places.new ≡ map power ids.now }
{
    for (i, place) in places.iter_mut().enumerate() {
        *place = place_of(ids[i]);
    }
}

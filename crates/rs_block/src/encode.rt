//! The code of a block (RFC 5510 section 8.2), from which a sender computes parity.

ghost use Rattle.std.specs.Prelude.{ℕ, ◌≡◌, ◌<◌, ◌≤◌, ◌+◌, ◌-◌, ◌*◌, ◌%◌, ◌++◌, EachIndex, IfOk, length, slice_index};
ghost use Rattle.gf_field.specs.Power.{power};
ghost use Rattle.rs_block.specs.Points.{powers, AreWeights};
ghost use Rattle.rs_block.specs.Row.{coefficients};
ghost use Rattle.rs_block.specs.Code.{CodeSound};

use crate::interpolation::{add_combined, place_of, put_coefficients, weigh};
use norm_base::Memory;
use std::alloc::{AllocError, Global};
use std::marker::Model;

/// The code of blocks of k source symbols and n encoded symbols. Symbols 0 to k - 1 of a block are its source symbols, the others are
/// parity. It keeps k octets for each parity symbol. Make it once with `new` and use it for every block of this shape.
// The rows are computed with the code, once, so that a symbol costs its sums alone.
#[derive(Debug, Drop)]
pub struct Code {
    k: u8,
    n: u8,
    rows: Vec<u8>,
}

impl Model for Code {
    ghost use Rattle.rs_block.specs.Code.{CodeState, CodeSound};

    ghost Value = { CodeState };

    ghost view = { λ c. record { k = c.k; n = c.n } };

    ghost invariant = { λ c. CodeSound c.k c.n c.rows.items };
}

/// Returns the points of symbols 0 to `n - 1`.
fn powers_below(alloc: Global, n: u8) -> Result<Vec<u8>, AllocError>
    ensures { IfOk result (λ v. v.items ≡ powers n) }
{
    let mut places = Vec::new(alloc);
    for j in 0..n {
        places.push(place_of(j))?;
    }
    Ok(places)
}

/// Fills `rows` with the coefficients of each parity symbol, k octets for each.
fn put_rows(k: u8, n: u8, places: &[u8], weights: &[u8], rows: &mut [u8])
    requires some { 1 ≤ k }
    requires fits { k ≤ n }
    requires places { places.now ≡ powers k }
    requires weighted { AreWeights places.now weights.now }
    requires room { length rows.old ≡ (n - k) * k }
    ensures { CodeSound k n rows.new }
{
    let width = usize::from(k);
    for m in 0..n - k {
        let start = usize::from(m) * width;
        put_coefficients(
            places,
            weights,
            place_of(k + m),
            &mut rows[start..start + width],
        );
    }
}

/// Returns the coefficients of all parity symbols, k octets for each. While it computes them it takes at least 2 k octets more.
fn rows_of(alloc: Global, k: u8, n: u8) -> Result<Vec<u8>, AllocError>
    requires some { 1 ≤ k }
    requires fits { k ≤ n }
    ensures { IfOk result (λ rows. CodeSound k n rows.items) }
{
    let places = powers_below(alloc, k)?;
    let mut weights = vec![in alloc; 0; usize::from(k)]?;
    let mut rows = vec![in alloc; 0; usize::from(n - k) * usize::from(k)]?;
    weigh(&places, &mut weights);
    put_rows(k, n, &places, &weights, &mut rows);
    Ok(rows)
}

impl Code {
    ghost use Rattle.rs_block.specs.Codeword.{IsSymbol};
    ghost use Rattle.rs_block.specs.Code.{CodeState};

    /// Returns the code of `k` source symbols and `n` encoded symbols. It computes k coefficients for each parity symbol, and the weights of k points
    /// at a cost that grows with the square of k.
    ///
    /// # Errors
    ///
    /// `Memory` if memory runs out.
    pub fn new(alloc: Global, k: u8, n: u8) -> Result<Code, Memory>
        requires some { 1 ≤ k }
        requires fits { k ≤ n }
        ensures { IfOk result (λ code. code ≡ record { k = k; n = n }) }
    {
        let rows = rows_of(alloc, k, n).map_err(|_| Memory)?;
        Ok(Code { k, n, rows })
    }

    /// Borrows the k coefficients of parity symbol `j`, which were computed with the code.
    fn row(&self, j: u8) -> &[u8]
        requires parity { self.now.k ≤ j }
        requires encoded { j < self.now.n }
        ensures most { self.now.n ≤ 255 }
        ensures len { length result.now ≡ self.now.k }
        ensures entries { result.now ≡ coefficients (powers self.now.k) (power j) }
    {
        let width = usize::from(self.k);
        let start = usize::from(j - self.k) * width;
        &self.rows[start..start + width]
    }

    /// Computes parity symbol `j` into `out`. `source` is the k source symbols of `size` octets, one after the other. Takes no memory. It
    /// costs a pass over `source`.
    pub fn parity(&self, source: &[u8], size: usize, j: u8, out: &mut [u8])
        requires parity { self.now.k ≤ j }
        requires encoded { j < self.now.n }
        requires source { length source.now ≡ self.now.k * size }
        requires room { length out.old ≡ size }
        ensures { IsSymbol self.now.k self.now.n size source.now j out.new }
    {
        self.parity_in_two(source, &[], size, j, out);
    }

    /// Like `parity`, if the source symbols are in two buffers: `front` has the first ones, all whole, and `back` the others. If `size` is
    /// 0, nothing happens. Takes no memory.
    pub fn parity_in_two(&self, front: &[u8], back: &[u8], size: usize, j: u8, out: &mut [u8])
        requires parity { self.now.k ≤ j }
        requires encoded { j < self.now.n }
        requires sources { length front.now + length back.now ≡ self.now.k * size }
        requires whole { length front.now % size ≡ 0 }
        requires room { length out.old ≡ size }
        ensures { IsSymbol self.now.k self.now.n size (front.now ++ back.now) j out.new }
    {
        // The split below divides by the size, and symbols without octets have no sum.
        if size == 0 {
            return;
        }
        let (row, rest) = self.row(j).split_at(front.len() / size);
        out.fill(0);
        add_combined(row, front, out);
        add_combined(rest, back, out);
    }
}

//! The octets of one symbol as it is coded: those that are sent of it, and zeros up to the size of a symbol.

ghost use Rattle.std.specs.Prelude.{◌≡◌, ◌≤◌, ◌+◌, IfOk, length, min, take, drop};
ghost use Rattle.norm_ext.specs.Numbers.{number};
ghost use Rattle.norm_order.specs.Symbols.{padded};

use fec_plan::PLACE;
use norm_base::{Memory, Octets};
use norm_ext::{read_16, read_32};
use norm_order::{first_octets, put_padded};
use rs_block::Row;
use std::alloc::Global;

/// Returns a symbol of `size` octets, of which these were sent.
///
/// # Errors
///
/// `Memory` if memory runs out.
pub fn coded_row(alloc: Global, payload: &[u8], size: usize) -> Result<Row, Memory>
    requires { length payload.now ≤ size }
    ensures { IfOk result (λ row. row ≡ padded size payload.now) }
{
    let mut octets = vec![in alloc; 0; size]?;
    put_padded(&mut octets, payload);
    Ok(Row::of(octets))
}

/// Returns how many octets of data a coded segment says it has, at most `most`.
pub fn segment_len(row: &Row, most: u16) -> u16
    requires { 8 ≤ length row.now }
    ensures { result ≡ min (number 2 0 row.now) most }
{
    // A segment that was solved from false symbols may say any length.
    read_16(row.octets(), 0).min(most)
}

/// Returns the offset in the stream that a coded segment says it has.
pub fn offset_of(row: &Row) -> u32
    requires { 8 ≤ length row.now }
    ensures { result ≡ number 4 4 row.now }
{
    read_32(row.octets(), 4)
}

/// Returns the first `len` octets of a coded segment's data, without its header. It takes no memory.
pub fn segment_of(row: Row, len: usize) -> Octets
    requires { 8 + len ≤ length row }
    ensures { result ≡ take len (drop 8 row) }
{
    let mut octets = row.into_inner();
    // In the symbol buffer, so that a hand-up takes no memory.
    octets.copy_within(PLACE..PLACE + len, 0);
    first_octets(octets, len)
}

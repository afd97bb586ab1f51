//! A ring of symbol buffers, for the segments of a stream that were not given up and for the one that fills.

ghost use Rattle.std.specs.Prelude.{[], ◌∷◌, ◌≡◌, ◌<◌, ◌≤◌, ◌+◌, ◌-◌, ◌*◌, ◌%◌, ◌++◌, IfOk, Some, length, replicate, take, drop, slice_get};
ghost use Rattle.std.specs.List.{concat};
ghost use Rattle.std.specs.Int.{to_be_bytes, w16, w32};
ghost use Rattle.fec_plan.specs.Partition.{place_octets};
ghost use Rattle.norm_order.specs.Symbols.{padded, segment_octets};
ghost use Rattle.stream_buffer.specs.RowsState.{over};

use fec_plan::PLACE;
use norm_base::{Memory, SYMBOL_ROOM};
use std::alloc::Global;
use std::marker::Model;

/// The closed segments of a stream that were not given up, by their numbers, and the one that fills. Each has a symbol buffer: its header of
/// 8 octets, its own octets, and zeros. Header and zeros are put there as it closes.
///
/// [`fill`](Rows::fill) adds octets to the segment that fills, [`seal`](Rows::seal) closes it, and [`give_up`](Rows::give_up) drops the first ones.
// The segment that fills has no buffer of its own: its octets stand once, in the symbol buffer that is sent and coded.
#[derive(Debug, Drop)]
pub struct Rows {
    ring: Vec<u8>,
    /// Octets of one symbol buffer: the profile's `e`, and 8 for the header.
    size: usize,
    /// How many symbol buffers there are. The ring has `room * size` octets.
    room: usize,
    /// The number of the first segment that was not given up.
    first: usize,
    /// How many segments were closed. The next one fills in the symbol buffer after theirs.
    closed: usize,
    /// How many octets the segment that fills has, without its header.
    filled: usize,
}

impl Model for Rows {
    ghost use Rattle.stream_buffer.specs.RowsState.{RowsState, rows_view, RowsSound};

    ghost Value = { RowsState };

    ghost view = { rows_view };

    ghost invariant = { RowsSound };
}

fn put(octets: &mut [u8], start: usize, piece: &[u8])
    requires { start + length piece.now ≤ length octets.old }
    ensures { octets.new ≡ over start piece.now octets.old }
{
    octets[start..start + piece.len()].copy_from_slice(piece);
}

fn put_zeros(octets: &mut [u8], start: usize, len: usize)
    requires fits { start + len ≤ length octets.old }
    requires most { len ≤ 1408 }
    ensures { octets.new ≡ over start (replicate len 0) octets.old }
{
    let zeros = [0; SYMBOL_ROOM];
    put(octets, start, zeros.as_slice().split_at(len).0);
}

/// The offset in the ring of a segment's symbol buffer. Every `room`th segment has the same one.
fn row_start(number: usize, room: usize, size: usize, len: usize) -> usize
    requires some { 0 < room }
    requires len { len ≡ room * size }
    ensures at { result ≡ number % room * size }
    ensures fits { result + size ≤ len }
{
    number % room * size
}

/// The header of a segment as it is sent: its length, no start of a message, and its offset.
// A stream marks no messages, so payload_msg_start is 0 (RFC 5740 section 4.2.1).
fn place_of(len: u16, offset: u32) -> [u8; 8]
    ensures { result ≡ to_be_bytes w16 len ++ to_be_bytes w16 0 ++ to_be_bytes w32 offset }
{
    let [a, b] = len.to_be_bytes();
    let [c, d, e, f] = offset.to_be_bytes();
    [a, b, 0, 0, c, d, e, f]
}

/// Puts the header over the first octets of a symbol buffer, and zeros over those from `used` on.
fn seal_row(ring: &mut [u8], start: usize, size: usize, used: usize, place: &[u8])
    requires row { start + size ≤ length ring.old }
    requires place { length place.now ≤ size }
    requires used { used ≤ size }
    requires most { size ≤ 1408 }
    ensures { ring.new ≡ over (start + used) (replicate (size - used) 0) (over start place.now ring.old) }
{
    put(ring, start, place);
    // The symbol buffer may still hold an older segment. Parity is made of whole symbol buffers, so what is left of that would be coded.
    put_zeros(ring, start + used, size - used);
}

fn part(octets: &[u8], start: usize, len: usize) -> &[u8]
    requires { start + len ≤ length octets.now }
    ensures part { result.now ≡ take len (drop start octets.now) }
    ensures len { length result.now ≡ len }
{
    &octets[start..start + len]
}

impl Rows {
    ghost use Rattle.norm_order.specs.Segments.{Segment};

    /// Returns a ring of `room` symbol buffers of `size` octets. It takes no more memory later.
    ///
    /// # Errors
    ///
    /// `Memory` if memory runs out.
    pub fn new(alloc: Global, size: usize, room: usize) -> Result<Rows, Memory>
        requires least { place_octets ≤ size }
        requires most { size ≤ 1408 }
        requires some { 0 < room }
        requires few { room ≤ 65536 }
        ensures { IfOk result (λ rows. rows ≡ record { size = size; room = room; first = 0; rows = []; filling = [] }) }
    {
        let ring = vec![in alloc; 0; room * size]?;
        Ok(Rows {
            ring,
            size,
            room,
            first: 0,
            closed: 0,
            filled: 0,
        })
    }

    /// How many segments were closed, given up or not: the number of the segment that fills.
    pub fn closed(&self) -> usize
        ensures { result ≡ self.now.first + length self.now.rows }
    {
        self.closed
    }

    /// How many octets the segment that fills has, without its header. 0 right after [`seal`](Rows::seal).
    pub fn filled(&self) -> usize
        ensures { result ≡ length self.now.filling }
    {
        self.filled
    }

    /// Adds octets to the segment that fills. Closes nothing: call [`seal`](Rows::seal) once it is full.
    pub fn fill(&mut self, piece: &[u8])
        requires free { length self.old.rows < self.old.room }
        requires fits { place_octets + length self.old.filling + length piece.now ≤ self.old.size }
        ensures { self.new ≡ record (self.old) { filling = self.old.filling ++ piece.now } }
    {
        let start = row_start(self.closed, self.room, self.size, self.ring.len());
        put(&mut self.ring, start + PLACE + self.filled, piece);
        self.filled += piece.len();
    }

    /// Closes the segment that fills. It may have no octets: such a segment ends a stream. `offset` is that of its first octet in the stream.
    pub fn seal(&mut self, offset: u32)
        requires free { length self.old.rows < self.old.room }
        requires few { self.old.first + length self.old.rows < 4294967295 }
        ensures { let segment : Segment = record { offset = offset; octets = self.old.filling } in
            self.new ≡ record (self.old) { rows = self.old.rows ++ padded self.old.size (segment_octets segment) ∷ []; filling = [] } }
    {
        let start = row_start(self.closed, self.room, self.size, self.ring.len());
        let place = place_of(self.filled as u16, offset);
        seal_row(
            &mut self.ring,
            start,
            self.size,
            PLACE + self.filled,
            &place,
        );
        self.closed += 1;
        self.filled = 0;
    }

    /// Gives up the segments before this one. Later segments take their symbol buffers.
    pub fn give_up(&mut self, first: usize)
        requires from { self.old.first ≤ first }
        requires to { first ≤ self.old.first + length self.old.rows }
        ensures { self.new ≡ record (self.old) { first = first; rows = drop (first - self.old.first) self.old.rows } }
    {
        self.first = first;
    }

    /// The symbol buffer of a closed segment that was not given up: its header, its octets and zeros.
    pub fn row(&self, number: usize) -> &[u8]
        requires from { self.now.first ≤ number }
        requires to { number < self.now.first + length self.now.rows }
        ensures row { slice_get self.now.rows (number - self.now.first) ≡ Some result.now }
        ensures len { length result.now ≡ self.now.size }
    {
        let start = row_start(number, self.room, self.size, self.ring.len());
        part(&self.ring, start, self.size)
    }

    /// The symbol buffers of `count` closed segments from `number` on, which lie one after the other in the ring.
    // The symbol buffers of a block never go round the end, because the ring has room for whole blocks. So a block is one slice, and its parity takes
    // no copy.
    pub fn run(&self, number: usize, count: usize) -> &[u8]
        requires from { self.now.first ≤ number }
        requires to { number + count ≤ self.now.first + length self.now.rows }
        requires whole { number % self.now.room + count ≤ self.now.room }
        ensures rows { result.now ≡ concat (take count (drop (number - self.now.first) self.now.rows)) }
        ensures len { length result.now ≡ count * self.now.size }
    {
        let start = row_start(number, self.room, self.size, self.ring.len());
        part(&self.ring, start, count * self.size)
    }
}

//! Which members are listed past what, and which watermarks are open, by what lines say: [`Listing`].

use norm_base::NodeId;

/// The most members and open watermarks of a session.
// The key `receivers` goes up to 16. What is beyond is not counted.
const MOST: usize = 16;

/// Returns a position in the transport order as one number, which rises with it.
fn place_of(index: u32, block: u32, symbol: u8) -> u64 {
    // 32 bits of index, 24 of block and 8 of symbol fill 64 bits, in the order that positions have.
    u64::from(index).wrapping_shl(32) | u64::from(block).wrapping_shl(8) | u64::from(symbol)
}

/// A member or a watermark, and its position. The number is 0 if this slot is free.
#[derive(Clone, Copy)]
struct Placed {
    number: u32,
    place: u64,
}

/// A free slot. As the oldest watermark, it counts every listed member.
const NONE: Placed = Placed {
    number: 0,
    place: 0,
};

/// The members' listings and the open watermarks. Call a method for each `Notice` of its kind, in their order.
#[derive(Drop)]
pub(crate) struct Listing {
    members: [Placed; MOST],
    marks: [Placed; MOST],
}

/// Puts the position of this number into its slot, or else into the first free one. Does nothing if there is none.
fn put(all: &mut [Placed], number: u32, place: u64) {
    let mut free = None;
    for (at, one) in all.iter().enumerate() {
        if one.number == number {
            free = Some(at);
            break;
        }
        if one.number == 0 && free.is_none() {
            free = Some(at);
        }
    }
    if let Some(at) = free {
        if at < all.len() {
            all[at] = Placed { number, place };
        }
    }
}

/// Frees the slot of this number. Does nothing if it has none.
fn take_out(all: &mut [Placed], number: u32) {
    for one in all.iter_mut() {
        if one.number == number {
            *one = NONE;
        }
    }
}

impl Listing {
    pub fn new() -> Listing {
        Listing {
            members: [NONE; MOST],
            marks: [NONE; MOST],
        }
    }

    /// Opens a watermark at a position. Ignored if 16 are open.
    pub fn mark(&mut self, mark: u32, index: u32, block: u32, symbol: u8) {
        put(&mut self.marks, mark, place_of(index, block, symbol));
    }

    /// Lists a member past a position, in place of its earlier one. Ignored for a 17th member.
    pub fn past(&mut self, node: NodeId, index: u32, block: u32, symbol: u8) {
        put(
            &mut self.members,
            node.number(),
            place_of(index, block, symbol),
        );
    }

    /// Forgets a struck member's listing, if it has one.
    pub fn strike(&mut self, node: NodeId) {
        take_out(&mut self.members, node.number());
    }

    /// Closes a watermark, however it ended.
    pub fn done(&mut self, mark: u32) {
        take_out(&mut self.marks, mark);
    }

    /// Begins a new instance, with nobody listed and no watermark open.
    pub fn restart(&mut self) {
        *self = Listing::new();
    }

    /// Returns how many members are past the oldest open watermark. If none is open, all that are listed.
    pub fn count(&self) -> u64 {
        let mut oldest = NONE;
        for one in self.marks.iter() {
            if one.number > 0 && (oldest.number == 0 || one.number < oldest.number) {
                oldest = *one;
            }
        }
        let mut count = 0u64;
        for one in self.members.iter() {
            if one.number > 0 && one.place >= oldest.place {
                count = count.saturating_add(1);
            }
        }
        count
    }
}

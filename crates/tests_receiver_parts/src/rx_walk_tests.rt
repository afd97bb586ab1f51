//! How many items a NACK looks at: the objects from the hand-up point on, and in each the blocks that lack symbols. Each item is something
//! to ask for, except the objects of which nothing is needed. At most 256 of these are held.

use crate::playing::{Sizes, fit, flags, is_over, profile_of};
use fec_plan::{MOST_BLOCKS, PayloadId};
use norm_base::Memory;
use norm_receive_rules::{Fit, Put};
use rx_hold::Hold;
use std::process::Abort;
use std::test::Fail;

/// The most items that a NACK looks at, whatever a datagram named.
const MOST_PLACES: usize = 512;

/// The object that the sender is at, how many needs a NACK can name, and how many items it looks at then.
type Row = (u32, usize, usize);

/// Counts the blocks of an object that lack symbols, up to `most`.
fn short_blocks(hold: &Hold, index: u32, most: usize) -> usize {
    if is_over(hold, index) {
        return 0;
    }
    let mut short = hold.first_short(index);
    for count in 0..most {
        let Some(block) = short else {
            return count;
        };
        short = hold.next_short(index, block);
    }
    most
}

/// Counts the items that a NACK looks at if it can name this many needs, up to the object that the sender is at. An unknown object is a
/// need, and so is a block that lacks symbols. The first need that does not fit is looked at too.
fn places(hold: &Hold, behind: u32, needs: usize) -> usize {
    let mut left = needs.saturating_add(1);
    let mut seen = 0usize;
    for index in hold.hand_up().index..behind {
        if left == 0 {
            return seen;
        }
        let mut wanted = 1;
        if flags(hold, index).is_some() {
            seen = seen.saturating_add(1);
            wanted = short_blocks(hold, index, left);
        }
        seen = seen.saturating_add(wanted);
        left = left.saturating_sub(wanted);
    }
    seen
}

/// Counts for each row, and compares.
fn walks(rt: &impl Abort, hold: &Hold, rows: &[Row]) {
    for (row, (behind, needs, wanted)) in rows.iter().enumerate() {
        let seen = places(hold, *behind, *needs);
        let is_so = seen == *wanted && seen <= MOST_PLACES;
        assert!(rt; is_so, "row {row}: {seen} places");
    }
}

/// Whether the only symbol of a block of object 0 is kept.
fn keeps_block(hold: &mut Hold, block: u32) -> Result<bool, Memory> {
    if block >= MOST_BLOCKS {
        return Ok(false);
    }
    let id = PayloadId { block, symbol: 0 };
    Ok(hold.put(0, id, &[0; 64])? == Put::Kept)
}

/// Whether the only symbol of each block of object 0 is kept, except for the blocks in `lacking`, which are left out.
fn keeps_all_but(hold: &mut Hold, blocks: u32, lacking: &[u32]) -> Result<bool, Memory> {
    for block in 0..blocks {
        if lacking.contains(&block) {
            continue;
        }
        if !keeps_block(hold, block)? {
            return Ok(false);
        }
    }
    Ok(true)
}

/// Whether this many objects of one octet are taken up, and the octets of all except the first are kept.
fn keeps_objects(hold: &mut Hold, count: u32) -> Result<bool, Memory> {
    let id = PayloadId {
        block: 0,
        symbol: 0,
    };
    for index in 0..count {
        if fit(hold, index, (1, 1400, 1, 1), 0)? != Some(Fit::Taken) {
            return Ok(false);
        }
        if index > 0 && hold.put(index, id, &[7])? != Put::Kept {
            return Ok(false);
        }
    }
    Ok(true)
}

/// An object of 262,144 blocks, the most that one can have, each of one symbol of 64 octets. The first, a middle one and the last did not
/// come. A NACK of 64 octets can name seven needs: three blocks and, if the sender is further, four objects. It looks at the fifth object
/// too.
#[test]
fn a_nack_looks_at_no_block_that_is_done(rt: HostRuntime) -> Result<(), Fail> {
    let sizes: Sizes = (64, 1, 1, 16_777_216, 2);
    let mut hold = Hold::new(rt.alloc(), &profile_of(&rt, sizes))?;
    let is_taken = fit(&mut hold, 0, (16_777_216, 64, 1, 1), 0)? == Some(Fit::Taken);
    let is_kept = keeps_all_but(&mut hold, 262_144, &[0, 131_071, 262_143])?;
    assert!(rt; is_taken && is_kept, "not all was kept");
    walks(&rt, &hold, &[(1, 7, 4), (4_294_967_295, 7, 9)]);
    Ok(())
}

/// 256 objects, the most that are held. The first lacks its symbol, and all others are whole. A NACK of 1,400 octets can name 174 needs: a
/// block and, if the sender is further, 173 objects. It looks at one object more.
#[test]
fn a_nack_looks_at_each_object_that_is_held_once(rt: HostRuntime) -> Result<(), Fail> {
    let sizes: Sizes = (1400, 1, 1, 16_777_216, 2);
    let mut hold = Hold::new(rt.alloc(), &profile_of(&rt, sizes))?;
    let is_kept = keeps_objects(&mut hold, 256)?;
    assert!(rt; is_kept, "not all was kept");
    walks(&rt, &hold, &[(256, 174, 257), (4_294_967_295, 174, 431)]);
    Ok(())
}

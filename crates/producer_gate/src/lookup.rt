//! Operations of several steps on the board's 64-bit words: publishing an entry, finding the last one of a watermark, and creating readers.
//! [`Board`](crate::Board) and its readers call these.
ghost use Rattle.std.specs.Prelude.{◌≡◌, ◌<◌, ◌≤◌, [], ◌∷◌, ◌++◌, All, IfOk, length, map, replicate, vec_len};
ghost use Rattle.std.specs.Arc.{arc_value};
ghost use Rattle.producer_gate.specs.Boards.{new_reader};
ghost use Rattle.producer_gate.specs.Entries.{entry_in, last_of};
ghost use Rattle.producer_gate.specs.Places.{IsAt};
ghost use Rattle.producer_gate.specs.Plays.{IsWriter, IsReader, own_in, known_in};

use crate::board::BoardReader;
use crate::entries::{Seen, outcome_of};
use crate::steps::{first_at, note, put_first, put_second, second_at, show};
use crate::words::{Place, Words};
use std::alloc::{AllocError, Global};
use std::sync::Arc;

/// Publishes two 64-bit words as one more entry, after the first `count`.
pub(crate) fn post(words: &Words, place: &mut Place, count: u64, first: u64, second: u64)
    requires place { IsAt words.now.shared.table_id place.old × IsWriter place.old.me.0 }
    requires room { (count ≡ length (own_in place.old.me.0)) × (count < 4096) }
    ensures place { IsAt words.now.shared.table_id place.new × IsWriter place.new.me.0 }
    ensures words { own_in place.new.me.0 ≡ own_in place.old.me.0 ++ (first, second) ∷ [] }
{
    let at = count as usize;
    // The count last. A reader that sees it finds both words of the entry there.
    put_first(words, place, at, first);
    put_second(words, place, at, second);
    show(words, place, count);
}

/// Returns what the last entry of a watermark says, of the `count` entries that the reader knows. Reads them from the last one back.
pub(crate) fn find_last(words: &Words, place: &mut Place, count: usize, mark: u64) -> Seen
    requires place { IsAt words.now.shared.table_id place.old × IsReader place.old.me.0 }
    requires count { (count ≡ length (known_in place.old.me.0)) × (count ≤ 4096) }
    ensures place { IsAt words.now.shared.table_id place.new × (place.new.me ≡ place.old.me) }
    ensures seen { result ≡ last_of mark (map entry_in (known_in place.old.me.0)) }
{
    let mut left = count;
    // Proof: the label names the loop for its invariant.
    'back: while left > 0 {
        // From the last entry back, since the last one of a mark counts.
        left -= 1;
        if first_at(words, place, left) == mark {
            return Seen::Known(outcome_of(second_at(words, place, left)));
        }
    }
    Seen::Unknown
}

fn reader_at(words: Arc<Words, Global>, place: Place) -> BoardReader
    requires place { IsAt (arc_value words).shared.table_id place × IsReader place.me.0 }
    requires fresh { known_in place.me.0 ≡ [] }
    ensures { result ≡ new_reader place.table_id }
{
    BoardReader { words, place }
}

/// Creates this many readers of a board that has published nothing.
///
/// # Errors
///
/// `AllocError` if memory runs out.
// Proof: `own` follows from `readers`. `Board::new` needs it to promise the same: a caller that takes a reader out of the list then knows
// that it is of this board, as `learn` and `hear` ask.
pub(crate) fn readers_of(
    alloc: Global,
    words: &Arc<Words, Global>,
    place: &mut Place,
    readers: u32,
) -> Result<Vec<BoardReader>, AllocError>
    requires place { IsAt (arc_value words.now).shared.table_id place.old × IsWriter place.old.me.0 }
    requires fresh { own_in place.old.me.0 ≡ [] }
    ensures place { IfOk result (λ _. IsAt (arc_value words.now).shared.table_id place.new × (place.new.me ≡ place.old.me)) }
    ensures readers { IfOk result (λ list. list.items ≡ replicate readers (new_reader place.old.table_id)) }
    ensures own { IfOk result (λ list. All (λ r. r.board ≡ place.old.table_id) list.items × (vec_len list ≡ readers)) }
{
    let mut list = Vec::with_capacity(alloc, readers as usize)?;
    for made in 0..readers {
        let own = note(words, place);
        list.push_reserved(reader_at(Arc::try_clone(words)?, own));
    }
    Ok(list)
}

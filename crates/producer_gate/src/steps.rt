//! Single steps on the board's 64-bit words. Each is an atomic load or store, or passes on what a seat knows.
ghost use Rattle.std.specs.Prelude.{◌≡◌, ◌+◌, ◌*◌, ◌<◌, ◌≤◌, [], ◌∷◌, ◌++◌, length};
ghost use mathlib.Core.List.{IsPrefix};
ghost use Rattle.producer_gate.specs.Places.{IsAt};
ghost use Rattle.producer_gate.specs.Plays.{IsWriter, IsReader, own_in, first_in, second_in, asked_in, known_in, told_in, noted, heard};
ghost use Rattle.producer_gate.specs.Posts.{words_at};

use crate::words::{
    Compares, Hears, Looks, Notes, Place, PutsFirst, PutsSecond, Reads, Shows, Words,
};

/// Writes the first word of entry `at`, a watermark's number. The entry is the next one and not yet published.
pub(crate) fn put_first(words: &Words, place: &mut Place, at: usize, word: u64)
    requires place { IsAt words.now.shared.table_id place.old × IsWriter place.old.me.0 }
    requires room { (at ≡ length (own_in place.old.me.0)) × (at < 4096) }
    ensures place { IsAt words.now.shared.table_id place.new × IsWriter place.new.me.0 }
    ensures words { (own_in place.new.me.0 ≡ own_in place.old.me.0) × (first_in place.new.me.0 ≡ word) × (second_in place.new.me.0 ≡ second_in place.old.me.0) }
{
    words.shared.store::<PutsFirst>(place, 2 * at + 1, word);
}

/// Writes the second word of entry `at`, an outcome. The entry is the next one and not yet published.
pub(crate) fn put_second(words: &Words, place: &mut Place, at: usize, word: u64)
    requires place { IsAt words.now.shared.table_id place.old × IsWriter place.old.me.0 }
    requires room { (at ≡ length (own_in place.old.me.0)) × (at < 4096) }
    ensures place { IsAt words.now.shared.table_id place.new × IsWriter place.new.me.0 }
    ensures words { (own_in place.new.me.0 ≡ own_in place.old.me.0) × (first_in place.new.me.0 ≡ first_in place.old.me.0) × (second_in place.new.me.0 ≡ word) }
{
    words.shared.store::<PutsSecond>(place, 2 * at + 2, word);
}

/// Publishes entry `at`. Call it after both of its words are written.
pub(crate) fn show(words: &Words, place: &mut Place, at: u64)
    requires place { IsAt words.now.shared.table_id place.old × IsWriter place.old.me.0 }
    requires room { (at ≡ length (own_in place.old.me.0)) × (at < 4096) }
    ensures place { IsAt words.now.shared.table_id place.new × IsWriter place.new.me.0 }
    ensures words { own_in place.new.me.0 ≡ own_in place.old.me.0 ++ (first_in place.old.me.0, second_in place.old.me.0) ∷ [] }
{
    words.shared.store::<Shows>(place, 0, at + 1);
}

/// Reads how many entries are published. The reader knows all of them from then on.
pub(crate) fn look(words: &Words, place: &mut Place) -> usize
    requires place { IsAt words.now.shared.table_id place.old × IsReader place.old.me.0 }
    ensures place { IsAt words.now.shared.table_id place.new × IsReader place.new.me.0 }
    ensures later { IsPrefix (known_in place.old.me.0) (known_in place.new.me.0) × IsPrefix (told_in place.old.me.0) (known_in place.new.me.0) }
    ensures count { (result ≡ length (known_in place.new.me.0)) × (result ≤ 4096) }
{
    words.shared.load::<Looks>(place, 0) as usize
}

/// Reads the watermark's number, the first word of an entry that the reader knows.
pub(crate) fn first_at(words: &Words, place: &mut Place, at: usize) -> u64
    requires place { IsAt words.now.shared.table_id place.old × IsReader place.old.me.0 }
    requires room { (at < length (known_in place.old.me.0)) × (at < 4096) }
    ensures place { IsAt words.now.shared.table_id place.new × (place.new.me ≡ place.old.me) }
    ensures word { result ≡ (words_at (known_in place.old.me.0) at).0 }
{
    words.shared.load::<Reads>(place, 2 * at + 1)
}

/// Reads the outcome, the second word of an entry that the reader knows.
pub(crate) fn second_at(words: &Words, place: &mut Place, at: usize) -> u64
    requires place { IsAt words.now.shared.table_id place.old × IsReader place.old.me.0 }
    requires room { (at < length (known_in place.old.me.0)) × (at < 4096) }
    ensures place { IsAt words.now.shared.table_id place.new × (place.new.me ≡ place.old.me) }
    ensures word { result ≡ (words_at (known_in place.old.me.0) at).1 }
{
    words.shared.load::<Reads>(place, 2 * at + 2)
}

/// Returns a note: a new seat, for reading, that knows the entries that this one knows.
pub(crate) fn note(words: &Words, place: &mut Place) -> Place
    requires { IsAt words.now.shared.table_id place.old }
    ensures place { IsAt words.now.shared.table_id place.new × (place.new.me ≡ place.old.me) }
    ensures note { IsAt words.now.shared.table_id result × (result.me.0 ≡ noted place.old.me.0) }
{
    words.shared.split_seat::<Notes>(place)
}

/// Takes a note in. A reader's next [`look`] finds its entries, and a writer's [`compare`] is about them.
pub(crate) fn hear(words: &Words, place: &mut Place, note: Place)
    requires { IsAt words.now.shared.table_id place.old × IsAt words.now.shared.table_id note }
    ensures place { IsAt words.now.shared.table_id place.new }
    ensures view { place.new.me.0 ≡ heard place.old.me.0 note.me.0 }
{
    words.shared.join_seat::<Hears>(place, note);
}

/// Changes nothing. Its contract says that this writer published the entries of the note that it took in last.
pub(crate) fn compare(words: &Words, place: &mut Place)
    requires { IsAt words.now.shared.table_id place.old × IsWriter place.old.me.0 }
    ensures place { IsAt words.now.shared.table_id place.new × (place.new.me ≡ place.old.me) }
    ensures before { IsPrefix (asked_in place.old.me.0) (own_in place.old.me.0) }
{
    words.shared.load::<Compares>(place, 0);
}

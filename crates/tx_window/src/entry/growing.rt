//! How an open stream of the window goes on: by writes, by cuts, and to its end.

ghost use Rattle.std.specs.Prelude.{ℕ, ◌≡◌, ◌≤◌, List, [], ◌∷◌, OnErr, length};
ghost use Rattle.norm_base.specs.declared.node.Origin.{Origin};
ghost use Rattle.fec_plan.specs.Points.{Position as Place, reached_by};
ghost use Rattle.norm_order.specs.Entries.{Part, Write, End, Object as Entered, Stream};
ghost use Rattle.norm_order.specs.Segments.{written};
ghost use Rattle.norm_send_rules.specs.SenderState.{SenderState};
ghost use Rattle.norm_send_rules.specs.Watermarks.{all_past};
ghost use Rattle.stream_buffer.specs.StreamState.{with_cut};
ghost use Rattle.stream_buffer.specs.HeldState.{Knows};
ghost use Rattle.tx_window.specs.EntryState.{EntryReads, reads_of, StandsFor, first_of};
ghost use Rattle.tx_window.specs.EntryGrowing.{GoesOn, EntryGoesOn, KeepsObject};
ghost use Rattle.tx_window.specs.EntryPlaces.{Stays};

use crate::entry::HeldEntry;
use fec_plan::Position;
use norm_base::Profile;
use norm_send_rules::EnqueueFault;
use stream_buffer::HeldStream;

/// Writes octets to a stream. Returns the offset of the first octet. `NoStream` if it was closed, or else why it takes no more.
fn write_to(
    stream: &mut HeldStream,
    profile: &Profile,
    index: u32,
    past: &Option<Position>,
    before: bool,
    bytes: &[u8],
) -> Result<u32, EnqueueFault>
    requires { 1 ≤ length bytes.now }
    ensures answer { (s : SenderState) (parts : List Part) (by : Origin) → Knows profile.now index parts s.sent stream.old
        → ((at : Place) → all_past s at ≡ reached_by past.now at)
        → GoesOn profile.now index parts s (Write by bytes.now ∷ []) before (length (written parts)) stream.old stream.new result }
    ensures refused { OnErr result (stream.new ≡ stream.old) }
{
    if stream.is_ended() {
        return Err(EnqueueFault::NoStream);
    }
    match stream.write(profile, index, past, before, bytes) {
        Ok(offset) => Ok(offset),
        Err(fault) => Err(EnqueueFault::Stream(fault)),
    }
}

/// Ends a stream. `NoStream` if it was closed, or else why it takes no end.
fn close(
    stream: &mut HeldStream,
    profile: &Profile,
    index: u32,
    past: &Option<Position>,
    before: bool,
) -> Result<(), EnqueueFault>
    ensures answer { (s : SenderState) (parts : List Part) → Knows profile.now index parts s.sent stream.old
        → ((at : Place) → all_past s at ≡ reached_by past.now at)
        → GoesOn profile.now index parts s (End ∷ []) before tt stream.old stream.new result }
    ensures refused { OnErr result (stream.new ≡ stream.old) }
{
    if stream.is_ended() {
        return Err(EnqueueFault::NoStream);
    }
    match stream.close(profile, index, past, before) {
        Ok(()) => Ok(()),
        Err(fault) => Err(EnqueueFault::Stream(fault)),
    }
}

impl HeldEntry {
    /// Writes octets to the open stream with this index, the last entry. Returns the offset of the first octet. Blocks go for room as in
    /// [`HeldStream::write`].
    ///
    /// # Errors
    ///
    /// `NoStream` if this is no stream, or one that was closed. Otherwise why the stream takes no more. Then nothing changes.
    pub fn write(
        &mut self,
        profile: &Profile,
        index: u32,
        past: &Option<Position>,
        before: bool,
        bytes: &[u8],
    ) -> Result<u32, EnqueueFault>
        requires { 1 ≤ length bytes.now }
        ensures answer { (ring : List ℕ) (object : Entered) (s : SenderState) (by : Origin) → StandsFor (reads_of ring profile.now index object s) self.old
            → ((at : Place) → all_past s at ≡ reached_by past.now at)
            → EntryGoesOn ring profile.now index object s (Write by bytes.now ∷ []) before (λ parts. length (written parts)) self.old self.new result }
        ensures refused { OnErr result (self.new ≡ self.old) }
        ensures stays { Stays self.old self.new }
    {
        match self {
            HeldEntry::Object(_) => Err(EnqueueFault::NoStream),
            HeldEntry::Stream(stream) => write_to(stream, profile, index, past, before, bytes),
        }
    }

    /// Ends the open stream with this index, the last entry. Blocks go for room as in [`HeldStream::close`].
    ///
    /// # Errors
    ///
    /// As in [`write`](HeldEntry::write).
    pub fn close(
        &mut self,
        profile: &Profile,
        index: u32,
        past: &Option<Position>,
        before: bool,
    ) -> Result<(), EnqueueFault>
        ensures answer { (ring : List ℕ) (object : Entered) (s : SenderState) → StandsFor (reads_of ring profile.now index object s) self.old
            → ((at : Place) → all_past s at ≡ reached_by past.now at)
            → EntryGoesOn ring profile.now index object s (End ∷ []) before (λ parts. tt) self.old self.new result }
        ensures refused { OnErr result (self.new ≡ self.old) }
        ensures stays { Stays self.old self.new }
    {
        match self {
            HeldEntry::Object(_) => Err(EnqueueFault::NoStream),
            HeldEntry::Stream(stream) => close(stream, profile, index, past, before),
        }
    }

    /// Closes the segment that fills, if this is a stream and the segment holds octets. An object stays as it is.
    pub fn cut(&mut self)
        ensures object { KeepsObject self.old self.new }
        ensures first { first_of self.new ≡ first_of self.old }
        ensures stays { Stays self.old self.new }
        ensures stream { (r : EntryReads) (parts : List Part) → StandsFor r self.old → r.object ≡ Stream parts
            → StandsFor (record r { object = Stream (with_cut r.p.e parts) }) self.new }
    {
        match self {
            HeldEntry::Object(_) => (),
            HeldEntry::Stream(stream) => stream.cut(),
        }
    }
}

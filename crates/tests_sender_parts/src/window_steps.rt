//! Plays a table of calls of a [`Window`], each with its expected answer. A test lists [`Step`]s and gives them to [`play`] or
//! [`play_under`].

use crate::profiles;
use fec_plan::Position;
use norm_base::{Datagram, Key, Kind, Memory, Mode, Octets, Profile};
use norm_send_rules::{EnqueueFault, Want};
use std::alloc::Global;
use std::marker::Model;
use std::process::Abort;
use tx_window::{About, Window};

/// A window whose contents are always those of some state of a sender, so that what it sends can be noted.
#[derive(Drop)]
struct Standing {
    window: Window,
    e: usize,
}

impl Model for Standing {
    ghost use Rattle.tx_window.specs.WindowState.{WindowState};
    ghost use Rattle.tx_window.specs.Standing.{IsStanding};

    ghost Value = { WindowState };

    ghost view = { λ s. s.window };

    ghost invariant = { λ s. IsStanding s.window };
}

impl Standing {
    fn new(alloc: Global, profile: &Profile) -> Result<Standing, Memory> {
        let window = Window::new(alloc, profile)?;
        let e = usize::from(profile.e);
        let standing = Standing { window, e };
        Ok(standing)
    }

    /// Enqueues an object. Returns its index, or why it is refused.
    fn enqueue(
        &mut self,
        kind: Kind,
        info: Option<Octets>,
        bytes: Octets,
    ) -> Result<u32, EnqueueFault> {
        match self.window.enqueue(kind, info, bytes) {
            Ok(index) => Ok(index),
            Err((_, fault)) => Err(fault),
        }
    }

    /// Puts a symbol into the datagram and notes it as sent. Returns its number of octets, or `None` if it is not in the window.
    fn send(&mut self, at: Position, out: &mut Datagram) -> Option<u16> {
        out.clear();
        let Some(octets) = self.window.symbol(at, out) else {
            return None;
        };
        self.window.note_sent(at);
        Some(octets)
    }

    /// Notes an info as sent. Returns whether the object has one in the window.
    fn send_info(&mut self, index: u32) -> bool {
        if self.window.info(index).is_none() {
            return false;
        }
        self.window.note_info(index);
        true
    }

    fn note_past(&mut self, through: Option<Position>) {
        self.window.note_past(through);
    }

    fn open_stream(&mut self) -> Result<u32, EnqueueFault> {
        self.window.open_stream()
    }

    fn write(&mut self, bytes: &[u8]) -> Result<(u32, u32), EnqueueFault> {
        self.window.write(bytes)
    }

    fn cut(&mut self) {
        self.window.cut();
    }

    fn close_stream(&mut self) -> Result<u32, EnqueueFault> {
        self.window.close_stream()
    }

    fn end_cut(&self) -> Option<Position> {
        self.window.end_cut()
    }

    /// Returns how many streams there are, and how many segments of the last one are closed.
    fn streams(&self) -> (u32, u32) {
        (self.window.streams(), self.window.segments())
    }

    fn repairable(&self) -> u64 {
        self.window.repairable()
    }

    /// Begins a file, fills in a piece of it, and clears the window while `missing` octets have not come. Returns whether it was begun.
    fn cut_short(&mut self, name: Octets, piece: &[u8], missing: u32) -> bool {
        let len = piece.len() as u64 + u64::from(missing);
        match self.window.begin(Kind::File, Some(name), len) {
            Ok(()) => {
                self.window.fill(piece);
                self.window.clear();
                true
            }
            Err(_) => false,
        }
    }

    fn is_source(&self, at: Position) -> bool {
        self.window.is_source(at)
    }

    fn first(&self) -> (u32, u32) {
        self.window.first()
    }

    fn about(&self, index: u32) -> Option<About> {
        self.window.about(index)
    }

    fn blocks(&self, index: u32) -> Option<u32> {
        match self.window.plan(index) {
            Some(plan) => Some(plan.blocks()),
            None => None,
        }
    }

    fn next_new(&self, from: Want) -> Option<Want> {
        self.window.next_new(from)
    }

    fn object_fault(&self, info: usize, len: u64) -> Option<EnqueueFault> {
        self.window.object_fault(info, len)
    }

    fn clear(&mut self) {
        self.window.clear();
    }

    fn end(&self) -> Option<Position> {
        self.window.end()
    }
}

/// A position: the index of the object, the block, and the symbol.
pub type At = (u32, u16, u8);

fn position(at: At) -> Position {
    let (index, block, symbol) = at;
    Position {
        index,
        block: u32::from(block),
        symbol,
    }
}

/// A call of a window, with its expected answer.
#[derive(Clone, Copy)]
pub enum Step {
    /// Enqueues an object: the octets of its info, 0 if it has none, and its own octets.
    Enqueue(usize, usize, Result<u32, EnqueueFault>),
    /// Sends a symbol. Expects its number of octets, and the first of them.
    Send(At, Option<(u16, u8)>),
    /// Sends all source symbols of an object.
    SendAll(u32),
    SendInfo(u32, bool),
    Past(At),
    IsSource(At, bool),
    First(u32),
    /// Expects the first entry, and the first block that is left of it.
    Front(u32, u32),
    Opens(Result<u32, EnqueueFault>),
    /// Writes this many octets. Expects the index of the stream and the offset.
    Writes(usize, Result<(u32, u32), EnqueueFault>),
    Cut,
    Closes(Result<u32, EnqueueFault>),
    /// Expects the last closed segment if the open stream were cut.
    EndCut(Option<At>),
    /// Expects how many streams there are, and how many segments of the last one are closed.
    Streams(u32, u32),
    /// Expects how many infos and encoded symbols can be repaired.
    Repairable(u64),
    /// Begins a file of which this many octets come, and this many are missing as the window is cleared. Expects whether it was begun.
    CutShort(usize, u32, bool),
    End(Option<At>),
    /// Expects the length and flags that messages say of an object, and its number of blocks.
    About(u32, Option<(u64, u8, u32)>),
    /// Expects what is new next from an object's info on, or from a symbol on.
    NextFrom(u32, Option<Next>),
    NextAt(At, Option<Next>),
    /// Expects the fault of an object that is only asked about: the octets of its info, and its own.
    Fault(usize, u64, Option<EnqueueFault>),
    Clear,
    /// Enqueues and sends this many objects of one octet, one after the other.
    Many(u32),
}

/// What is new next: an info, or a symbol.
#[derive(Clone, Copy)]
pub enum Next {
    InfoOf(u32),
    SymbolAt(At),
}

fn want_of(next: Next) -> Want {
    match next {
        Next::InfoOf(index) => Want::Info { index },
        Next::SymbolAt(at) => Want::Symbol { at: position(at) },
    }
}

/// Returns the octets of an object: 1 in all of its first symbol, 2 in the next, and so on up to 128, and again.
fn octets_of(alloc: Global, e: usize, len: usize) -> Result<Octets, Memory> {
    let mut octets = vec![in alloc; 0; len]?;
    for (place, octet) in octets.iter_mut().enumerate() {
        let symbol = place.checked_div(e).unwrap_or(0);
        *octet = [1, 2, 4, 8, 16, 32, 64, 128][symbol % 8];
    }
    Ok(Octets::of(octets))
}

/// Enqueues an object. `sizes` are the octets of its info, 0 if it has none, and its own.
fn offer(
    alloc: Global,
    window: &mut Standing,
    sizes: (usize, usize),
) -> Result<Result<u32, EnqueueFault>, Memory> {
    let (info, len) = sizes;
    let name = if info == 0 {
        None
    } else {
        Some(octets_of(alloc, 1, info)?)
    };
    let bytes = octets_of(alloc, window.e, len)?;
    Ok(window.enqueue(Kind::File, name, bytes))
}

/// Enqueues an object, and tries again if memory ran out: the window is unchanged then, and answers as it does with memory.
fn enqueued(
    alloc: Global,
    window: &mut Standing,
    sizes: (usize, usize),
) -> Result<Result<u32, EnqueueFault>, Memory> {
    match offer(alloc, window, sizes)? {
        Err(EnqueueFault::Memory) => offer(alloc, window, sizes),
        answer => Ok(answer),
    }
}

/// Opens a stream, and tries again if memory ran out.
fn opened(window: &mut Standing) -> Result<u32, EnqueueFault> {
    match window.open_stream() {
        Err(EnqueueFault::Memory) => window.open_stream(),
        answer => answer,
    }
}

/// Begins a file and cuts it short, and tries again if only memory was missing.
fn cut_short(
    alloc: Global,
    window: &mut Standing,
    piece: &[u8],
    missing: u32,
) -> Result<bool, Memory> {
    let len = piece.len() as u64 + u64::from(missing);
    let was_begun = window.cut_short(octets_of(alloc, 1, 1)?, piece, missing);
    if was_begun || window.object_fault(1, len).is_some() {
        return Ok(was_begun);
    }
    Ok(window.cut_short(octets_of(alloc, 1, 1)?, piece, missing))
}

/// Sends a symbol. Returns its number of octets and the first of them.
fn sent(alloc: Global, window: &mut Standing, at: At) -> Result<Option<(u16, u8)>, Memory> {
    let mut out = Datagram::new(alloc)?;
    let octets = window.send(position(at), &mut out);
    match (octets, out.bytes().first()) {
        (Some(octets), Some(first)) => Ok(Some((octets, *first))),
        _ => Ok(None),
    }
}

fn send_all(alloc: Global, window: &mut Standing, index: u32) -> Result<(), Memory> {
    let mut out = Datagram::new(alloc)?;
    for block in 0..4u16 {
        for symbol in 0..188u8 {
            window.send(position((index, block, symbol)), &mut out);
        }
    }
    Ok(())
}

/// Returns the length, the flags and the number of blocks of an object.
fn says(window: &Standing, index: u32) -> Option<(u64, u8, u32)> {
    match (window.about(index), window.blocks(index)) {
        (Some(about), Some(blocks)) => Some((about.fti.l, about.flags, blocks)),
        _ => None,
    }
}

/// Enqueues objects of one octet, and sends each.
fn send_many(alloc: Global, window: &mut Standing, count: u32) -> Result<(), Memory> {
    let mut out = Datagram::new(alloc)?;
    for _ in 0..count {
        if let Ok(index) = enqueued(alloc, window, (0, 1))? {
            window.send(position((index, 0, 0)), &mut out);
        }
    }
    Ok(())
}

/// Makes a call of the open stream, or of a file that is cut short. Returns whether it gave the expected answer.
fn does_stream(alloc: Global, window: &mut Standing, step: Step) -> Result<bool, Memory> {
    match step {
        Step::Opens(answer) => Ok(opened(window) == answer),
        Step::Writes(len, answer) => {
            let octets = octets_of(alloc, window.e, len)?;
            Ok(window.write(octets.bytes()) == answer)
        }
        Step::Cut => {
            window.cut();
            Ok(true)
        }
        Step::Closes(answer) => Ok(window.close_stream() == answer),
        Step::CutShort(len, missing, answer) => {
            let octets = octets_of(alloc, window.e, len)?;
            Ok(cut_short(alloc, window, octets.bytes(), missing)? == answer)
        }
        _ => Ok(false),
    }
}

/// Makes a call. Returns whether it gave the expected answer.
fn does(alloc: Global, window: &mut Standing, step: Step) -> Result<bool, Memory> {
    match step {
        Step::Enqueue(info, len, answer) => Ok(enqueued(alloc, window, (info, len))? == answer),
        Step::Send(at, answer) => Ok(sent(alloc, window, at)? == answer),
        Step::SendAll(index) => {
            send_all(alloc, window, index)?;
            Ok(true)
        }
        Step::SendInfo(index, answer) => Ok(window.send_info(index) == answer),
        Step::Past(at) => {
            window.note_past(Some(position(at)));
            Ok(true)
        }
        Step::IsSource(at, answer) => Ok(window.is_source(position(at)) == answer),
        Step::First(index) => Ok(window.first() == (index, 0)),
        Step::Front(index, block) => Ok(window.first() == (index, block)),
        Step::EndCut(at) => Ok(window.end_cut() == at.map(position)),
        Step::Streams(count, segments) => Ok(window.streams() == (count, segments)),
        Step::Repairable(count) => Ok(window.repairable() == count),
        Step::Opens(_) | Step::Writes(..) | Step::Cut | Step::Closes(_) | Step::CutShort(..) => {
            does_stream(alloc, window, step)
        }
        Step::End(at) => Ok(window.end() == at.map(position)),
        Step::About(index, answer) => Ok(says(window, index) == answer),
        Step::NextFrom(index, answer) => {
            Ok(window.next_new(Want::Info { index }) == answer.map(want_of))
        }
        Step::NextAt(at, answer) => {
            Ok(window.next_new(want_of(Next::SymbolAt(at))) == answer.map(want_of))
        }
        Step::Fault(info, len, answer) => Ok(window.object_fault(info, len) == answer),
        Step::Clear => {
            window.clear();
            Ok(true)
        }
        Step::Many(count) => {
            send_many(alloc, window, count)?;
            Ok(true)
        }
    }
}

/// Returns a profile. `sizes` are the octets of a symbol and the source and encoded symbols of a block, `most` the most objects and octets
/// of the window.
pub fn profile_of(
    rt: &impl Abort,
    mode: Mode,
    sizes: (u32, u32, u32),
    most: (u32, u32),
) -> Profile {
    let (e, b, max_n) = sizes;
    let (window, octets) = most;
    let profile = profiles::profile_of(
        rt,
        &[
            (Key::E, e),
            (Key::B, b),
            (Key::MaxN, max_n),
            (Key::Window, window),
            (Key::Octets, octets),
        ],
    );
    Profile { mode, ..profile }
}

/// Makes the calls in order, of one window under a profile. A wrong answer fails the test.
pub fn play_under(
    rt: &impl Abort,
    alloc: Global,
    profile: &Profile,
    steps: &[Step],
) -> Result<(), Memory> {
    let mut window = Standing::new(alloc, profile)?;
    for (place, step) in steps.iter().enumerate() {
        let is_so = does(alloc, &mut window, *step)?;
        assert!(rt; is_so, "call {place}");
    }
    Ok(())
}

/// As `play_under`, with a profile of these sizes.
pub fn play(
    rt: &impl Abort,
    alloc: Global,
    mode: Mode,
    sizes: (u32, u32, u32),
    most: (u32, u32),
    steps: &[Step],
) -> Result<(), Memory> {
    let profile = profile_of(rt, mode, sizes, most);
    play_under(rt, alloc, &profile, steps)
}

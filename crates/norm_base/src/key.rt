//! The keys of a profile, in one table. [`Key::row`] has each key's name, range and default. Scripts, profile files, options and the input
//! of `replay` are read by it.

ghost use Rattle.std.specs.Prelude.{◌≡◌, ◌≤◌, ◌-◌, map, length, ℕ, List, []};
ghost use Rattle.norm_base.specs.Keys.{row_of, keys, key_named, place_of_word};

/// A key of a profile. `Profile` has a field with the same name.
// The order matters: a variant's number is its index in `KEYS`. A new key needs an item there, a row in `row` and a field of `Profile`.
#[derive(Clone, Copy, Debug, PartialEq, Eq)]
pub enum Key {
    Instance,
    First,
    Sender,
    Receivers,
    Producers,
    E,
    B,
    MaxN,
    Auto,
    Window,
    Octets,
    Blocks,
    Mode,
    Gap,
    Grtt,
    GrttCode,
    GsizeCode,
    K,
    Step,
    Turns,
    Fabric,
    Chance,
    Loss,
    Repeat,
    Late,
    Port,
}

/// All keys. Each stands at its own [`place`](Key::place).
// Written out in the order of the variants: a key's place is its number, and a list of all has to agree with that.
pub const KEYS: [Key; 26] = [
    Key::Instance,
    Key::First,
    Key::Sender,
    Key::Receivers,
    Key::Producers,
    Key::E,
    Key::B,
    Key::MaxN,
    Key::Auto,
    Key::Window,
    Key::Octets,
    Key::Blocks,
    Key::Mode,
    Key::Gap,
    Key::Grtt,
    Key::GrttCode,
    Key::GsizeCode,
    Key::K,
    Key::Step,
    Key::Turns,
    Key::Fabric,
    Key::Chance,
    Key::Loss,
    Key::Repeat,
    Key::Late,
    Key::Port,
];

/// What whoever reads values needs to know of a key. [`Key::row`] returns it.
#[derive(Clone, Copy, Debug)]
pub struct KeyRow {
    /// The name in a script and in a profile file.
    pub name: &'static str,
    pub least: u32,
    pub greatest: u32,
    /// The value if none is set. `max_n` has this default only if `b` has its own: see `Given::value`.
    pub default: u32,
    /// The words for the values 0, 1, .. If there are none, a value is written as a number.
    pub words: &'static [&'static str],
}

fn numbers(name: &'static str, least: u32, greatest: u32, default: u32) -> KeyRow
    ensures name { result.name.now ≡ name.now }
    ensures least { result.least ≡ least }
    ensures greatest { result.greatest ≡ greatest }
    ensures value { result.default ≡ default }
    ensures words { map (λ w. w.now) result.words.now ≡ [] }
    ensures few { length result.words.now ≤ 3 }
{
    KeyRow {
        name,
        least,
        greatest,
        default,
        words: &[],
    }
}

/// The row of a key whose values are words. The words stand for 0, 1, .., and the first is the default.
fn words(name: &'static str, words: &'static [&'static str]) -> KeyRow
    requires some { 1 ≤ length words.now }
    requires few { length words.now ≤ 3 }
    ensures name { result.name.now ≡ name.now }
    ensures least { result.least ≡ 0 }
    ensures greatest { result.greatest ≡ length words.now - 1 }
    ensures value { result.default ≡ 0 }
    ensures words { map (λ w. w.now) result.words.now ≡ map (λ w. w.now) words.now }
    ensures few { length result.words.now ≤ 3 }
{
    KeyRow {
        name,
        least: 0,
        greatest: words.len() as u32 - 1,
        default: 0,
        words,
    }
}

impl Key {
    /// Returns the key's index in [`KEYS`].
    pub fn place(self) -> usize
        ensures { result ≡ (row_of self).place }
    {
        self as usize
    }

    /// Returns the key's name, range, default and words. It makes them anew at each call.
    // A function and not a constant table: a constant cannot call `numbers` here, and 26 rows written in full would stand beside the 26 names.
    pub fn row(self) -> KeyRow
        ensures name { result.name.now ≡ (row_of self).name }
        ensures least { result.least ≡ (row_of self).least }
        ensures greatest { result.greatest ≡ (row_of self).greatest }
        ensures value { result.default ≡ (row_of self).default }
        ensures words { map (λ w. w.now) result.words.now ≡ (row_of self).words }
        ensures few { length result.words.now ≤ 3 }
    {
        match self {
            // RFC 5740 section 4.2.1: instances and object transport ids have 16 bits.
            Key::Instance => numbers("instance", 0, 65_535, 1),
            Key::First => numbers("first", 0, 65_535, 0),
            // RFC 5740 section 4.1: 0 and 2^32 - 1 name no member. Behind the greatest sender 16 numbers are left for receivers.
            Key::Sender => numbers("sender", 1, 4_294_967_278, 1),
            // Our own choice, as most that follows. A flush names all that have to confirm, and each watermark is settled by a look at all
            // members.
            Key::Receivers => numbers("receivers", 1, 16, 1),
            Key::Producers => numbers("producers", 1, 4, 1),
            // fec_plan says where the limits of these two come from. 255 encoded symbols is the limit of RFC 5510 section 8.
            Key::E => numbers("e", 64, 1400, 1024),
            Key::B => numbers("b", 1, 200, 64),
            Key::MaxN => numbers("max_n", 1, 255, 96),
            Key::Auto => numbers("auto", 0, 255, 0),
            // 256: a receiver has this many slots for objects from the hand-up point on, whatever the value is.
            Key::Window => numbers("window", 1, 256, 256),
            // 2^24: the objects of a window lie in one ring, and a receiver takes an object's memory with its plan.
            Key::Octets => numbers("octets", 1, 16_777_216, 16_777_216),
            // At least two, since a write may begin in the middle of a block and has to fit behind it.
            Key::Blocks => numbers("blocks", 2, 256, 16),
            Key::Mode => words("mode", &["hold", "drop"]),
            Key::Gap => numbers("gap", 1, 1_000_000, 1000),
            Key::Grtt => numbers("grtt", 1, 10_000_000, 10_000),
            // RFC 5740 section 4.2.1: 8 bits of GRTT, 4 of the group's size and 4 of the back-off factor.
            Key::GrttCode => numbers("grtt_code", 0, 255, 64),
            Key::GsizeCode => numbers("gsize_code", 0, 15, 1),
            Key::K => numbers("k", 0, 15, 4),
            Key::Step => numbers("step", 0, 1_000_000, 1000),
            Key::Turns => numbers("turns", 1, 4_000_000, 1_000_000),
            Key::Fabric => words("fabric", &["direct", "chance", "udp"]),
            Key::Chance => numbers("chance", 0, 4_294_967_295, 0),
            Key::Loss => numbers("loss", 0, 900, 0),
            Key::Repeat => numbers("repeat", 0, 900, 0),
            Key::Late => numbers("late", 0, 64, 0),
            // From the first port that needs no privilege, and up to one behind which all members still have a port.
            Key::Port => numbers("port", 1024, 65_000, 40_000),
        }
    }

    /// Returns the key with this name, octet for octet. Compares with one name after the other.
    pub fn named(name: &[u8]) -> Option<Key>
        ensures { result ≡ key_named name.now keys }
    {
        first_named(&KEYS, name)
    }

    /// Returns the value that a word stands for. `None` if this key has no such word, as each key whose values are numbers.
    pub fn value_of(self, word: &[u8]) -> Option<u32>
        ensures { result ≡ place_of_word word.now (row_of self).words }
    {
        place_of(self.row().words, word)
    }
}

fn first_named(keys: &[Key], name: &[u8]) -> Option<Key>
    ensures { result ≡ key_named name.now keys.now }
{
    for key in keys {
        if key.row().name.as_bytes() == name {
            return Some(*key);
        }
    }
    None
}

fn place_of(words: &[&str], word: &[u8]) -> Option<u32>
    requires { length words.now ≤ 3 }
    ensures { result ≡ place_of_word word.now (map (λ w. w.now) words.now) }
{
    for (place, known) in words.iter().enumerate() {
        if known.as_bytes() == word {
            return Some(place as u32);
        }
    }
    None
}

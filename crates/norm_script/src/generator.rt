//! Writes a script to try a session with. `normd generate` calls [`generate`].

ghost use Rattle.std.specs.Prelude.{◌≡◌, ◌+◌, ◌-◌, ◌/◌, ◌%◌, ◌<◌, ◌≤◌, ◌∷◌, [], ◌++◌, codes, decimal, length, map, is_err, IfOk, OnOk, OnErr, slice_index_or};
ghost use Rattle.std.specs.List.{range_with_len};
ghost use Rattle.hex.specs.Hex.{encode_lower};
ghost use Rattle.norm_base.specs.Faults.{Counts};
ghost use Rattle.norm_base.specs.Told.{gained, written_of};
ghost use Rattle.norm_script.specs.Generated.{generated_settings, generated_octets, setting_piece, command_piece, generated_pieces, generate_text, StopsWithin};

use arrayvec::ArrayVec;
use itoa::Buffer;
use norm_base::{Failed, Sink};

/// How many lines set keys. They come first.
// As many as `setting_row` makes.
const SETTINGS: u32 = 11;

/// The number of all lines: `SETTINGS`, and 100 commands for each of three producers.
const ROWS: u32 = 311;

/// A line with its line feed, of at most 1,024 octets.
// A line has at most 500 octets, as two digits each, and eight more. On the stack, so that writing a script takes no memory.
type Row = ArrayVec<u8, 1024>;

fn put(row: &mut Row, octets: &[u8])
    requires { length row.old.items + length octets.now ≤ 1024 }
    ensures { row.new.items ≡ row.old.items ++ octets.now }
{
    // It does not fail: no line is longer than its room.
    row.try_extend_from_slice(octets).unwrap()
}

fn number_row(key: &[u8], value: u32) -> Row
    requires { length key.now ≤ 10 }
    ensures { result.items ≡ codes "set " ++ (key.now ++ 32 ∷ decimal value) ++ 10 ∷ [] }
{
    let mut buffer = Buffer::new();
    let mut row = Row::new();
    put(&mut row, b"set ");
    put(&mut row, key);
    put(&mut row, b" ");
    put(&mut row, buffer.format(value).as_bytes());
    put(&mut row, b"\n");
    row
}

/// Line `k` of those that set keys, from 0. Only that of `chance` depends on `n`.
fn setting_row(n: u32, k: u32) -> Row
    requires { k < 11 }
    ensures { result.items ≡ slice_index_or (map setting_piece (generated_settings n)) k [] }
{
    match k {
        0 => number_row(b"instance", 7),
        1 => number_row(b"receivers", 16),
        2 => number_row(b"producers", 3),
        3 => number_row(b"e", 64),
        4 => number_row(b"b", 4),
        5 => number_row(b"turns", 4_000_000),
        6 => {
            let mut row = Row::new();
            put(&mut row, b"set fabric chance\n");
            row
        }
        7 => number_row(b"chance", n),
        8 => number_row(b"loss", 100),
        9 => number_row(b"repeat", 50),
        10 => number_row(b"late", 3),
        // Ruled out by the clause: `row_at` asks for the first eleven alone.
        _ => unreachable!(),
    }
}

/// The two digits are in lower case.
fn put_octet(row: &mut Row, octet: u8)
    requires { length row.old.items ≤ 1022 }
    ensures { row.new.items ≡ row.old.items ++ encode_lower (octet ∷ []) }
{
    let mut digits = [0u8; 2];
    let octets = [octet];
    // It does not fail: two digits have room for one octet.
    hex::encode_to_slice(octets.as_slice(), digits.as_mut_slice()).unwrap();
    put(row, digits.as_slice());
}

/// Appends the octets of command `i` of producer `p`, 1 to 500 of them, as hexadecimal digits.
fn put_octets(row: &mut Row, n: u32, p: u32, i: u32)
    requires p { p ≤ 3 }
    requires i { i < 100 }
    requires room { length row.old.items ≤ 16 }
    ensures { row.new.items ≡ row.old.items ++ encode_lower (generated_octets n p i) }
{
    let first = u64::from(n) + u64::from(p) + u64::from(i);
    let count = 1 + (u64::from(n) + 37 * u64::from(p) + 101 * u64::from(i)) % 500;
    for j in 0..count {
        put_octet(row, ((first + j) % 256) as u8);
    }
}

/// The line of command `k` of all, from 0. Every tenth command of a producer is a `mark`; the others are `data`.
fn command_row(n: u32, k: u32) -> Row
    requires { k < 300 }
    ensures { result.items ≡ command_piece n k }
{
    let p = k / 100 + 1;
    let i = k % 100;
    let mut row = Row::new();
    put(&mut row, &[b'0' + p as u8]);
    if i % 10 == 9 {
        put(&mut row, b" mark\n");
        return row;
    }
    put(&mut row, b" data ");
    put_octets(&mut row, n, p, i);
    put(&mut row, b"\n");
    row
}

/// Line `k` of the script, from 0: the settings, and then the commands of one producer after the other.
fn row_at(n: u32, k: u32) -> Row
    requires { k < 311 }
    ensures { result.items ≡ slice_index_or (generated_pieces n) k [] }
{
    if k < SETTINGS {
        return setting_row(n, k);
    }
    command_row(n, k - SETTINGS)
}

/// Writes the script of this number, one line with each write: three producers send 90 objects each to 16 receivers, over a network that loses, on
/// average, one copy of a datagram in ten, repeats some and delays some. Allocates no memory.
///
/// # Errors
///
/// `Failed` if a write fails. Nothing is written after it.
pub fn generate<K: Sink>(n: u32, output: &mut K) -> Result<(), Failed>
    ensures ok { OnOk result (K.pieces output.new ≡ gained (K.pieces output.old) (generated_pieces n)) }
    ensures text { OnOk result (written_of (K.pieces output.new) ≡ gained (written_of (K.pieces output.old)) (generate_text n)) }
    ensures err { OnErr result (StopsWithin (generated_pieces n) (K.pieces output.old) (K.pieces output.new)) }
    ensures cause { Counts (K.fault_count output.old) (K.fault_count output.new) (is_err result) }
{
    for k in 0..ROWS {
        output.write(row_at(n, k).as_slice())?;
    }
    Ok(())
}

//! Decoding a block in its symbol buffers. First each source symbol that came is moved to its own one.

ghost use Rattle.std.specs.Prelude.{ℕ, ◌≡◌, ◌<◌, ◌≤◌, length};
ghost use Rattle.std.specs.List.{AllByRecursion};
ghost use Rattle.gf_field.specs.Element.{AreElements};
ghost use Rattle.gf_field.specs.Symbol.{AreIds, AreSymbols, solved_sources};
ghost use Rattle.rx_stream.specs.SameBlock.{SameBlock};

use rs_block::{Row, Solver};

/// Moves the symbol in symbol buffer `from` to its own one if it is a source symbol, and the symbol that is there to `from`.
// Proof: each symbol still lies in some buffer with its id, so the codeword is the same. It is said for all k and sizes, so the loop takes
// none.
fn move_home(ids: &mut [u8], rows: &mut [Row], from: usize)
    requires within { from < length ids.old }
    requires count { length rows.old ≡ length ids.old }
    ensures { (k size : ℕ) → k ≤ 255 → AreIds k 255 ids.old → AreSymbols k size rows.old
        → SameBlock k size ids.old rows.old ids.new rows.new }
{
    let place = usize::from(ids[from]);
    if place >= ids.len() {
        return;
    }
    ids.swap(from, place);
    rows.swap(from, place);
}

/// Moves each source symbol to its own symbol buffer, if the ids rise. Begins at the last one, so that none is moved away again.
fn move_all_home(ids: &mut [u8], rows: &mut [Row])
    requires { length rows.old ≡ length ids.old }
    ensures { (k size : ℕ) → k ≤ 255 → AreIds k 255 ids.old → AreSymbols k size rows.old
        → SameBlock k size ids.old rows.old ids.new rows.new }
{
    let count = ids.len();
    for behind in 0..count {
        move_home(ids, rows, count - 1 - behind);
    }
}

/// Replaces the k symbols of a block, which have these ids, by its source symbols, in order. It takes no memory. If the ids rise, it
/// computes only those source symbols that did not come.
pub fn solve(solver: &mut Solver, ids: &[u8], rows: &mut [Row])
    requires some { 1 ≤ solver.old.k }
    requires few { solver.old.k ≤ 255 }
    requires ids { AreIds solver.old.k 255 ids.now }
    requires rows { AreSymbols solver.old.k solver.old.size rows.old }
    ensures rows { rows.new ≡ solved_sources solver.old.size ids.now rows.old }
    ensures elements { AllByRecursion AreElements rows.new }
    ensures same { solver.new ≡ solver.old }
{
    // The block's own list of ids stays as it is: it says which symbols came. On the stack, so that it takes no memory.
    let mut room = [0; 255];
    let moved = &mut room[..ids.len()];
    moved.copy_from_slice(ids);
    move_all_home(moved, rows);
    solver.solve_rows(moved, rows);
}

//! The lines of a script that were not pulled yet.

ghost use Rattle.std.specs.Prelude.{◌≡◌, ◌==◌, ◌<◌, IfOk, IfSome, MatchBool, length};
ghost use Rattle.norm_session.specs.Left.{IsFirstOf, IsTaken, is_of, lines_at};

use norm_base::Memory;
use norm_script::Line;
use std::alloc::Global;
use std::marker::Model;

/// The indices of the lines that were not pulled yet, in the script's order.
// Indices and not a next number for each producer, so that the order of the script is the order of the list. A line is taken once; if it
// stayed here, it would be pulled again.
#[derive(Drop)]
pub(crate) struct Left {
    places: Vec<usize>,
}

impl Model for Left {
    ghost use Rattle.std.specs.Prelude.{ℕ, List};

    ghost Value = { List ℕ };

    ghost view = { λ left. left.places.items };
}

/// Whether the line with this index is one of this producer. False if the script has no such line.
fn is_of(lines: &[Line], producer: u32, place: usize) -> bool
    ensures { result ≡ is_of lines.now producer place }
{
    match lines.get(place) {
        Some(line) => line.producer == producer,
        None => false,
    }
}

impl Left {
    /// All lines of a script. `Memory` if memory runs out.
    pub(crate) fn all(alloc: Global, lines: &[Line]) -> Result<Left, Memory>
        ensures { IfOk result (λ left. lines_at lines.now left ≡ lines.now) }
    {
        let mut places = Vec::new(alloc);
        for place in 0..lines.len() {
            places.push(place)?;
        }
        Ok(Left { places })
    }

    pub(crate) fn is_empty(&self, lines: &[Line]) -> bool
        ensures { result ≡ (length (lines_at lines.now self.now) == 0) }
    {
        // Proof: the script has each of the places, so the first one decides.
        for at in 0..self.places.len() {
            if self.places[at] < lines.len() {
                return false;
            }
        }
        true
    }

    /// Returns how many indices stand before that of the producer's first line, or `None` if this producer has no line left.
    fn first_of(&self, lines: &[Line], producer: u32) -> Option<usize>
        ensures first { IfSome result (λ at. IsFirstOf lines.now self.now producer at) }
        ensures within { IfSome result (λ at. at < length self.now) }
    {
        for at in 0..self.places.len() {
            if is_of(lines, producer, self.places[at]) {
                return Some(at);
            }
        }
        None
    }

    /// Removes the line with this index if it is the next one of this producer. Returns whether it was.
    pub(crate) fn take(&mut self, lines: &[Line], producer: u32, place: usize) -> bool
        ensures { MatchBool result (IsTaken lines.now self.old self.new producer place) (self.new ≡ self.old) }
    {
        let Some(at) = self.first_of(lines, producer) else {
            return false;
        };
        if self.places[at] != place {
            return false;
        }
        self.places.remove(at);
        true
    }
}

//! Cuts a text into lines. The readers call [`first_line`] for each line that they take.

ghost use Rattle.std.specs.Prelude.{◌≡◌, ◌≤◌, ◌<◌, ◌∷◌, length};
ghost use Rattle.norm_script.specs.Text.{text_lines};

use crate::words::split_at_first;

/// Returns the first line of a text without its line feed, and what follows it. The last line may lack the line feed.
// Proof: the definition goes octet by octet, and the code cuts at the first line feed. text_lines-some and text_whole join them.
pub(crate) fn first_line(text: &[u8]) -> (&[u8], &[u8])
    requires { 1 ≤ length text.now }
    ensures lines { text_lines text.now ≡ result.0.now ∷ text_lines result.1.now }
    ensures less { length result.1.now < length text.now }
{
    match split_at_first(text, b'\n') {
        Some(parts) => parts,
        None => text.split_at(text.len()),
    }
}

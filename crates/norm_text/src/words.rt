//! Words that several printed lines share. `norm_journal` and `replay` print them.

ghost use Rattle.std.specs.Prelude.{◌≡◌};
ghost use Rattle.norm_text.specs.Words.{kind_word};

use norm_base::Kind;

/// Returns `data` or `file`, as the lines of events spell an object's kind.
pub fn kind_word(kind: Kind) -> &'static str
    ensures { result.now ≡ kind_word kind }
{
    match kind {
        Kind::Data => "data",
        Kind::File => "file",
    }
}

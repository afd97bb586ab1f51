//! A law of books and the states that they stand for. It is the contract of a function that does nothing.

ghost use Rattle.mark_book.specs.Laws.{EachBookStands};

/// Each book stands for some state of a sender. Without this, the contracts of its calls might promise nothing.
#[tactic(auto, using(crate::proofs::SomeState::each_book_stands))]
pub fn each_book_stands()
    ensures { EachBookStands }
{}

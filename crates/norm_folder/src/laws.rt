//! Laws of folders that were sent. Each law is the contract of a function that does nothing.

ghost use Rattle.norm_folder.specs.Laws.{ChangesAreRefused, CopiesMirror, NoneIsUnlike};

/// No check refuses over an honest network, if the files tell what they hold, the session was whole, and nothing was refused or expired.
pub fn none_is_unlike()
    ensures { NoneIsUnlike }
{}

/// Then the copies are the folder: each receiver's copy of each file has what the file has, and every other file what it had.
pub fn copies_mirror()
    ensures { CopiesMirror }
{}

/// A file that was sent with another length or digest than its line of the manifest is refused by the check of each receiver that hands it up, over
/// an honest network.
pub fn changes_are_refused()
    ensures { ChangesAreRefused }
{}

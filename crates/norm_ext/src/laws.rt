//! What is proved of the grammar and of object ids. Each law is the contract of an empty function.

ghost use Rattle.norm_ext.specs.Laws.{LentExtensions, LentRequests, ReadIsSpelled, SpelledIsRead, SpellsOne, ReadAgain, RefusedIsFirst, FirstIsRefused, SpelledIsNotRefused, AskedIsRead, OneMoreTakes, NamesNearest, NamedAgain};

/// If octets are read as a message, they spell it.
pub fn read_is_spelled()
    ensures { ReadIsSpelled }
{}

/// If octets spell a message, they are read as it. With `read_is_spelled`: they are read as a message if and only if they spell it.
pub fn spelled_is_read()
    ensures { SpelledIsRead }
{}

/// Octets spell at most one message.
pub fn spells_one()
    ensures { SpellsOne }
{}

/// If the fields of a message fit, its octets are read as this message.
pub fn read_again()
    ensures { ReadAgain }
{}

/// If octets are refused, the refusal applies to them, and none before it does.
pub fn refused_is_first()
    ensures { RefusedIsFirst }
{}

/// The first refusal that applies is reported. With `refused_is_first`: octets are refused with a refusal if and only if it is the first that
/// applies.
pub fn first_is_refused()
    ensures { FirstIsRefused }
{}

/// No refusal applies to octets that spell a message. So octets spell a message if and only if no refusal applies.
pub fn spelled_is_not_refused()
    ensures { SpelledIsNotRefused }
{}

/// The extensions that a message lends stand for their list: the octets are those of one list that can be spelled, and each such list is read of
/// its octets.
pub fn lent_extensions()
    ensures { LentExtensions }
{}

/// The same of repair requests.
pub fn lent_requests()
    ensures { LentRequests }
{}

/// If the items fit their widths, what a `RequestWriter` writes of them is a list of whole requests, and it is read as the requests that the
/// items make.
pub fn asked_is_read()
    ensures { AskedIsRead }
{}

/// How many octets one more item or range adds to a list: `octets_behind`, which depends on the last one before it.
pub fn one_more_takes()
    ensures { OneMoreTakes }
{}

/// An id names an index if and only if the index has this id, an object can have it, and it lies at most 32,768 below or 32,767 above what is
/// known.
pub fn names_nearest()
    ensures { NamesNearest }
{}

/// If an object can have an index, and the index lies within 32,767 of what is known, the id of the index names it.
pub fn named_again()
    ensures { NamedAgain }
{}

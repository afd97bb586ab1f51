//! What a journal says of a folder that was not received whole.

ghost use Rattle.std.specs.Prelude.{◌≡◌, ◌<◌, None, Some, Ok, Err, length, slice_get, IfOk, if◌then◌else◌};
ghost use Rattle.std.specs.Option.{option_map};
ghost use Rattle.norm_journal.specs.declared.event.Event.TheVariants as event;
ghost use Rattle.norm_mirror.specs.declared.outcome.Unaccepted.TheVariants.{Manifest};
ghost use Rattle.norm_send_rules.specs.Waiting.{may_wait};
ghost use Rattle.norm_folder.specs.Asking.{file_named, first_by, unaccepted_by, unsatisfied_by};

use norm_base::Memory;
use norm_mirror::{Unaccepted, Unsatisfied};
use norm_record::{Journal, Seen};
use norm_script::file_name_of;
use norm_send_rules::{News, Outcome, Receipt, SendFault};
use std::alloc::Global;

/// A file of a folder. `None` if no folder has this name.
fn file_named(alloc: Global, name: &[u8], len: u64) -> Result<Option<Unaccepted>, Memory>
    ensures { IfOk result (λ found. found ≡ file_named name.now len) }
{
    match file_name_of(alloc, name)? {
        Some(name) => Ok(Some(Unaccepted::File { name, len })),
        None => Ok(None),
    }
}

/// What the sender refused for good. If it is no file it is the manifest, since a mark is refused only after that.
fn refused_job(gave: &Result<Receipt, SendFault>) -> Option<Unaccepted>
    ensures { result ≡ (elim gave.now [ Ok r ↦ None | Err fault ↦ if may_wait fault then None else Some Manifest ]) }
{
    match gave {
        Ok(_) => None,
        Err(fault) => {
            if fault.may_wait() {
                return None;
            }
            Some(Unaccepted::Manifest)
        }
    }
}

/// A file whose length was refused for good.
fn refused_file(
    alloc: Global,
    name: &[u8],
    len: u64,
    fault: &SendFault,
) -> Result<Option<Unaccepted>, Memory>
    ensures { IfOk result (λ found. found ≡ (if may_wait fault.now then None else file_named name.now len)) }
{
    if fault.may_wait() {
        return Ok(None);
    }
    file_named(alloc, name, len)
}

/// What event `i` refused for good.
// Proof: it takes the journal, since the check does not cover a loop that holds an event.
fn unaccepted_at(alloc: Global, journal: &Journal, i: usize) -> Result<Option<Unaccepted>, Memory>
    requires { i < length journal.now }
    ensures { IfOk result (λ found. option_map unaccepted_by (slice_get journal.now i) ≡ Some found) }
{
    match journal.event(i) {
        Seen::Job { gave, .. } => Ok(refused_job(gave)),
        Seen::Length {
            name,
            len,
            fault,
            ..
        } => refused_file(alloc, name, len, fault),
        _ => Ok(None),
    }
}

/// The watermark that a report gave up.
fn given_up(news: &News) -> Option<Unsatisfied>
    ensures { result ≡ unsatisfied_by (event.News news.now) }
{
    match news {
        News::Done {
            mark,
            outcome: Outcome::Expired { left },
        } => Some(Unsatisfied {
            mark: *mark,
            left: *left,
        }),
        _ => None,
    }
}

/// The watermark that event `i` gave up.
fn unsatisfied_at(journal: &Journal, i: usize) -> Option<Unsatisfied>
    requires { i < length journal.now }
    ensures { option_map unsatisfied_by (slice_get journal.now i) ≡ Some result }
{
    match journal.event(i) {
        Seen::News(news) => given_up(news),
        _ => None,
    }
}

/// Returns what was refused for good first, by a journal. `None` if nothing was.
///
/// # Errors
///
/// `Memory` if memory runs out.
pub fn first_unaccepted(alloc: Global, journal: &Journal) -> Result<Option<Unaccepted>, Memory>
    ensures { IfOk result (λ found. found ≡ first_by unaccepted_by journal.now) }
{
    for i in 0..journal.len() {
        if let Some(found) = unaccepted_at(alloc, journal, i)? {
            return Ok(Some(found));
        }
    }
    Ok(None)
}

/// Returns the watermark that expired first, by a journal. `None` if none did.
pub fn first_unsatisfied(journal: &Journal) -> Option<Unsatisfied>
    ensures { result ≡ first_by unsatisfied_by journal.now }
{
    for i in 0..journal.len() {
        if let Some(found) = unsatisfied_at(journal, i) {
            return Some(found);
        }
    }
    None
}

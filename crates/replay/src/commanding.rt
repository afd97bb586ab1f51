//! Reads the commands of a sender from the words of an event. `sending` calls [`job_of`].

use norm_base::{InstanceId, Octets};
use norm_send_rules::Job;
use row_words::{Fault, Words};
use std::alloc::Global;

/// Reads data and, if there is one more word, its info.
fn data(alloc: Global, words: &mut Words<'_>) -> Result<Option<Job>, Fault> {
    let Some(bytes) = words.octets(alloc)? else {
        return Ok(None);
    };
    let Some(word) = words.word() else {
        return Ok(Some(Job::Data { info: None, bytes }));
    };
    match Words::of(word).octets(alloc)? {
        Some(info) => Ok(Some(Job::Data {
            info: Some(info),
            bytes,
        })),
        None => Ok(None),
    }
}

/// Reads a file: its name and its octets, both in hexadecimal.
fn file(alloc: Global, words: &mut Words<'_>) -> Result<Option<Job>, Fault> {
    let Some(name) = words.octets(alloc)? else {
        return Ok(None);
    };
    let Some(bytes) = words.octets(alloc)? else {
        return Ok(None);
    };
    Ok(Some(Job::File { name, bytes }))
}

/// Makes the command that writes these octets to the open stream. `None` if the words had none.
fn write(bytes: Option<Octets>) -> Option<Job> {
    Some(Job::Write { bytes: bytes? })
}

/// Reads a mark. Its quorum is a number of members, or all members if there is no word for it.
fn mark(words: &mut Words<'_>) -> Option<Job> {
    let Some(word) = words.word() else {
        return Some(Job::Mark { quorum: None });
    };
    Some(Job::Mark {
        quorum: Some(word.parse::<u32>().ok()?),
    })
}

/// Reads the instance that a restart begins. `None` if the next word is no number below 65,536.
fn restart(words: &mut Words<'_>) -> Option<Job> {
    Some(Job::Restart {
        instance: InstanceId(words.number16()?),
    })
}

/// `None` if the next word is no node's id.
fn strike(words: &mut Words<'_>) -> Option<Job> {
    Some(Job::Strike {
        node: words.node()?,
    })
}

/// Returns the command that the words spell, or `None` if they spell none. Does not look whether words are left: `node` does.
///
/// # Errors
///
/// `Memory` if the octets of the command do not fit.
pub(crate) fn job_of(alloc: Global, words: &mut Words<'_>) -> Result<Option<Job>, Fault> {
    let Some(verb) = words.word() else {
        return Ok(None);
    };
    match verb {
        "data" => data(alloc, words),
        "file" => file(alloc, words),
        "open" => Ok(Some(Job::Open)),
        "write" => Ok(write(words.octets(alloc)?)),
        "close" => Ok(Some(Job::Close)),
        "mark" => Ok(mark(words)),
        "restart" => Ok(restart(words)),
        "strike" => Ok(strike(words)),
        _ => Ok(None),
    }
}

//! Calls objects of the outside and returns their answers as text, for `host` to compare. The calls go through the traits, so that no
//! contract of one object has to be proved here.

use norm_base::{Clock, Failed, FileFault, Files, Moment, Sink, Source};
use std::alloc::{AllocError, Global};

/// Returns the digit of a number, or `9` if it is above 9.
fn digit(n: u64) -> u8 {
    b'0'.wrapping_add(u8::try_from(n.min(9)).unwrap_or(9))
}

/// Reads `times` times into the same three octets. Returns for each read its count and the whole buffer, or `!` if it failed.
/// The last digit is how many failed.
pub(crate) fn reads<S: Source>(
    alloc: Global,
    source: &mut S,
    times: u32,
) -> Result<Vec<u8>, AllocError> {
    let mut all = Vec::new(alloc);
    let mut buf = [b'.'; 3];
    for _ in 0..times {
        match source.read(&mut buf) {
            Ok(n) => {
                all.push(digit(n as u64))?;
                all.extend_from_slice(&buf)?;
            }
            Err(Failed) => all.push(b'!')?,
        }
    }
    all.push(digit(source.faults()))?;
    Ok(all)
}

/// Writes these octets one by one. Returns `.` for each, or `!` if the write failed. The last digit is how many failed.
pub(crate) fn writes<K: Sink>(
    alloc: Global,
    sink: &mut K,
    octets: &[u8],
) -> Result<Vec<u8>, AllocError> {
    let mut all = Vec::new(alloc);
    for octet in octets {
        let answer = match sink.write(&[*octet]) {
            Ok(()) => b'.',
            Err(Failed) => b'!',
        };
        all.push(answer)?;
    }
    all.push(digit(sink.faults()))?;
    Ok(all)
}

/// A call of files, except a read: the length of a name, or new contents for it.
#[derive(Clone, Copy)]
pub(crate) enum Call {
    Length(&'static str),
    Put(&'static str, &'static [u8]),
}

/// Returns the answer of a call: a length, `.` for a put, `-` if the name is absent, or `!` if the call failed.
fn answer<D: Files>(files: &mut D, call: Call) -> u8 {
    match call {
        Call::Length(name) => match files.length(name) {
            Ok(n) => digit(n),
            Err(FileFault::Absent) => b'-',
            Err(FileFault::Failed) => b'!',
        },
        Call::Put(name, octets) => match files.put(name, octets) {
            Ok(()) => b'.',
            Err(Failed) => b'!',
        },
    }
}

/// Makes these calls and returns their answers. The last digit is how many failed.
pub(crate) fn answers<D: Files>(
    alloc: Global,
    files: &mut D,
    calls: &[Call],
) -> Result<Vec<u8>, AllocError> {
    let mut all = Vec::new(alloc);
    for call in calls {
        all.push(answer(files, *call))?;
    }
    all.push(digit(files.faults()))?;
    Ok(all)
}

/// Returns the next `times` moments of a clock.
pub(crate) fn moments<C: Clock>(
    alloc: Global,
    clock: &mut C,
    times: u32,
) -> Result<Vec<u64>, AllocError> {
    let mut all = Vec::new(alloc);
    for _ in 0..times {
        let Moment(moment) = clock.now();
        all.push(moment)?;
    }
    Ok(all)
}

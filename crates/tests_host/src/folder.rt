//! Tests `FolderFiles` with files that others change between two calls, and with the largest file.

use norm_base::{FileFault, Files};
use norm_host::FolderFiles;
use std::alloc::Global;
use std::fs;
use std::test::Fail;

/// The name of the file in each test's folder.
const NAME: &str = "a.txt";

/// The most octets of a read.
const PIECE: usize = 65_536;

/// The most reads of a file: the largest takes 256 if none is cut short.
const MOST_READS: u32 = 4_096;

/// The octets of the largest object.
const LARGEST: usize = 16_777_216;

/// The contents of a file, one after the other. Two have the same length, so that a change cannot be seen by the length alone.
const CONTENTS: [&[u8]; 4] = [b"first", b"other", b"a longer one", b"end"];

/// How often the length of a changed file is asked for. The files answer fewer questions than this from memory.
const QUESTIONS: u32 = 70;

/// Reads the file and appends its octets, until there are `length` of them.
fn add_octets<F: fs::Files + Drop>(
    files: &mut FolderFiles<F>,
    length: u64,
    piece: &mut [u8],
    all: &mut Vec<u8>,
) -> Result<(), Fail> {
    for _ in 0..MOST_READS {
        let at = all.len() as u64;
        if at >= length || piece.is_empty() {
            break;
        }
        let n = files.read_at(NAME, at, piece)?;
        all.extend_from_slice(piece.split_at(n).0)?;
    }
    Ok(())
}

/// Returns the octets of the file, as many as `length` reports.
fn whole<F: fs::Files + Drop>(alloc: Global, files: &mut FolderFiles<F>) -> Result<Vec<u8>, Fail> {
    let length = files.length(NAME)?;
    let mut piece = vec![in alloc; 0u8; PIECE]?;
    let mut all = Vec::new(alloc);
    add_octets(files, length, &mut piece, &mut all)?;
    Ok(all)
}

/// Fails unless the file has these contents.
fn compare<F: fs::Files + Drop>(
    alloc: Global,
    files: &mut FolderFiles<F>,
    wanted: &[u8],
) -> Result<(), Fail> {
    let all = whole(alloc, files)?;
    if all.as_slice() == wanted {
        return Ok(());
    }
    Err(Fail::new(all.len()))
}

/// Makes an empty folder and returns its files.
fn new_folder<F: fs::Files + Alloc + Copy + Drop>(
    alloc: Global,
    rt: F,
    folder: &str,
) -> Result<FolderFiles<F>, Fail> {
    let _ = fs::remove_dir_all(&rt, folder);
    fs::create_dir(&rt, folder)?;
    Ok(FolderFiles::of(alloc, rt, folder)?)
}

/// Fails unless each new version of a file is read whole. The test rewrites the file between the reads.
fn compare_rewritten<F: fs::Files + Alloc + Copy + Drop>(
    alloc: Global,
    rt: F,
    folder: &str,
    path: &str,
) -> Result<(), Fail> {
    let mut files = new_folder(alloc, rt, folder)?;
    for contents in CONTENTS {
        fs::write(&rt, path, contents)?;
        compare(alloc, &mut files, contents)?;
    }
    fs::remove_dir_all(&rt, folder)?;
    Ok(())
}

/// Asks `QUESTIONS` times for the file's length, and returns the last answer.
fn last_length<D: Files>(files: &mut D) -> Result<u64, FileFault> {
    let mut length = 0;
    for _ in 0..QUESTIONS {
        length = files.length(NAME)?;
    }
    Ok(length)
}

/// Fails unless the last answer to how long a rewritten file is, is its new length.
fn compare_grown<F: fs::Files + Alloc + Copy + Drop>(
    alloc: Global,
    rt: F,
    folder: &str,
    path: &str,
) -> Result<(), Fail> {
    let mut files = new_folder(alloc, rt, folder)?;
    for contents in CONTENTS {
        fs::write(&rt, path, contents)?;
        let length = last_length(&mut files)?;
        if length != contents.len() as u64 {
            return Err(Fail::new(length));
        }
    }
    fs::remove_dir_all(&rt, folder)?;
    Ok(())
}

/// Returns the octets of the largest file. Each piece that is read ends with an octet other than that of the piece before it.
fn largest(alloc: Global) -> Result<Vec<u8>, Fail> {
    let mut piece = vec![in alloc; b'x'; PIECE]?;
    let mut octets = Vec::with_capacity(alloc, LARGEST)?;
    for i in 0..LARGEST / PIECE {
        piece.truncate(PIECE - 1);
        piece.push((i % 256) as u8)?;
        octets.extend_from_slice(&piece)?;
    }
    Ok(octets)
}

/// Fails unless the largest file is read back as it was put.
fn compare_put<F: fs::Files + Alloc + Copy + Drop>(
    alloc: Global,
    rt: F,
    folder: &str,
) -> Result<(), Fail> {
    let mut files = new_folder(alloc, rt, folder)?;
    let octets = largest(alloc)?;
    files.put(NAME, &octets)?;
    compare(alloc, &mut files, &octets)?;
    fs::remove_dir_all(&rt, folder)?;
    Ok(())
}

#[test]
fn a_file_that_changes_is_read_anew(rt: HostRuntime) -> Result<(), Fail> {
    compare_rewritten(
        rt.alloc(),
        rt,
        "norm_host_changes",
        "norm_host_changes/a.txt",
    )
}

#[test]
fn the_length_of_a_file_that_grows_is_asked_anew(rt: HostRuntime) -> Result<(), Fail> {
    compare_grown(rt.alloc(), rt, "norm_host_grows", "norm_host_grows/a.txt")
}

#[test]
fn the_largest_file_is_put_whole(rt: HostRuntime) -> Result<(), Fail> {
    compare_put(rt.alloc(), rt, "norm_host_largest")
}

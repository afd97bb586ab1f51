//! The files of one folder, and of paths that a user gave: [`FolderFiles`].

ghost use Rattle.std.specs.Prelude.{◌≡◌, ◌↔◌, ◌+◌, ◌<◌, ◌≤◌, ◌++◌, [], ◌∷◌, None, Some, Ok, IsTrue, IsOk, IfSome, length, map, string_bytes, IfOk, IfErr, OnOk, OnErr, is_err, true, false};
ghost use Rattle.std.specs.Fs.{metadata_len, file_type, IsFile};
ghost use Rattle.std.specs.Io.Seek.{MovesTo};
ghost use Rattle.std.specs.IoError.{error_kind};
ghost use Rattle.std.specs.declared.io.ErrorKind.TheVariants.{NotFound, IsADirectory};
ghost use Rattle.std.specs.List.{list_all};
ghost use Rattle.norm_base.specs.Faults.{Counts, file_failed};
ghost use Rattle.norm_host.specs.FileNames.{is_name_octet, is_name_within, path_in, path_beside, path_read, is_told};
ghost use Rattle.norm_host.specs.Streams.{folder_of, told_to, is_stopped};

use crate::folder_cause::FolderCause;
use crate::instance_fault::InstanceFault;
use norm_base::{Cause, Failed, FileFault, Files, Memory};
use std::alloc::{AllocError, Global};
use std::fs::{self, Metadata};
use std::io::{self, ErrorKind, Read, Seek, SeekFrom};

/// Whether an octet is an ASCII letter or digit, `.`, `_` or `-`.
#[tactic(auto, unfolding(crate::specs::FileNames::is_name_octet))]
fn is_name_octet(octet: u8) -> bool
    ensures { result ≡ is_name_octet octet }
{
    matches!(octet, b'a'..=b'z' | b'A'..=b'Z' | b'0'..=b'9' | b'.' | b'_' | b'-')
}

/// Whether each octet may stand in the name of a file. True of an empty name.
fn has_name_octets(name: &[u8]) -> bool
    ensures { result ≡ list_all is_name_octet name.now }
{
    name.iter().all(|octet| is_name_octet(*octet))
}

/// The most octets of a name that is read.
// Our own choice: as many as a name in a script has, which is the info of its file.
const MOST_READ: usize = 64;

/// The most octets of a name that is put.
// `nNODE-` and a name that is read, for what node NODE handed up: NODE has at most ten digits.
const MOST_PUT: usize = 76;

/// Whether this is a name: 1 to `most` ASCII letters, digits, `.`, `_` or `-`, of which the first is no `.`.
fn is_name_within(most: usize, name: &[u8]) -> bool
    ensures { result ≡ is_name_within most name.now }
{
    // A name with a slash or a leading dot could lead out of the folder. A symbolic link in it is the user's own: a read follows it, and a
    // put that succeeds takes its place.
    if name.is_empty() || name.len() > most || name[0] == b'.' {
        return false;
    }
    has_name_octets(name)
}

/// Returns the folder, a `/` and the name.
fn path_in(alloc: Global, folder: &str, name: &str) -> Result<String, AllocError>
    ensures { IfOk result (λ path. string_bytes path ≡ path_in folder.now name.now) }
{
    let mut path = String::from_str(alloc, folder)?;
    path.push_str("/")?;
    path.push_str(name)?;
    Ok(path)
}

/// Returns the path at which a put writes first, `.NAME.part` beside the file. No name leads to it in the folder, since it begins with a `.`.
fn path_beside(alloc: Global, folder: &str, name: &str) -> Result<String, AllocError>
    ensures { IfOk result (λ path. string_bytes path ≡ path_beside folder.now name.now) }
{
    let mut path = String::from_str(alloc, folder)?;
    // Beside the file and not elsewhere, so that the rename stays within one file system and happens at once.
    path.push_str("/.")?;
    path.push_str(name)?;
    path.push_str(".part")?;
    Ok(path)
}

/// Whether a name is one of these paths, octet for octet: `./a` is not `a`.
fn is_one_of(paths: &[String], name: &str) -> bool
    ensures { result ≡ is_told (map string_bytes paths.now) name.now }
{
    for path in paths {
        if path.as_bytes() == name.as_bytes() {
            return true;
        }
    }
    false
}

/// Returns how many octets a plain file has. Any other fails as a folder does. Call it before the file is opened.
pub(crate) fn length_in(metadata: &Metadata) -> io::Result<u64>
    ensures file { IsOk result ↔ IsFile (file_type metadata.now) }
    ensures length { IfOk result (λ n. n ≡ metadata_len metadata.now) }
    ensures other { IfErr result (λ error. error_kind error ≡ IsADirectory) }
{
    if metadata.is_file() {
        return Ok(metadata.len());
    }
    // A device or a pipe has no length, and a read of it may never end.
    Err(io::Error::from(ErrorKind::IsADirectory))
}

fn seek_to<S: Seek>(file: &mut S, offset: u64) -> io::Result<()>
    ensures { MovesTo (S.stream_position file.old) (S.stream_position file.new) offset result }
{
    file.seek(SeekFrom::Start(offset))?;
    Ok(())
}

/// Returns `Absent` only if the error says that no file has that name.
fn fault_of(error: &io::Error) -> FileFault
    ensures { (result ≡ FileFault.Absent) ↔ (error_kind error.now ≡ NotFound) }
{
    if error.kind() == ErrorKind::NotFound {
        return FileFault::Absent;
    }
    FileFault::Failed
}

/// The most octets of a file that are read ahead.
// Our own choice, 256 KiB. Without this a file would be opened, measured and read anew for each symbol.
const AHEAD: usize = 262_144;

/// A read of at least this many octets goes straight into the caller's buffer.
// Our own choice: so large a read costs more by its copy than by its call, and what is read ahead of it would be read twice.
const STRAIGHT: usize = 65_536;

/// What the last read ahead found from an offset of a file on. No octets if the file had ended there.
#[derive(Drop)]
struct Ahead {
    name: String,
    offset: u64,
    octets: Vec<u8>,
}

impl Ahead {
    /// Copies octets from an offset of a file into `buf`, as many as were read ahead and have room. Returns how many. `None` if there are
    /// none, or those read ahead are of another file.
    fn give(&self, name: &str, offset: u64, buf: &mut [u8]) -> Option<usize>
        ensures { IfSome result (λ n. (0 < n) × (n ≤ length buf.old)) }
    {
        if self.name.as_bytes() != name.as_bytes() {
            return None;
        }
        let start = usize::try_from(offset.checked_sub(self.offset)?).ok()?;
        if start >= self.octets.len() {
            return None;
        }
        let there = self.octets.split_at(start).1;
        let n = there.len().min(buf.len());
        if n == 0 {
            return None;
        }
        buf.split_at_mut(n).0.copy_from_slice(there.split_at(n).0);
        Some(n)
    }
}

/// How often a file's length is answered from memory, before the system is asked again.
// Our own choice. While a file's command waits, each turn asks for its length, and a file that changes has its old one 64 times at most. If
// it is sent by that, one that grew is cut there, and one that shrank is a fault.
const AS_SAID: u32 = 64;

/// A file's length as the system said it, which may be answered `left` times more.
#[derive(Drop)]
struct Said {
    name: String,
    length: u64,
    left: u32,
}

impl Said {
    /// Returns the length once more. `None` if it is of another file, or `left` is 0.
    fn again(&mut self, name: &str) -> Option<u64>
        ensures length { IfSome result (λ n. n ≡ self.old.length) }
        ensures fewer { IfSome result (λ _. self.old.left ≡ self.new.left + 1) }
        ensures same { self.new.length ≡ self.old.length }
    {
        if self.left == 0 || self.name.as_bytes() != name.as_bytes() {
            return None;
        }
        self.left -= 1;
        Some(self.length)
    }
}

/// The files of one folder, and the paths that it was told ([`tell`](FolderFiles::tell)), each of which is measured and read as it stands.
/// A name is made of ASCII letters, digits, `.`, `_` and `-`, and does not begin with `.`. One that is read has 1 to 64 of them, and any other is
/// absent. A put does not heed the paths that were told: it fails if its name is not 1 to 76 of them, or if what has that name in the folder is no
/// plain file or cannot be measured. It writes a file beside that name and
/// renames it, so that the name does not lead to a part of it unless two put it at once. A read at the end of a file, and a length or a
/// read of what is no plain file, are faults. Contracts cannot rely on what the files hold.
///
/// A read keeps up to 262,144 octets of the file for the next reads. If the length of a file that is there is asked for again and again,
/// with no other call between, the system is asked once in 65 times.
#[derive(Drop)]
pub struct FolderFiles<F> {
    files: F,
    alloc: Global,
    folder: String,
    told: Vec<String>,
    ahead: Option<Ahead>,
    said: Option<Said>,
    stopped: Option<InstanceFault>,
    faults: u64,
    cause: Option<FolderCause>,
}

impl<F: fs::Files + Drop> FolderFiles<F> {
    /// Returns the files of this folder, which need not be there yet.
    ///
    /// # Errors
    ///
    /// `Memory` if memory runs out.
    pub fn of(alloc: Global, files: F, folder: &str) -> Result<FolderFiles<F>, Memory>
        ensures folder { IfOk result (λ made. folder_of made ≡ folder.now) }
        ensures told { IfOk result (λ made. told_to made ≡ []) }
        ensures goes { IfOk result (λ made. is_stopped made ≡ false) }
    {
        Ok(FolderFiles {
            files,
            alloc,
            folder: String::from_str(alloc, folder)?,
            told: Vec::new(alloc),
            ahead: None,
            said: None,
            stopped: None,
            faults: 0,
            cause: None,
        })
    }

    /// Adds a path that is measured and read as it stands, a relative one from the folder in which the process runs.
    ///
    /// # Errors
    ///
    /// `Memory` if memory runs out.
    // The program reads files by name, and a path as the shell gives it may be no name of a file here. So `main` of `normd` calls this
    // before it runs the program.
    pub fn tell(&mut self, path: &str) -> Result<(), Memory>
        ensures told { OnOk result (told_to self.new ≡ told_to self.old ++ path.now ∷ []) }
        ensures kept { OnErr result (told_to self.new ≡ told_to self.old) }
        ensures folder { folder_of self.new ≡ folder_of self.old }
        ensures stopped { is_stopped self.new ≡ is_stopped self.old }
    {
        let path = String::from_str(self.alloc, path)?;
        self.told.push(path)?;
        Ok(())
    }

    /// Has the next read, put or length fail, and only that one, because no instance could be drawn for a send. A send first loads its
    /// profile, so nothing is sent.
    pub fn stop(&mut self, fault: InstanceFault)
        ensures stopped { is_stopped self.new ≡ true }
        ensures told { told_to self.new ≡ told_to self.old }
        ensures folder { folder_of self.new ≡ folder_of self.old }
        ensures uncounted { ⟦<FolderFiles<F> as Files>⟧.fault_count self.new ≡ ⟦<FolderFiles<F> as Files>⟧.fault_count self.old }
    {
        // If the number cannot be kept, nothing is sent: the next send could draw it again, and its receivers would confirm what they do
        // not have. As a fault of files it ends the program by a way that is proved already.
        self.stopped = Some(fault);
    }

    /// Returns what the last failed call was about. `None` if none failed yet, or if there was no memory to keep it.
    pub fn cause(&self) -> Option<&FolderCause> {
        self.cause.as_ref()
    }

    /// Whether this call fails because of [`stop`](FolderFiles::stop). If so, counts it, and keeps that as its cause.
    fn fails(&mut self) -> bool
        ensures answer { result ≡ is_stopped self.old }
        ensures once { is_stopped self.new ≡ false }
        ensures counted { Counts self.old.faults self.new.faults result }
    {
        match self.stopped.take() {
            Some(fault) => {
                self.faults = self.faults.saturating_add(1);
                self.cause = Some(FolderCause::Instance(fault));
                true
            }
            None => false,
        }
    }

    /// Returns the path of a file in the folder, which need not be there, if its name has at most `most` octets. Any other error than `NotFound` is
    /// a lack of memory.
    fn path(&self, most: usize, name: &str) -> io::Result<String>
        ensures path { IfOk result (λ path. (string_bytes path ≡ path_in (string_bytes self.now.folder) name.now) × IsTrue (is_name_within most name.now)) }
        ensures absent { IfErr result (λ error. (error_kind error ≡ NotFound) ↔ (is_name_within most name.now ≡ false)) }
    {
        if !is_name_within(most, name.as_bytes()) {
            return Err(io::Error::from(ErrorKind::NotFound));
        }
        Ok(path_in(self.alloc, &self.folder, name)?)
    }

    fn is_told(&self, name: &str) -> bool
        ensures { result ≡ is_told (told_to self.now) name.now }
    {
        is_one_of(&self.told, name)
    }

    /// Returns the path at which a name is read: the name itself if it was told as a path, even if the folder has a file of this name, and
    /// else the path of the file in the folder.
    fn path_read(&self, name: &str) -> io::Result<String>
        ensures path { IfOk result (λ path. path_read (string_bytes self.now.folder) (told_to self.now) name.now ≡ Some (string_bytes path)) }
        ensures absent { IfErr result (λ error. (error_kind error ≡ NotFound) ↔ (path_read (string_bytes self.now.folder) (told_to self.now) name.now ≡ None)) }
    {
        if self.is_told(name) {
            return Ok(String::from_str(self.alloc, name)?);
        }
        self.path(MOST_READ, name)
    }

    /// Returns how many octets the plain file at this path has. Follows a symbolic link.
    fn plain_length(&self, path: &str) -> io::Result<u64> {
        length_in(&fs::metadata(&self.files, path)?)
    }

    fn length_of(&self, name: &str) -> io::Result<u64> {
        let path = self.path_read(name)?;
        self.plain_length(path.as_str())
    }

    fn said_again(&mut self, name: &str) -> Option<u64>
        ensures faults { self.new.faults ≡ self.old.faults }
        ensures stopped { self.new.stopped ≡ self.old.stopped }
    {
        match &mut self.said {
            Some(said) => said.again(name),
            None => None,
        }
    }

    /// Keeps what the system said of a file's length, in place of what it said before. Keeps neither if there is no memory for it.
    fn keep_said(&mut self, name: &str, length: u64)
        ensures faults { self.new.faults ≡ self.old.faults }
        ensures stopped { self.new.stopped ≡ self.old.stopped }
        ensures left { IfSome self.new.said (λ said. said.left ≡ 64) }
    {
        self.said = match String::from_str(self.alloc, name) {
            Ok(name) => Some(Said {
                name,
                length,
                left: AS_SAID,
            }),
            Err(_) => None,
        };
    }

    /// Drops what was read ahead, and returns its memory for what is read next.
    fn take_room(&mut self) -> Vec<u8>
        ensures faults { self.new.faults ≡ self.old.faults }
        ensures stopped { self.new.stopped ≡ self.old.stopped }
    {
        match self.ahead.take() {
            Some(ahead) => ahead.octets,
            None => Vec::new(self.alloc),
        }
    }

    /// Reads octets of a file ahead, from an offset on, into this memory. It reads once, so fewer than [`AHEAD`] octets may come before the
    /// end of the file. Fails if it is no plain file.
    fn ahead_of(&self, name: &str, offset: u64, room: Vec<u8>) -> io::Result<Ahead> {
        let path = self.path_read(name)?;
        self.plain_length(path.as_str())?;
        let mut file = fs::open(&self.files, path.as_str())?;
        seek_to(&mut file, offset)?;
        let mut octets = room;
        octets.resize(AHEAD, 0)?;
        let n = file.read(&mut octets)?;
        octets.truncate(n);
        let name = String::from_str(self.alloc, name)?;
        Ok(Ahead {
            name,
            offset,
            octets,
        })
    }

    fn give_ahead(&self, name: &str, offset: u64, buf: &mut [u8]) -> Option<usize>
        ensures { IfSome result (λ n. (0 < n) × (n ≤ length buf.old)) }
    {
        match &self.ahead {
            Some(ahead) => ahead.give(name, offset, buf),
            None => None,
        }
    }

    /// Reads at least one octet of a file, from an offset on, straight into `buf`. Fails with `UnexpectedEof` at the end of the file, and if it
    /// is no plain file.
    fn read_straight(&self, name: &str, offset: u64, buf: &mut [u8]) -> io::Result<usize>
        ensures count { IfOk result (λ n. (0 < n) × (n ≤ length buf.old)) }
    {
        let path = self.path_read(name)?;
        self.plain_length(path.as_str())?;
        let mut file = fs::open(&self.files, path.as_str())?;
        seek_to(&mut file, offset)?;
        let n = file.read(buf)?;
        if n == 0 {
            return Err(io::Error::from(ErrorKind::UnexpectedEof));
        }
        Ok(n)
    }

    /// Reads at least one octet of a file, from an offset on: straight into `buf` if it has room for [`STRAIGHT`], and else out of what was
    /// read ahead, or it reads ahead from there. Fails with `UnexpectedEof` at the end of the file.
    fn read_of(&mut self, name: &str, offset: u64, buf: &mut [u8]) -> io::Result<usize>
        ensures count { IfOk result (λ n. (0 < n) × (n ≤ length buf.old)) }
        ensures faults { self.new.faults ≡ self.old.faults }
        ensures stopped { self.new.stopped ≡ self.old.stopped }
    {
        if buf.len() >= STRAIGHT {
            self.said = None;
            return self.read_straight(name, offset, buf);
        }
        if let Some(n) = self.give_ahead(name, offset, buf) {
            return Ok(n);
        }
        self.said = None;
        let room = self.take_room();
        self.ahead = Some(self.ahead_of(name, offset, room)?);
        match self.give_ahead(name, offset, buf) {
            Some(n) => Ok(n),
            None => Err(io::Error::from(ErrorKind::UnexpectedEof)),
        }
    }

    /// Writes the octets beside the file at this path, and renames that to its name. If one of them fails, tries to remove what it wrote.
    /// Does not wait until the file would survive a power cut.
    fn write_beside(&self, path: &str, name: &str, bytes: &[u8]) -> io::Result<()> {
        let beside = path_beside(self.alloc, &self.folder, name)?;
        let mut done = fs::write(&self.files, beside.as_str(), bytes);
        if done.is_ok() {
            done = fs::rename(&self.files, beside.as_str(), path);
        }
        if done.is_err() {
            // It may not be there. What counts is why the put failed.
            let _ = fs::remove_file(&self.files, beside.as_str());
        }
        done
    }

    /// Writes a file anew. Fails, and leaves the old one, if what has its name is no plain file or cannot be measured.
    fn write_of(&self, name: &str, bytes: &[u8]) -> io::Result<()> {
        let path = self.path(MOST_PUT, name)?;
        if let Err(error) = self.plain_length(path.as_str()) {
            // A folder or a device of this name is not replaced.
            if fault_of(&error) == FileFault::Failed {
                return Err(error);
            }
        }
        self.write_beside(path.as_str(), name, bytes)
    }

    /// Counts a failed call, and keeps what it was about in place of the cause before. Keeps neither if there is no memory for the path.
    fn keep(&mut self, name: &str, error: io::Error)
        ensures counted { Counts self.old.faults self.new.faults true }
        ensures stopped { self.new.stopped ≡ self.old.stopped }
    {
        self.faults = self.faults.saturating_add(1);
        let path = if self.is_told(name) {
            String::from_str(self.alloc, name)
        } else {
            path_in(self.alloc, &self.folder, name)
        };
        self.cause = match path {
            Ok(path) => Some(FolderCause::File(Cause::File { path, error })),
            Err(_) => None,
        };
    }

    /// Returns what a call answered. If it failed, counts it; an absent file is no failure.
    fn answer<T>(&mut self, name: &str, done: io::Result<T>) -> Result<T, FileFault>
        ensures same { IfOk result (λ x. done ≡ Ok x) }
        ensures counted { Counts self.old.faults self.new.faults (file_failed result) }
        ensures stopped { self.new.stopped ≡ self.old.stopped }
    {
        match done {
            Ok(x) => Ok(x),
            Err(error) => match fault_of(&error) {
                FileFault::Absent => Err(FileFault::Absent),
                FileFault::Failed => {
                    self.keep(name, error);
                    Err(FileFault::Failed)
                }
            },
        }
    }
}

impl<F: fs::Files + Drop> Files for FolderFiles<F> {
    ghost contents = { λ _. None };

    ghost fault_count = { λ s. s.faults };

    fn length(&mut self, name: &str) -> Result<u64, FileFault>
        ensures stopped { is_stopped self.old ≡ true → result ≡ Err FileFault.Failed }
        ensures once { is_stopped self.new ≡ false }
        ensures cause { Counts self.old.faults self.new.faults (file_failed result) }
    {
        if self.fails() {
            return Err(FileFault::Failed);
        }
        // A length is asked before a file is read, so what comes next may be another file, or this one after it changed.
        self.ahead = None;
        if let Some(length) = self.said_again(name) {
            return Ok(length);
        }
        self.said = None;
        let length = self.length_of(name);
        let length = self.answer(name, length)?;
        self.keep_said(name, length);
        Ok(length)
    }

    fn read_at(&mut self, name: &str, offset: u64, buf: &mut [u8]) -> Result<usize, FileFault>
        requires room { 0 < length buf.old }
        ensures count { IfOk result (λ n. (0 < n) × (n ≤ length buf.old)) }
        ensures stopped { is_stopped self.old ≡ true → result ≡ Err FileFault.Failed }
        ensures once { is_stopped self.new ≡ false }
        ensures cause { Counts self.old.faults self.new.faults (file_failed result) }
    {
        if self.fails() {
            return Err(FileFault::Failed);
        }
        let done = self.read_of(name, offset, buf);
        self.answer(name, done)
    }

    fn put(&mut self, name: &str, bytes: &[u8]) -> Result<(), Failed>
        ensures stopped { is_stopped self.old ≡ true → is_err result ≡ true }
        ensures once { is_stopped self.new ≡ false }
        ensures cause { Counts self.old.faults self.new.faults (is_err result) }
    {
        if self.fails() {
            return Err(Failed);
        }
        self.ahead = None;
        self.said = None;
        if let Err(error) = self.write_of(name, bytes) {
            self.keep(name, error);
            return Err(Failed);
        }
        Ok(())
    }

    fn faults(&self) -> u64 {
        self.faults
    }
}

//! The file that keeps an instance of a sender from send to send: [`InstanceFile`], which `normd` makes in the user's [`state_folder`].

ghost use Rattle.std.specs.Prelude.{◌≡◌, ◌≤◌, ◌<◌, length, ℕ, List, Option, string_bytes, IfOk, IfSome};
ghost use Rattle.std.specs.Option.{option_map};
ghost use Rattle.norm_base.specs.Sizes.{id_count};
ghost use Rattle.norm_host.specs.Instances.{is_absolute, below, state_folder, next_instance, passed_by, number_path};
ghost use Rattle.norm_host.specs.Streams.{number_file};

use crate::folder::length_in;
use crate::instance_fault::InstanceFault;
use crate::instances::{next_instance, number_in, number_line, passed_by};
use norm_base::{InstanceId, Memory, Profile};
use std::alloc::{AllocError, Global};
use std::env::{self, VarError};
use std::fs::{self, DirBuilder, File, OpenOptions};
use std::io::{self, ErrorKind, Read, Write};
use std::os::unix::fs::{DirBuilderExt, OpenOptionsExt};
use std::rt::Env;

/// One octet more than the longest line of a number, so that a longer file shows.
// A number of 16 bits has at most five digits, and then comes a line feed.
const ROOM: usize = 7;

/// Who may use a folder that is made here, and what is in it: its user alone.
// Our own choice: nobody else should be able to set a user's next instance.
const FOLDER_MODE: u32 = 0o700;

const FILE_MODE: u32 = 0o600;

/// What to say of a kept file that holds another text. A draw or a keep does not write over such a file.
const NO_NUMBER: &str = "it holds no number from 0 to 65535";

fn is_absolute(path: &[u8]) -> bool
    ensures { result ≡ is_absolute path.now }
{
    1 <= path.len() && path[0] == b'/'
}

/// Returns the path with `name` appended, a name that begins with a slash. `None` if there is no path, or it does not begin at the root.
fn below(path: Option<String>, name: &str) -> Result<Option<String>, AllocError>
    ensures { IfOk result (λ found. option_map string_bytes found ≡ below (option_map string_bytes path) name.now) }
{
    let Some(mut path) = path else {
        return Ok(None);
    };
    // The XDG specification has a relative path in its variables ignored. One in $HOME is ignored too.
    if !is_absolute(path.as_bytes()) {
        return Ok(None);
    }
    path.push_str(name)?;
    Ok(Some(path))
}

/// Returns the folder that these two variables of the environment name. The first decides, if it begins at the root.
fn folder_by(state: Option<String>, home: Option<String>) -> Result<Option<String>, AllocError>
    ensures { IfOk result (λ folder. option_map string_bytes folder ≡ state_folder (option_map string_bytes state) (option_map string_bytes home)) }
{
    if let Some(folder) = below(state, "/normd")? {
        return Ok(Some(folder));
    }
    below(home, "/.local/state/normd")
}

/// Returns a variable of the environment. `None` if it is not set, or is not UTF-8.
fn variable<R: Env + AllocGlobal>(rt: &R, name: &str) -> Result<Option<String>, Memory> {
    match env::var(rt, name) {
        Ok(value) => Ok(Some(value)),
        Err(VarError::OutOfMemory) => Err(Memory),
        Err(_) => Ok(None),
    }
}

/// Returns the user's folder for what the program keeps, which need not be there: `normd` in $XDG_STATE_HOME, or else in
/// $HOME/.local/state. `None` if neither variable is a UTF-8 path that begins at the root.
///
/// # Errors
///
/// `Memory` if memory runs out.
pub fn state_folder<R: Env + AllocGlobal>(rt: &R) -> Result<Option<String>, Memory>
    ensures { IfOk result (λ folder. (state : Option (List ℕ)) × (home : Option (List ℕ)) × (option_map string_bytes folder ≡ state_folder state home)) }
{
    let state = variable(rt, "XDG_STATE_HOME")?;
    let home = variable(rt, "HOME")?;
    Ok(folder_by(state, home)?)
}

/// Returns how to open a file for writing. It is made, for its user alone, if it is not there.
fn to_write() -> OpenOptions {
    let mut how = OpenOptions::new();
    how.write(true).create(true).mode(FILE_MODE);
    how
}

/// Waits until what was done in a folder would survive a power cut. Does nothing if the file system has no such call.
fn sync_folder(folder: &File) -> io::Result<()> {
    match folder.sync_all() {
        // There is nothing to wait for then, and refusing to send would help nobody.
        Err(error) if error.kind() == ErrorKind::InvalidInput => Ok(()),
        done => done,
    }
}

/// Reads a file to its end, or until the buffer is full. Returns how many octets it read.
fn read_up_to<S: Read>(file: &mut S, buf: &mut [u8]) -> io::Result<usize>
    ensures { IfOk result (λ n. n ≤ length buf.old) }
{
    let mut done = 0usize;
    for _ in 0..buf.len() {
        let n = file.read(&mut buf[done..])?;
        if n == 0 {
            break;
        }
        done += n;
    }
    Ok(done)
}

/// The file `PORT-SENDER` of a folder. It holds one decimal line: an instance that a send of this sender took, of those that use the hub at
/// this port. [`draw`](InstanceFile::draw) takes the next one, and [`keep`](InstanceFile::keep) keeps one that was given or that a restart
/// took. Both make the folder if it is not there, for its user alone. They lock `PORT-SENDER.lock` as long as they read and write, and
/// write a number to `PORT-SENDER.part` before they rename it.
#[derive(Drop)]
pub struct InstanceFile<R> {
    rt: R,
    alloc: Global,
    folder: String,
    path: String,
    lock: String,
    beside: String,
}

impl<R: fs::Files<File = File> + Drop> InstanceFile<R> {
    /// Returns the file of a profile's sender in this folder. Nothing is opened or made yet.
    ///
    /// # Errors
    ///
    /// `Memory` if memory runs out.
    pub fn of(
        alloc: Global,
        rt: R,
        folder: String,
        profile: &Profile,
    ) -> Result<InstanceFile<R>, Memory>
        ensures { IfOk result (λ file. number_file file ≡ number_path (string_bytes folder) profile.now.port profile.now.sender) }
    {
        let port = profile.port;
        let sender = profile.sender;
        let path = format!(in alloc; "{folder}/{port}-{sender}")?;
        let lock = format!(in alloc; "{path}.lock")?;
        let beside = format!(in alloc; "{path}.part")?;
        Ok(InstanceFile {
            rt,
            alloc,
            folder,
            path,
            lock,
            beside,
        })
    }

    /// Makes the folder if it is not there, and waits, without a limit, for the lock. No other process gets it as long as the returned file
    /// is open.
    fn locked(&self) -> io::Result<File> {
        let mut folder = DirBuilder::new();
        folder.recursive(true).mode(FOLDER_MODE);
        folder.create(&self.rt, self.folder.as_str())?;
        let lock = to_write().open(&self.rt, self.lock.as_str())?;
        lock.lock()?;
        Ok(lock)
    }

    /// Reads the file from its beginning. Returns how many octets it read. `None` if it is not there. Fails if it is no plain file.
    fn line(&self, buf: &mut [u8]) -> io::Result<Option<usize>>
        ensures { IfOk result (λ found. IfSome found (λ n. n ≤ length buf.old)) }
    {
        let metadata = match fs::metadata(&self.rt, self.path.as_str()) {
            Ok(metadata) => metadata,
            Err(error) if error.kind() == ErrorKind::NotFound => return Ok(None),
            Err(error) => return Err(error),
        };
        length_in(&metadata)?;
        let mut file = fs::open(&self.rt, self.path.as_str())?;
        Ok(Some(read_up_to(&mut file, buf)?))
    }

    /// Returns the number that the file holds. `None` if it is not there. Fails with `InvalidData` if it holds any other text. Call it
    /// under the lock.
    fn last(&self) -> io::Result<Option<InstanceId>>
        ensures { IfOk result (λ last. IfSome last (λ n. n < id_count)) }
    {
        let mut buf = [0u8; ROOM];
        let Some(n) = self.line(&mut buf)? else {
            return Ok(None);
        };
        match number_in(&buf[..n]) {
            Some(last) => Ok(Some(last)),
            None => Err(io::Error::new(ErrorKind::InvalidData, NO_NUMBER)),
        }
    }

    /// Writes the number beside the file, and renames that to the file's name after it would survive a power cut. Waits until the new name
    /// would, too, if the file system can. Call it under the lock.
    fn write(&self, instance: InstanceId) -> io::Result<()> {
        let line = number_line(self.alloc, instance)?;
        let mut how = to_write();
        how.truncate(true);
        let mut file = how.open(&self.rt, self.beside.as_str())?;
        file.write_all(line.as_bytes())?;
        // Before the rename: after a power cut the name must not lead to a file without its number.
        file.sync_all()?;
        fs::rename(&self.rt, self.beside.as_str(), self.path.as_str())?;
        sync_folder(&fs::open(&self.rt, self.folder.as_str())?)
    }

    /// Takes the next instance in this minute, and keeps it. Waits while another process does so, and takes another one than that.
    ///
    /// # Errors
    ///
    /// The number could not be read or kept: the file holds another text (`InvalidData`), memory ran out, or the system says why.
    pub fn draw(&self, minute: InstanceId) -> io::Result<InstanceId>
        ensures { IfOk result (λ instance. (last : Option ℕ) × (IfSome last (λ n. n < id_count)) × (instance ≡ next_instance last minute)) }
    {
        // Held until the number is written: two sends at once would otherwise read the same last one.
        let _lock = self.locked()?;
        let last = self.last()?;
        let instance = next_instance(last, minute);
        self.write(instance)?;
        Ok(instance)
    }

    /// Keeps an instance that was given or that a restart took, if it lies above the one that the file holds or there is none. If not,
    /// that one stays, and is returned.
    ///
    /// # Errors
    ///
    /// As of [`draw`](InstanceFile::draw).
    pub fn keep(&self, instance: InstanceId) -> io::Result<Option<InstanceId>>
        ensures { IfOk result (λ passed. (last : Option ℕ) × (IfSome last (λ n. n < id_count)) × (passed ≡ passed_by last instance)) }
    {
        let _lock = self.locked()?;
        // One that is not above is used all the same: whoever gives it may have started all receivers anew. The kept one stays, so that
        // the next number that is drawn lies above it.
        match passed_by(self.last()?, instance) {
            Some(last) => Ok(Some(last)),
            None => {
                self.write(instance)?;
                Ok(None)
            }
        }
    }

    /// Returns what to say of a call that failed.
    pub fn into_fault(self, error: io::Error) -> InstanceFault {
        InstanceFault::File {
            path: self.path,
            error,
        }
    }
}

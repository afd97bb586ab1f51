//! The instance of a send. [`number`], which `main` calls before the program runs, keeps one that the words or the profile give, unless it
//! does not lie above the one that is kept. If none is given, it draws one above any that is kept, and puts it into the words.

use norm_args::{NodeTask, node_task_of};
use norm_base::{InstanceId, Memory, Profile};
use norm_host::{FolderFiles, InstanceFault, InstanceFile, minute_at, state_folder};
use norm_profile::{Document, LoadFault, load_document};
use norm_watch::Restarts;
use std::alloc::Global;
use std::io;
use std::time::Clock;

/// The file that keeps an instance of one sender. The watched sink reports each restart to it.
#[derive(Drop)]
pub(crate) struct Numbers {
    rt: HostRuntime,
    file: InstanceFile<HostRuntime>,
    port: u16,
}

impl Numbers {
    /// Returns the numbers of a profile's sender. `None` if there is no folder to keep them in.
    fn of(rt: HostRuntime, alloc: Global, profile: &Profile) -> Result<Option<Numbers>, Memory> {
        let Some(folder) = state_folder(&rt)? else {
            return Ok(None);
        };
        Ok(Some(Numbers {
            rt,
            file: InstanceFile::of(alloc, rt, folder, profile)?,
            port: profile.port,
        }))
    }

    /// Keeps an instance that was given or that a restart began. If it does not lie above the kept one, that one stays, and standard error
    /// warns. The send uses it in any case, also if it cannot be kept: whoever gives instances sees to it that they rise.
    fn keep(&self, instance: InstanceId) {
        // A given instance is used in any case: whoever gives it may have started all receivers anew.
        if let Ok(Some(last)) = self.file.keep(instance) {
            let instance = instance.0;
            let last = last.0;
            let port = self.port;
            let _ = eprintln!(self.rt;
                "instance {instance} is not above {last}, the one kept for port {port}: receivers that run since then pass it over, or take it for what they have"
            );
        }
    }

    /// Takes and keeps the next instance, by the minute of the clock. Fails if the clock or the file does.
    fn draw(&self) -> io::Result<InstanceId> {
        let now = self.rt.since_1970()?;
        self.file.draw(minute_at(now))
    }

    /// Returns the fault to report if no instance could be taken. One of the clock is reported with the path of the file too.
    fn into_fault(self, error: io::Error) -> InstanceFault {
        self.file.into_fault(error)
    }
}

impl Restarts for Numbers {
    fn restarted(&mut self, instance: InstanceId) {
        self.keep(instance);
    }
}

/// A send that words ask for. `path` is that of its profile, as the shell gives it.
#[derive(Drop)]
struct Asked {
    path: String,
    instance: Option<u32>,
}

/// Returns what the words of a `send` ask for. `None` if they are no command, or another one.
fn asked_by(alloc: Global, words: &[String]) -> Result<Option<Asked>, Memory> {
    match node_task_of(alloc, words)? {
        Some(NodeTask::Send { profile, instance }) => Ok(Some(Asked {
            path: profile.into_inner(),
            instance,
        })),
        _ => Ok(None),
    }
}

/// Loads the profile at a path, by files of its own, so that no fault is counted twice. `None` if it cannot be loaded, which the program says when it
/// loads it.
fn document_at(rt: HostRuntime, alloc: Global, path: &str) -> Result<Option<Document>, Memory> {
    let mut files = FolderFiles::of(alloc, rt, ".")?;
    files.tell(path)?;
    match load_document(alloc, &mut files, path) {
        Ok(document) => Ok(Some(document)),
        Err(LoadFault::Memory) => Err(Memory),
        // The program loads the profile once more, and says there what is wrong with it.
        Err(_) => Ok(None),
    }
}

/// Puts an instance into the words, as `--instance=I` after the first.
fn put(alloc: Global, words: &mut Vec<String>, instance: InstanceId) -> Result<(), Memory> {
    let instance = instance.0;
    // Into the words, as if a person had given it: so the program's one function has the instance in its words, and no clause knows of drawn ones.
    let word = format!(in alloc; "--instance={instance}")?;
    if !words.is_empty() {
        words.insert(1, word)?;
    }
    Ok(())
}

/// Keeps the instance that the words or the profile give, as [`Numbers::keep`] does, if it has 16 bits and there is a file for it.
fn keep_given(numbers: &Option<Numbers>, given: u32) {
    let Ok(instance) = u16::try_from(given) else {
        return;
    };
    if let Some(numbers) = numbers {
        numbers.keep(InstanceId(instance));
    }
}

/// Draws an instance and puts it into the words. If none can be drawn, it stops the files, so that nothing is sent, and returns `None`.
fn draw(
    alloc: Global,
    numbers: Option<Numbers>,
    words: &mut Vec<String>,
    files: &mut FolderFiles<HostRuntime>,
) -> Result<Option<Numbers>, Memory> {
    let Some(numbers) = numbers else {
        files.stop(InstanceFault::NoFolder);
        return Ok(None);
    };
    match numbers.draw() {
        Ok(instance) => {
            put(alloc, words, instance)?;
            Ok(Some(numbers))
        }
        Err(error) => {
            files.stop(numbers.into_fault(error));
            Ok(None)
        }
    }
}

/// Numbers a send, if the words ask for one whose profile can be loaded: keeps the instance that the words or the profile give, unless it
/// is not above the kept one, or else draws one and puts it into the words. Returns the file that is to keep the instances of its
/// restarts. `None` if it numbers no send, if there is no folder for the file, or if none could be drawn. In the last case it stops the
/// files.
///
/// # Errors
///
/// `Memory` if memory runs out.
pub(crate) fn number(
    rt: HostRuntime,
    alloc: Global,
    words: &mut Vec<String>,
    files: &mut FolderFiles<HostRuntime>,
) -> Result<Option<Numbers>, Memory> {
    let Some(asked) = asked_by(alloc, words)? else {
        return Ok(None);
    };
    let Some(document) = document_at(rt, alloc, asked.path.as_str())? else {
        return Ok(None);
    };
    let numbers = Numbers::of(rt, alloc, &document.profile)?;
    match asked.instance.or(document.instance) {
        Some(given) => {
            keep_given(&numbers, given);
            Ok(numbers)
        }
        None => draw(alloc, numbers, words, files),
    }
}

//! The forms of the words after each first word, as commands of `clap`. [`found_in`] compares words with a form.

ghost use Rattle.std.specs.Prelude.{◌≡◌, true, map, string_bytes, IfOk};
ghost use Rattle.std.specs.Bool.{Decides};
ghost use Rattle.std.specs.Option.{option_map};
ghost use Rattle.clap.specs.Words.{app_of, rows_of, found_of, is_simple_and_free, kind_of};
ghost use Rattle.norm_args.specs.Forms.{session_form, show_form, generate_form, mirror_form, send_form, recv_form, hub_form, gather_form, relay_words, relay_form, found_in};

use clap::error::ErrorKind;
use clap::{Arg, ArgMatches, Command, Error};
use norm_base::Memory;
use std::alloc::{AllocError, Global};

/// `session [--chance N] [--turns N] [--tail T]`.
pub(crate) fn session_form<'a>(alloc: Global) -> Result<Command<'a>, AllocError>
    ensures { IfOk result (λ command. app_of command ≡ session_form) }
{
    // Texts to `clap`: numbers are read as in a script, because `clap` would take `+5` and `007`.
    let chance = Arg::new(alloc, "chance").long("chance");
    let turns = Arg::new(alloc, "turns").long("turns");
    let tail = Arg::new(alloc, "tail").long("tail");
    let command = Command::new(alloc, "session")
        .arg(chance)?
        .arg(turns)?
        .arg(tail)?;
    Ok(command)
}

/// `show`, with no word after it.
pub(crate) fn show_form<'a>(alloc: Global) -> Command<'a>
    ensures { app_of result ≡ show_form }
{
    Command::new(alloc, "show")
}

/// `generate N`. Whether the word is a number is seen later.
pub(crate) fn generate_form<'a>(alloc: Global) -> Result<Command<'a>, AllocError>
    ensures { IfOk result (λ command. app_of command ≡ generate_form) }
{
    let number = Arg::new(alloc, "N").required(true);
    let command = Command::new(alloc, "generate").arg(number)?;
    Ok(command)
}

/// `mirror`, with no word after it.
pub(crate) fn mirror_form<'a>(alloc: Global) -> Command<'a>
    ensures { app_of result ≡ mirror_form }
{
    Command::new(alloc, "mirror")
}

/// `send PROFILE [--instance I] [--group ADDRESS[:PORT]]`.
pub(crate) fn send_form<'a>(alloc: Global) -> Result<Command<'a>, AllocError>
    ensures { IfOk result (λ command. app_of command ≡ send_form) }
{
    let profile = Arg::new(alloc, "PROFILE").required(true);
    let instance = Arg::new(alloc, "instance").long("instance");
    let group = Arg::new(alloc, "group").long("group");
    let command = Command::new(alloc, "send")
        .arg(profile)?
        .arg(instance)?
        .arg(group)?;
    Ok(command)
}

/// `recv PROFILE NODE [--group ADDRESS[:PORT]]`.
pub(crate) fn recv_form<'a>(alloc: Global) -> Result<Command<'a>, AllocError>
    ensures { IfOk result (λ command. app_of command ≡ recv_form) }
{
    let profile = Arg::new(alloc, "PROFILE").required(true);
    let node = Arg::new(alloc, "NODE").required(true);
    let group = Arg::new(alloc, "group").long("group");
    let command = Command::new(alloc, "recv")
        .arg(profile)?
        .arg(node)?
        .arg(group)?;
    Ok(command)
}

/// `hub PROFILE`.
pub(crate) fn hub_form<'a>(alloc: Global) -> Result<Command<'a>, AllocError>
    ensures { IfOk result (λ command. app_of command ≡ hub_form) }
{
    let profile = Arg::new(alloc, "PROFILE").required(true);
    let command = Command::new(alloc, "hub").arg(profile)?;
    Ok(command)
}

/// `gather PROFILE NODE ..`, one to eight such pairs. Whether the words are pairs is seen later.
pub(crate) fn gather_form<'a>(alloc: Global) -> Result<Command<'a>, AllocError>
    ensures { IfOk result (λ command. app_of command ≡ gather_form) }
{
    let pairs = Arg::new(alloc, "PAIRS")
        .required(true)
        .num_args(2..=16usize);
    let command = Command::new(alloc, "gather").arg(pairs)?;
    Ok(command)
}

/// `relay UP NODE DOWN`.
fn relay_words<'a>(alloc: Global) -> Result<Command<'a>, AllocError>
    ensures { IfOk result (λ command. app_of command ≡ relay_words) }
{
    let up = Arg::new(alloc, "UP").required(true);
    let node = Arg::new(alloc, "NODE").required(true);
    let down = Arg::new(alloc, "DOWN").required(true);
    let command = Command::new(alloc, "relay").arg(up)?.arg(node)?.arg(down)?;
    Ok(command)
}

/// `relay UP NODE DOWN [--instance I]`.
// Proof: with four rules in one function its answer is not found.
pub(crate) fn relay_form<'a>(alloc: Global) -> Result<Command<'a>, AllocError>
    ensures { IfOk result (λ command. app_of command ≡ relay_form) }
{
    let instance = Arg::new(alloc, "instance").long("instance");
    let words = relay_words(alloc)?;
    let command = words.arg(instance)?;
    Ok(command)
}

/// Whether `clap` gave up because memory ran out. It takes memory to refuse, so this may come in place of a refusal.
fn is_memory(error: &Error) -> bool
    ensures { Decides result (kind_of error.now ≡ ErrorKind.OutOfMemory) }
{
    error.kind() == ErrorKind::OutOfMemory
}

/// Returns what the words give to a form. The first word names the form. `None` if the words do not fit it.
///
/// # Errors
///
/// `Memory` if memory runs out.
pub(crate) fn found_in<'a>(
    form: Command<'a>,
    words: &'a [String],
) -> Result<Option<ArgMatches<'a>>, Memory>
    requires { is_simple_and_free (app_of form) ≡ true }
    ensures { IfOk result (λ found. option_map (λ m. rows_of (found_of m)) found ≡ found_in (app_of form.entry) (map string_bytes words.now)) }
{
    match form.try_get_matches_from(words) {
        Ok(matches) => Ok(Some(matches)),
        Err(error) => {
            if is_memory(&error) {
                return Err(Memory);
            }
            Ok(None)
        }
    }
}

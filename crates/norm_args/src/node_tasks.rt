//! What the words ask for under profiles: `send`, `recv` or `hub`, which run one node of a session over a network, `gather` or `relay`.
//! `norm_program` and `normd` call [`node_task_of`].

ghost use Rattle.std.specs.Prelude.{◌≡◌, codes, map, string_bytes, IfOk, IfSome};
ghost use Rattle.std.specs.Option.{option_map};
ghost use Rattle.clap.specs.Words.{rows_of, found_of, all_of, first_of};
ghost use Rattle.norm_script.specs.Words.{number_within};
ghost use Rattle.norm_args.specs.Fits.{FitsInstance, FitsNode};
ghost use Rattle.norm_args.specs.NodeTasks.{profile_in, instance_in, node_in, send_of, receive_of, send_in, receive_in, hub_in, pairs_of, gather_in, relay_of, relay_in, node_task_of};

use crate::forms::{found_in, gather_form, hub_form, recv_form, relay_form, send_form};
use crate::groups::group_in;
use crate::tasks::{value_given, word_in};
use clap::ArgMatches;
use norm_base::{Key, Memory, NodeId, Text};
use norm_script::number_within;
use std::alloc::{AllocError, Global};
use std::marker::Model;

/// The least and the greatest number of a node.
// RFC 5740 section 4.1: 0 and 2^32 - 1 name no member. Whether the profile has the node is seen later.
const NODES: (u32, u32) = (1, u32::MAX - 1);

/// The senders to hear, in the order of the words: for each the path of its profile, and the node that hears it.
// A type of its own, because clauses see it as a list.
#[derive(Debug, Drop)]
pub struct Pairs(Vec<(Text, NodeId)>);

impl Model for Pairs {
    ghost use Rattle.std.specs.Prelude.{List, ℕ};

    ghost Value = { List (List ℕ × ℕ) };

    ghost view = { λ pairs. pairs.0.items };
}

impl Pairs {
    /// Returns the vector. Takes no memory.
    pub fn into_inner(self) -> Vec<(Text, NodeId)>
        ensures { result.items ≡ self }
    {
        self.0
    }
}

/// What the program is asked to do under profiles. A profile is named by its path, as the shell gives it.
#[derive(Debug, Drop)]
pub enum NodeTask {
    /// Runs the sender, and the producers of the script that the input is. If an instance is given, 0 to 65535, it overrides the profile's.
    Send {
        profile: Text,
        instance: Option<u32>,
    },
    /// Runs the receiver of this id. Whether the profile has it is seen later.
    Receive(Text, NodeId),
    /// Hands on what members send.
    Hub(Text),
    /// Hears several senders, each as a node of its profile. Whether these have the nodes is seen later. No network is started.
    Gather(Pairs),
    /// Relays between two sessions: as this node of the one above, and as the sender of the one below. If an instance is given, 0 to 65535, it
    /// overrides that of the profile below. No network is started.
    Relay {
        up: Text,
        node: NodeId,
        down: Text,
        instance: Option<u32>,
    },
}

/// Copies the path that a form names so, as the shell gives it. `None` does not happen: each form that was found has it.
fn path_in(alloc: Global, matches: &ArgMatches<'_>, name: &str) -> Result<Option<Text>, AllocError>
    ensures { IfOk result (λ path. path ≡ first_of name.now (rows_of (found_of matches.now))) }
{
    match word_in(matches, name) {
        Some(word) => Ok(Some(Text::of(String::from_str(alloc, word)?))),
        None => Ok(None),
    }
}

fn profile_in(alloc: Global, matches: &ArgMatches<'_>) -> Result<Option<Text>, AllocError>
    ensures { IfOk result (λ profile. profile ≡ profile_in (rows_of (found_of matches.now))) }
{
    path_in(alloc, matches, "PROFILE")
}

/// `Some(None)` if the option is not given. `None` if its word is not a number from 0 to 65535.
fn instance_in(matches: &ArgMatches<'_>) -> Option<Option<u32>>
    ensures value { result ≡ instance_in (rows_of (found_of matches.now)) }
    ensures fits { IfSome result FitsInstance }
{
    value_given(Key::Instance, word_in(matches, "instance"))
}

/// `None` if the word is not a number from 1 to 4294967294. Whether the profile has the node is seen later.
fn node_of(word: &str) -> Option<NodeId>
    ensures { result ≡ number_within 1 4294967294 word.now }
{
    let number = number_within(word.as_bytes(), NODES.0, NODES.1)?;
    NodeId::of(number)
}

fn node_in(matches: &ArgMatches<'_>) -> Option<NodeId>
    ensures { result ≡ node_in (rows_of (found_of matches.now)) }
{
    let word = word_in(matches, "NODE")?;
    node_of(word)
}

fn send_of(profile: Option<Text>, given: Option<Option<u32>>) -> Option<NodeTask>
    requires { IfSome given FitsInstance }
    ensures task { result ≡ send_of profile given }
    ensures fits { IfSome result FitsNode }
{
    match profile {
        Some(profile) => match given {
            Some(instance) => Some(NodeTask::Send { profile, instance }),
            None => None,
        },
        None => None,
    }
}

fn receive_of(profile: Option<Text>, node: Option<NodeId>) -> Option<NodeTask>
    ensures task { result ≡ receive_of profile node }
    ensures fits { IfSome result FitsNode }
{
    match profile {
        Some(profile) => match node {
            Some(node) => Some(NodeTask::Receive(profile, node)),
            None => None,
        },
        None => None,
    }
}

/// `None` if the words do not fit the form, or if the instance or the group that they give is none.
fn send_in(alloc: Global, words: &[String]) -> Result<Option<NodeTask>, Memory>
    ensures task { IfOk result (λ task. task ≡ send_in (map string_bytes words.now)) }
    ensures fits { IfOk result (λ task. IfSome task FitsNode) }
{
    let form = send_form(alloc)?;
    match found_in(form, words)? {
        Some(matches) => {
            if group_in(&matches).is_none() {
                return Ok(None);
            }
            let profile = profile_in(alloc, &matches)?;
            Ok(send_of(profile, instance_in(&matches)))
        }
        None => Ok(None),
    }
}

/// `None` if the words do not fit the form, if the one after the profile is no number of a node, or if the group that they give is none.
fn receive_in(alloc: Global, words: &[String]) -> Result<Option<NodeTask>, Memory>
    ensures task { IfOk result (λ task. task ≡ receive_in (map string_bytes words.now)) }
    ensures fits { IfOk result (λ task. IfSome task FitsNode) }
{
    let form = recv_form(alloc)?;
    match found_in(form, words)? {
        Some(matches) => {
            if group_in(&matches).is_none() {
                return Ok(None);
            }
            let profile = profile_in(alloc, &matches)?;
            Ok(receive_of(profile, node_in(&matches)))
        }
        None => Ok(None),
    }
}

/// `None` if the words do not fit the form, as without a path.
fn hub_in(alloc: Global, words: &[String]) -> Result<Option<NodeTask>, Memory>
    ensures task { IfOk result (λ task. task ≡ hub_in (map string_bytes words.now)) }
    ensures fits { IfOk result (λ task. IfSome task FitsNode) }
{
    let form = hub_form(alloc)?;
    match found_in(form, words)? {
        Some(matches) => match profile_in(alloc, &matches)? {
            Some(profile) => Ok(Some(NodeTask::Hub(profile))),
            None => Ok(None),
        },
        None => Ok(None),
    }
}

/// Reads words in pairs, each the path of a profile and a node. `None` if there is an odd number of them, or if a node is no number of one.
// Proof: by indexes, since a slice that is cut in a loop whose exits drop what was read is lent on one way alone.
fn pairs_of(alloc: Global, words: &[&str]) -> Result<Option<Pairs>, Memory>
    ensures { IfOk result (λ pairs. pairs ≡ pairs_of (map (λ word. word.now) words.now)) }
{
    if words.len() % 2 != 0 {
        return Ok(None);
    }
    let mut pairs = Vec::new(alloc);
    for i in 0..words.len() / 2 {
        let Some(node) = node_of(words[2 * i + 1]) else {
            return Ok(None);
        };
        let path = Text::of(String::from_str(alloc, words[2 * i])?);
        pairs.push((path, node))?;
    }
    Ok(Some(Pairs(pairs)))
}

/// The words that the form of `gather` has. `None` does not happen for words that were found in it.
fn words_in<'m, 'a>(matches: &'m ArgMatches<'a>) -> Option<&'m [&'a str]>
    ensures { option_map (λ words. map (λ word. word.now) words.now) result ≡ all_of (codes "PAIRS") (rows_of (found_of matches.now)) }
{
    matches.get_strs("PAIRS")
}

/// `None` if the words do not fit the form, if there is an odd number of them after the first, or if a node is no number of one.
fn gather_in(alloc: Global, words: &[String]) -> Result<Option<NodeTask>, Memory>
    ensures task { IfOk result (λ task. task ≡ gather_in (map string_bytes words.now)) }
    ensures fits { IfOk result (λ task. IfSome task FitsNode) }
{
    let form = gather_form(alloc)?;
    let Some(matches) = found_in(form, words)? else {
        return Ok(None);
    };
    let Some(words) = words_in(&matches) else {
        return Ok(None);
    };
    match pairs_of(alloc, words)? {
        Some(pairs) => Ok(Some(NodeTask::Gather(pairs))),
        None => Ok(None),
    }
}

fn relay_of(
    up: Option<Text>,
    node: Option<NodeId>,
    down: Option<Text>,
    given: Option<Option<u32>>,
) -> Option<NodeTask>
    requires { IfSome given FitsInstance }
    ensures task { result ≡ relay_of up node down given }
    ensures fits { IfSome result FitsNode }
{
    let Some(up) = up else {
        return None;
    };
    let Some(node) = node else {
        return None;
    };
    let Some(down) = down else {
        return None;
    };
    match given {
        Some(instance) => Some(NodeTask::Relay {
            up,
            node,
            down,
            instance,
        }),
        None => None,
    }
}

/// `None` if the words do not fit the form, if the second is no number of a node, or if the instance that they give is none.
fn relay_in(alloc: Global, words: &[String]) -> Result<Option<NodeTask>, Memory>
    ensures task { IfOk result (λ task. task ≡ relay_in (map string_bytes words.now)) }
    ensures fits { IfOk result (λ task. IfSome task FitsNode) }
{
    let form = relay_form(alloc)?;
    match found_in(form, words)? {
        Some(matches) => {
            let up = path_in(alloc, &matches, "UP")?;
            let down = path_in(alloc, &matches, "DOWN")?;
            Ok(relay_of(up, node_in(&matches), down, instance_in(&matches)))
        }
        None => Ok(None),
    }
}

/// Returns what the words after the program's name ask for under profiles: `send PROFILE [--instance I]` with an instance of 0 to 65535, `recv
/// PROFILE NODE` with a node of 1 to 4294967294, both with `--group ADDRESS[:PORT]` if there is no hub ([`group_asked`](crate::group_asked)), `hub
/// PROFILE`, `gather PROFILE NODE ..` with one to eight such pairs, or `relay UP NODE DOWN [--instance I]`. `None` if they have none of these forms.
/// A request for help has none.
///
/// # Errors
///
/// `Memory` if memory runs out.
#[tactic(auto, unfolding(crate::specs::NodeTasks::node_task_of))]
pub fn node_task_of(alloc: Global, words: &[String]) -> Result<Option<NodeTask>, Memory>
    ensures task { IfOk result (λ task. task ≡ node_task_of (map string_bytes words.now)) }
    ensures fits { IfOk result (λ task. IfSome task FitsNode) }
{
    let Some(first) = words.first() else {
        return Ok(None);
    };
    let first = first.as_bytes();
    if first == b"send".as_slice() {
        return send_in(alloc, words);
    }
    if first == b"recv".as_slice() {
        return receive_in(alloc, words);
    }
    if first == b"hub".as_slice() {
        return hub_in(alloc, words);
    }
    if first == b"gather".as_slice() {
        return gather_in(alloc, words);
    }
    if first == b"relay".as_slice() {
        return relay_in(alloc, words);
    }
    Ok(None)
}

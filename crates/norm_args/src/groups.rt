//! The group that the words of a node of its own name: [`group_asked`].

ghost use Rattle.std.specs.Prelude.{◌≡◌, true, map, string_bytes, IfOk};
ghost use Rattle.std.specs.Option.{option_map};
ghost use Rattle.std.specs.Net.Addr.{ipv4_octets};
ghost use Rattle.clap.specs.Words.{app_of, rows_of, found_of, is_simple_and_free};
ghost use Rattle.norm_args.specs.Forms.{send_form, recv_form};
ghost use Rattle.norm_args.specs.Groups.{group_seen, octet_in, address_in, is_unnamed, named_by, port_in, group_of, group_given, group_in, group_found, group_asked};

use crate::forms::{found_in, recv_form, send_form};
use crate::group::GroupAddress;
use crate::tasks::word_in;
use clap::{ArgMatches, Command};
use norm_base::Memory;
use norm_script::{number_within, split_at_first};
use std::alloc::Global;
use std::net::Ipv4Addr;

/// The least and the greatest port of a group.
// Our own choice: below 1024 a port needs rights. The port after it is used too.
const PORTS: (u32, u32) = (1_024, 65_534);

fn octet_in(word: &[u8]) -> Option<u8>
    ensures { result ≡ octet_in word.now }
{
    let number = number_within(word, 0, 255)?;
    Some(number as u8)
}

/// Returns the address that four numbers with points between them spell.
#[tactic(auto, unfolding(crate::specs::Groups::address_in))]
fn address_in(word: &[u8]) -> Option<Ipv4Addr>
    ensures { option_map (λ a. ipv4_octets a) result ≡ address_in word.now }
{
    let Some((a, rest)) = split_at_first(word, b'.') else {
        return None;
    };
    let Some((b, rest)) = split_at_first(rest, b'.') else {
        return None;
    };
    let Some((c, d)) = split_at_first(rest, b'.') else {
        return None;
    };
    let first = octet_in(a)?;
    let second = octet_in(b)?;
    let third = octet_in(c)?;
    let fourth = octet_in(d)?;
    Some(Ipv4Addr::new(first, second, third, fourth))
}

/// Whether an address is 255.255.255.255, which leaves by one interface alone and names no subnet.
fn is_unnamed(address: &Ipv4Addr) -> bool
    ensures { result ≡ is_unnamed (ipv4_octets address.now) }
{
    address.octets() == [255, 255, 255, 255]
}

fn named_by(address: Option<Ipv4Addr>, port: Option<Option<u16>>) -> Option<GroupAddress>
    ensures { option_map group_seen result ≡ named_by (option_map (λ a. ipv4_octets a) address) port }
{
    let address = address?;
    let port = port?;
    if is_unnamed(&address) {
        return None;
    }
    Some(GroupAddress { address, port })
}

fn port_in(word: &[u8]) -> Option<Option<u16>>
    ensures { result ≡ port_in word.now }
{
    let number = number_within(word, PORTS.0, PORTS.1)?;
    Some(Some(number as u16))
}

/// Returns the group that a word names, `ADDRESS` or `ADDRESS:PORT`.
fn group_of(word: &[u8]) -> Option<GroupAddress>
    ensures { option_map group_seen result ≡ group_of word.now }
{
    match split_at_first(word, b':') {
        Some((address, port)) => named_by(address_in(address), port_in(port)),
        None => named_by(address_in(word), Some(None)),
    }
}

/// `Some(None)` if no word is given. `None` if the word names no group.
fn group_given(word: Option<&str>) -> Option<Option<GroupAddress>>
    ensures { option_map (option_map group_seen) result ≡ group_given (option_map (λ w. w.now) word.entry) }
{
    let Some(word) = word else {
        return Some(None);
    };
    let group = group_of(word.as_bytes())?;
    Some(Some(group))
}

/// `Some(None)` if the option is not given. `None` if its word names no group.
pub(crate) fn group_in(matches: &ArgMatches<'_>) -> Option<Option<GroupAddress>>
    ensures { option_map (option_map group_seen) result ≡ group_in (rows_of (found_of matches.now)) }
{
    group_given(word_in(matches, "group"))
}

/// Returns the group that words of a form name. `None` if they do not fit it.
fn group_found<'a>(form: Command<'a>, words: &'a [String]) -> Result<Option<GroupAddress>, Memory>
    requires { is_simple_and_free (app_of form) ≡ true }
    ensures { IfOk result (λ group. option_map group_seen group ≡ group_found (app_of form.entry) (map string_bytes words.now)) }
{
    match found_in(form, words)? {
        Some(matches) => match group_in(&matches) {
            Some(group) => Ok(group),
            None => Ok(None),
        },
        None => Ok(None),
    }
}

/// Returns the group that words of `send` name.
fn group_of_send(alloc: Global, words: &[String]) -> Result<Option<GroupAddress>, Memory>
    ensures { IfOk result (λ group. option_map group_seen group ≡ group_found send_form (map string_bytes words.now)) }
{
    let form = send_form(alloc)?;
    group_found(form, words)
}

/// Returns the group that words of `recv` name.
fn group_of_recv(alloc: Global, words: &[String]) -> Result<Option<GroupAddress>, Memory>
    ensures { IfOk result (λ group. option_map group_seen group ≡ group_found recv_form (map string_bytes words.now)) }
{
    let form = recv_form(alloc)?;
    group_found(form, words)
}

/// Returns the group that the words after the program's name ask for, if they are those of `send` or `recv` and name one. The network is to
/// join it before it starts.
///
/// # Errors
///
/// `Memory` if memory runs out.
#[tactic(auto, unfolding(crate::specs::Groups::group_asked))]
pub fn group_asked(alloc: Global, words: &[String]) -> Result<Option<GroupAddress>, Memory>
    ensures { IfOk result (λ group. option_map group_seen group ≡ group_asked (map string_bytes words.now)) }
{
    let Some(first) = words.first() else {
        return Ok(None);
    };
    let first = first.as_bytes();
    if first == b"send".as_slice() {
        return group_of_send(alloc, words);
    }
    if first == b"recv".as_slice() {
        return group_of_recv(alloc, words);
    }
    Ok(None)
}

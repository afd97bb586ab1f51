//! Lists of repair requests (RFC 5740 section 4.3.1). [`Requests::check`] checks a list once, as a message is read. The result stands for the list,
//! and is an iterator over it. [`check_requests`] and [`requests_of`] are its two steps.

ghost use Rattle.std.specs.Prelude.{◌≡◌, ◌+◌, ◌*◌, ◌/◌, ◌==◌, ◌≤◌, ◌<◌, ◌^◌, [], ◌∷◌, Ok, Err, Some, MatchOption, MatchResult, OnOk, min, length, drop, take, slice_get};
ghost use Rattle.norm_ext.specs.Places.{request_front, item_width};
ghost use Rattle.norm_ext.specs.Requests.{requests_of as all_requests, requests_checked, request_checked, request_length, request_length_checked, items_length, items_checked, items_of, items_named, item_size, IsRequests};
ghost use Rattle.norm_ext.specs.RequestView.{request_of};
ghost use Rattle.norm_ext.specs.Octets.{requests_octets};

use crate::head::Item;
use crate::header::ENCODING_ID;
use crate::kinds::Form;
use crate::numbers::{read_16, read_name};
use crate::places::{ITEM, ITEM_NAME_AT, ITEM_OBJECT_AT, ITEMS_LENGTH_AT, REQUEST};
use crate::refusal::Refusal;
use std::marker::Model;

/// A repair request. `items` are the octets of its items, eight for each. For form ranges, each two items are a range.
// The items stay octets, with their reserved ones: a message that is written takes its list of requests as it is lent.
#[derive(Clone, Copy, Debug)]
pub struct Request<'a> {
    pub form: Form,
    pub flags: u8,
    pub items: &'a [u8],
}

impl<'a> Request<'a> {
    /// Returns how many items it has, at most `u32::MAX`. Both ends of a range count.
    pub fn count(&self) -> u32
        ensures { result ≡ min (length self.now.items.now / item_width) 4294967295 }
    {
        (self.items.len() / ITEM).min(u32::MAX as usize) as u32
    }

    /// Returns the item with this index, counted from 0. Each end of a range is an item of its own.
    pub fn item(&self, i: u32) -> Item
        requires { item_width * i + item_width ≤ length self.now.items.now }
        ensures { slice_get (items_named self.now.items.now) i ≡ Some result }
    {
        let at = ITEM * i as usize;
        Item {
            object: read_16(self.items, at + ITEM_OBJECT_AT),
            id: read_name(self.items, at + ITEM_NAME_AT),
        }
    }
}

/// Returns the octets of an item of this form. For ranges it is a pair of items.
fn size_of_item(form: Form) -> usize
    ensures { result ≡ item_size form }
{
    match form {
        Form::Items | Form::Erasures => ITEM,
        Form::Ranges => 2 * ITEM,
    }
}

/// Refuses the first item whose FEC Encoding ID is not 5. `at` is the offset of the items in the datagram. Fewer than eight octets at the end are
/// not looked at.
fn check_items(items: &[u8], at: usize) -> Result<(), Refusal>
    requires { at + length items.now < 2 ^ 64 }
    ensures { result ≡ items_checked at items.now }
{
    let mut rest = items;
    let mut place = at;
    while rest.len() >= ITEM {
        let id = rest[0];
        if id != ENCODING_ID {
            return Err(Refusal::ItemFec { at: place, id });
        }
        rest = rest.split_at(ITEM).1;
        place += ITEM;
    }
    Ok(())
}

/// Returns how many octets the items of the first request have. `RequestLength` if the request does not end within `octets`, or if its items are
/// not whole.
fn check_length(octets: &[u8], form: Form, at: usize) -> Result<usize, Refusal>
    ensures { MatchResult result
        (λ len. (request_length_checked at form octets.now ≡ Ok tt) × (len ≡ items_length octets.now) × (request_front + len ≤ length octets.now))
        (λ refusal. request_length_checked at form octets.now ≡ Err refusal) }
{
    if octets.len() < REQUEST {
        return Err(Refusal::RequestLength { at });
    }
    let len = usize::from(read_16(octets, ITEMS_LENGTH_AT));
    if octets.len() < REQUEST + len || len % size_of_item(form) != 0 {
        return Err(Refusal::RequestLength { at });
    }
    Ok(len)
}

/// Returns how many octets the first request has, or how it is bad: its form first, then its length, then its items. `at` is its offset in the
/// datagram.
fn check_first(octets: &[u8], at: usize) -> Result<usize, Refusal>
    requires some { 0 < length octets.now }
    requires place { at + length octets.now < 2 ^ 64 }
    ensures { MatchResult result
        (λ len. (request_checked at octets.now ≡ Ok tt) × (len ≡ request_length octets.now) × (len ≤ length octets.now) × (0 < len))
        (λ refusal. request_checked at octets.now ≡ Err refusal) }
{
    let Some(form) = Form::of(octets[0]) else {
        return Err(Refusal::RequestForm { at });
    };
    let len = check_length(octets, form, at)?;
    check_items(octets.split_at(REQUEST).1.split_at(len).0, at + REQUEST)?;
    Ok(REQUEST + len)
}

/// Checks a list of requests, which begins at the offset `at` of its datagram. Takes time in proportion to its length.
///
/// # Errors
///
/// `RequestForm`, `RequestLength` or `ItemFec` for the first bad request.
pub fn check_requests(list: &[u8], at: usize) -> Result<(), Refusal>
    requires { at + length list.now < 2 ^ 64 }
    ensures exact { result ≡ requests_checked at list.now }
    ensures whole { OnOk result (IsRequests list.now) }
{
    let mut rest = list;
    let mut place = at;
    while !rest.is_empty() {
        let len = check_first(rest, place)?;
        rest = rest.split_at(len).1;
        place += len;
    }
    Ok(())
}

/// A list of whole requests, which messages lend, and an iterator over them.
// The list was checked. So the walk trusts each length, and need not answer a refusal.
// Proof: a struct with a model and a lifetime cannot be `Copy`. So `iter` gives another one.
#[derive(Debug, Drop)]
pub struct Requests<'a> {
    list: &'a [u8],
}

impl<'a> Model for Requests<'a> {
    ghost use Rattle.std.specs.Prelude.{List};
    ghost use Rattle.norm_ext.specs.Requests.{Request as Asked, requests_of as all_requests, IsRequests};

    ghost Value = { List Asked };

    ghost view = { λ r. all_requests r.list.now };

    ghost invariant = { λ r. IsRequests r.list.now };
}

/// Returns the list itself: one that was checked spells its own requests.
fn spelled(list: &[u8]) -> &[u8]
    requires { IsRequests list.now }
    ensures { result.now ≡ requests_octets (all_requests list.now) }
{
    list
}

fn has_none(list: &[u8]) -> bool
    ensures { result ≡ (length (all_requests list.now) == 0) }
{
    list.is_empty()
}

/// Returns the requests of a list that `check_requests` accepted.
pub fn requests_of(list: &[u8]) -> Requests<'_>
    requires { IsRequests list.now }
    ensures list { result ≡ all_requests list.now }
    ensures octets { requests_octets result ≡ list.now }
{
    Requests { list }
}

impl<'a> Requests<'a> {
    /// Checks a list, which begins at the offset `at` of its datagram, and returns its requests. Takes time in proportion to its length.
    ///
    /// # Errors
    ///
    /// Those of [`check_requests`].
    pub fn check(list: &'a [u8], at: usize) -> Result<Requests<'a>, Refusal>
        requires { at + length list.now < 2 ^ 64 }
        ensures { MatchResult result
            (λ requests. (requests_checked at list.now ≡ Ok tt) × (requests ≡ all_requests list.now))
            (λ refusal. requests_checked at list.now ≡ Err refusal) }
    {
        check_requests(list, at)?;
        Ok(Requests { list })
    }

    /// Returns an empty list. A receiver writes the beginning of a NACK with it, and appends requests by a `RequestWriter`.
    pub fn none() -> Requests<'a>
        ensures { result ≡ [] }
    {
        Requests { list: &[] }
    }

    /// Returns another iterator over the requests that [`next`](Requests::next) did not return yet. This one stays as it is.
    pub fn iter(&self) -> Requests<'a>
        ensures { result ≡ self.now }
    {
        Requests { list: self.list }
    }

    /// Whether [`next`](Requests::next) has no more to return. Looks at no request.
    pub fn is_empty(&self) -> bool
        ensures { result ≡ (length self.now == 0) }
    {
        has_none(self.list)
    }

    /// Borrows the octets of the requests that [`next`](Requests::next) did not return yet, with forms, flags and lengths.
    pub fn octets(&self) -> &'a [u8]
        ensures { result.now ≡ requests_octets self.now }
    {
        spelled(self.list)
    }
}

/// Splits off the first request of a list of whole requests. Trusts its form and its length, which were checked. `None` if the list is empty.
fn cut_first(list: &[u8]) -> Option<(Request<'_>, &[u8])>
    requires { IsRequests list.now }
    ensures { MatchOption result
        (all_requests list.now ≡ [])
        (λ x. (all_requests list.now ≡ request_of x.0 ∷ all_requests x.1.now) × IsRequests x.1.now) }
{
    if list.is_empty() {
        return None;
    }
    // Never `None`: the list was checked, and a form that does not exist is refused there.
    let form = Form::of(list[0])?;
    let flags = list[1];
    let (first, rest) = list.split_at(REQUEST + usize::from(read_16(list, ITEMS_LENGTH_AT)));
    let items = first.split_at(REQUEST).1;
    Some((Request { form, flags, items }, rest))
}

impl<'a> Iterator for Requests<'a> {
    ghost use Rattle.std.specs.Prelude.{slice_get, drop, length};
    ghost use Rattle.std.specs.Option.{option_map};
    ghost use Rattle.std.specs.Iterator.{at_most};

    type Item = Request<'a>;

    ghost remaining = { λ list. at_most (length list) };

    ghost next_gives = { λ old given new. (option_map request_of given ≡ slice_get old 0) × (new ≡ drop 1 old) };

    /// Returns the next request. It may have no items.
    fn next(&mut self) -> Option<Request<'a>> {
        let (request, rest) = cut_first(self.list)?;
        self.list = rest;
        Some(request)
    }
}

//! Writes repair requests item by item (RFC 5740 section 4.3.1). A receiver builds the content of its NACKs with it.

ghost use Rattle.std.specs.Prelude.{◌≡◌, ◌↔◌, ◌+◌, ◌-◌, ◌*◌, ◌≤◌, ◌<◌, ◌^◌, ℕ, List, [], ◌∷◌, ◌++◌, IsTrue, IsSome, Some, true, false, length, take, drop};
ghost use Rattle.std.specs.Bool.{MatchBool};
ghost use Rattle.std.specs.List.{flat_map};
ghost use Rattle.byteorder.specs.Endian.{big_bytes};
ghost use Rattle.norm_base.specs.Sizes.{datagram_room};
ghost use Rattle.norm_ext.specs.Places.{request_front, item_width};
ghost use Rattle.norm_ext.specs.declared.kinds.Form.TheVariants as forms;
ghost use Rattle.norm_ext.specs.declared.head.Item.{Item as Named};
ghost use Rattle.norm_ext.specs.Numbers.{form_number};
ghost use Rattle.norm_ext.specs.Requests.{item_octets};
ghost use Rattle.norm_ext.specs.Asked.{Asked, asked_for, ends_of, asked_octets, written_item, Writing, writing, HasWritten};

use crate::head::Item;
use crate::header::ENCODING_ID;
use crate::kinds::Form;
use crate::places;
use crate::pushing::{push_16, push_name};
use norm_base::Datagram;
use std::marker::Model;

// This and `ITEM` have 16 bits, as the length of a request has (RFC 5740 section 4.3.1).
const FRONT: u16 = places::REQUEST as u16;

const ITEM: u16 = places::ITEM as u16;

/// Appends requests to a datagram.
/// 1. [`new`](RequestWriter::new), with a limit for the octets of all its requests.
/// 2. [`push_item`](RequestWriter::push_item) for each item or range. Nobody else may change the datagram between the calls.
///
/// If an item has the form and the flags of the last request, it joins that request. Otherwise it begins a new one.
// `used` is never above `limit`: their difference says whether one more fits.
#[derive(Debug, Drop)]
pub struct RequestWriter {
    limit: u16,
    /// The octets of all requests that were appended.
    used: u16,
    /// The form of the last request, if there is one. The next two are its flags and the octets of its items.
    form: Option<Form>,
    flags: u8,
    len: u16,
}

impl Model for RequestWriter {
    ghost use Rattle.std.specs.Prelude.{◌+◌, ◌≤◌, ◌≡◌, ◌⊎◌, Option, Some, None};
    ghost use Rattle.norm_ext.specs.Asked.{Writing};
    ghost use Rattle.norm_ext.specs.Places.{request_front};

    ghost Value = { Writing };

    ghost view = { λ w. record { limit = w.limit; used = w.used; form = w.form; flags = w.flags; len = w.len } };

    ghost invariant = { λ w. (w.used ≤ w.limit) × ((w.form ≡ None) ⊎ (request_front + w.len ≤ w.used)) };
}

/// Appends an item, with FEC Encoding ID 5 and a reserved octet of 0.
fn push_one(item: &Item, out: &mut Datagram)
    requires { length out.old + item_width ≤ datagram_room }
    ensures { out.new ≡ out.old ++ item_octets (written_item item.now) }
{
    out.push(&[ENCODING_ID, 0]);
    push_16(item.object, out);
    push_name(&item.id, out);
}

/// Returns how many octets an item has, or the two ends of a range.
fn ends_len(last: &Option<Item>) -> u16
    ensures exact { (first : Named) → result ≡ item_width * length (ends_of first last.now) }
    ensures few { result ≤ 2 * item_width }
{
    match last {
        Some(_) => 2 * ITEM,
        None => ITEM,
    }
}

/// Appends an item, or the two ends of a range.
fn push_ends(first: &Item, last: &Option<Item>, out: &mut Datagram)
    requires { length out.old + item_width * length (ends_of first.now last.now) ≤ datagram_room }
    ensures { out.new ≡ out.old ++ flat_map item_octets (ends_of first.now last.now) }
{
    push_one(first, out);
    if let Some(item) = last {
        push_one(item, out);
    }
}

impl RequestWriter {
    /// Returns a writer of at most `limit` octets of requests. Appends nothing.
    pub fn new(limit: u16) -> RequestWriter
        ensures { result ≡ writing limit [] }
    {
        RequestWriter {
            limit,
            used: 0,
            form: None,
            flags: 0,
            len: 0,
        }
    }

    /// Whether an item with this form and these flags joins the last request. `false` if there is none.
    fn joins(&self, form: Form, flags: u8) -> bool
        ensures { IsTrue result ↔ ((self.now.form ≡ Some form) × (self.now.flags ≡ flags)) }
    {
        match self.form {
            Some(last) => last == form && self.flags == flags,
            None => false,
        }
    }

    /// Adds `items` octets to the length of the last request. The caller appends them next.
    fn lengthen(&mut self, items: u16, out: &mut Datagram)
        requires some { request_front + self.old.len ≤ self.old.used }
        requires used { self.old.used ≤ length out.old }
        requires fits { self.old.used + items ≤ self.old.limit }
        ensures out { let at = length out.old - (2 + self.old.len) in
            out.new ≡ take at out.old ++ big_bytes 2 (self.old.len + items) ++ drop (at + 2) out.old }
        ensures writer { self.new ≡ record self.old { used = self.old.used + items; len = self.old.len + items } }
    {
        // The length stands right before the items, and the last request ends the datagram.
        let at = out.bytes().len() - (2 + usize::from(self.len));
        self.len += items;
        self.used += items;
        out.replace(at, &self.len.to_be_bytes());
    }

    /// Begins a request with `items` octets of items. The caller appends them next.
    fn begin(&mut self, form: Form, flags: u8, items: u16, out: &mut Datagram)
        requires few { items ≤ 2 * item_width }
        requires room { length out.old + request_front ≤ datagram_room }
        requires fits { self.old.used + (request_front + items) ≤ self.old.limit }
        ensures out { out.new ≡ out.old ++ form_number form ∷ flags ∷ big_bytes 2 items }
        ensures writer { self.new ≡ record self.old { used = self.old.used + (request_front + items); form = Some form; flags = flags; len = items } }
    {
        out.push(&[form.number(), flags]);
        push_16(items, out);
        self.used += FRONT + items;
        self.form = Some(form);
        self.flags = flags;
        self.len = items;
    }

    /// Appends an item, or a range by its two ends: `last` is for form ranges. Returns `false` if the requests would exceed the limit; then
    /// nothing changes. The datagram needs room for what the limit still allows.
    // Proof: it asks for numbers alone: if the datagram stands for a list of requests, it stands for one more. No list is kept.
    pub fn push_item(
        &mut self,
        out: &mut Datagram,
        form: Form,
        flags: u8,
        first: Item,
        last: Option<Item>,
    ) -> bool
        requires last { IsSome last ↔ (form ≡ forms.Ranges) }
        requires used { self.old.used ≤ length out.old }
        requires room { length out.old + self.old.limit ≤ datagram_room + self.old.used }
        // Where the writer has written what was asked for, behind what the datagram had, this is added to it.
        ensures added { (front : List ℕ) (asked : List Asked) → HasWritten self.old out.old front asked →
            MatchBool result
            (HasWritten self.new out.new front (asked ++ asked_for form flags first last ∷ []))
            (self.old.limit < length (asked_octets (asked ++ asked_for form flags first last ∷ []))) }
        ensures kept { result ≡ false → (self.new ≡ self.old) × (out.new ≡ out.old) }
        ensures limit { self.new.limit ≡ self.old.limit }
        // So the next call may follow.
        ensures used { self.new.used ≤ length out.new }
        ensures room { length out.new + self.new.limit ≤ datagram_room + self.new.used }
    {
        let items = ends_len(&last);
        let joins = self.joins(form, flags);
        let more = if joins { items } else { FRONT + items };
        // Tested before anything is written: a need that does not fit must leave the NACK as it is.
        if self.limit - self.used < more {
            return false;
        }
        if joins {
            self.lengthen(items, out);
        } else {
            self.begin(form, flags, items, out);
        }
        push_ends(&first, &last, out);
        true
    }
}

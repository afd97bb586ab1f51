//! The hand-ups that a journal records. One that equals the latest with its instance, part, index and offset is not kept again.

ghost use Rattle.std.specs.Prelude.{◌≡◌, ◌<◌, ◌++◌, ◌∷◌, [], ℕ, length, slice_get, Some, OnOk, OnErr, IfOk, IfSome, IfNone};
ghost use Rattle.std.specs.Bool.{Decides};
ghost use Rattle.norm_record.specs.HandUps.{kept_name, part_of, index_of, IsLatestUp};

use norm_base::{InstanceId, Memory, Octets};
use norm_order::Up;
use std::alloc::Global;
use std::collections::HashMap;
use std::marker::Model;

/// What is handed up in an instance, without the node: several may hand up the same.
#[derive(Drop)]
pub struct HandUp {
    pub instance: InstanceId,
    pub up: Up,
}

/// Hand-ups. Contracts see the list of them. Of each name, the index of the latest one is known.
// Receivers of one sender mostly hand up the same, and then one is kept for all of them.
#[derive(Drop)]
pub(crate) struct Ups {
    kept: Vec<HandUp>,
    latest: HashMap<u128, u32>,
}

impl Model for Ups {
    ghost use Rattle.std.specs.Prelude.{List};
    ghost use Rattle.norm_record.specs.declared.ups.HandUp.{HandUp};
    ghost use Rattle.norm_record.specs.HandUps.{kept_names};
    ghost use Rattle.norm_record.specs.Latest.{FindsLast};

    ghost Value = { List HandUp };

    ghost view = { λ ups. ups.kept.items };

    ghost invariant = { λ ups. FindsLast (kept_names ups.kept.items) ups.latest };
}

/// Which part of its object a hand-up is, counted from 1, and its offset in octets in the stream.
fn part_of(up: &Up) -> (u8, u32)
    ensures { result ≡ part_of up.now }
{
    match up {
        Up::Object { .. } => (1, 0),
        Up::StreamOpen { .. } => (2, 0),
        Up::StreamBytes { offset, .. } => (3, *offset),
        Up::StreamEnd { .. } => (4, 0),
        Up::Lost { .. } => (5, 0),
    }
}

fn index_of(up: &Up) -> u32
    ensures { result ≡ index_of up.now }
{
    match up {
        Up::Object { index, .. }
        | Up::StreamOpen { index }
        | Up::StreamBytes { index, .. }
        | Up::StreamEnd { index }
        | Up::Lost { index } => *index,
    }
}

/// A hand-up's name: its instance, part, index and offset as one number.
#[tactic(auto, unfolding(crate::specs::HandUps::up_name))]
fn up_name(hand_up: &HandUp) -> u128
    ensures { result ≡ kept_name hand_up.now }
{
    let (part, offset) = part_of(&hand_up.up);
    let front = u128::from(hand_up.instance.0) * 256 + u128::from(part);
    (front * 0x1_0000_0000 + u128::from(index_of(&hand_up.up))) * 0x1_0000_0000 + u128::from(offset)
}

fn is_same_info(a: &Option<Octets>, b: &Option<Octets>) -> bool
    ensures { Decides result (a.now ≡ b.now) }
{
    match (a, b) {
        (Some(x), Some(y)) => x == y,
        (None, None) => true,
        _ => false,
    }
}

/// It compares octets, so it costs their length if the two are the same.
fn is_same_up(a: &Up, b: &Up) -> bool
    ensures { Decides result (a.now ≡ b.now) }
{
    match (a, b) {
        (
            Up::Object {
                index,
                kind,
                info,
                bytes,
            },
            Up::Object {
                index: i,
                kind: k,
                info: x,
                bytes: y,
            },
        ) => index == i && kind == k && is_same_info(info, x) && bytes == y,
        (Up::StreamOpen { index }, Up::StreamOpen { index: i }) => index == i,
        (
            Up::StreamBytes {
                index,
                offset,
                bytes,
            },
            Up::StreamBytes {
                index: i,
                offset: o,
                bytes: y,
            },
        ) => index == i && offset == o && bytes == y,
        (Up::StreamEnd { index }, Up::StreamEnd { index: i }) => index == i,
        (Up::Lost { index }, Up::Lost { index: i }) => index == i,
        _ => false,
    }
}

/// Whether two hand-ups are the same, and of one instance.
fn is_same(a: &HandUp, b: &HandUp) -> bool
    ensures { Decides result (a.now ≡ b.now) }
{
    a.instance == b.instance && is_same_up(&a.up, &b.up)
}

impl Ups {
    /// No hand-ups. It takes no memory.
    pub(crate) fn new(alloc: Global) -> Ups
        ensures { result ≡ [] }
    {
        Ups {
            kept: Vec::new(alloc),
            latest: HashMap::new(alloc),
        }
    }

    /// How many are kept. One that several receivers share counts once.
    pub(crate) fn len(&self) -> usize
        ensures { result ≡ length self.now }
    {
        self.kept.len()
    }

    pub(crate) fn kept(&self) -> &[HandUp]
        ensures { result.now ≡ self.now }
    {
        self.kept.as_slice()
    }

    pub(crate) fn hand_up(&self, at: u32) -> &HandUp
        requires { at < length self.now }
        ensures { slice_get self.now at ≡ Some result.now }
    {
        &self.kept[at as usize]
    }

    /// Returns the index of this hand-up if it is the latest with its name. It looks at no earlier one.
    pub(crate) fn find(&self, hand_up: &HandUp) -> Option<u32>
        ensures found { IfSome result (λ at. slice_get self.now at ≡ Some hand_up.now) }
        ensures latest { IfNone result ((at : ℕ) → ¬ IsLatestUp self.now hand_up.now at) }
    {
        let at = *self.latest.get(&up_name(hand_up))?;
        // Never taken: as in `Offers::find`, each index that is kept is one of the list.
        if at as usize >= self.kept.len() {
            return None;
        }
        if is_same(&self.kept[at as usize], hand_up) {
            return Some(at);
        }
        None
    }

    /// Keeps one more hand-up and returns its index. If memory runs out or the index does not fit 32 bits, nothing changes.
    pub(crate) fn keep(&mut self, hand_up: HandUp) -> Result<u32, Memory>
        ensures kept { OnOk result (self.new ≡ self.old ++ hand_up ∷ []) }
        ensures place { IfOk result (λ at. at ≡ length self.old) }
        ensures refused { OnErr result (self.new ≡ self.old) }
    {
        // As in `push_turn` of the journal: 32 bits keep an entry small.
        let Ok(at) = u32::try_from(self.kept.len()) else {
            return Err(Memory);
        };
        let name = up_name(&hand_up);
        self.kept.reserve(1)?;
        self.latest.reserve(1)?;
        self.kept.push_reserved(hand_up);
        let put: Result<_, _> = self.latest.insert(name, at);
        // It does not fail: the map has room for one more.
        put.unwrap();
        Ok(at)
    }
}

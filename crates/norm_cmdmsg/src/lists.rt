//! Iterators over lists of numbers in commands, node ids of 32 bits and object transport ids of 16 bits, and the question whether a list of nodes
//! names one.

ghost use Rattle.std.specs.Prelude.{◌≡◌, ◌==◌, ◌%◌, [], ◌∷◌, MatchOption, length};
ghost use Rattle.std.specs.List.{list_any};
ghost use Rattle.norm_ext.specs.Lists.{nodes_of as all_nodes, objects_of as all_objects};
ghost use Rattle.norm_ext.specs.Places.{node_size, object_size};

use norm_base::NodeId;
use norm_ext::places::{NODE, OBJECT};
use norm_ext::{read_16, read_32};
use std::marker::Model;

/// Iterates over the node ids of a list. They are numbers, since some may be no members.
// `list` has whole numbers: the walk takes four octets at a time, and would read past the end of a rest.
#[derive(Debug, Drop)]
pub struct Nodes<'a> {
    list: &'a [u8],
}

impl<'a> Model for Nodes<'a> {
    ghost use Rattle.std.specs.Prelude.{ℕ, List, ◌≡◌, ◌%◌, length};
    ghost use Rattle.norm_ext.specs.Lists.{nodes_of as all_nodes};
    ghost use Rattle.norm_ext.specs.Places.{node_size};

    ghost Value = { List ℕ };

    ghost view = { λ n. all_nodes n.list.now };

    ghost invariant = { λ n. length n.list.now % node_size ≡ 0 };
}

/// Returns an iterator over the nodes of a FLUSH or an ACK_REQ. Those of a command that was read are whole.
pub fn nodes_of(list: &[u8]) -> Nodes<'_>
    requires { length list.now % node_size ≡ 0 }
    ensures { result ≡ all_nodes list.now }
{
    Nodes { list }
}

/// Whether a list of node ids names this node. Walks the list. A receiver asks this to see if a FLUSH is for it.
pub fn names(list: &[u8], node: NodeId) -> bool
    requires { length list.now % node_size ≡ 0 }
    ensures { result ≡ list_any (λ n. n == node) (all_nodes list.now) }
{
    let wanted = node.number();
    for number in nodes_of(list) {
        if number == wanted {
            return true;
        }
    }
    false
}

fn cut_node(list: &[u8]) -> Option<(u32, &[u8])>
    requires { length list.now % node_size ≡ 0 }
    ensures { MatchOption result
        (all_nodes list.now ≡ [])
        (λ x. (all_nodes list.now ≡ x.0 ∷ all_nodes x.1.now) × (length x.1.now % node_size ≡ 0)) }
{
    if list.is_empty() {
        return None;
    }
    Some((read_32(list, 0), list.split_at(NODE).1))
}

impl<'a> Iterator for Nodes<'a> {
    ghost use Rattle.std.specs.Prelude.{slice_get, drop, length};
    ghost use Rattle.std.specs.Iterator.{at_most};

    type Item = u32;

    ghost remaining = { λ list. at_most (length list) };

    ghost next_gives = { λ old given new. (given ≡ slice_get old 0) × (new ≡ drop 1 old) };

    fn next(&mut self) -> Option<u32> {
        let (node, rest) = cut_node(self.list)?;
        self.list = rest;
        Some(node)
    }
}

/// Iterates over the object transport ids of a list.
// Whole numbers, as for `Nodes`. It is for programs over this crate: a receiver here goes by a SQUELCH's symbol alone.
#[derive(Debug, Drop)]
pub struct Objects<'a> {
    list: &'a [u8],
}

impl<'a> Model for Objects<'a> {
    ghost use Rattle.std.specs.Prelude.{ℕ, List, ◌≡◌, ◌%◌, length};
    ghost use Rattle.norm_ext.specs.Lists.{objects_of as all_objects};
    ghost use Rattle.norm_ext.specs.Places.{object_size};

    ghost Value = { List ℕ };

    ghost view = { λ n. all_objects n.list.now };

    ghost invariant = { λ n. length n.list.now % object_size ≡ 0 };
}

/// Returns an iterator over the objects of a SQUELCH. Those of a command that was read are whole.
pub fn objects_of(list: &[u8]) -> Objects<'_>
    requires { length list.now % object_size ≡ 0 }
    ensures { result ≡ all_objects list.now }
{
    Objects { list }
}

fn cut_object(list: &[u8]) -> Option<(u16, &[u8])>
    requires { length list.now % object_size ≡ 0 }
    ensures { MatchOption result
        (all_objects list.now ≡ [])
        (λ x. (all_objects list.now ≡ x.0 ∷ all_objects x.1.now) × (length x.1.now % object_size ≡ 0)) }
{
    if list.is_empty() {
        return None;
    }
    Some((read_16(list, 0), list.split_at(OBJECT).1))
}

impl<'a> Iterator for Objects<'a> {
    ghost use Rattle.std.specs.Prelude.{slice_get, drop, length};
    ghost use Rattle.std.specs.Iterator.{at_most};

    type Item = u16;

    ghost remaining = { λ list. at_most (length list) };

    ghost next_gives = { λ old given new. (given ≡ slice_get old 0) × (new ≡ drop 1 old) };

    fn next(&mut self) -> Option<u16> {
        let (object, rest) = cut_object(self.list)?;
        self.list = rest;
        Some(object)
    }
}

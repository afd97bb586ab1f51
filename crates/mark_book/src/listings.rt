//! The members of a book: the receivers that were not struck, in their order.

ghost use Rattle.std.specs.Prelude.{◌≡◌, ◌==◌, ◌&&◌, ◌+◌, ◌*◌, ◌<◌, ◌≤◌, ◌^◌, ◌++◌, [], true, not, nat_eq, map, filter, length, slice_get, IfOk};
ghost use Rattle.std.specs.List.{list_any, list_all};
ghost use Rattle.fec_plan.specs.declared.position.Position.{Position};
ghost use Rattle.fec_plan.specs.Points.{reached_by};
ghost use Rattle.norm_ext.specs.Octets.{nodes_octets};
ghost use Rattle.norm_send_rules.specs.SenderState.{Listing, unlisted};
ghost use Rattle.norm_send_rules.specs.Watermarks.{is_past};
ghost use Rattle.norm_send_rules.specs.Hearing.{listed_past};
ghost use Rattle.indexmap.specs.IndexMap.{IsUnique, IsFromIterResult, insert_all};
ghost use Rattle.mark_book.specs.Answers.{once_each};
ghost use Rattle.mark_book.specs.Listed.{none_past, unsaid};
ghost use Rattle.mark_book.specs.BookMoves.{left_of, left_count, past_count, past_in, is_met_by};

use fec_plan::{Position, reached_by};
use indexmap::IndexMap;
use norm_base::{Datagram, NodeId};
use norm_ext::pushing::push_node;
use norm_send_rules::needed_among;
use std::alloc::{AllocError, Global};
use std::marker::Model;

/// The members, and what each is listed past.
#[derive(Debug, Drop)]
pub struct Listings {
    // A map that keeps its order: `shift_remove` takes a struck member out, and those that stay keep the order in which flushes name them.
    past: IndexMap<NodeId, Option<Position>>,
}

impl Model for Listings {
    ghost use Rattle.std.specs.Prelude.{List, map, nat_eq};
    ghost use Rattle.norm_send_rules.specs.SenderState.{Listing};
    ghost use Rattle.indexmap.specs.IndexMap.{IsUnique};
    ghost use Rattle.mark_book.specs.Listed.{listing};

    ghost Value = { List Listing };

    ghost view = { λ l. map listing l.past.entries };

    ghost invariant = { λ l. IsUnique nat_eq l.past };
}

impl Listings {
    /// Lists each of these nodes once, past nothing. The order is that in which they first appear.
    ///
    /// # Errors
    ///
    /// `AllocError` if memory runs out.
    pub fn begun(alloc: Global, nodes: &[NodeId]) -> Result<Listings, AllocError>
        ensures { IfOk result (λ listings. listings ≡ unlisted (once_each nodes.now)) }
    {
        let past = unlisted_nodes(alloc, nodes)?;
        Ok(Listings { past })
    }

    /// Returns how many members there are.
    pub fn len(&self) -> u32
        requires { length self.now < 2 ^ 32 }
        ensures { result ≡ length self.now }
    {
        self.past.len() as u32
    }

    /// Whether a node is a member.
    pub fn lists(&self, node: NodeId) -> bool
        ensures { result ≡ list_any (λ (l : Listing). l.node == node) self.now }
    {
        self.past.contains_key(&node)
    }

    /// Returns what a node is listed past. `None` if it is not a member, or is listed past nothing.
    pub fn past(&self, node: NodeId) -> Option<Position>
        ensures { result ≡ past_in self.now node }
    {
        let past = self.past.get(&node)?;
        *past
    }

    /// Whether a node is a member and not yet listed past `at`.
    pub fn rises(&self, node: NodeId, at: Position) -> bool
        ensures { result ≡ list_any (λ l. l.node == node && not (is_past at l)) self.now }
    {
        match self.past.get(&node) {
            Some(past) => !reached_by(*past, &at),
            None => false,
        }
    }

    /// Lists a member past `at`. Call it only if [`rises`](Listings::rises) is true of both.
    pub fn raise(&mut self, node: NodeId, at: Position)
        requires { list_any (λ l. l.node == node && not (is_past at l)) self.old ≡ true }
        ensures { self.new ≡ map (listed_past node at) self.old }
    {
        // Not taken: `rises` found the member.
        let Some(past) = self.past.get_mut(&node) else {
            return;
        };
        *past = Some(at);
    }

    /// Forgets what each member is listed past. The members stay.
    pub fn forget(&mut self)
        ensures { self.new ≡ unlisted (map (λ (l : Listing). l.node) self.old) }
    {
        forget_all(&mut self.past);
    }

    /// Removes a node from the members, if it is one. The others keep their order.
    pub fn strike(&mut self, node: NodeId)
        ensures left { self.new ≡ filter (λ l. not (l.node == node)) self.old }
        ensures one { length self.old ≤ length self.new + 1 }
    {
        self.past.shift_remove(&node);
    }

    /// Returns how many members are listed past a position.
    pub fn count_past(&self, at: Position) -> u32
        requires { length self.now < 2 ^ 32 }
        ensures { result ≡ past_count self.now at }
    {
        count_reached(self.past.values().as_slice(), at) as u32
    }

    /// Returns how many members are not listed past a position, with those that are listed past nothing.
    pub fn count_left(&self, at: Position) -> u32
        requires { length self.now < 2 ^ 32 }
        ensures { result ≡ left_count self.now at }
    {
        count_short(self.past.values().as_slice(), at) as u32
    }

    /// Whether enough members are listed past a position: `quorum` of them, or all if there is no quorum or it is above their number.
    pub fn is_met(&self, quorum: Option<u32>, at: Position) -> bool
        requires { length self.now < 2 ^ 32 }
        ensures { result ≡ is_met_by self.now quorum at }
    {
        needed_among(self.len(), quorum) <= self.count_past(at)
    }

    /// Returns member `i`, from 0, of those that are not listed past a position. `None` if there are no more.
    pub fn nth_left(&self, at: Position, i: u32) -> Option<NodeId>
        ensures { result ≡ slice_get (left_of self.now at) i }
    {
        let mut left = i;
        for (node, past) in &self.past {
            if !reached_by(*past, &at) {
                if left == 0 {
                    return Some(*node);
                }
                left -= 1;
            }
        }
        None
    }

    /// Appends the nodes of the members that are not listed past a position, 4 octets each.
    pub fn write_left(&self, at: Position, out: &mut Datagram)
        requires { length out.old + 4 * length self.now ≤ 1500 }
        ensures { out.new ≡ out.old ++ nodes_octets (left_of self.now at) }
    {
        for (node, past) in &self.past {
            if !reached_by(*past, &at) {
                push_node(*node, out);
            }
        }
    }

    /// Returns the least position that a member is listed past. `None` if one is listed past nothing.
    pub fn least(&self) -> Option<Position>
        requires { 0 < length self.now }
        ensures { (at : Position) → list_all (is_past at) self.now ≡ reached_by result at }
    {
        least_of(self.past.values().as_slice())
    }
}

/// Lists each of these nodes once, past nothing. The order is that in which they first appear.
///
/// # Errors
///
/// `AllocError` if memory runs out.
fn unlisted_nodes(
    alloc: Global,
    nodes: &[NodeId],
) -> Result<IndexMap<NodeId, Option<Position>>, AllocError>
    ensures { IfOk result (λ m. (m.entries ≡ insert_all nat_eq [] (map none_past nodes.now)) × IsFromIterResult nat_eq (map none_past nodes.now) m) }
{
    nodes.iter().map(|node| (*node, None)).collect(alloc)
}

fn forget_all(past: &mut IndexMap<NodeId, Option<Position>>)
    ensures forgotten { past.new.entries ≡ map unsaid past.old.entries }
    ensures unique { IsUnique nat_eq past.new }
{
    // Proof: by index, since a map's values go by index in what is said of them.
    for place in 0..past.len() {
        past[place] = None;
    }
}

/// Returns how many of these reach a position. `None` reaches none.
fn count_reached(listed: &[Option<Position>], at: Position) -> usize
    ensures { result ≡ length (filter (λ o. reached_by o at) listed.now) }
{
    listed.iter().filter(|past| reached_by(**past, &at)).count()
}

/// Returns how many of these do not reach a position. `None` reaches none.
fn count_short(listed: &[Option<Position>], at: Position) -> usize
    ensures { result ≡ length (filter (λ o. not (reached_by o at)) listed.now) }
{
    listed
        .iter()
        .filter(|past| !reached_by(**past, &at))
        .count()
}

/// Returns the least of these. `None` if one of them is `None`.
fn least_of(listed: &[Option<Position>]) -> Option<Position>
    requires { 0 < length listed.now }
    ensures { (at : Position) → list_all (λ o. reached_by o at) listed.now ≡ reached_by result at }
{
    let mut least = listed[0]?;
    for past in listed {
        least = (*past)?.nearer(least);
    }
    Some(least)
}

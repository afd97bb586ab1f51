//! Laws of the sender's rules. Each law is the contract of a function that does nothing.

ghost use Rattle.norm_send_rules.specs.DropLaws.{DropLaws};
ghost use Rattle.norm_send_rules.specs.Laws.{RefusedLeaves, ClosingLaws, WantLaws, NewLaws, NextLaws};
ghost use Rattle.norm_send_rules.specs.ListingLaws.{ListingLaws};
ghost use Rattle.norm_send_rules.specs.NoneForgotten.{NoneForgotten};
ghost use Rattle.norm_send_rules.specs.Reached.{ReachedLaws};
ghost use Rattle.norm_send_rules.specs.RepairLaws.{RepairLaws};
ghost use Rattle.norm_send_rules.specs.RoomLaws.{RoomLaws};
ghost use Rattle.norm_send_rules.specs.TickLaws.{TickLaws};

/// A refused command leaves the state as it was, except that a mark cuts the open stream first. It does not if its quorum is refused. Want
/// of memory is no refusal here.
#[tactic(auto, using(crate::proofs::RefusedLemmas::refused_leaves))]
pub fn refused_leaves()
    ensures { RefusedLeaves }
{}

/// If the wants are in order, none twice, and in the window, closing a round keeps them so.
#[tactic(auto, using(crate::proofs::ClosingLemmas::closing_laws))]
pub fn closings()
    ensures { ClosingLaws }
{}

/// What a sender wants to send again is always an info or an encoded symbol of the order, not before the drop point. The first want is the
/// lowest.
#[tactic(auto, using(crate::proofs::StepLemmas::want_laws))]
pub fn wants()
    ensures { WantLaws }
{}

/// What holds in every state that a sender reaches. Its wants are in its window, its objects fit the profile, and watermarks are numbered
/// from 1 on. Each change to report is of a member that is listed or of a watermark that was made. If there is nothing to report, asking for
/// news changes nothing.
// Proof: that an order grew is a recursion over two lists of shapes (HaveAll).
#[tactic(auto, using(crate::proofs::ReachedLemmas::reached_laws))]
pub fn reached()
    ensures { ReachedLaws }
{}

/// What is sent next without a request is an info or an encoded symbol of the order. It was not dropped, and it is after the last one sent
/// so: each is new once.
#[tactic(auto, using(crate::proofs::NewLemmas::new_laws))]
pub fn what_is_new()
    ensures { NewLaws }
{}

/// What is sent next without a request, object by object. It is the first of the current object that is neither before the state's `next`
/// nor before the drop point. If there is none, it is the first of the objects after it. At the end of the order it is nothing.
#[tactic(auto, using(crate::proofs::NextLemmas::next_laws))]
pub fn what_is_new_next()
    ensures { NextLaws }
{}

/// If an object fits an empty window, making room for it leaves enough, and dropping one object fewer would not. It is refused for want of
/// room if and only if no prefix of the window that may be dropped leaves enough.
#[tactic(auto, using(crate::proofs::RoomLemmas::room_laws))]
pub fn room()
    ensures { RoomLaws }
{}

/// Two datagrams of a sender are at least a gap apart, unless the second is sent at the last moment that 64 bits count. A tick ends at most one
/// watermark, the oldest open one.
#[tactic(auto, using(crate::proofs::MomentLemmas::tick_laws))]
pub fn ticks()
    ensures { TickLaws }
{}

/// Fresh parity was never sent in the instance. If all source symbols of a block are closed and a receiver lacks at most as many symbols of
/// it as a request counts, the repairs for that count let it decode the block.
#[tactic(auto, using(crate::proofs::RepairLemmas::repair_laws))]
pub fn repairs()
    ensures { RepairLaws }
{}

/// Within an instance, no listing of a member goes back.
#[tactic(auto, using(crate::proofs::ListingLemmas::listing_laws))]
pub fn listings()
    ensures { ListingLaws }
{}

/// No want is forgotten. After each step it is still wanted, or the step sent it, or it is before the drop point and a squelch is due, or
/// another instance began.
pub fn none_forgotten()
    ensures { NoneForgotten }
{}

/// Within an instance, the drop point never goes back.
#[tactic(auto, using(crate::proofs::DropLemmas::drop_laws))]
pub fn drops()
    ensures { DropLaws }
{}

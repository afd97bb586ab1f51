//! A sender that is not in the middle of a file between two calls.

use norm_base::{Datagram, InstanceId, Memory, Moment, Octets, Origin, Profile, Sent};
use norm_send_rules::{Job, MarkFault, News, Receipt, SendFault};
use norm_sender::Sender;
use std::alloc::Global;
use std::marker::Model;

/// A sender whose calls may come in any order, because a file that a call begins is ended or given up in the same call.
// A type of its own for one fact: no file is begun between two calls. So each call of a sender may come, and its condition needs no clause here.
#[derive(Drop)]
pub struct Driven {
    sender: Sender,
}

impl Model for Driven {
    ghost use Rattle.std.specs.Prelude.{◌≡◌, None};
    ghost use Rattle.norm_sender.specs.SenderKept.{SenderKept};

    ghost Value = { SenderKept };

    ghost view = { λ driven. driven.sender };

    ghost invariant = { λ driven. driven.sender.window.filling ≡ None };
}

impl Driven {
    /// Returns a new sender.
    ///
    /// # Errors
    ///
    /// `Memory` if memory runs out.
    pub fn new(alloc: Global, profile: &Profile, instance: InstanceId) -> Result<Driven, Memory> {
        let sender = Sender::new(alloc, profile, instance)?;
        Ok(Driven { sender })
    }

    /// Hands the sender a datagram, of any octets. Takes no memory.
    pub fn deliver(&mut self, bytes: &[u8], now: Moment) {
        self.sender.deliver(bytes, now);
    }

    /// Lets the sender write its next datagram, if one is due.
    pub fn tick(&mut self, now: Moment, out: &mut Datagram) -> Sent {
        self.sender.tick(now, out)
    }

    /// Gives the sender a command. If the sender refuses it, its octets are dropped.
    pub fn command(&mut self, by: Origin, job: Job, now: Moment) -> Result<Receipt, SendFault> {
        match self.sender.command(by, job, now) {
            Ok(receipt) => Ok(receipt),
            Err((_given_back, fault)) => Err(fault),
        }
    }

    /// Cuts the open stream, and makes a watermark that all members shall be past. If it is refused, the stream may be cut all the same.
    pub fn mark(&mut self) -> Result<Receipt, MarkFault> {
        self.sender.mark(None)
    }

    /// Begins another instance. Nothing changes if its id is refused.
    pub fn restart(&mut self, instance: InstanceId) -> Result<Receipt, SendFault> {
        self.sender.restart(instance)
    }

    /// Returns the sender's next change to report. `None` if there is none.
    pub fn news(&mut self) -> Option<News> {
        self.sender.news()
    }

    /// Borrows the sender to read its state.
    pub fn sender(&self) -> &Sender {
        &self.sender
    }

    /// Enqueues a file in two pieces. The first has `first` octets, or all of them if there are fewer. If the sender refuses it, its name is dropped.
    pub fn file_in_two(
        &mut self,
        by: Origin,
        name: Octets,
        octets: &[u8],
        first: usize,
    ) -> Result<Receipt, SendFault> {
        let cut = first.min(octets.len());
        let (front, back) = octets.split_at(cut);
        let len = front.len() as u64 + back.len() as u64;
        match self.sender.begin_file(name, len) {
            Ok(()) => {
                self.sender.file_piece(front);
                self.sender.file_piece(back);
                Ok(self.sender.end_file(by, Moment(0)))
            }
            Err((_given_back, fault)) => Err(fault),
        }
    }

    /// Begins a file that has `missing` octets more than `piece`, adds `piece`, and gives the file up. Returns whether the file was begun.
    pub fn file_given_up(&mut self, name: Octets, piece: &[u8], missing: u32) -> bool {
        let len = piece.len() as u64 + u64::from(missing);
        match self.sender.begin_file(name, len) {
            Ok(()) => {
                self.sender.file_piece(piece);
                self.sender.leave_file();
                true
            }
            Err(_) => false,
        }
    }
}

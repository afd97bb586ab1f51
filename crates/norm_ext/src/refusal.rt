//! Why octets are refused: the errors of all readers of messages.

/// The first thing that is wrong with a datagram. If several apply, the first in the order of the variants is reported. Of a list of requests,
/// only the first bad request counts. `at` is an offset in the datagram.
#[derive(Clone, Copy, Debug, PartialEq, Eq)]
pub enum Refusal {
    /// The datagram is shorter than the common header.
    Short { len: usize },
    /// The version is not 1.
    Version { v: u8 },
    /// The type is not 1 to 6, or not the one that was expected.
    BadType { t: u8 },
    /// The header's length is less than the least for this message.
    HeaderLength { words: u8, least: u8 },
    /// The datagram is shorter than its header says.
    PastEnd { words: u8, len: usize },
    /// The FEC Encoding ID is not 5.
    FecId { id: u8 },
    /// The command's sub-type is not 1 to 7.
    SubType { s: u8 },
    /// An extension has length 0, or does not end within the header.
    Ext { at: usize },
    /// The form of a request is not 1 to 3.
    RequestForm { at: usize },
    /// A request does not end within the datagram, or its length is not a whole number of items (of pairs of items, if its form is ranges).
    RequestLength { at: usize },
    /// The FEC Encoding ID of an item is not 5, in a request or in a flush acknowledgement.
    ItemFec { at: usize, id: u8 },
    /// The source, or the sender that feedback names, is 0 or 4294967295, which no member can be.
    BadNode,
    /// `rest` octets are left over at the end of a list of nodes or objects, or after the header of an EOT. Or a flush acknowledgement has `rest`
    /// octets of content and not the eight of an item.
    BadList { rest: usize },
}

/// The first thing that is wrong with a list of header extensions. `at` is the offset of the bad one.
#[derive(Clone, Copy, Debug, PartialEq, Eq)]
pub enum ExtFault {
    /// The length of an extension is 0, so a walk over the list would never end.
    ZeroLength { at: usize },
    /// An extension does not end within the list, or fewer than four octets are left for it.
    Overrun { at: usize },
}

//! The offsets of the fields of messages, and the lengths of their headers without extensions (RFC 5740 section 4). Offsets count from the
//! beginning of the datagram, except in requests and items.

/// The octets of a word. A header's length counts words.
// RFC 5740 section 4.1: hdr_len counts words of 32 bits.
pub const WORD: usize = 4;
/// The octets of a node id.
// RFC 5740 section 4.1: a node id has 32 bits.
pub const NODE: usize = 4;
/// The octets of an object transport id.
// RFC 5740 section 4.2.1: an object transport id has 16 bits.
pub const OBJECT: usize = 2;

/// The offset of the header's length, which counts words of 32 bits.
// From here to `COMMON_WORDS`: the common header of RFC 5740 section 4.1.
pub const WORDS_AT: usize = 1;
/// The offset of the sequence number, of 16 bits.
pub const SEQUENCE_AT: usize = 2;
/// The offset of the source's node id.
pub const SOURCE_AT: usize = 4;
/// The octets of the common header.
pub const COMMON: usize = 8;
/// The words of the common header, and of the shortest header: that of a REPORT.
pub const COMMON_WORDS: u8 = 2;

/// The offset of the instance, of 16 bits, except in feedback.
// From here to `NAME_AT`: the sender's messages, RFC 5740 sections 4.2.1 to 4.2.3. An ACK has its type and id at the same octets as an
// ACK_REQ.
pub const INSTANCE_AT: usize = 8;
/// The offset of the group's round trip time, in the RFC's code of one octet.
pub const GRTT_AT: usize = 10;
/// The offset of the octet with the back-off factor (high four bits) and the group size (low four bits).
pub const SIZES_AT: usize = 11;
/// The offset of the flags of INFO and DATA.
pub const FLAGS_AT: usize = 12;
/// The offset of a command's sub-type. The octets after it depend on it.
pub const SUB_TYPE_AT: usize = 12;
/// The offset of the FEC Encoding ID in INFO, DATA, FLUSH and SQUELCH.
pub const ENCODING_AT: usize = 13;
/// The offset of the flags of a REPAIR_ADV.
pub const ADV_FLAGS_AT: usize = 13;
/// The offset of the object transport id in INFO, DATA, FLUSH and SQUELCH.
pub const OBJECT_AT: usize = 14;
/// The offset of an acknowledgement's type, also in ACK_REQ.
pub const ACK_TYPE_AT: usize = 14;
/// The offset of an acknowledgement's id, also in ACK_REQ.
pub const ACK_ID_AT: usize = 15;
/// The offset of the symbol's name in DATA, FLUSH and SQUELCH: four octets.
pub const NAME_AT: usize = 16;
/// The offset of the sender's node id in feedback.
// These two are of feedback, in a layout of our own after RFC 5740 sections 4.3.1 and 4.3.2: it names the sender that it is for, and then that
// sender's instance.
pub const SENDER_AT: usize = 8;
/// The offset of the sender's instance in feedback, of 16 bits.
pub const FEEDBACK_INSTANCE_AT: usize = 12;

/// The words of an INFO header without extensions. `INFO` has the same in octets.
// These and the next: a header that says fewer words is refused, so each field can be read without a further look at the length.
pub const INFO_WORDS: u8 = 4;

pub const INFO: usize = 16;
/// The words of a DATA header without extensions. `DATA` has the same in octets.
pub const DATA_WORDS: u8 = 5;

pub const DATA: usize = 20;
/// The words of a command's header without extensions, except a FLUSH's and a SQUELCH's. `COMMAND` has the same in octets.
pub const COMMAND_WORDS: u8 = 4;

pub const COMMAND: usize = 16;
/// The words of the header of a FLUSH or a SQUELCH, which name a symbol, without extensions. `NAMING` has the same in octets.
pub const NAMING_WORDS: u8 = 5;

pub const NAMING: usize = 20;
/// The words of a feedback header without extensions. `FEEDBACK` has the same in octets.
// The headers of NACK and ACK end with the RFC's time stamp of 64 bits. Without congestion control it is written as 0.
pub const FEEDBACK_WORDS: u8 = 6;

pub const FEEDBACK: usize = 24;

/// The octets of a request before its items. `ITEMS_LENGTH_AT` is the offset of their length in it.
// After RFC 5740 section 4.3.1: form, flags and 16 bits of length.
pub const REQUEST: usize = 4;

pub const ITEMS_LENGTH_AT: usize = 2;
/// The octets of an item. The next two are the offsets of the object transport id and of the symbol's name in it.
// After RFC 5740 section 4.3.1: the encoding id, a reserved octet, the object and the payload id of RFC 5510 section 5.1.
pub const ITEM: usize = 8;

pub const ITEM_OBJECT_AT: usize = 2;

pub const ITEM_NAME_AT: usize = 4;

//! The codes of message types, of command sub-types, of request forms and of flags (RFC 5740 section 4).

ghost use Rattle.std.specs.Prelude.{◌≡◌, IfSome};
ghost use Rattle.norm_ext.specs.Numbers.{type_number, type_of, sub_type_number, sub_type_of, form_number, form_of};

/// The type of a message (RFC 5740 section 4.1).
#[derive(Clone, Copy, Debug, PartialEq, Eq)]
pub enum MessageType {
    Info = 1,
    Data = 2,
    Command = 3,
    Nack = 4,
    Ack = 5,
    Report = 6,
}

impl MessageType {
    /// Returns its code, from 1 to 6.
    pub fn number(self) -> u8
        ensures { result ≡ type_number self }
    {
        self as u8
    }

    /// Returns the type with this code, or `None` if it is not 1 to 6.
    pub fn of(number: u8) -> Option<MessageType>
        ensures { result ≡ type_of number }
    {
        match number {
            1 => Some(MessageType::Info),
            2 => Some(MessageType::Data),
            3 => Some(MessageType::Command),
            4 => Some(MessageType::Nack),
            5 => Some(MessageType::Ack),
            6 => Some(MessageType::Report),
            _ => None,
        }
    }
}

/// The sub-type of a command (RFC 5740 section 4.2.3).
#[derive(Clone, Copy, Debug, PartialEq, Eq)]
pub enum SubType {
    Flush = 1,
    EndOfTransmission = 2,
    Squelch = 3,
    CongestionControl = 4,
    RepairAdvertisement = 5,
    AckRequest = 6,
    Application = 7,
}

impl SubType {
    /// Returns its code, from 1 to 7.
    pub fn number(self) -> u8
        ensures { result ≡ sub_type_number self }
    {
        self as u8
    }

    /// Returns the sub-type with this code, or `None` if it is not 1 to 7.
    pub fn of(number: u8) -> Option<SubType>
        ensures exact { result ≡ sub_type_of number }
        ensures number { IfSome result (λ sub_type. sub_type_number sub_type ≡ number) }
    {
        match number {
            1 => Some(SubType::Flush),
            2 => Some(SubType::EndOfTransmission),
            3 => Some(SubType::Squelch),
            4 => Some(SubType::CongestionControl),
            5 => Some(SubType::RepairAdvertisement),
            6 => Some(SubType::AckRequest),
            7 => Some(SubType::Application),
            _ => None,
        }
    }
}

/// The form of a repair request (RFC 5740 section 4.3.1).
#[derive(Clone, Copy, Debug, PartialEq, Eq)]
pub enum Form {
    Items = 1,
    Ranges = 2,
    Erasures = 3,
}

impl Form {
    /// Returns the octet with which a request begins, from 1 to 3.
    pub fn number(self) -> u8
        ensures { result ≡ form_number self }
    {
        self as u8
    }

    /// Returns the form with this code, or `None` if it is not 1 to 3.
    pub fn of(number: u8) -> Option<Form>
        ensures { result ≡ form_of number }
    {
        match number {
            1 => Some(Form::Items),
            2 => Some(Form::Ranges),
            3 => Some(Form::Erasures),
            _ => None,
        }
    }
}

/// The bits of flags: six of INFO and DATA, and four (`WANT_`) of repair requests. The two items of a range name all from the first to the second.
pub mod flags {
    /// INFO and DATA: sent because it was requested, and not by itself.
    // These six: NORM_FLAG_ of RFC 5740 section 4.2.1.
    pub const REPAIR: u8 = 0x01;
    /// INFO and DATA: requested by its own name. Our sender sets it on each info and source symbol that it repeats.
    pub const EXPLICIT: u8 = 0x02;
    /// INFO and DATA: the object has an info.
    pub const INFO: u8 = 0x04;
    /// INFO and DATA: the sender repairs nothing of the object. It is neither set nor looked at here.
    pub const UNRELIABLE: u8 = 0x08;
    /// INFO and DATA: the object is a file, unless `STREAM` is set too.
    pub const FILE: u8 = 0x10;
    /// INFO and DATA: the object is a stream.
    pub const STREAM: u8 = 0x20;
    /// A request for the symbols that its items name. For erasures: for as many symbols of a block as the item says.
    // These four: NORM_NACK_ of RFC 5740 section 4.3.1.
    pub const WANT_SEGMENT: u8 = 0x01;
    /// A request for the whole blocks that its items name. For erasures the same as `WANT_SEGMENT`.
    pub const WANT_BLOCK: u8 = 0x02;
    /// A request for the infos of the objects that its items name. For erasures nothing.
    pub const WANT_INFO: u8 = 0x04;
    /// A request for the whole objects that its items name, without their infos. For erasures nothing.
    pub const WANT_OBJECT: u8 = 0x08;
}

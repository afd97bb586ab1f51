//! How a message names a symbol (RFC 5510 section 5.1). The codec of messages reads and writes it.

ghost use Rattle.std.specs.Prelude.{◌≡◌};
ghost use Rattle.fec_plan.specs.Payload.{name_octets, IsName};

use std::marker::Model;

/// The FEC Payload ID of FEC Encoding ID 5: the source block number, below 16,777,216, and the encoding symbol id.
// The block fits 24 bits always. With one that did not, the id would overflow the 32 bits in which it is written.
#[derive(Clone, Copy, Debug, PartialEq, Eq)]
pub struct PayloadId {
    pub block: u32,
    pub symbol: u8,
}

impl Model for PayloadId {
    ghost use Rattle.fec_plan.specs.Payload.{Name};
    ghost use Rattle.fec_plan.specs.Points.{IsBlock};

    ghost Value = { Name };

    ghost view = { λ id. record { block = id.block; symbol = id.symbol } };

    ghost invariant = { λ id. IsBlock id.block };

    ghost inverse = { λ name. record { block = name.block; symbol = name.symbol } };
}

impl PayloadId {
    /// Returns the id in these octets. Any octets are one.
    // Only tests call it: the readers of messages call `read_name` of `norm_ext`. It stays for programs over this crate.
    pub fn read(bytes: [u8; 4]) -> PayloadId
        ensures { name_octets result ≡ bytes }
    {
        let name = u32::from_be_bytes(bytes);
        PayloadId {
            block: name / 256,
            symbol: (name % 256) as u8,
        }
    }

    /// Returns the octets of the id: 24 bits of block, then 8 of symbol.
    pub fn bytes(&self) -> [u8; 4]
        ensures octets { result ≡ name_octets self.now }
        ensures widths { IsName self.now }
    {
        (256 * self.block + u32::from(self.symbol)).to_be_bytes()
    }
}

//! The FEC Object Transmission Information of FEC Encoding ID 5, as a header extension (RFC 5510 section 5.2.4.1).
//! A sender puts [`fti_words`] into each INFO and DATA. A receiver, `norm_udp` and `norm_show` get it back with [`read_fti`].

ghost use Rattle.std.specs.Prelude.{◌≡◌, ◌+◌, ◌≤◌, ◌++◌, [], ◌∷◌, length};
ghost use Rattle.norm_base.specs.Sizes.{datagram_room};
ghost use Rattle.norm_ext.specs.Extensions.{fti_in, fti_of, fti_extension, extension_octets, extensions_of, IsChecked};

use crate::extensions::Extensions;
use crate::numbers::{read_16, read_48};
use norm_base::Datagram;
use std::marker::Model;

/// The type of the extension.
// RFC 5740 section 4.1, EXT_FTI.
pub const FTI_TYPE: u8 = 64;
// After RFC 5510 section 5.2.4.1: 48 bits of L, 16 of E, 8 of B and 8 of max_n behind type and length.
const FTI_WORDS: u8 = 3;
// Three words without the octets of the type and the length.
const CONTENT: usize = 10;
/// The offsets of the fields in the content.
// The order of RFC 5510 section 5.2.4.1.
const L_AT: usize = 0;

const E_AT: usize = 6;

const B_AT: usize = 8;

const MAX_N_AT: usize = 9;

/// How an object is cut: its length in octets (below 2^48), the octets of a symbol, the most source symbols of a block, and the most encoding
/// symbols of a block. For a stream, our sender writes the length of its buffer as `l`.
// The length is below 2^48, as many bits as it is written with. A longer one would be read as another.
#[derive(Clone, Copy, Debug, PartialEq, Eq)]
pub struct Fti {
    pub l: u64,
    pub e: u16,
    pub b: u8,
    pub max_n: u8,
}

impl Model for Fti {
    ghost use Rattle.norm_ext.specs.Extensions.{Fti as Sizes, IsLength};

    ghost Value = { Sizes };

    ghost view = { λ f. record { l = f.l; e = f.e; b = f.b; max_n = f.max_n } };

    ghost invariant = { λ f. IsLength f.l };

    ghost inverse = { λ f. record { l = f.l; e = f.e; b = f.b; max_n = f.max_n } };
}

/// Reads an extension's content. No value is checked here: a receiver makes a `Plan` of them, which may refuse.
fn fti_from(content: &[u8]) -> Fti
    requires { length content.now ≡ 10 }
    ensures { result ≡ fti_in content.now }
{
    Fti {
        l: read_48(content, L_AT),
        e: read_16(content, E_AT),
        b: content[B_AT],
        max_n: content[MAX_N_AT],
    }
}

/// Reads the first extension of type 64 that has three words. Others of this type are passed over. `None` if there is none.
pub fn read_fti(exts: Extensions<'_>) -> Option<Fti>
    ensures { result ≡ fti_of exts.entry }
{
    for (kind, content) in exts {
        if kind == FTI_TYPE && content.len() == CONTENT {
            return Some(fti_from(content));
        }
    }
    None
}

/// Returns the extension as twelve octets, which a message can borrow as its list of extensions.
// An array, because a message lends its extensions from elsewhere: so making them takes no memory.
pub fn fti_words(fti: &Fti) -> [u8; 12]
    ensures octets { result ≡ extension_octets (fti_extension fti.now) }
    ensures list { extensions_of result ≡ fti_extension fti.now ∷ [] }
    ensures whole { IsChecked result }
{
    let Fti { l, e, b, max_n } = *fti;
    let [_, _, l0, l1, l2, l3, l4, l5] = l.to_be_bytes();
    let [e0, e1] = e.to_be_bytes();
    [
        FTI_TYPE, FTI_WORDS, l0, l1, l2, l3, l4, l5, e0, e1, b, max_n,
    ]
}

/// Appends the twelve octets of the extension to a datagram.
// It is for programs over this crate that write extensions by themselves.
pub fn write_fti(fti: &Fti, out: &mut Datagram)
    requires { length out.old + 12 ≤ datagram_room }
    ensures { out.new ≡ out.old ++ extension_octets (fti_extension fti.now) }
{
    out.push(&fti_words(fti));
}

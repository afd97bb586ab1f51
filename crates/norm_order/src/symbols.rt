//! The octets of a symbol as it is coded.

ghost use Rattle.std.specs.Prelude.{◌≡◌, ◌≤◌, length};
ghost use Rattle.norm_order.specs.Symbols.{padded};

/// Fills a symbol with `octets`, then zeros. A receiver calls it for each symbol that it keeps: the last source symbol of an object, and a
/// segment that was cut or ends a stream, may be sent with fewer octets than a symbol has.
pub fn put_padded(symbol: &mut [u8], octets: &[u8])
    requires { length octets.now ≤ length symbol.old }
    ensures { symbol.new ≡ padded (length symbol.old) octets.now }
{
    let (front, back) = symbol.split_at_mut(octets.len());
    front.copy_from_slice(octets);
    back.fill(0);
}

//! What becomes of an offer's copies: [`Fate`].

/// What becomes of a datagram on its way to one member.
#[derive(Clone, Copy, Debug, PartialEq, Eq)]
pub struct Fate {
    /// How often it comes. 0 if it is lost.
    pub copies: u8,
    /// After how many further kept offers of any member it is ready. 0 if at once.
    pub after: u32,
}

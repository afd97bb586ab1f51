//! What a sender reports: how far members have confirmed, and how watermarks ended. A session prints it as `past` and `done`.

use fec_plan::Position;
use norm_base::NodeId;

/// What became of a watermark.
#[derive(Clone, Copy, Debug, PartialEq, Eq)]
pub enum Outcome {
    /// It has not ended, and this many members have not confirmed it.
    Open { left: u32 },
    /// Enough members had confirmed it.
    Satisfied,
    /// The sender gave it up. This many members had not confirmed it then.
    Expired { left: u32 },
    /// The sender was restarted while it was open.
    Cut,
}

/// A change that a sender reports once.
#[derive(Clone, Copy, Debug, PartialEq, Eq)]
pub enum News {
    /// This member is now listed past `at`.
    Past { node: NodeId, at: Position },
    /// This watermark ended, with this outcome, which is never `Open`.
    Done { mark: u32, outcome: Outcome },
}

//! A run that persists: `send --persist`. It makes commands of its own, of producer 0: it marks for as long as somebody lacks something, and
//! strikes who stays silent. The rule is `specs/Persisting`, the judge of such a run `specs/Accepting`. [`Accounts`] is what a run keeps for it.
#![tactic(auto)]

mod account;
mod accounts;
pub mod laws;
mod ledger;
mod lines;
mod report;

pub use crate::account::Account;
pub use crate::accounts::Accounts;
pub use crate::ledger::Ledger;
pub use crate::lines::lacks_line;
pub use crate::report::{Report, Verdict, verdict_of};

//! What `relay` reads and says, but for what it does: the events that its lines are ([`LineEvent`]), how they end ([`RelayEnd`]), why two sessions
//! are not relayed ([`NoRelay`]), and the sentences of standard error on them. `driven_nodes` relays by them, and `norm_endings` prints them.
#![tactic(auto)]

mod ends;
mod event;
mod reason;

pub use crate::ends::{Losses, NoEvent, NoRelay, Patience, RelayEnd};
pub use crate::event::{LineEvent, event_in, why_no_event};
pub use crate::reason::{is_told, say_command, say_no_relay, say_relayed};

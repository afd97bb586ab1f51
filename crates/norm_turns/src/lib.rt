//! What the runs of a session and of one node have in common (RFC 5740 section 5): why they stop ([`SessionFault`]), their draws, the moments
//! of their turns, the most takes of a turn ([`MOST_TAKES`]), the lines that they print, and what those say to a sink that counts.
//! `norm_session`, `norm_node`, `norm_tail`, `driven_nodes` and `norm_program` use it.
#![tactic(auto)]

mod draws;
mod fault;
pub mod laws;
mod limits;
mod moments;
mod noticing;
mod printing;
mod telling;

pub use crate::draws::{first_draws, next_draw};
pub use crate::fault::SessionFault;
pub use crate::limits::MOST_TAKES;
pub use crate::moments::moment_of;
pub use crate::noticing::{gave_notice, news_notice, up_notice};
pub use crate::printing::{write_end, write_line, write_up};
pub use crate::telling::{left_by, write_news};

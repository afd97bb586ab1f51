//! How the program ends: an [`Ending`] says why, [`Status`] is its exit status, and [`explain`] says on standard error what it is about. Commands write
//! the last line with [`say`] and [`stop_session`], read the input whole with [`read_input`], and load a profile with [`load`]. `norm_program` has
//! the commands.
#![tactic(auto)]

mod input;
mod last_line;
mod mirror_reason;
mod profiles;
mod reason;
mod status;
mod usage;

pub use crate::input::read_input;
pub use crate::last_line::{end_session, refused_line, say, stop_session};
pub use crate::profiles::{copy_of, load, refuse_profile};
pub use crate::reason::{explain, explain_no_text, needed, say_cause};
pub use crate::status::{Ending, NoTail, ProfileFault, Status};

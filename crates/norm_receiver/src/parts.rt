//! The fields of a [`Receiver`](crate::Receiver): `Parts`, whose methods are in other files.

use crate::numbers::Numbers;
use norm_base::Profile;
use rx_heard::{Asked, Heard};
use rx_hold::Hold;

/// The state of a receiver. `asked` is only a buffer for the requests of one message.
// It stands here so that reading them takes no new memory once the room is there.
#[derive(Debug, Drop)]
pub(crate) struct Parts {
    pub profile: Profile,
    // `hold` is what the rules call `holding`. `heard` and `numbers` are the rest of their state.
    pub hold: Hold,
    pub heard: Heard,
    pub numbers: Numbers,
    pub asked: Asked,
}

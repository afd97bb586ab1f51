//! Who learns that a sender goes on in another instance: [`Restarts`].

use norm_base::InstanceId;

/// Who learns of a sender's restarts before anything of the new instance is sent.
pub trait Restarts {
    /// Reports that the sender goes on in this instance. Called after the line of the restart was written.
    fn restarted(&mut self, instance: InstanceId);
}

/// For a process that keeps no instances: `None` ignores each restart.
impl<T: Restarts> Restarts for Option<T> {
    fn restarted(&mut self, instance: InstanceId) {
        match self {
            Some(one) => one.restarted(instance),
            None => {}
        }
    }
}

//! What the nodes of a tail hand up and report: [`TailStep`].

use norm_base::NodeId;
use norm_order::Up;
use norm_send_rules::News;

/// One hand-up of a receiver, or one change that the sender reported.
#[derive(Drop)]
pub enum TailStep {
    Up { node: NodeId, up: Up },
    News(News),
}

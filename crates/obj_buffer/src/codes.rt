//! The [`Codes`] of a plan's blocks (RFC 5052 section 9.1, RFC 5510 section 8.2).

ghost use Rattle.std.specs.Prelude.{◌≡◌, ◌<◌, ◌≤◌, IfOk};
ghost use Rattle.fec_plan.specs.Partition.{blocks};
ghost use Rattle.std.specs.Arc.{arc_value};
ghost use Rattle.obj_buffer.specs.Codes.{IsCodeOf};

use crate::table::CodeTable;
use fec_plan::Plan;
use norm_base::Memory;
use rs_block::Code;
use std::alloc::Global;
use std::marker::Model;
use std::sync::Arc;

/// The codes of the blocks of one plan. Blocks have one length or two. If there are two, the longer blocks come first.
// Each code is made for the length of its blocks. With any other one, receivers could not decode the parity.
#[derive(Debug, Drop)]
pub struct Codes {
    plan: Plan,
    first: Arc<Code, Global>,
    last: Option<Arc<Code, Global>>,
}

impl Model for Codes {
    ghost use Rattle.fec_plan.specs.Partition.{Cut};
    ghost use Rattle.std.specs.Prelude.{option_map};
    ghost use Rattle.std.specs.Arc.{arc_value};
    ghost use Rattle.obj_buffer.specs.Codes.{AreCodes};

    ghost Value = { Cut };

    ghost view = { λ c. c.plan };

    ghost invariant = { λ c. AreCodes c.plan (arc_value c.first) (option_map arc_value c.last) };
}

/// Returns the code of a block. Makes it if the table lacks it.
///
/// # Errors
///
/// `Memory` if memory runs out.
#[tactic(auto, using(fec_plan::proofs::PartitionLemmas::some_sources, fec_plan::proofs::PartitionLemmas::sources_fit))]
fn code_of(
    alloc: Global,
    table: &mut CodeTable,
    plan: &Plan,
    block: u32,
) -> Result<Arc<Code, Global>, Memory>
    requires { block < blocks plan.now }
    ensures { IfOk result (λ code. IsCodeOf plan.now block (arc_value code)) }
{
    table.code(alloc, plan.source_len(block), plan.encoded_len(block))
}

impl Codes {
    /// Returns the codes of the plan's blocks. Takes them from the table, which makes and keeps one if it lacks it.
    ///
    /// # Errors
    ///
    /// `Memory` if memory runs out.
    pub fn of(alloc: Global, table: &mut CodeTable, plan: &Plan) -> Result<Codes, Memory>
        ensures { IfOk result (λ codes. codes ≡ plan.now) }
    {
        // The first and the last block have the only two lengths that there are (RFC 5052 section 9.1).
        let last_block = plan.blocks() - 1;
        let first = code_of(alloc, table, plan, 0)?;
        if plan.source_len(last_block) == plan.source_len(0) {
            return Ok(Codes {
                plan: *plan,
                first,
                last: None,
            });
        }
        let last = code_of(alloc, table, plan, last_block)?;
        Ok(Codes {
            plan: *plan,
            first,
            last: Some(last),
        })
    }

    /// Returns the code of a block. All blocks of one length share it.
    pub fn code(&self, block: u32) -> &Code
        requires { block < blocks self.now }
        ensures { IsCodeOf self.now block result.now }
    {
        if self.plan.source_len(block) == self.plan.source_len(0) {
            return &self.first;
        }
        match &self.last {
            Some(last) => last,
            // Not taken for a block of the plan: without a second code all blocks are as long as the first.
            None => &self.first,
        }
    }
}

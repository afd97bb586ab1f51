//! The name of a file that is handed up.

ghost use Rattle.std.specs.Prelude.{◌≡◌, string_bytes, IfOk};
ghost use Rattle.norm_node.specs.Shown.{file_name};

use std::alloc::{AllocError, Global};

/// The name that a node gives to the file of an object: `nNODE-iINSTANCE-xINDEX`.
#[tactic(auto, unfolding(crate::specs::Shown::file_name))]
pub(crate) fn file_name(
    alloc: Global,
    node: u32,
    instance: u16,
    index: u32,
) -> Result<String, AllocError>
    ensures { IfOk result (λ text. string_bytes text ≡ file_name node instance index) }
{
    format!(in alloc; "n{node}-i{instance}-x{index}")
}

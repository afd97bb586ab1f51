//! The [`CodeTable`]: codes that were made, for plans to share.

ghost use Rattle.std.specs.Prelude.{◌≡◌, ◌≤◌, ⊤, IfOk, MatchOption};
ghost use Rattle.std.specs.Arc.{arc_value};

use norm_base::Memory;
use rs_block::Code;
use std::alloc::Global;
use std::marker::Model;
use std::sync::Arc;

/// A code that was made, with its number of source symbols `k` and of encoded symbols `n`.
// `k` and `n` are those of the code. They stand beside it because a search reads them, and not the code.
#[derive(Debug, Drop)]
struct Kept {
    k: u8,
    n: u8,
    code: Arc<Code, Global>,
}

impl Model for Kept {
    ghost use Rattle.std.specs.Prelude.{◌≡◌};
    ghost use Rattle.std.specs.Arc.{arc_value};
    ghost use Rattle.rs_block.specs.Code.{CodeState};

    ghost Value = { CodeState };

    ghost view = { λ c. record { k = c.k; n = c.n } };

    ghost invariant = { λ c. arc_value c.code ≡ record { k = c.k; n = c.n } };
}

/// The codes that were made. A code is kept once, however many objects have blocks of its length. Under one profile there is at most one
/// for each length of a block.
// To make a code of many source symbols takes much longer than to make a symbol, and one profile has at most 200 lengths of blocks. Objects share
// a code by `Arc`, so each object stays whole in itself, and nothing needs to be known of the table where a symbol is made.
#[derive(Debug, Drop)]
pub struct CodeTable {
    kept: Vec<Kept>,
}

impl CodeTable {
    /// Creates a table without codes. It takes no memory.
    pub fn new(alloc: Global) -> CodeTable {
        CodeTable {
            kept: Vec::new(alloc),
        }
    }

    /// Returns the code of `k` source symbols and `n` encoded symbols if it is kept. The cost is linear in the number of codes.
    fn find(&self, k: u8, n: u8) -> Option<&Arc<Code, Global>>
        ensures { MatchOption result ⊤ (λ code. arc_value code.now ≡ record { k = k; n = n }) }
    {
        // One after the other: there is at most one code for each length of a block, and a search comes with an object, not with a symbol.
        for kept in &self.kept {
            if kept.k == k && kept.n == n {
                return Some(&kept.code);
            }
        }
        None
    }

    /// Returns the code of `k` source symbols and `n` encoded symbols. If the table lacks it, makes and keeps it.
    ///
    /// # Errors
    ///
    /// `Memory` if memory runs out.
    pub(crate) fn code(&mut self, alloc: Global, k: u8, n: u8) -> Result<Arc<Code, Global>, Memory>
        requires some { 1 ≤ k }
        requires fits { k ≤ n }
        ensures { IfOk result (λ code. arc_value code ≡ record { k = k; n = n }) }
    {
        if let Some(code) = self.find(k, n) {
            return Ok(Arc::try_clone(code)?);
        }
        let code = Arc::new(alloc, Code::new(alloc, k, n)?)?;
        let kept = Kept {
            k,
            n,
            code: Arc::try_clone(&code)?,
        };
        self.kept.push(kept)?;
        Ok(code)
    }
}

//! The laws of the codewords of RFC 5510 section 8.2. Each law is the contract of a function that does nothing.

ghost use Rattle.rs_block.specs.Laws.{CodewordLaws, SymbolLaws, FunctionLaws};

/// Any k source octets have exactly one codeword. If two codewords agree at k different ids, they are the same.
#[tactic(auto, using(crate::proofs::Words::codeword_laws))]
pub fn codewords()
    ensures { CodewordLaws }
{}

/// The first k symbols of a block are its source symbols. If any k symbols of a block have different ids, solving them gives its source symbols.
#[tactic(auto, using(crate::proofs::Blocks::symbol_laws))]
pub fn symbols()
    ensures { SymbolLaws }
{}

/// The functions `encoded_symbol` and `solved_sources` of gf_field are this code: they give the codeword's symbol and the source symbols,
/// and nothing else of the right size is these.
#[tactic(auto, using(crate::proofs::Functions::function_laws))]
pub fn functions()
    ensures { FunctionLaws }
{}

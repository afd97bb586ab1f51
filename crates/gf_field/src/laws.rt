//! The laws of the field (RFC 5510 section 8.1) and of the code over it. Each law is the contract of a function that does nothing.

ghost use Rattle.gf_field.specs.Laws.{SumLaws, ProductLaws, InverseLaws, PowerLaws, ZerosLaw, PointsLaw, FormulaLaw, SymbolValues, SymbolLaws};

/// Octets with exclusive or are a commutative group, in which each octet is its own opposite.
#[tactic(auto, using(crate::proofs::LawsHold::sum_laws))]
pub fn sums()
    ensures { SumLaws }
{}

/// The product is commutative and associative, has the neutral 1, and distributes over sums.
// Proof: a linear function is known by its values at 1, 2, 4, .. 128. So three laws are one computed test each over these units.
// Proof: the product distributes because it is linear.
#[tactic(auto, using(crate::proofs::LawsHold::product_laws))]
pub fn products()
    ensures { ProductLaws }
{}

/// Each octet except 0 has exactly one inverse. The product of two octets is 0 only if one of them is 0.
#[tactic(auto, using(crate::proofs::LawsHold::inverse_laws))]
pub fn inverses()
    ensures { InverseLaws }
{}

/// Alpha has order 255, and its first 255 powers all differ.
#[tactic(auto, using(crate::proofs::LawsHold::power_laws))]
pub fn powers()
    ensures { PowerLaws }
{}

/// If a polynomial of degree below k has k different zeros, all its coefficients are 0.
// Proof: the polynomial is divided by x - p. The quotient is shorter by one, and the division is one equation by induction.
#[tactic(auto, using(crate::proofs::LawsHold::zeros_law))]
pub fn zeros()
    ensures { ZerosLaw }
{}

/// Through k points at different octets goes exactly one polynomial of degree below k.
// Proof: functions with a polynomial are closed under sums, factors x - p and constants, so Lagrange's formula is one.
#[tactic(auto, using(crate::proofs::LawsHold::points_law))]
pub fn points()
    ensures { PointsLaw }
{}

/// The value at any octet of the polynomial through k points is Lagrange's sum.
#[tactic(auto, using(crate::proofs::LawsHold::formula_law))]
pub fn formula()
    ensures { FormulaLaw }
{}

/// A symbol that the formula computes has the values of the polynomial through the symbols that it is computed from.
#[tactic(auto, using(crate::proofs::Symbols::symbol_values))]
pub fn symbol_values()
    ensures { SymbolValues }
{}

/// Any k encoded symbols of a block with different ids give its source symbols. The first k encoded symbols are the source symbols.
#[tactic(auto, using(crate::proofs::Symbols::symbol_laws))]
pub fn symbols()
    ensures { SymbolLaws }
{}

// Polynomials over the residues modulo p: the definitions and their laws (`specs/`), terms, and the bounds that an operation may pass.
//
// A working polynomial is a slice of terms in falling order. A monomial's bytes are its exponents, v1's lowest: the order of monomials is the
// order of numbers, and their product a sum.
#![tactic(auto)]

// A term: a coefficient and a monomial.
#[derive(Clone, Copy, Debug, PartialEq, Eq)]
pub struct Term {
    pub coefficient: u64,
    pub monomial: u64,
}

// The bound that an operation would pass: on the degrees of a product, or on the terms of a polynomial.
#[derive(Clone, Copy, Debug, PartialEq, Eq)]
pub enum Passed {
    Degree,
    Terms,
}

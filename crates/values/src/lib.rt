// Values at a point of residues, v1's first.
#![tactic(auto)]

ghost use Rattle.std.specs.Prelude.{◌≡◌, ◌*◌, ◌%◌, ◌≤◌, ◌<◌};
ghost use Rattle.polynomials.specs.Value.{monomial_valueℕ, value_modulo, Point};
ghost use Rattle.polynomials.specs.Packed.{terms, bytes};
ghost use Rattle.polynomials.specs.Canonical.{Canonical};

use polynomials::Term;
use residues::Modulus;

// The value of a term.
pub fn term_value(p: Modulus, term: Term, point: &[u32]) -> u64
    requires le_p { (2 ≤ p) × (term.coefficient < p) }
    requires point { Point p point.now }
    ensures { result ≡ term.coefficient * monomial_valueℕ point.now (bytes 8 term.monomial) % p }
{
    let mut value = term.coefficient;
    let mut exponents = term.monomial;
    for x in point {
        if exponents == 0 {
            break;
        }
        value = p.multiply(value, p.power(u64::from(*x), exponents % 256));
        exponents /= 256;
    }
    value
}

// The value of f.
pub fn value(p: Modulus, f: &[Term], point: &[u32]) -> u64
    requires le_p { 2 ≤ p }
    requires canonical { Canonical p (terms f.now) }
    requires point { Point p point.now }
    ensures { result ≡ value_modulo p (terms f.now) point.now }
{
    let mut value = 0;
    for term in f {
        value = p.add(value, term_value(p, *term, point));
    }
    value
}

// Degrees of a polynomial: in one variable, an upper bound for all, and whether the sums of two polynomials' are over the bound.
#![tactic(auto)]

ghost use Rattle.std.specs.Prelude.{◌≡◌, ℕ, ◌+◌, ◌≤◌, ◌<◌, ltb, get_or};
ghost use Rattle.polynomials.specs.Bounds.{at_most, degrees_over};
ghost use Rattle.polynomials.specs.Division.{degree};
ghost use Rattle.polynomials.specs.Packed.{terms, bytes};

use monomials::Variable;
use polynomials::Term;

// The degree in v(k+1).
pub fn degree(f: &[Term], k: Variable) -> u64
    ensures { result ≡ degree k (terms f.now) }
{
    f.iter()
        .map(|term| monomials::exponent(term.monomial, k))
        .max()
        .unwrap_or(0)
}

// The monomials of f, or-ed: no exponent in it is below a degree of f.
fn union(f: &[Term]) -> u64
    ensures { (k : ℕ) → degree k (terms f.now) ≤ get_or (bytes 8 result) k 0 }
{
    f.iter().fold(0, |all, term| all | term.monomial)
}

// Whether the degrees in v(k+1) sum to over 255. No exponent of u is below a degree of f, and none of v below one of g: mostly these tell.
#[tactic(auto, using(polynomials::specs::laws::Packed::byte_small, polynomials::specs::laws::Bounds::degree_small))]
fn sum_over(f: &[Term], g: &[Term], u: u64, v: u64, k: Variable) -> bool
    requires f_bound { degree k (terms f.now) ≤ get_or (bytes 8 u) k 0 }
    requires g_bound { degree k (terms g.now) ≤ get_or (bytes 8 v) k 0 }
    ensures { result ≡ ltb 255 (degree k (terms f.now) + degree k (terms g.now)) }
{
    if monomials::exponent(u, k) + monomials::exponent(v, k) <= 255 {
        return false;
    }
    255 < degree(f, k) + degree(g, k)
}

// Whether for some variable the degrees of f and g sum to over 255.
pub fn degrees_over(f: &[Term], g: &[Term]) -> bool
    ensures { result ≡ degrees_over (at_most 255) (terms f.now) (terms g.now) }
{
    let u = union(f);
    let v = union(g);
    monomials::passes(u, v) && (0..8).any(|k| sum_over(f, g, u, v, Variable::new(k)))
}

// The factor of a round of a division: L×v(k+1)^(e−d), with L the coefficient of the highest power, v(k+1)^e, in R.
#![tactic(auto)]

ghost use Rattle.std.specs.Prelude.{◌≡◌, ◌≤◌, length, take};
ghost use Rattle.polynomials.specs.Division.{degree, factor};
ghost use Rattle.polynomials.specs.Packed.{terms};
ghost use Rattle.polynomials.specs.Working.{Written};

use monomials::Variable;
use polynomials::Term;

// The terms of R, the first n terms of r, that have v(k+1)^e, divided by v(k+1)^d: in the first terms of r, which gives up R.
pub fn factor(r: &mut [Term], n: usize, k: Variable, d: u64, e: u64) -> usize
    requires divisor { (1 ≤ d) × (d ≤ e) }
    requires n_bound { n ≤ length r.old }
    requires highest { degree k (terms (take n r.old)) ≡ e }
    ensures written { Written (factor k d (terms (take n r.old))) result r.new }
    ensures count { result ≤ n }
{
    let top = d << (8 * k.get());
    let mut count = 0;
    for i in 0..n {
        let term = r[i];
        if monomials::exponent(term.monomial, k) == e {
            r[count] = Term {
                coefficient: term.coefficient,
                monomial: term.monomial - top,
            };
            count += 1;
        }
    }
    count
}

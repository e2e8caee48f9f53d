// The parts of a polynomial: leading variable, initial and rest.
#![tactic(auto)]

ghost use Rattle.std.specs.Prelude.{◌≡◌, ℕ, ◌+◌, ◌^◌, ◌≤◌, ◌<◌, length, take, drop};
ghost use Rattle.residues.specs.Each.{Each};
ghost use Rattle.polynomials.specs.Canonical.{Canonical};
ghost use Rattle.polynomials.specs.Division.{leader, initial, rest};
ghost use Rattle.polynomials.specs.Packed.{terms};
ghost use Rattle.polynomials.specs.Working.{Written, Split};

use monomials::Variable;
use polynomials::Term;

// The leading variable: k for vk, 0 for a polynomial without one. It stands in the first term.
pub fn leader(f: &[Term]) -> u32
    requires canonical { (p : ℕ) × Canonical p (terms f.now) }
    ensures { result ≡ leader (terms f.now) }
{
    match f.first() {
        Some(term) => monomials::highest(term.monomial),
        None => 0,
    }
}

// How many terms have the highest power of v(k+1), the leading variable: they come first.
fn initial_terms(f: &[Term], k: Variable) -> usize
    requires canonical { ((p : ℕ) × Canonical p (terms f.now)) × (leader (terms f.now) ≡ k + 1) }
    ensures { Split k f.now result }
{
    let top = monomials::exponent(f[0].monomial, k);
    f.iter()
        .take_while(|term| monomials::exponent(term.monomial, k) == top)
        .count()
}

// The initial, into the first terms of `out`.
pub fn initial(f: &[Term], k: Variable, out: &mut [Term]) -> usize
    requires canonical { ((p : ℕ) × Canonical p (terms f.now)) × (leader (terms f.now) ≡ k + 1) }
    requires f_in_bounds { length f.now ≤ length out.old }
    ensures written { Written (initial k (terms f.now)) result out.new }
    ensures in_words { Each (λ t. t.monomial < 2 ^ 64) f.now → Each (λ t. t.monomial < 2 ^ 64) (take result out.new) }
{
    let n = initial_terms(f, k);
    let top = monomials::exponent(f[0].monomial, k) << (8 * k.get());
    for (i, term) in f[..n].iter().enumerate() {
        out[i] = Term {
            coefficient: term.coefficient,
            monomial: term.monomial - top,
        };
    }
    n
}

// The rest: the terms behind those of the initial.
pub fn rest(f: &[Term], k: Variable) -> &[Term]
    requires canonical { ((p : ℕ) × Canonical p (terms f.now)) × (leader (terms f.now) ≡ k + 1) }
    ensures result_value { terms result.now ≡ rest k (terms f.now) }
    ensures result_value_2 { result.now ≡ drop (length (initial k (terms f.now))) f.now }
{
    &f[initial_terms(f, k)..]
}

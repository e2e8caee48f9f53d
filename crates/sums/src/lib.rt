// Sums of polynomials by one merge, f plus a term times g; and the difference.
#![tactic(auto)]

ghost use Rattle.std.specs.Prelude.{◌+◌, ◌≤◌, ◌<◌, List, length};
ghost use Rattle.polynomials.specs.Poly.{Poly, add_multiple};
ghost use Rattle.polynomials.specs.Bounds.{standard, tested, bounded_difference};
ghost use Rattle.polynomials.specs.Canonical.{Canonical};
ghost use Rattle.polynomials.specs.Packed.{terms, bytes, AllFit};
ghost use Rattle.polynomials.specs.Working.{Holds, Written, Forms};
ghost use Rattle.polynomials.specs.declared.Term.{Term as Packed};

use polynomials::{Passed, Term};
use residues::Modulus;

// f plus c·m times g, into the first terms of `out`; how many. g's exponents, with those of m, stay below 256.
pub fn add_multiple(p: Modulus, c: u64, m: u64, g: &[Term], f: &[Term], out: &mut [Term]) -> usize
    requires c_lt_p { c < p }
    requires g_canonical { Canonical p (terms g.now) × AllFit m g.now }
    requires f_canonical { Canonical p (terms f.now) }
    requires g_in_bounds { length f.now + length g.now ≤ length out.old }
    ensures { Written (add_multiple p c (bytes 8 m) (terms g.now) (terms f.now)) result out.new }
{
    let mut i = 0;
    let mut k = 0;
    let mut left = g;
    while 0 < left.len() {
        let e = m + left[0].monomial;
        if i < f.len() && e < f[i].monomial {
            out[k] = Term {
                coefficient: f[i].coefficient,
                monomial: f[i].monomial,
            };
            k += 1;
            i += 1;
        } else {
            let mut s = p.multiply(c, left[0].coefficient);
            if i < f.len() && f[i].monomial == e {
                s = p.add(s, f[i].coefficient);
                i += 1;
            }
            if s != 0 {
                out[k] = Term {
                    coefficient: s,
                    monomial: e,
                };
                k += 1;
            }
            left = &left[1..];
        }
    }
    let rest = &f[i..];
    let end = k + rest.len();
    // A call that copies nothing would take as long as a turn or two.
    if i < f.len() {
        out[k..end].copy_from_slice(rest);
    }
    end
}

// f minus g, into the first terms of `out`.
pub fn difference(p: Modulus, f: &[Term], g: &[Term], out: &mut [Term]) -> Result<usize, Passed>
    requires holds { Holds p f.now }
    requires holds_2 { Holds p g.now }
    requires g_in_bounds { length f.now + length g.now ≤ length out.old }
    ensures { Forms (bounded_difference standard p (terms f.now) (terms g.now)) result out.new }
{
    within(add_multiple(p, p.get() - 1, 0, g, f, out))
}

// What was formed in n terms, tested: refused where these are more than 256.
#[tactic(auto, using(crate::proofs::MergeLaws::within_terms_formed, crate::proofs::MergeLaws::over_terms_written))]
pub fn within(n: usize) -> Result<usize, Passed>
    ensures { (f : Poly) (s : List Packed) → Written f n s → Forms (tested standard f) result s }
{
    if n <= 256 { Ok(n) } else { Err(Passed::Terms) }
}

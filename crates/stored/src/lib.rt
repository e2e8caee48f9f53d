// Polynomials stored as consecutive records of the work area, and read.
#![tactic(auto)]

ghost use Rattle.std.specs.Prelude.{◌≡◌, ◌+◌, ◌*◌, ◌≤◌, ◌<◌, length, take, drop, get_or};
ghost use Rattle.records.specs.Records.{view, zero_record};
ghost use Rattle.stored.specs.Stored.{term_of, size_at, poly_at, skip_to};

use polynomials::Term;
use records::Record;

// The term in record i.
pub fn term(w: &[Record], i: usize) -> Term
    requires { i < length w.now }
    ensures { result ≡ term_of (get_or (view w.now) i zero_record) }
{
    let [coefficient, high, low, _] = w[i];
    Term {
        coefficient: u64::from(coefficient),
        monomial: monomials::packed(high, low),
    }
}

// Loads the polynomial at record `at` into the first terms of `out`; how many.
#[tactic(auto, using(crate::proofs::Laws::size_in), unfolding(crate::specs::Stored::poly_at))]
pub fn load(w: &[Record], at: usize, out: &mut [Term]) -> usize
    requires at_bound { (at < length w.now) × (at + 1 + size_at (view w.now) at ≤ length w.now) }
    requires at_in_bounds { size_at (view w.now) at ≤ length out.old }
    ensures { (result ≡ size_at (view w.now) at) × (take result out.new ≡ poly_at (view w.now) at)
        × (drop result out.new ≡ drop result out.old) }
{
    let n = w[at][0] as usize;
    for i in 0..n {
        out[i] = term(w, at + 1 + i);
    }
    n
}

// Where the k polynomials from record `at` on end.
#[tactic(auto, using(crate::proofs::Laws::size_in, crate::proofs::Laws::skip_in, crate::proofs::Laws::walk_more, crate::proofs::Laws::walk_in))]
pub fn skip(w: &[Record], at: usize, k: usize) -> usize
    requires { skip_to (view w.now) at k ≤ length w.now }
    ensures { result ≡ skip_to (view w.now) at k }
{
    let mut end = at;
    for _i in 0..k {
        end += 1 + w[end][0] as usize;
    }
    end
}

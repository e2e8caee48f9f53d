// The search among stored polynomials led by one variable: the pivot, and the other polynomial of rule 4.
#![tactic(auto)]

ghost use Rattle.std.specs.Prelude.{◌≡◌, map, ℕ, ◌+◌, ◌≤◌, ◌<◌, length};
ghost use Rattle.polynomials.specs.Packed.{terms};
ghost use Rattle.rules.specs.Branch.{other};
ghost use Rattle.records.specs.Records.{view};
ghost use Rattle.polynomials.specs.Working.{Holds};
ghost use Rattle.stored.specs.Stored.{size_at, poly_at, skip_to, polys_at};
ghost use Rattle.search.specs.Rank.{rank};
ghost use Rattle.heads.specs.Heads.{AllHold};
ghost use Rattle.search.specs.Search.{other_place, pivot_place};

use monomials::Variable;
use records::Record;

// The rank of the polynomial at record i as a pivot in the variable at position v.
#[tactic(auto, using(crate::proofs::Pass::ranks))]
fn rank_at(w: &[Record], i: usize, v: Variable) -> u64
    requires i_bound { (i < length w.now) × (i + 1 + size_at (view w.now) i ≤ length w.now) }
    requires holds { (p : ℕ) × Holds p (poly_at (view w.now) i) }
    ensures { result ≡ rank v (terms (poly_at (view w.now) i)) }
{
    if heads::leader_at(w, i) != v.get() + 1 {
        return 131072; // above every rank
    }
    let degree = monomials::exponent(stored::term(w, i + 1).monomial, v);
    512 * degree + u64::from(w[i][0])
}

// The place of the pivot in the variable at position v among the k polynomials from record `at` on.
#[tactic(auto, using(crate::proofs::Pass::passes))]
pub fn pivot_place(w: &[Record], at: usize, k: usize, v: Variable) -> usize
    requires k_bound { (skip_to (view w.now) at k ≤ length w.now) }
    requires all_hold { (p : ℕ) × AllHold p (polys_at (view w.now) at k) }
    ensures { result ≡ pivot_place v (map terms (polys_at (view w.now) at k)) }
{
    let mut next = at;
    let mut place = 0;
    let mut least = 131072;
    for j in 0..k {
        let r = rank_at(w, next, v);
        if r < least {
            place = j;
            least = r;
        }
        next += 1 + w[next][0] as usize;
    }
    place
}

// The place of the earliest polynomial led by the variable at position v other than the one at `place`, among the k from record `at` on.
#[tactic(auto, using(crate::proofs::Others::scans))]
pub fn other_from(w: &[Record], at: usize, k: usize, v: Variable, place: usize) -> Option<usize>
    requires k_bound { (skip_to (view w.now) at k ≤ length w.now) }
    requires all_hold { (p : ℕ) × AllHold p (polys_at (view w.now) at k) }
    ensures { result ≡ other_place (other v place (map terms (polys_at (view w.now) at k))) }
{
    let mut next = at;
    for j in 0..k {
        if j != place && heads::leader_at(w, next) == v.get() + 1 {
            return Some(j);
        }
        next += 1 + w[next][0] as usize;
    }
    None
}

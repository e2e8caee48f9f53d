// What the heads and first terms of stored polynomials tell: whether one is zero or 1, and what leads.
#![tactic(auto)]

ghost use Rattle.std.specs.Prelude.{◌≡◌, map, ℕ, ◌+◌, ◌≤◌, ◌<◌, length};
ghost use Rattle.polynomials.specs.Packed.{terms};
ghost use Rattle.rules.specs.Branch.{is_one, some_one, some_zero, highest_leader};
ghost use Rattle.records.specs.Records.{view};
ghost use Rattle.polynomials.specs.Division.{leader};
ghost use Rattle.polynomials.specs.Working.{Holds};
ghost use Rattle.stored.specs.Stored.{size_at, poly_at, skip_to, polys_at};
ghost use Rattle.heads.specs.Heads.{AllHold};

use polynomials::Term;
use records::Record;

// Whether one of the k polynomials from record `at` on is zero.
#[tactic(auto, using(crate::proofs::Walk::zeros))]
pub fn has_zero(w: &[Record], at: usize, k: usize) -> bool
    requires { skip_to (view w.now) at k ≤ length w.now }
    ensures { result ≡ some_zero (map terms (polys_at (view w.now) at k)) }
{
    let mut next = at;
    for _i in 0..k {
        let n = w[next][0] as usize;
        if n == 0 {
            return true;
        }
        next += 1 + n;
    }
    false
}

// Whether the polynomial at record i is 1.
#[tactic(auto, using(crate::proofs::One::one_tests))]
fn one_at(w: &[Record], i: usize) -> bool
    requires { (i < length w.now) × (i + 1 + size_at (view w.now) i ≤ length w.now) }
    ensures { result ≡ is_one (terms (poly_at (view w.now) i)) }
{
    let one = Term {
        coefficient: 1,
        monomial: 0,
    };
    w[i][0] == 1 && stored::term(w, i + 1) == one
}

// Whether one of the k polynomials from record `at` on is 1.
#[tactic(auto, using(crate::proofs::Walk::ones))]
pub fn has_one(w: &[Record], at: usize, k: usize) -> bool
    requires { skip_to (view w.now) at k ≤ length w.now }
    ensures { result ≡ some_one (map terms (polys_at (view w.now) at k)) }
{
    let mut next = at;
    for _i in 0..k {
        if one_at(w, next) {
            return true;
        }
        next += 1 + w[next][0] as usize;
    }
    false
}

// The leading variable of the polynomial at record i: that of its first term, or 0.
#[tactic(auto, using(crate::proofs::Walk::leader_tests))]
pub fn leader_at(w: &[Record], i: usize) -> u32
    requires i_bound { (i < length w.now) × (i + 1 + size_at (view w.now) i ≤ length w.now) }
    requires holds { (p : ℕ) × Holds p (poly_at (view w.now) i) }
    ensures { result ≡ leader (terms (poly_at (view w.now) i)) }
{
    if w[i][0] == 0 {
        return 0;
    }
    monomials::highest(stored::term(w, i + 1).monomial)
}

// The highest leading variable among the k polynomials from record `at` on.
#[tactic(auto, using(crate::proofs::Walk::leaders))]
pub fn highest_leader(w: &[Record], at: usize, k: usize) -> u32
    requires k_bound { skip_to (view w.now) at k ≤ length w.now }
    requires all_hold { (p : ℕ) × AllHold p (polys_at (view w.now) at k) }
    ensures { result ≡ highest_leader (map terms (polys_at (view w.now) at k)) }
{
    let mut next = at;
    let mut best = 0;
    for _i in 0..k {
        best = leader_at(w, next).max(best);
        next += 1 + w[next][0] as usize;
    }
    best
}

// Stored polynomials compared with a working one.
#![tactic(auto)]

ghost use Rattle.std.specs.Prelude.{◌≡◌, ◌+◌, ◌≤◌, ◌<◌, length};
ghost use Rattle.records.specs.Records.{view};
ghost use Rattle.stored.specs.Stored.{size_at, poly_at, skip_to, polys_at, same, member, Storable};

use polynomials::Term;
use records::Record;

// Whether the polynomial at record `at` is f.
#[tactic(auto, using(stored::proofs::Laws::size_in, records::proofs::Rows::length_view, crate::proofs::Laws::term_at_poly, stored::specs::laws::Stored::length_poly_at, crate::proofs::Laws::equal_terms, crate::proofs::Laws::other_terms, crate::proofs::Laws::not_same, std::proofs::lemmas::List::take_more_same, std::proofs::lemmas::List::take_all, stored::specs::laws::Stored::same_of_equal))]
fn equal_at(w: &[Record], at: usize, f: &[Term]) -> bool
    requires at_bound { (at < length w.now) × (at + 1 + size_at (view w.now) at ≤ length w.now) }
    requires storable { Storable f.now }
    ensures { result ≡ same (poly_at (view w.now) at) f.now }
{
    if w[at][0] as usize != f.len() {
        return false;
    }
    for (i, term) in f.iter().enumerate() {
        if stored::term(w, at + 1 + i) != *term {
            return false;
        }
    }
    true
}

// Whether one of the k polynomials from record `at` on is f.
#[tactic(auto, using(stored::proofs::Laws::size_in, stored::proofs::Laws::skip_in, stored::proofs::Laws::skip_turn, crate::proofs::Laws::member_turn), unfolding(stored::specs::Stored::member))]
pub fn contains(w: &[Record], at: usize, k: usize, f: &[Term]) -> bool
    requires k_bound { skip_to (view w.now) at k ≤ length w.now }
    requires storable { Storable f.now }
    ensures { result ≡ member f.now (polys_at (view w.now) at k) }
{
    let mut next = at;
    for _i in 0..k {
        if equal_at(w, next, f) {
            return true;
        }
        next += 1 + w[next][0] as usize;
    }
    false
}

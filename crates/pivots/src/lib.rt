// Rules 3 to 5 in the work area, once the pivot and its initial are loaded: whether rule 3 fits, the split, and what rule 4 or 5 leaves to be divided.
#![tactic(auto)]

ghost use Rattle.std.specs.Prelude.{◌≡◌, false, ◌||◌, [], ℕ, ◌+◌, ◌≤◌, ◌<◌, length, get_or};
ghost use Rattle.residues.specs.Prime.{Prime};
ghost use Rattle.polynomials.specs.Poly.{monic};
ghost use Rattle.polynomials.specs.Packed.{terms};
ghost use Rattle.polynomials.specs.Division.{degree, leader, initial, rest};
ghost use Rattle.records.specs.Records.{view};
ghost use Rattle.stored.specs.Stored.{Storable, member};
ghost use Rattle.branches.specs.Words.{is_one};
ghost use Rattle.branches.specs.Area.{Held, Leaves, Opened, with_open, split_area, unfinished_split, WhenOpen, used, beyond};
ghost use Rattle.rules.specs.Branch.{other};
ghost use Rattle.heads.specs.Heads.{AllHold};
ghost use Rattle.representation.specs.Represent.{Sound, branch_of};
ghost use Rattle.pivots.specs.Aimed.{rest_terms, behind_rest, division_of, aimed};

use members::Dividends;
use monomials::Variable;
use polynomials::Term;
use records::Record;
use residues::Modulus;
use tables::Reason;

// What a rule leaves to be divided by the pivot, whose terms and whose initial's are so many: at rule 4 the other polynomial of P, at rule 5 all of Q.
#[derive(Clone, Copy)]
pub struct Division {
    pub k: Variable,
    pub degree: u64,
    pub pivot: usize,
    pub initial: usize,
    pub dividends: Dividends,
}

// Rule 4 or 5 for the pivot t, which stands in P at `place`: at rule 5 it goes to T.
pub fn prepare_division(
    w: &mut [Record],
    k: Variable,
    place: usize,
    t: &[Term],
    initial: usize,
) -> Division
    requires opened { Opened w.old × Storable t.now }
    requires when_open { WhenOpen w.old (λ b bs ss. (p : ℕ) × AllHold p b.P) }
    requires when_open_2 { WhenOpen w.old (λ b bs ss. (place < length b.P) × (get_or b.P place [] ≡ t.now)) }
    ensures when_open_3 { WhenOpen w.old (λ b bs ss.
        (result ≡ division_of (other k place (branch_of b).P) k (degree k (terms t.now)) (length t.now) initial b)
        × Held (view w.new) (used w.old) (with_open (aimed (other k place (branch_of b).P) place b) bs ss)) }
    ensures beyond_stays { beyond w.new ≡ beyond w.old }
{
    let degree = degrees::degree(t, k);
    let pivot = t.len();
    let dividends = match survey::find_other(w, k, place) {
        Some(j) => Dividends::InP(j),
        None => {
            changes::close(w, place, t);
            Dividends::InQ(members::count_q(w))
        }
    };
    Division {
        k,
        degree,
        pivot,
        initial,
        dividends,
    }
}

// Whether f is 1 or in Q.
pub fn is_settled(w: &[Record], f: &[Term]) -> bool
    requires opened { Opened w.now }
    requires storable { Storable f.now }
    ensures { WhenOpen w.now (λ b bs ss.
        result ≡ (is_one f.now || member f.now b.Q)) }
{
    branches::is_one(f) || branches::q_contains(w, f)
}

// Rule 3 for the pivot t, which stands in P at `place`, and its initial i. Refused if there is no room. The rest, made monic, is left in the first terms of r;
// those behind stay.
pub fn apply_split(
    w: &mut [Record],
    p: Modulus,
    k: Variable,
    place: usize,
    t: &[Term],
    i: &[Term],
    r: &mut [Term],
) -> Result<(), Reason>
    requires opened { Opened w.old × Prime p × (256 ≤ length r.old) }
    requires sound { Sound p t.now × (leader (terms t.now) ≡ k + 1) }
    requires sound_2 { Sound p i.now × (terms i.now ≡ initial k (terms t.now)) }
    requires when_open { WhenOpen w.old (λ b bs ss.
        (place < length b.P) × (get_or b.P place [] ≡ t.now) × (is_one i.now ≡ false) × (member i.now b.Q ≡ false)) }
    ensures sound_3 { Sound p (rest_terms t.now i.now r.new)
        × (terms (rest_terms t.now i.now r.new) ≡ monic p (rest k (terms t.now)))
        × (behind_rest t.now i.now r.new ≡ behind_rest t.now i.now r.old) }
    ensures when_open_2 { WhenOpen w.old (λ b bs ss.
        Leaves (used w.old)
        (unfinished_split (used w.old) place i.now (rest_terms t.now i.now r.new) b bs ss)
        (split_area place i.now (rest_terms t.now i.now r.new) b bs ss) result (view w.new)) }
    ensures beyond_stays { beyond w.new ≡ beyond w.old }
{
    // That p is below 2^31 is a fact of its type: so residues are words.
    let _ = p.get();
    let m = i.len();
    let l = t.len() - m;
    r[..l].copy_from_slice(&t[m..]);
    scaling::monic(p, &mut r[..l]);
    splits::split(w, place, t, i, &r[..l])
}

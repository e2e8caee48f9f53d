// The survey of the open branch by the heads and first terms of its polynomials: rule 1, rule 2 or the pivot, and the other polynomial of rule 4.
#![tactic(auto)]

ghost use Rattle.std.specs.Prelude.{◌≡◌, ℕ};
ghost use Rattle.rules.specs.Branch.{other};
ghost use Rattle.branches.specs.Area.{Opened, WhenOpen};
ghost use Rattle.representation.specs.Represent.{branch_of};
ghost use Rattle.heads.specs.Heads.{AllHold};
ghost use Rattle.search.specs.Search.{other_place};
ghost use Rattle.survey.specs.Survey.{choice};

use monomials::Variable;
use records::Record;

// Rule 1, rule 2, or the pivot: the position k of its variable v(k+1), and its place in P.
#[derive(Clone, Copy)]
pub enum Choice {
    Drop,
    List,
    Pivot(Variable, usize),
}

// Which of rules 1 and 2 fits the open branch, or its pivot.
#[tactic(auto, using(crate::proofs::Choices::opened))]
pub fn choose(w: &[Record]) -> Choice
    requires opened { Opened w.now }
    requires when_open { WhenOpen w.now (λ b bs ss. (p : ℕ) × AllHold p b.P × AllHold p b.Q) }
    ensures { WhenOpen w.now (λ b bs ss. result ≡ choice (branch_of b)) }
{
    let b = branches::open_branch(w);
    let p = b.p as usize;
    if heads::has_one(w, b.first, p) {
        return Choice::Drop;
    }
    if heads::has_zero(w, stored::skip(w, b.first, p), b.q as usize) {
        return Choice::Drop;
    }
    if p == 0 {
        return Choice::List;
    }
    let h = heads::highest_leader(w, b.first, p);
    let k = Variable::new(h.saturating_sub(1));
    Choice::Pivot(k, search::pivot_place(w, b.first, p, k))
}

// The other polynomial of P that v(k+1) leads, the pivot standing at `place`.
#[tactic(auto, using(crate::proofs::Choices::opened))]
pub fn find_other(w: &[Record], k: Variable, place: usize) -> Option<usize>
    requires opened { Opened w.now }
    requires when_open { WhenOpen w.now (λ b bs ss. (p : ℕ) × AllHold p b.P) }
    ensures { WhenOpen w.now (λ b bs ss. result ≡ other_place (other k place (branch_of b).P)) }
{
    let b = branches::open_branch(w);
    search::other_from(w, b.first, b.p as usize, k, place)
}

// A step of the run in the work area: the rule that fits is found and applied, but for the divisions of rules 4 and 5.
#![tactic(auto)]

ghost use Rattle.std.specs.Prelude.{◌≡◌, List, map, reverse, ◌≤◌, ◌<◌, length, Ok};
ghost use Rattle.residues.specs.Prime.{Prime};
ghost use Rattle.records.specs.Records.{view};
ghost use Rattle.branches.specs.Area.{Stored, with_open, HeldIn, WhenOpen, used, beyond};
ghost use Rattle.rules.specs.Rule.{rule_with};
ghost use Rattle.rules.specs.Step.{apply, step};
ghost use Rattle.representation.specs.Represent.{branch_of, system_of, chosen};
ghost use Rattle.steps.specs.declared.Prepared.TheVariants.{Crowded};
ghost use Rattle.representation.specs.Ready.{Ready, limits_in};
ghost use Rattle.steps.specs.Pending.{Leads, Prepares};

use branches::Member;
use monomials::Variable;
use pivots::Division;
use polynomials::Term;
use records::Record;
use residues::Modulus;
use survey::Choice;
use tables::Reason;

// What a step has done when its rule has been found. `Crowded`: the pivot is longer than the slice for it, and the work area is as it was.
#[derive(Clone, Copy)]
pub enum Prepared {
    Done,
    Members(Division),
    Crowded,
}

// Rules 3 to 5 for the pivot in v(k+1), which stands in P at `place`: it and its initial are loaded into t and i, if it fits t.
fn with_pivot(
    w: &mut [Record],
    p: Modulus,
    k: Variable,
    place: usize,
    t: &mut [Term],
    i: &mut [Term],
    r: &mut [Term],
) -> Result<Prepared, Reason>
    requires prime { Prime p }
    requires ready { (b : Stored) × (bs : List Stored) × (ss : List Stored) × HeldIn w.old (with_open b bs ss)
        × Ready p (with_open b bs ss) × Leads k place b }
    requires t_in_bounds { (length t.old ≤ length i.old) × (256 ≤ length r.old) }
    ensures when_open { WhenOpen w.old (λ b bs ss.
        Ready p (with_open b bs ss) → Leads k place b
        → Prepares (limits_in (used w.old)) p
        (apply (limits_in (used w.old)) p (map branch_of bs) (reverse (map system_of ss)) (rule_with k (chosen b place) (branch_of b)) (branch_of b))
        result t.new i.new (view w.new) (used w.old) bs ss) }
    ensures when_crowded { result ≡ Ok Crowded → (length t.old < 256) × (w.new ≡ w.old) }
    ensures beyond_stays { beyond w.new ≡ beyond w.old }
{
    if t.len() < branches::count_terms(w, Member::P(place)) {
        return Ok(Prepared::Crowded);
    }
    let n = branches::load(w, Member::P(place), t);
    let m = terms::initial(&t[..n], k, i);
    if pivots::is_settled(w, &i[..m]) {
        let d = pivots::prepare_division(w, k, place, &t[..n], m);
        return Ok(Prepared::Members(d));
    }
    pivots::apply_split(w, p, k, place, &t[..n], &i[..m], r)?;
    Ok(Prepared::Done)
}

// Finds the rule that fits and applies it, but for the divisions of rules 4 and 5.
pub fn prepare(
    w: &mut [Record],
    p: Modulus,
    t: &mut [Term],
    i: &mut [Term],
    r: &mut [Term],
) -> Result<Prepared, Reason>
    requires prime { Prime p }
    requires ready { (b : Stored) × (bs : List Stored) × (ss : List Stored) × HeldIn w.old (with_open b bs ss) × Ready p (with_open b bs ss) }
    requires t_in_bounds { (length t.old ≤ length i.old) × (256 ≤ length r.old) }
    ensures when_open { WhenOpen w.old (λ b bs ss. Ready p (with_open b bs ss)
        → Prepares (limits_in (used w.old)) p
        (step (limits_in (used w.old)) p (branch_of b) (map branch_of bs) (reverse (map system_of ss)))
        result t.new i.new (view w.new) (used w.old) bs ss) }
    ensures when_crowded { result ≡ Ok Crowded → (length t.old < 256) × (w.new ≡ w.old) }
    ensures beyond_stays { beyond w.new ≡ beyond w.old }
{
    match survey::choose(w) {
        Choice::Drop => {
            turns::drop(w);
            Ok(Prepared::Done)
        }
        Choice::List => {
            turns::list(w);
            Ok(Prepared::Done)
        }
        Choice::Pivot(k, place) => with_pivot(w, p, k, place, t, i, r),
    }
}

// The run: labelled nested loops; a limit met in the division breaks the outer loop, which yields the outcome.
#![tactic(auto)]

ghost use Rattle.std.specs.Prelude.{◌≡◌, ◌⊎◌, ◌-◌, ◌≤◌, ◌<◌, length, None};
ghost use Rattle.residues.specs.Prime.{Prime};
ghost use Rattle.records.specs.Records.{view};
ghost use Rattle.branches.specs.Area.{Area, HeldIn, used, beyond};
ghost use Rattle.rules.specs.Run.{run};
ghost use Rattle.representation.specs.Represent.{state_of};
ghost use Rattle.representation.specs.Ready.{Ready, limits_in};
ghost use Rattle.run.specs.Stretch.{Stretches};

use division::Pivot;
use polynomials::{Passed, Term};
use records::Record;
use residues::Modulus;
use steps::Prepared;
use tables::Reason;

// How an elimination ends: with so many systems, or refused for a reason at a record.
#[derive(Clone, Copy)]
pub enum Outcome {
    Systems(u32),
    Refused(Reason, u32),
}

// The answer of an elimination: the whole steps finished, and the outcome.
#[derive(Clone, Copy)]
pub struct Answer {
    pub steps: u32,
    pub outcome: Outcome,
}

// A stretch of the run: the whole steps finished so far, and the run's outcome, or none where it pauses between two steps since the lent scratch is too
// short.
#[derive(Clone, Copy)]
pub struct Stretch {
    pub steps: u32,
    pub outcome: Option<Outcome>,
}

// Runs the steps from the state in the work area on, `from` being done and at most `limit` allowed. The other slices are scratch: for the pivot and
// its initial, for the member divided (256 terms at least), and three for products. Long scratch, 256 terms for each of the first two and 512 for
// each of the others, suits every step. In shorter scratch the run pauses before a step whose pivot does not fit, and after a step in which a round
// did not.
pub fn run(
    w: &mut [Record],
    p: Modulus,
    limit: u32,
    from: u32,
    t: &mut [Term],
    i: &mut [Term],
    r: &mut [Term],
    x: &mut [Term],
    y: &mut [Term],
    z: &mut [Term],
) -> Stretch
    requires prime { Prime p }
    requires from_le_limit { from ≤ limit }
    requires ready { (a : Area) × HeldIn w.old a × Ready p a }
    requires t_in_bounds { (length t.old ≤ length i.old) × (256 ≤ length r.old)
        × (length x.old ≤ length r.old) × (length x.old ≤ length y.old) × (length x.old ≤ length z.old) }
    ensures stretches { (a : Area) → HeldIn w.old a → Ready p a
        → Stretches (run (limits_in (used w.old)) p (limit - from) from (state_of a)) p limit result (view w.new) (used w.old) }
    ensures when_paused { result.outcome ≡ None → (length t.old < 256) ⊎ (length x.old < 512) }
    ensures beyond_stays { beyond w.new ≡ beyond w.old }
{
    let mut steps: u32 = from;
    let mut crowded = false;
    let outcome = 'run: loop {
        if !turns::is_open(w) {
            let listed = branches::listed_systems(w);
            break 'run Some(Outcome::Systems(listed.count));
        }
        if limit <= steps {
            break 'run Some(Outcome::Refused(Reason::Steps, 0));
        }
        if crowded {
            break 'run None;
        }
        let prepared = match steps::prepare(w, p, t, i, r) {
            Ok(prepared) => prepared,
            Err(why) => {
                break 'run Some(Outcome::Refused(why, 0));
            }
        };
        match prepared {
            Prepared::Done => {}
            Prepared::Crowded => {
                break 'run None;
            }
            Prepared::Members(d) => {
                let k = d.k;
                let degree = d.degree;
                let pivot = d.pivot;
                let initial = d.initial;
                let dividends = d.dividends;
                let mut left = dividends.count();
                'members: while 0 < left {
                    let mut n = members::take(w, dividends, left, r);
                    'division: loop {
                        let e = degrees::degree(&r[..n], k);
                        if e < degree {
                            break 'division;
                        }
                        if !rounds::round_fits(n, initial, pivot, x.len()) {
                            crowded = true;
                        }
                        let divisor = Pivot {
                            p,
                            k,
                            d: degree,
                            initial: &i[..initial],
                            divisor: &t[..pivot],
                        };
                        match rounds::round_anywhere(&divisor, e, r, n, x, y, z) {
                            Ok(m) => {
                                n = m;
                            }
                            Err(Passed::Degree) => {
                                break 'run Some(Outcome::Refused(Reason::Degree, 0));
                            }
                            Err(Passed::Terms) => {
                                break 'run Some(Outcome::Refused(Reason::Terms, 0));
                            }
                        }
                    }
                    left -= 1;
                    if let Err(why) = members::put_back(w, p, dividends, left, r, n) {
                        break 'run Some(Outcome::Refused(why, 0));
                    }
                }
            }
        }
        steps += 1;
    };
    Stretch { steps, outcome }
}

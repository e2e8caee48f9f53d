// The run in scratch of its own: short for a small job, then long where the run pauses.
#![tactic(auto)]

ghost use Rattle.std.specs.Prelude.{◌≡◌, ◌⊎◌, ◌-◌, ◌≤◌, ◌<◌, length, None};
ghost use Rattle.residues.specs.Prime.{Prime};
ghost use Rattle.records.specs.Records.{view};
ghost use Rattle.branches.specs.Area.{Area, HeldIn, used, beyond};
ghost use Rattle.rules.specs.Run.{run};
ghost use Rattle.representation.specs.Represent.{state_of};
ghost use Rattle.representation.specs.Ready.{Ready, limits_in};
ghost use Rattle.run.specs.Stretch.{Ran, Stretches};

use polynomials::Term;
use records::Record;
use residues::Modulus;
use run::{Answer, Outcome, Stretch};
use tables::Reason;

const ZERO: Term = Term {
    coefficient: 0,
    monomial: 0,
};

// Runs in scratch of T terms for the pivot, as many for its initial, and X for each of three products.
fn run_in<const T: usize, const X: usize>(
    work: &mut [Record],
    p: Modulus,
    limit: u32,
    from: u32,
    divided: &mut [Term],
) -> Stretch
    requires prime { Prime p }
    requires from_le_limit { from ≤ limit }
    requires ready { (a : Area) × HeldIn work.old a × Ready p a }
    requires in_bounds { (256 ≤ length divided.old) × (X ≤ length divided.old) }
    requires room { T ≤ 256 }
    ensures stretches { (a : Area) → HeldIn work.old a → Ready p a
        → Stretches (run (limits_in (used work.old)) p (limit - from) from (state_of a)) p limit result (view work.new) (used work.old) }
    ensures when_paused { result.outcome ≡ None → (T < 256) ⊎ (X < 512) }
    ensures beyond_stays { beyond work.new ≡ beyond work.old }
{
    let mut pivot = [ZERO; T];
    let mut initial = [ZERO; T];
    let mut x = [ZERO; X];
    let mut y = [ZERO; X];
    let mut z = [ZERO; X];
    run::run(
        work,
        p,
        limit,
        from,
        &mut pivot,
        &mut initial,
        divided,
        &mut x,
        &mut y,
        &mut z,
    )
}

// Runs in short scratch, and goes on in long scratch where the run pauses: a small job need not clear what only a large one uses.
pub fn run_short(work: &mut [Record], p: Modulus, limit: u32, divided: &mut [Term]) -> Answer
    requires prime { Prime p }
    requires ready { (a : Area) × HeldIn work.old a × Ready p a }
    requires in_bounds { 256 ≤ length divided.old }
    ensures ran { (a : Area) → HeldIn work.old a → Ready p a
        → Ran (run (limits_in (used work.old)) p limit 0 (state_of a)) p result.steps result.outcome (view work.new) (used work.old) }
    ensures beyond_stays { beyond work.new ≡ beyond work.old }
{
    let Stretch { steps, outcome } = run_in::<16, 32>(work, p, limit, 0, divided);
    match outcome {
        Some(outcome) => Answer { steps, outcome },
        None => run_long(work, p, limit, steps),
    }
}

// Goes on with the run, `from` steps being done, in scratch that suits every step: 40 KiB, cleared once.
pub fn run_long(work: &mut [Record], p: Modulus, limit: u32, from: u32) -> Answer
    requires prime { Prime p }
    requires from_le_limit { from ≤ limit }
    requires ready { (a : Area) × HeldIn work.old a × Ready p a }
    ensures ran { (a : Area) → HeldIn work.old a → Ready p a
        → Ran (run (limits_in (used work.old)) p (limit - from) from (state_of a)) p result.steps result.outcome (view work.new) (used work.old) }
    ensures beyond_stays { beyond work.new ≡ beyond work.old }
{
    let mut divided = [ZERO; 512];
    let Stretch { steps, outcome } = run_in::<256, 512>(work, p, limit, from, &mut divided);
    Answer {
        steps,
        // In such scratch the run does not pause.
        outcome: outcome.unwrap_or(Outcome::Refused(Reason::Steps, 0)),
    }
}

// Elimination of a table, whole: the run in the lent work area, and the written list.
#![tactic(auto)]

ghost use Rattle.std.specs.Prelude.{◌≡◌, ◌/◌, ◌<◌, ◌≤◌, length};
ghost use Rattle.records.specs.Records.{view};
ghost use Rattle.tables.specs.Read.{Input, good, read_table};
ghost use Rattle.words.specs.Table.{TableOf};
ghost use Rattle.rules.specs.Run.{run, run_of};
ghost use Rattle.rules.specs.Eliminate.{delivered, limits_of};
ghost use Rattle.branches.specs.Area.{Area, HeldIn, used, beyond};
ghost use Rattle.representation.specs.Represent.{state_of};
ghost use Rattle.representation.specs.Ready.{Ready, limits_in};
ghost use Rattle.run.specs.Stretch.{Ran};
ghost use Rattle.delivery.specs.Delivered.{Delivered};
ghost use Rattle.elimination.specs.Eliminates.{Eliminates};
ghost use Rattle.elimination.specs.Worked.{Worked};

use polynomials::Term;
use records::Record;
use residues::Modulus;
pub use run::{Answer, Outcome};
use tables::Refusal;
use words::Table;

// The run of a work area that was started.
fn run_started(table: Table<'_>, work: &mut [Record], limit: u32, divided: &mut [Term]) -> Answer
    requires ready { (a : Area) × HeldIn work.old a × Ready table.modulus a }
    requires in_bounds { 256 ≤ length divided.old }
    ensures ran { (a : Area) → HeldIn work.old a → Ready table.entry.modulus a
        → Ran (run (limits_in (used work.old)) table.entry.modulus limit 0 (state_of a)) table.entry.modulus result.steps result.outcome (view work.new) (used work.old) }
    ensures beyond_stays { beyond work.new ≡ beyond work.old }
{
    let p = Modulus::new(u64::from(table.modulus));
    // 32 records: the largest table that is run in short scratch first (docs/DECISIONS.md, 16).
    if table.words.len() <= 128 {
        scratch::run_short(work, p, limit, divided)
    } else {
        scratch::run_long(work, p, limit, 0)
    }
}

// Eliminates an accepted table. The work area may hold anything before; afterwards it holds what the start or the run left, or is as it was where it has fewer than two records.
fn eliminate_accepted(
    table: Table<'_>,
    work: &mut [Record],
    output: &mut [u32],
    limit: u32,
) -> Answer
    requires header { TableOf table.words.now table }
    requires accepted { (t : Input) × (read_table table.words.now ≡ good t) }
    ensures delivered { (t : Input) → read_table table.entry.words.now ≡ good t
        → Delivered (delivered (length output.old / 4) t (run_of (limits_in (used work.old)) limit t)) result output.old output.new }
    ensures worked { (t : Input) → read_table table.entry.words.now ≡ good t → Worked t limit (used work.old) (view work.new) }
    ensures too_small { length work.old < 2 → work.new ≡ work.old }
    ensures beyond_stays { beyond work.new ≡ beyond work.old }
{
    let mut divided = [Term {
        coefficient: 0,
        monomial: 0,
    }; 256];
    if let Err(why) = loading::start(table, work, &mut divided) {
        return Answer {
            steps: 0,
            outcome: Outcome::Refused(why, 0),
        };
    }
    let ran = run_started(table, work, limit, &mut divided);
    delivery::deliver(table.words, work, output, ran)
}

// Eliminates the table: on success the list of systems stands in the first words of the output. The work area may hold anything, and is zero
// afterwards. Stack: about 90 KiB, of which a small job clears 6; 128 KiB more where a product gathers over 512 terms, 1.0 MiB where over 4,096.
pub fn eliminate(table: &[u32], work: &mut [u32], output: &mut [u32], limit: u32) -> Answer
    ensures { Eliminates table.now work.old output.old limit result work.new output.new }
{
    let answer = match reading::read_table(table) {
        Ok(accepted) => eliminate_accepted(accepted, records::area(work), output, limit),
        Err(Refusal { reason, at }) => Answer {
            steps: 0,
            outcome: Outcome::Refused(reason, at),
        },
    };
    work.fill(0);
    answer
}

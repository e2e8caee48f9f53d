// What an elimination hands over: its answer, and the systems of a finished run, written to the output if they fit.
#![tactic(auto)]

ghost use Rattle.std.specs.Prelude.{◌≡◌, List, [], map, reverse, ◌/◌, length};
ghost use Rattle.records.specs.Records.{view};
ghost use Rattle.tables.specs.Read.{Input, good, read_table};
ghost use Rattle.rules.specs.Written.{list_records};
ghost use Rattle.rules.specs.Run.{Ended};
ghost use Rattle.rules.specs.Eliminate.{delivered};
ghost use Rattle.branches.specs.Area.{Stored, HeldIn, used};
ghost use Rattle.representation.specs.Represent.{AllListed, system_of};
ghost use Rattle.run.specs.Stretch.{Ran};
ghost use Rattle.delivery.specs.Delivered.{Delivered};

use records::Record;
use run::{Answer, Outcome};
use tables::Reason;

// How many records the list of the systems in the work area needs.
fn list_size(work: &[Record]) -> usize
    requires { (ss : List Stored) × HeldIn work.now (record { branches = []; systems = ss }) × AllListed ss }
    ensures { (ss : List Stored) → HeldIn work.now (record { branches = []; systems = ss })
        → AllListed ss → result ≡ list_records (reverse (map system_of ss)) }
{
    let listed = branches::listed_systems(work);
    1 + (branches::count_records(work) - listed.top)
}

// The answer of a run on an accepted table, with its list of systems in the first words of the output.
pub fn deliver(table: &[u32], work: &[Record], output: &mut [u32], ran: Answer) -> Answer
    requires { (t : Input) × (e : Ended) × (read_table table.now ≡ good t) × Ran e t.modulus ran.steps ran.outcome (view work.now) (used work.now) }
    ensures { (t : Input) (e : Ended) → read_table table.now ≡ good t
        → Ran e t.modulus ran.steps ran.outcome (view work.now) (used work.now)
        → Delivered (delivered (length output.old / 4) t e) result output.old output.new }
{
    let Outcome::Systems(_) = ran.outcome else {
        return ran;
    };
    if output.len() / 4 < list_size(work) {
        return Answer {
            steps: ran.steps,
            outcome: Outcome::Refused(Reason::Output, 0),
        };
    }
    writing::write_list(work, table[0], table[1], output);
    ran
}

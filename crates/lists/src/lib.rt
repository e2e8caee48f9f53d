// A point against a list of systems.
#![tactic(auto)]

ghost use Rattle.std.specs.Prelude.{◌≡◌, List, ◌<◌};
ghost use Rattle.tables.specs.Words.{records};
ghost use Rattle.tables.specs.Read.{System};
ghost use Rattle.tables.specs.Solve.{solves, first_solved, Places};
ghost use Rattle.lists.specs.Listed.{IsSystemAt, AreSystemsOf};

use evaluation::Point;
use readers::Reader;
use tables::Refusal;

// Whether the point solves the system in record i.
#[tactic(auto, using(crate::proofs::ListLaws::solved), unfolding(tables::specs::Solve::solves))]
fn is_solved(point: Point<'_>, i: usize) -> bool
    requires record { i < records point.table.words.now }
    requires read { (s : System) × IsSystemAt point.table i s }
    ensures { (s : System) → IsSystemAt point.entry.table i s → result ≡ solves point.entry.table.modulus point.entry.residues.now s.T s.U }
{
    let list = point.table;
    point.all_zero(i, list.word(i, 0)) && point.none_zero(i, list.word(i, 1))
}

// The place of the first system that the point solves, from 1, or 0: document 01's answer.
fn first_solved(point: Point<'_>) -> u32
    requires read { (ss : List System) × AreSystemsOf point.table ss }
    ensures { (ss : List System) → AreSystemsOf point.entry.table ss → result ≡ first_solved point.entry.table.modulus point.entry.residues.now 1 ss }
{
    let mut place: u32 = 1;
    let mut r = Reader::new(point.table.words, 0).step(2);
    while !r.is_over() {
        if is_solved(point, r.at()) {
            return place;
        }
        place += 1;
        r = r.step(3);
    }
    0
}

// The place of the first listed system that the point, v1's number first, solves; 0 for none. No buffer is written.
pub fn try_list(table: &[u32], point: &[u32]) -> Result<u32, Refusal>
    ensures { Places table.now point.now result }
{
    let list = systems::check_list(table)?;
    let point = points::check_point(list, point)?;
    Ok(first_solved(point))
}

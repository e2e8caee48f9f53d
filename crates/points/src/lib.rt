// A point against a table.
#![tactic(auto)]

ghost use Rattle.std.specs.Prelude.{◌≡◌, true, false, IfOk, IfErr};
ghost use Rattle.tables.specs.Solve.{is_point, refusal, Tries};
ghost use Rattle.tables.specs.declared.Reason.TheVariants.{Point as PointReason};

use evaluation::Point;
use tables::{Reason, Refusal};
use words::Table;

// Whether the numbers are n residues modulo p.
pub fn is_point(p: u32, n: u32, point: &[u32]) -> bool
    ensures { result ≡ is_point p n point.now }
{
    point.len() == n as usize && point.iter().all(|&x| x < p)
}

// The point that the numbers are for a table or list, or its refusal.
#[tactic(auto, using(words::proofs::Laws::first_record, crate::proofs::PointLaws::point_residues))]
pub fn check_point<'a>(table: Table<'a>, numbers: &'a [u32]) -> Result<Point<'a>, Refusal>
    ensures ok { IfOk result (λ x. (x.table ≡ table.entry) × (x.residues.now ≡ numbers.now)
        × (is_point table.entry.modulus table.entry.variables numbers.now ≡ true)) }
    ensures err { IfErr result (λ e. (e ≡ refusal PointReason 0) × (is_point table.entry.modulus table.entry.variables numbers.now ≡ false)) }
{
    if !is_point(table.modulus, table.variables, numbers) {
        return Err(table.refusal(Reason::Point, 0));
    }
    Ok(Point {
        table,
        residues: numbers,
    })
}

// Whether the point, v1's number first, solves the table's input. No buffer is written.
#[tactic(auto, using(words::proofs::Laws::first_record))]
pub fn try_table(table: &[u32], point: &[u32]) -> Result<bool, Refusal>
    ensures { Tries table.now point.now result }
{
    let table = reading::read_table(table)?;
    let point = check_point(table, point)?;
    Ok(point.all_zero(0, table.word(0, 2)) && point.none_zero(0, table.word(0, 3)))
}

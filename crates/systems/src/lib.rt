// A list of systems, read with its refusals.
#![tactic(auto)]

ghost use Rattle.std.specs.Prelude.{◌≡◌, ◌<◌, IfOk, IfErr, Ok, Err};
ghost use Rattle.polynomials.specs.Poly.{Poly};
ghost use Rattle.polynomials.specs.Division.{leader};
ghost use Rattle.tables.specs.Words.{word, records};
ghost use Rattle.tables.specs.Read.{Listing, good, read_head, read_triangle, read_system, read_systems, read_list};
ghost use Rattle.tables.specs.Solve.{checked};
ghost use Rattle.words.specs.Table.{TableOf};
ghost use Rattle.systems.specs.Count.{counted};

use tables::{Reason, Refusal};
use words::Table;

// The leading variable of the polynomial with its head in record `head`: that of its first term, or 0, as document 01 has it.
#[tactic(auto, using(crate::proofs::SystemLaws::leading))]
fn leader_at(table: Table<'_>, head: usize) -> u32
    requires record { head < records table.words.now }
    requires read { (f : Poly) × (read_head table.words.now table.modulus table.variables head ≡ good f) }
    ensures { (f : Poly) → read_head table.entry.words.now table.entry.modulus table.entry.variables head ≡ good f → result ≡ leader f }
{
    let first = words::index(table.words, head, 0);
    if first == 0 {
        return 0;
    }
    monomials::highest(monomials::packed(table.word(first, 1), table.word(first, 2)))
}

// The T chain of the system in record `system`.
fn check_triangle(table: Table<'_>, system: usize) -> Result<(), Refusal>
    requires { system < records table.words.now }
    ensures { result ≡ checked (read_triangle table.entry.words.now table.entry.modulus table.entry.variables (records table.entry.words.now) 0 system (word table.entry.words.now system 0)) }
{
    // No iterator and no `Table::follow`, as in `checking`.
    let Ok(mut next) = words::follow(table.words, system, table.word(system, 0)) else {
        return Err(table.refusal(Reason::Index, system));
    };
    let mut last = 0;
    while let Some(i) = next {
        checking::check_head(table, i)?;
        let leader = leader_at(table, i);
        if leader <= last {
            return Err(table.refusal(Reason::Broken, i));
        }
        last = leader;
        let Ok(behind) = words::follow(table.words, i, table.word(i, 3)) else {
            return Err(table.refusal(Reason::Index, i));
        };
        next = behind;
    }
    Ok(())
}

// The system in record i.
#[tactic(auto, using(crate::proofs::SystemLaws::system_tests))]
fn check_system(table: Table<'_>, i: usize) -> Result<(), Refusal>
    requires { i < records table.words.now }
    ensures { result ≡ checked (read_system table.entry.words.now table.entry.modulus table.entry.variables i) }
{
    if table.word(i, 2) != 0 {
        return Err(table.refusal(Reason::Broken, i));
    }
    check_triangle(table, i)?;
    reading::check_heads(table, i, table.word(i, 1))
}

// The systems of a list, counted.
#[tactic(auto, using(words::proofs::Laws::first_record))]
fn check_systems(table: Table<'_>) -> Result<u32, Refusal>
    ensures { result ≡ counted (read_systems table.entry.words.now table.entry.modulus table.entry.variables (records table.entry.words.now) 0 (word table.entry.words.now 0 2)) }
{
    // No iterator, and `Table::follow` for the first index alone, as in `checking`.
    let mut next = table.follow(0, table.word(0, 2))?;
    let mut count: u32 = 0;
    while let Some(i) = next {
        check_system(table, i)?;
        count += 1;
        let Ok(behind) = words::follow(table.words, i, table.word(i, 3)) else {
            return Err(table.refusal(Reason::Index, i));
        };
        next = behind;
    }
    Ok(count)
}

// The list as a table, or the first broken rule in reading order. One pass over the chains.
#[tactic(auto, using(words::proofs::Laws::first_record))]
pub fn check_list(words: &[u32]) -> Result<Table<'_>, Refusal>
    ensures ok { IfOk result (λ t. TableOf words.now t × ((l : Listing) × (read_list words.now ≡ good l))) }
    ensures err { IfErr result (λ e. Err e ≡ checked (read_list words.now)) }
{
    let table = reading::check_header(words)?;
    let count = check_systems(table)?;
    if count != table.word(0, 3) {
        return Err(table.refusal(Reason::Broken, 0));
    }
    Ok(table)
}

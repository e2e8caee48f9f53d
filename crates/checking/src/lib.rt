// One polynomial of a table: its head, then its terms, to the first broken rule.
#![tactic(auto)]

ghost use Rattle.std.specs.Prelude.{◌≡◌, ◌≤◌, ◌<◌};
ghost use Rattle.polynomials.specs.Packed.{bytes};
ghost use Rattle.tables.specs.Words.{word, records};
ghost use Rattle.tables.specs.Read.{first, has_above, not_below, read_term, read_terms, read_head};
ghost use Rattle.tables.specs.Solve.{checked};
ghost use Rattle.tables.specs.Walk.{before};

use tables::{Reason, Refusal};
use words::Table;

// Whether a variable above vn has an exponent in m.
fn has_above(m: u64, n: u32) -> bool
    requires { n ≤ 8 }
    ensures { result ≡ has_above n (bytes 8 m) }
{
    n < 8 && m >> (8 * n) != 0
}

// Whether e is not below the monomial before, if there is one.
#[tactic(auto, using(crate::proofs::CheckLaws::falls))]
fn not_below(e: u64, last: Option<u64>) -> bool
    ensures { result ≡ not_below (bytes 8 e) (before last) }
{
    match last {
        Some(l) => l <= e,
        None => false,
    }
}

// The term in record i, with m terms of its polynomial before it, the last of them of the monomial `last`.
#[tactic(auto, using(crate::proofs::CheckLaws::term_tests))]
fn check_term(table: Table<'_>, m: u32, last: Option<u64>, i: usize) -> Result<(), Refusal>
    requires { i < records table.words.now }
    ensures { result ≡ checked (read_term table.entry.words.now table.entry.modulus table.entry.variables m (before last) i) }
{
    if 256 <= m {
        return Err(table.refusal(Reason::Terms, i));
    }
    let c = table.word(i, 0);
    if c == 0 || table.modulus <= c {
        return Err(table.refusal(Reason::Coefficient, i));
    }
    let e = monomials::packed(table.word(i, 1), table.word(i, 2));
    if has_above(e, table.variables) {
        return Err(table.refusal(Reason::Exponent, i));
    }
    if not_below(e, last) {
        return Err(table.refusal(Reason::Order, i));
    }
    Ok(())
}

// The terms of the polynomial with its head in record `head`.
fn check_terms(table: Table<'_>, head: usize) -> Result<(), Refusal>
    requires { head < records table.words.now }
    ensures { result ≡ checked (read_terms table.entry.words.now table.entry.modulus table.entry.variables (records table.entry.words.now) 0 first head (word table.entry.words.now head 0)) }
{
    // No iterator: it would yield a Result for each record, and the loop would stand around it all the same. And not `Table::follow`: its Option or
    // Refusal would be put together in memory at each record and read back, which takes as long as all else here.
    let Ok(mut next) = words::follow(table.words, head, table.word(head, 0)) else {
        return Err(table.refusal(Reason::Index, head));
    };
    let mut m: u32 = 0;
    let mut last = None;
    while let Some(i) = next {
        check_term(table, m, last, i)?;
        last = Some(monomials::packed(table.word(i, 1), table.word(i, 2)));
        m += 1;
        let Ok(behind) = words::follow(table.words, i, table.word(i, 3)) else {
            return Err(table.refusal(Reason::Index, i));
        };
        next = behind;
    }
    Ok(())
}

// The head in record i and its terms.
#[tactic(auto, using(crate::proofs::CheckLaws::head_tests))]
pub fn check_head(table: Table<'_>, i: usize) -> Result<(), Refusal>
    requires { i < records table.words.now }
    ensures { result ≡ checked (read_head table.entry.words.now table.entry.modulus table.entry.variables i) }
{
    if table.word(i, 1) != 0 || table.word(i, 2) != 0 {
        return Err(table.refusal(Reason::Head, i));
    }
    check_terms(table, i)
}

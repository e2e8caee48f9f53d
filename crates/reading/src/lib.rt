// Reading a table: the header, then the chains, to the first broken rule.
#![tactic(auto)]

ghost use Rattle.std.specs.Prelude.{◌≡◌, Ok, Err, ◌<◌, IfOk, IfErr};
ghost use Rattle.tables.specs.Words.{records};
ghost use Rattle.tables.specs.Read.{Input, good, read_header, read_heads, read_table};
ghost use Rattle.tables.specs.Solve.{checked};
ghost use Rattle.tables.specs.Walk.{accepted};
ghost use Rattle.words.specs.Table.{TableOf};

use tables::{Reason, Refusal};
use words::Table;

// The header: shape, prime and number of variables. A table comes as words: document 01's form.
#[tactic(auto, using(crate::proofs::ReadLaws::header_tests))]
pub fn check_header(words: &[u32]) -> Result<Table<'_>, Refusal>
    ensures ok { IfOk result (λ t. TableOf words.now t × (checked (read_header words.now accepted) ≡ Ok tt)) }
    ensures err { IfErr result (λ e. Err e ≡ checked (read_header words.now accepted)) }
{
    // One to 65,536 records.
    if words.len() % 4 != 0 || words.len() == 0 || 262144 < words.len() {
        return Err(Refusal {
            reason: Reason::Shape,
            at: 0,
        });
    }
    let modulus = words[0];
    if !primes::is_prime(modulus) {
        return Err(Refusal {
            reason: Reason::Prime,
            at: 0,
        });
    }
    let variables = words[1];
    if variables < 1 || 8 < variables {
        return Err(Refusal {
            reason: Reason::Variables,
            at: 0,
        });
    }
    Ok(Table {
        words,
        modulus,
        variables,
    })
}

// The heads from the index `first` on, which record `from` holds, each with its terms.
pub fn check_heads(table: Table<'_>, from: usize, first: u32) -> Result<(), Refusal>
    requires { from < records table.words.now }
    ensures { result ≡ checked (read_heads table.entry.words.now table.entry.modulus table.entry.variables (records table.entry.words.now) from first) }
{
    // No iterator and no `Table::follow`, as in `checking`.
    let Ok(mut next) = words::follow(table.words, from, first) else {
        return Err(table.refusal(Reason::Index, from));
    };
    while let Some(i) = next {
        checking::check_head(table, i)?;
        let Ok(behind) = words::follow(table.words, i, table.word(i, 3)) else {
            return Err(table.refusal(Reason::Index, i));
        };
        next = behind;
    }
    Ok(())
}

// The table that the words are if it is accepted, or the first broken rule in reading order. One pass over the chains.
#[tactic(auto, using(words::proofs::Laws::first_record))]
pub fn read_table(words: &[u32]) -> Result<Table<'_>, Refusal>
    ensures ok { IfOk result (λ t. TableOf words.now t × ((i : Input) × (read_table words.now ≡ good i))) }
    ensures err { IfErr result (λ e. Err e ≡ checked (read_table words.now)) }
{
    let table = check_header(words)?;
    check_heads(table, 0, table.word(0, 2))?;
    check_heads(table, 0, table.word(0, 3))?;
    Ok(table)
}

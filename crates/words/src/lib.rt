// The words of a table and its indices, and a table whose header is accepted.
#![tactic(auto)]

ghost use Rattle.std.specs.Prelude.{◌≡◌, ◌<◌};
ghost use Rattle.tables.specs.Words.{word, records, follow};
ghost use Rattle.tables.specs.Walk.{Readable, next, next_from};
ghost use Rattle.tables.specs.Solve.{refusal};

use tables::{Astray, Reason, Refusal};

// Word j of record i.
pub fn word(table: &[u32], i: usize, j: usize) -> u32
    requires { (i < records table.now) × (j < 4) }
    ensures { result ≡ word table.now i j }
{
    table[4 * i + j]
}

// Word j of record i, as an index.
pub fn index(table: &[u32], i: usize, j: usize) -> usize
    requires { (i < records table.now) × (j < 4) }
    ensures { result ≡ word table.now i j }
{
    word(table, i, j) as usize
}

// The index i, which record `at` holds, followed: to no record where it is 0.
pub fn follow(table: &[u32], at: usize, i: u32) -> Result<Option<usize>, Astray>
    ensures { result ≡ next (follow table.now at i) }
{
    let j = i as usize;
    if j == 0 {
        return Ok(None);
    }
    if at < j && j < table.len() / 4 {
        return Ok(Some(j));
    }
    Err(Astray)
}

// A table with an accepted header: its words, and the header's prime and number of variables.
#[derive(Clone, Copy)]
pub struct Table<'a> {
    pub words: &'a [u32],
    pub modulus: u32,
    pub variables: u32,
    ghost readable: { Readable words.now modulus variables },
}

impl<'a> Table<'a> {
    // Word j of record i.
    pub fn word(self, i: usize, j: usize) -> u32
        requires { (i < records self.words.now) × (j < 4) }
        ensures { result ≡ word self.entry.words.now i j }
    {
        word(self.words, i, j)
    }

    // The index i, which record `at` holds, followed.
    #[tactic(auto, using(crate::proofs::Laws::index_followed))]
    pub fn follow(self, at: usize, i: u32) -> Result<Option<usize>, Refusal>
        requires { at < records self.words.now }
        ensures { result ≡ next_from at (follow self.entry.words.now at i) }
    {
        match follow(self.words, at, i) {
            Ok(next) => Ok(next),
            Err(_) => Err(self.refusal(Reason::Index, at)),
        }
    }

    // A refusal at record `at`.
    pub fn refusal(self, reason: Reason, at: usize) -> Refusal
        requires { at < records self.words.now }
        ensures { result ≡ refusal reason at }
    {
        Refusal {
            reason,
            at: at as u32,
        }
    }
}

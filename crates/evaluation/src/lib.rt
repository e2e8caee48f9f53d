// Polynomials of a table at a point: the value of one, and whether all of a chain are zero there, or none.
#![tactic(auto)]

ghost use Rattle.std.specs.Prelude.{◌≡◌, List, ◌<◌};
ghost use Rattle.polynomials.specs.Poly.{Poly};
ghost use Rattle.polynomials.specs.Value.{value_modulo, Point};
ghost use Rattle.tables.specs.Words.{word, records};
ghost use Rattle.tables.specs.Solve.{all_zero, none_zero};
ghost use Rattle.words.specs.Table.{IsPolynomialAt, ArePolynomialsFrom};
ghost use Rattle.evaluation.specs.Walks.{TestsEach, plus_term};

use polynomials::Term;
use readers::Reader;
use residues::Modulus;
use words::Table;

// A point for the polynomials of a table: residues modulo its prime, v1's first.
#[derive(Clone, Copy)]
pub struct Point<'a> {
    pub table: Table<'a>,
    pub residues: &'a [u32],
    ghost of_table: { Point table.modulus residues.now },
}

impl<'a> Point<'a> {
    // v plus the value at the point of the term in record i.
    #[tactic(auto, unfolding(residues::specs::Residue::sum))]
    fn add_term(self, i: usize, v: u64) -> u64
        requires term { (i < records self.table.words.now) × (word self.table.words.now i 0 < self.table.modulus) }
        requires residue { v < self.table.modulus }
        ensures { result ≡ plus_term self.entry.table.words.now self.entry.table.modulus self.entry.residues.now i v }
    {
        let p = Modulus::new(u64::from(self.table.modulus));
        let term = Term {
            coefficient: u64::from(self.table.word(i, 0)),
            monomial: monomials::packed(self.table.word(i, 1), self.table.word(i, 2)),
        };
        p.add(v, values::term_value(p, term, self.residues))
    }

    // The value of the polynomial with its head in record `head`.
    fn value_at(self, head: usize) -> u64
        requires record { head < records self.table.words.now }
        requires read { (f : Poly) × IsPolynomialAt self.table head f }
        ensures { (f : Poly) → IsPolynomialAt self.entry.table head f → result ≡ value_modulo self.entry.table.modulus f self.entry.residues.now }
    {
        let mut v = 0;
        // A chain is walked by the reader that document 01 names.
        let mut r = Reader::new(self.table.words, head).step(0);
        while !r.is_over() {
            v = self.add_term(r.at(), v);
            r = r.step(3);
        }
        v
    }

    // Whether the values of all polynomials from the index `first` on, which record `from` holds, pass the test.
    fn all_pass<F: Fn(u64) -> bool>(self, from: usize, first: u32, test: F) -> bool
        requires record { from < records self.table.words.now }
        requires read { (fs : List Poly) × ArePolynomialsFrom self.table from first fs }
        requires test { F.IsAlwaysCallable test }
        ensures { (fs : List Poly) → ArePolynomialsFrom self.entry.table from first fs
            → TestsEach (F.post test) self.entry.table.modulus self.entry.residues.now fs result }
    {
        let mut r = Reader::new(self.table.words, first as usize);
        while !r.is_over() {
            if !test(self.value_at(r.at())) {
                return false;
            }
            r = r.step(3);
        }
        true
    }

    // Whether all polynomials from the index `first` on, which record `from` holds, are zero at the point. `from` is for the contract alone
    // (docs/DECISIONS.md, 26).
    pub fn all_zero(self, from: usize, first: u32) -> bool
        requires record { from < records self.table.words.now }
        requires read { (fs : List Poly) × ArePolynomialsFrom self.table from first fs }
        ensures { (fs : List Poly) → ArePolynomialsFrom self.entry.table from first fs → result ≡ all_zero self.entry.table.modulus self.entry.residues.now fs }
    {
        self.all_pass(from, first, |value| value == 0)
    }

    // Whether none of them is zero there.
    pub fn none_zero(self, from: usize, first: u32) -> bool
        requires record { from < records self.table.words.now }
        requires read { (fs : List Poly) × ArePolynomialsFrom self.table from first fs }
        ensures { (fs : List Poly) → ArePolynomialsFrom self.entry.table from first fs → result ≡ none_zero self.entry.table.modulus self.entry.residues.now fs }
    {
        self.all_pass(from, first, |value| value != 0)
    }
}

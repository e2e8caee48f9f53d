// How a line shows a polynomial, and an answer that may be a refusal.
ghost use Rattle.std.specs.Prelude.{◌<◌, ◌≤◌, length, IfOk};

use polynomials::{Passed, Term};
use std::io::Write;
use std::{fmt, io};

// The number of terms, and then up to six terms, or the checksum of more. A term is its coefficient and, in hexadecimal, its monomial.
#[derive(Clone, Copy)]
pub struct Polynomial<'a>(pub &'a [Term]);

impl fmt::Display for Polynomial<'_> {
    fn fmt<W: fmt::Write>(&self, f: &mut fmt::Formatter<W>) -> fmt::Result {
        let terms = self.0;
        write!(f, "{}", terms.len())?;
        if 6 < terms.len() {
            return write!(f, " #{}", checksum(terms));
        }
        for term in terms {
            write!(f, " {}:{:x}", term.coefficient, term.monomial)?;
        }
        Ok(())
    }
}

fn checksum(terms: &[Term]) -> u64 {
    let mut sum = 0;
    for term in terms {
        sum = mixed(mixed(sum, term.coefficient), term.monomial);
    }
    sum
}

// The checksum with another number.
fn mixed(sum: u64, number: u64) -> u64
    requires { sum < 2147483647 }
    ensures { result < 2147483647 }
{
    (sum * 1000003 + number % 2147483647) % 2147483647
}

// A polynomial that was formed in the first terms of s, or its refusal.
pub fn formed(
    out: &mut impl Write,
    tag: &str,
    answer: Result<usize, Passed>,
    s: &[Term],
) -> io::Result<()>
    requires { IfOk answer (λ n. n ≤ length s.now) }
{
    match answer {
        Ok(n) => writeln!(out, "{tag} {}", Polynomial(&s[..n])),
        Err(Passed::Degree) => writeln!(out, "{tag} refusal 10"),
        Err(Passed::Terms) => writeln!(out, "{tag} refusal 9"),
    }
}

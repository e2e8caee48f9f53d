// Jobs on polynomials, a line for each answer: what document 01's jobs go through, products about 256 terms, and random operands.
// `compare/src/bin/polynomial_jobs.rs` prints the same from a separately written Rust: `stdout` is what that printed.
#![tactic(auto)]

mod generator;
mod jobs;
mod operands;
mod print;

ghost use Rattle.std.specs.Prelude.{◌≤◌};

use generator::Generator;
use operands::{Digits, Progression, Shape, ZERO};
use polynomials::Term;
use std::io;
use std::io::{BufWriter, Write};

fn main(rt: HostRuntime) -> io::Result<()> {
    let mut writer = BufWriter::new(rt.alloc(), io::writer(&rt))?;
    let out = &mut writer;
    no_polynomials(out)?;
    half_a_pair(out)?;
    too_many_terms(out)?;
    of_the_document(out)?;
    with_zero(out)?;
    for p in [2, 7, 2147483647] {
        about_256_terms(out, p)?;
    }
    random(out, 300)?;
    writer.flush()
}

// A modulus and the terms of two polynomials.
type Job = (u32, &'static [Term], &'static [Term]);

// Terms, each as its coefficient and its monomial.
macro_rules! polynomial {
    ($($coefficient:literal : $monomial:literal),*) => {
        &[$(Term { coefficient: $coefficient, monomial: $monomial }),*]
    };
}

fn run_all(out: &mut impl Write, jobs: &[Job]) -> io::Result<()> {
    for (p, f, g) in jobs {
        jobs::run(out, *p, f, g)?;
    }
    Ok(())
}

// Numbers that are no prime, and terms that are no polynomial: each is skipped.
fn no_polynomials(out: &mut impl Write) -> io::Result<()> {
    let jobs: [Job; 6] = [
        (9, polynomial![1: 1], polynomial![1: 0]),
        (1, polynomial![1: 1], polynomial![1: 0]),
        // A coefficient that is 0, and one that is not below the modulus.
        (7, polynomial![0: 1], polynomial![1: 0]),
        (7, polynomial![1: 1], polynomial![7: 0]),
        // A monomial twice, and monomials that rise.
        (7, polynomial![1: 1, 2: 1], polynomial![1: 0]),
        (7, polynomial![1: 0], polynomial![1: 0, 2: 1]),
    ];
    run_all(out, &jobs)
}

// Words that are no pairs: a coefficient without its monomial behind v1.
fn half_a_pair(out: &mut impl Write) -> io::Result<()> {
    jobs::run_words(out, 7, &[1, 1, 1], &[1, 0])
}

// 257 terms are skipped too.
fn too_many_terms(out: &mut impl Write) -> io::Result<()> {
    let mut terms = [ZERO; 512];
    let all = Progression {
        top: 256,
        gap: 1,
        digits: Digits { base: 256 },
        odd_coefficient: 1,
    };
    jobs::run(out, 7, all.terms(&mut terms), polynomial![1: 0])
}

fn of_the_document(out: &mut impl Write) -> io::Result<()> {
    // v1^2 + v1 + 5 by v1^2 + 6, in words.
    jobs::run_words(out, 7, &[1, 2, 1, 1, 5, 0], &[1, 2, 6, 0])?;
    let jobs: [Job; 5] = [
        // v1 v2 + 6 by its initial.
        (7, polynomial![1: 257, 6: 0], polynomial![1: 1]),
        // v1^200 v2 + 1 by v1^55 v2 + 1 and by v1^56 v2 + 1.
        (7, polynomial![1: 456, 1: 0], polynomial![1: 311, 1: 0]),
        (7, polynomial![1: 456, 1: 0], polynomial![1: 312, 1: 0]),
        // v1^2 + v1 + 1 by v1, modulo 2.
        (2, polynomial![1: 2, 1: 1, 1: 0], polynomial![1: 1]),
        // The degrees of v1^200 + 1 and v1^55 + v1^8 + 1 sum to 255, though their or-ed monomials pass it.
        (7, polynomial![1: 200, 1: 0], polynomial![1: 55, 1: 8, 1: 0]),
    ];
    run_all(out, &jobs)
}

// 3 and v1, 0 and v1, 0 and 0.
fn with_zero(out: &mut impl Write) -> io::Result<()> {
    let jobs: [Job; 3] = [
        (7, polynomial![3: 0], polynomial![1: 1]),
        (7, polynomial![], polynomial![1: 1]),
        (7, polynomial![], polynomial![]),
    ];
    run_all(out, &jobs)
}

// Products of 256 and of 272 terms, and with alternating signs, so that terms cancel.
fn about_256_terms(out: &mut impl Write, p: u32) -> io::Result<()>
    requires { 1 ≤ p }
{
    let digits = Digits { base: 256 };
    let sixteen = Progression {
        top: 15,
        gap: 1,
        digits,
        odd_coefficient: 1,
    };
    let sixteen_of_v2 = Progression {
        top: 3840,
        gap: 256,
        digits,
        odd_coefficient: 1,
    };
    let seventeen_of_v2 = Progression {
        top: 4096,
        gap: 256,
        digits,
        odd_coefficient: 1,
    };
    let alternating = Progression {
        top: 255,
        gap: 1,
        digits,
        odd_coefficient: u64::from(p) - 1,
    };
    regular(out, p, sixteen, sixteen_of_v2)?;
    regular(out, p, sixteen, seventeen_of_v2)?;
    regular(out, p, alternating, sixteen)?;
    cubes(out, p, Digits { base: 2 })?;
    cubes(out, p, Digits { base: 4 })
}

// (1 - v1)(1 - v2).. by (1 + v1)(1 + v2).. for base 2, up to 256 terms each; like products of longer factors for a higher base.
// Many more terms stand on the way than at the end.
fn cubes(out: &mut impl Write, p: u32, digits: Digits) -> io::Result<()>
    requires { 1 ≤ p }
{
    let mut top = digits.base - 1;
    // The top gains a digit each turn: no range goes through these.
    while top < 256 {
        let minus = Progression {
            top,
            gap: 1,
            digits,
            odd_coefficient: u64::from(p) - 1,
        };
        let plus = Progression {
            top,
            gap: 1,
            digits,
            odd_coefficient: 1,
        };
        regular(out, p, minus, plus)?;
        top = top * digits.base + (digits.base - 1);
    }
    Ok(())
}

fn regular(out: &mut impl Write, p: u32, a: Progression, b: Progression) -> io::Result<()> {
    let mut f = [ZERO; 512];
    let mut g = [ZERO; 512];
    jobs::run(out, p, a.terms(&mut f), b.terms(&mut g))
}

fn random(out: &mut impl Write, count: u64) -> io::Result<()> {
    let mut generator = Generator::new(1);
    for _ in 0..count {
        random_pair(out, &mut generator)?;
    }
    Ok(())
}

fn random_pair(out: &mut impl Write, generator: &mut Generator) -> io::Result<()> {
    let p = generator.prime();
    let shape = Shape::draw(generator);
    let mut f = [ZERO; 512];
    let mut g = [ZERO; 512];
    let f = shape.terms(generator, u64::from(p), &mut f);
    let g = shape.terms(generator, u64::from(p), &mut g);
    jobs::run(out, p, f, g)
}

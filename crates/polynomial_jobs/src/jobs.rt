// The jobs on two polynomials.
ghost use Rattle.std.specs.Prelude.{◌≡◌, ◌&&◌, ◌≤◌, IfSome, length, take, is_some};
ghost use Rattle.std.proofs.Props.{props};
ghost use Rattle.residues.specs.Prime.{Prime, is_modulus};
ghost use Rattle.polynomials.specs.Bounds.{standard, bounded_remainder};
ghost use Rattle.polynomials.specs.Packed.{terms};
ghost use Rattle.polynomials.specs.Poly.{monic};
ghost use Rattle.polynomials.specs.Working.{Holds, Forms, is_held};
ghost use Rattle.division.specs.Props.{Canonical-prop};
ghost use Rattle.forms.specs.Words.{paired};

use crate::generator::Generator;
use crate::operands::ZERO;
use crate::print;
use crate::print::Polynomial;
use division::Pivot;
use monomials::Variable;
use polynomials::{Passed, Term};
use residues::Modulus;
use std::io;
use std::io::Write;

// All jobs on f and g modulo p, if p is a prime and they hold polynomials.
pub fn run(out: &mut impl Write, p: u32, f: &[Term], g: &[Term]) -> io::Result<()> {
    writeln!(out, "p {p}")?;
    match Operands::new(p, f, g) {
        Some(operands) => operands.all(out),
        None => writeln!(out, "skip"),
    }
}

// The same on the polynomials that words hold, if they hold any.
pub fn run_words(out: &mut impl Write, p: u32, f: &[u64], g: &[u64]) -> io::Result<()> {
    let number = u64::from(p);
    if !forms::words_are_polynomial(number, f) || !forms::words_are_polynomial(number, g) {
        writeln!(out, "p {p}")?;
        return writeln!(out, "skip");
    }
    let mut x = [ZERO; 256];
    let mut y = [ZERO; 256];
    run(out, p, paired(f, &mut x), paired(g, &mut y))
}

// The terms of the words' pairs, in the first terms of `out`: those.
fn paired<'a>(words: &[u64], out: &'a mut [Term]) -> &'a [Term]
    requires { length (paired words.now) ≤ length out.old }
    ensures { result.now ≡ paired words.now }
{
    let n = words.len() / 2;
    for i in 0..n {
        out[i] = Term {
            coefficient: words[2 * i],
            monomial: words[2 * i + 1],
        };
    }
    &out[..n]
}

// Two polynomials modulo a prime below 2^31.
#[derive(Clone, Copy)]
struct Operands<'a> {
    p: Modulus,
    f: &'a [Term],
    g: &'a [Term],
    ghost prime: { Prime p } by { Prim.hlevel props },
    ghost f_holds: { Holds p f.now } by { Prim.hlevel (props, Canonical-prop) },
    ghost g_holds: { Holds p g.now } by { Prim.hlevel (props, Canonical-prop) },
}

impl<'a> Operands<'a> {
    fn new(p: u32, f: &'a [Term], g: &'a [Term]) -> Option<Self>
        ensures tested { is_some result ≡ (is_modulus p && (is_held p f.now && is_held p g.now)) }
        ensures same { IfSome result (λ o. (o.p ≡ p) × (o.f.now ≡ f.now) × (o.g.now ≡ g.now)) }
    {
        let number = u64::from(p);
        if primes::is_prime(p)
            && forms::is_polynomial(number, f)
            && forms::is_polynomial(number, g)
        {
            let p = Modulus::new(number);
            return Some(Operands { p, f, g });
        }
        None
    }

    fn all(&self, out: &mut impl Write) -> io::Result<()> {
        writeln!(out, "f {}", Polynomial(self.f))?;
        writeln!(out, "g {}", Polynomial(self.g))?;
        self.product(out)?;
        self.difference(out)?;
        writeln!(out, "equal {}", u8::from(forms::equal(self.f, self.g)))?;
        self.monic(out)?;
        self.split(out)?;
        self.divide(out)?;
        self.swapped().divide(out)?;
        self.values(out)
    }

    fn swapped(&self) -> Self {
        Operands {
            p: self.p,
            f: self.g,
            g: self.f,
        }
    }

    fn product(&self, out: &mut impl Write) -> io::Result<()> {
        let mut x = [ZERO; 512];
        let mut z = [ZERO; 512];
        let answer = products::product(self.p, self.f, self.g, &mut x, &mut z);
        print::formed(out, "product", answer, &x)
    }

    fn difference(&self, out: &mut impl Write) -> io::Result<()> {
        let mut x = [ZERO; 512];
        let answer = sums::difference(self.p, self.f, self.g, &mut x);
        print::formed(out, "difference", answer, &x)
    }

    // f made monic, and whether it was.
    fn monic(&self, out: &mut impl Write) -> io::Result<()> {
        let mut terms = [ZERO; 256];
        let x = self.made_monic(&mut terms);
        writeln!(out, "monic {}", Polynomial(x))?;
        writeln!(out, "equal {}", u8::from(forms::equal(x, self.f)))
    }

    // f made monic, in the first terms of x: those.
    fn made_monic<'x>(&self, x: &'x mut [Term]) -> &'x [Term]
        requires { 256 ≤ length x.old }
        ensures { terms result.now ≡ monic self.now.p (terms self.now.f.now) }
    {
        let x = &mut x[..self.f.len()];
        x.copy_from_slice(self.f);
        scaling::monic(self.p, x);
        x
    }

    // Leading variable, initial and rest of f.
    #[tactic(auto, using(crate::proofs::Rounds::leader_small))]
    fn split(&self, out: &mut impl Write) -> io::Result<()> {
        let lead = terms::leader(self.f);
        writeln!(out, "leader {lead}")?;
        if lead == 0 {
            return Ok(());
        }
        let k = Variable::new(lead - 1);
        let mut x = [ZERO; 256];
        let n = terms::initial(self.f, k, &mut x);
        writeln!(out, "initial {}", Polynomial(&x[..n]))?;
        writeln!(out, "rest {}", Polynomial(terms::rest(self.f, k)))
    }

    // The division of f by g in the leading variable of g.
    #[tactic(auto, using(crate::proofs::Rounds::leader_small))]
    fn divide(&self, out: &mut impl Write) -> io::Result<()> {
        let lead = terms::leader(self.g);
        if lead == 0 {
            return writeln!(out, "no divisor");
        }
        let k = Variable::new(lead - 1);
        let mut x = [ZERO; 256];
        let m = terms::initial(self.g, k, &mut x);
        let pivot = Pivot {
            p: self.p,
            k,
            d: degrees::degree(self.g, k),
            initial: &x[..m],
            divisor: self.g,
        };
        let mut r = [ZERO; 256];
        let n = self.f.len();
        r[..n].copy_from_slice(self.f);
        let answer = remainder(&pivot, &mut r, n);
        print::formed(out, "remainder", answer, &r)
    }

    // The values of f at the origin and at a random point.
    fn values(&self, out: &mut impl Write) -> io::Result<()> {
        let origin = [0u32; 8];
        let x = Generator::new(1 + self.f.len() as u64).point(self.p);
        writeln!(out, "value {}", values::value(self.p, self.f, &origin))?;
        writeln!(out, "value {}", values::value(self.p, self.f, &x))
    }
}

// Rounds on the first m terms of r, until the degree is below that of the divisor: each lowers it, so that there are at most 255.
fn remainder(pivot: &Pivot<'_>, r: &mut [Term], m: usize) -> Result<usize, Passed>
    requires m_within { m ≤ length r.old }
    requires dividend { Holds pivot.now.p (take m r.old) }
    requires r_room { 256 ≤ length r.old }
    ensures { Forms (bounded_remainder standard pivot.now.p pivot.now.k pivot.now.d (terms pivot.now.divisor.now) 256 (terms (take m r.old))) result r.new }
{
    let mut n = m;
    for _round in 0..256u32 {
        let e = degrees::degree(&r[..n], pivot.k);
        if e < pivot.d {
            return Ok(n);
        }
        n = rounds::round_apart(pivot, e, r, n)?;
    }
    Ok(n)
}

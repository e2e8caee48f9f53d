// One round of the division of R by T in v(k+1): R becomes I×R minus L×v(k+1)^(e−d)×T, with T of degree d and initial I (a `Pivot`),
// R of degree e ≥ d, and L the coefficient of the highest power in R.
#![tactic(auto)]

ghost use Rattle.std.specs.Prelude.{◌≡◌, ◌+◌, ◌≤◌, length, take};
ghost use Rattle.std.proofs.Props.{props};
ghost use Rattle.polynomials.specs.Bounds.{standard, bounded_product, bounded_difference, bounded_round, and_then};
ghost use Rattle.polynomials.specs.Division.{degree, coefficient};
ghost use Rattle.polynomials.specs.Packed.{terms};
ghost use Rattle.polynomials.specs.Working.{Holds, Forms};
ghost use Rattle.products.specs.Lent.{lent_for_product};
ghost use Rattle.division.specs.Lent.{lent_for_difference, lent_for_round};
ghost use Rattle.division.specs.Props.{Canonical-prop};

use monomials::Variable;
use polynomials::{Passed, Term};
use residues::Modulus;

const ONE: Term = Term {
    coefficient: 1,
    monomial: 0,
};

// What divides: T, a polynomial modulo p of degree d ≥ 1 in v(k+1), with its initial.
#[derive(Clone, Copy)]
pub struct Pivot<'a> {
    pub p: Modulus,
    pub k: Variable,
    pub d: u64,
    pub initial: &'a [Term],
    pub divisor: &'a [Term],
    ghost some: { 1 ≤ d },
    ghost holds: { Holds p divisor.now } by { Prim.hlevel (props, Canonical-prop) },
    ghost of_degree: { degree k (terms divisor.now) ≡ d },
    ghost initial_holds: { Holds p initial.now } by { Prim.hlevel (props, Canonical-prop) },
    ghost of_initial: { terms initial.now ≡ coefficient k d (terms divisor.now) },
}

// R, the first n terms of r, of degree e, becomes what one round leaves. x, y and z are lent besides. Stack: that of `product`,
// so none to speak of in buffers below 512 terms.
pub fn round(
    pivot: &Pivot<'_>,
    e: u64,
    r: &mut [Term],
    n: usize,
    x: &mut [Term],
    y: &mut [Term],
    z: &mut [Term],
) -> Result<usize, Passed>
    requires at_least { pivot.now.d ≤ e }
    requires n_within { n ≤ length r.old }
    requires dividend { Holds pivot.now.p (take n r.old) × (degree pivot.now.k (terms (take n r.old)) ≡ e) }
    requires r_lent { lent_for_round n (length pivot.now.initial.now) (length pivot.now.divisor.now) ≤ length r.old }
    requires x_lent { lent_for_round n (length pivot.now.initial.now) (length pivot.now.divisor.now) ≤ length x.old }
    requires y_lent { lent_for_round n (length pivot.now.initial.now) (length pivot.now.divisor.now) ≤ length y.old }
    requires z_lent { lent_for_round n (length pivot.now.initial.now) (length pivot.now.divisor.now) ≤ length z.old }
    ensures { Forms (bounded_round standard pivot.now.p pivot.now.k pivot.now.d (terms pivot.now.divisor.now) (terms (take n r.old))) result r.new }
{
    let a = times_initial(pivot.p, pivot.initial, &r[..n], x, z)?;
    let l = factors::factor(r, n, pivot.k, pivot.d, e);
    subtract_product(pivot.p, pivot.divisor, r, l, &x[..a], y, z)
}

// i times f, in the first terms of x. The initial is 1 in many divisions: then f is copied.
fn times_initial(
    p: Modulus,
    i: &[Term],
    f: &[Term],
    x: &mut [Term],
    z: &mut [Term],
) -> Result<usize, Passed>
    requires i_holds { Holds p i.now }
    requires f_holds { Holds p f.now }
    requires x_lent { lent_for_product (length i.now) (length f.now) ≤ length x.old }
    requires z_lent { lent_for_product (length i.now) (length f.now) ≤ length z.old }
    ensures { Forms (bounded_product standard p (terms i.now) (terms f.now)) result x.new }
{
    if i == [ONE].as_slice() {
        let n = f.len();
        x[..n].copy_from_slice(f);
        return Ok(n);
    }
    products::product(p, i, f, x, z)
}

// a minus the product of the first l terms of r and t: in the first terms of r.
fn subtract_product(
    p: Modulus,
    t: &[Term],
    r: &mut [Term],
    l: usize,
    a: &[Term],
    y: &mut [Term],
    z: &mut [Term],
) -> Result<usize, Passed>
    requires t_holds { Holds p t.now }
    requires l_within { l ≤ length r.old }
    requires factor { Holds p (take l r.old) }
    requires a_holds { Holds p a.now }
    requires r_lent { lent_for_difference (length a.now) l (length t.now) ≤ length r.old }
    requires y_lent { lent_for_product l (length t.now) ≤ length y.old }
    requires z_lent { lent_for_product l (length t.now) ≤ length z.old }
    ensures { Forms (and_then (bounded_product standard p (terms (take l r.old)) (terms t.now))
        (bounded_difference standard p (terms a.now))) result r.new }
{
    if l == 1 {
        return subtract_row(p, t, r, a);
    }
    let b = products::product(p, &r[..l], t, y, z)?;
    sums::difference(p, a, &y[..b], r)
}

// `subtract_product` where the first term of r is the factor: by one merge.
fn subtract_row(p: Modulus, t: &[Term], r: &mut [Term], a: &[Term]) -> Result<usize, Passed>
    requires t_holds { Holds p t.now }
    requires r_nonempty { 1 ≤ length r.old }
    requires factor { Holds p (take 1 r.old) }
    requires a_holds { Holds p a.now }
    requires r_lent { length a.now + length t.now ≤ length r.old }
    ensures { Forms (and_then (bounded_product standard p (terms (take 1 r.old)) (terms t.now))
        (bounded_difference standard p (terms a.now))) result r.new }
{
    let row = r[0];
    if degrees::degrees_over(&r[..1], t) {
        return Err(Passed::Degree);
    }
    sums::within(sums::add_multiple(p, p.get() - row.coefficient, row.monomial, t, a, r))
}

// Products by the rows of the shorter factor: gathered in the lent buffers, and where these are too short anew in longer ones.
#![tactic(auto)]

ghost use Rattle.std.specs.Prelude.{◌≡◌, false, ◌≤◌, ◌<◌, length};
ghost use Rattle.polynomials.specs.Poly.{product};
ghost use Rattle.polynomials.specs.Bounds.{standard, at_most, bounded_product, degrees_over, tested};
ghost use Rattle.polynomials.specs.Packed.{terms};
ghost use Rattle.polynomials.specs.Working.{Holds, Forms};
ghost use Rattle.products.specs.Lent.{lent_for_product};

use gathering::Ungathered;
use polynomials::{Passed, Term};
use residues::Modulus;

// f times g, in the first terms of x; z is lent besides. Stack: none to speak of where x and z hold what is gathered, as they do wherever
// all term products fit; else 128 KiB, and 1.0 MiB where 4,096 terms don't hold it either.
pub fn product(
    p: Modulus,
    f: &[Term],
    g: &[Term],
    x: &mut [Term],
    z: &mut [Term],
) -> Result<usize, Passed>
    requires holds { Holds p f.now }
    requires holds_2 { Holds p g.now }
    requires g_in_bounds { (lent_for_product (length f.now) (length g.now) ≤ length x.old) × (lent_for_product (length f.now) (length g.now) ≤ length z.old) }
    ensures { Forms (bounded_product standard p (terms f.now) (terms g.now)) result x.new }
{
    if f.is_empty() || g.is_empty() {
        return Ok(0);
    }
    if degrees::degrees_over(f, g) {
        return Err(Passed::Degree);
    }
    rows(p, f, g, x, z)
}

// The product by the rows of the shorter factor, where no degree passes 255. Since it calls itself, LLVM inlines no large frame here:
// each call would pay for it. So it calls both gatherings apart; one called by the other would be inlined there.
fn rows(p: Modulus, f: &[Term], g: &[Term], x: &mut [Term], z: &mut [Term]) -> Result<usize, Passed>
    requires holds { Holds p f.now × (0 < length f.now) }
    requires holds_2 { Holds p g.now × (degrees_over (at_most 255) (terms f.now) (terms g.now) ≡ false) }
    requires g_nonzero { 0 < length g.now }
    requires g_in_bounds { (lent_for_product (length f.now) (length g.now) ≤ length x.old) × (lent_for_product (length f.now) (length g.now) ≤ length z.old) }
    ensures { Forms (tested standard (product p (terms f.now) (terms g.now))) result x.new }
{
    if g.len() < f.len() {
        return rows(p, g, f, x, z);
    }
    if let [t] = f {
        return Ok(sums::add_multiple(p, t.coefficient, t.monomial, g, &[], x));
    }
    match gathering::gather(p, f, g, x, z) {
        Ok(n) => Ok(n),
        Err(Ungathered::OverTerms) => Err(Passed::Terms),
        Err(Ungathered::Short) => match gathering_apart::gather_apart::<4096>(p, f, g, x) {
            Ok(n) => Ok(n),
            Err(Ungathered::OverTerms) => Err(Passed::Terms),
            Err(Ungathered::Short) => gathering_apart::gather_large(p, f, g, x),
        },
    }
}

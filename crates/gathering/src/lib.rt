// The rows of a product, gathered in two lent buffers: a row, one term of a factor times the other factor, is added at a time.
//
// What is gathered can pass 256 terms and come back by cancelling. But a row cancels no more terms than it has, so the gathering
// stops once the rows left can't bring it back: little more than half of all term products (`room_for`) is the most that a buffer must hold. Mostly it is far less:
// a gathering goes on until a row finds no room.
#![tactic(auto)]

ghost use Rattle.std.specs.Prelude.{◌≡◌, false, ◌≤◌, ◌<◌, length};
ghost use Rattle.polynomials.specs.Poly.{product};
ghost use Rattle.polynomials.specs.Bounds.{at_most, degrees_over};
ghost use Rattle.polynomials.specs.Packed.{terms};
ghost use Rattle.polynomials.specs.Working.{Holds};
ghost use Rattle.gathering.specs.Gathers.{Gathers, room_for};

use polynomials::Term;
use residues::Modulus;

// Why nothing is gathered: more than 256 terms are certain, or a lent buffer is too short.
#[derive(Clone, Copy, Debug, PartialEq, Eq)]
pub enum Ungathered {
    OverTerms,
    Short,
}

// The rows of f added up, from the last on, in x and z by turns: at the end so many terms in x. It ends early where a row finds no room;
// x has room for one.
pub fn gather(
    p: Modulus,
    f: &[Term],
    g: &[Term],
    x: &mut [Term],
    z: &mut [Term],
) -> Result<usize, Ungathered>
    requires holds { Holds p f.now × (0 < length f.now) }
    requires holds_2 { Holds p g.now × (degrees_over (at_most 255) (terms f.now) (terms g.now) ≡ false) }
    requires g_in_bounds { length g.now ≤ length x.old }
    ensures { Gathers (product p (terms f.now) (terms g.now)) (room_for (length f.now) (length g.now)) result x.new (length x.old) (length z.old) }
{
    let mut rows = f;
    let mut n = 0;
    if f.len() % 2 == 1 {
        let last = f.len() - 1;
        n = sums::add_multiple(p, f[last].coefficient, f[last].monomial, g, &[], x);
        rows = &f[..last];
    }
    while let [left @ .., lower, upper] = rows {
        if z.len() < n + g.len() {
            return Err(Ungathered::Short);
        }
        let m = sums::add_multiple(p, upper.coefficient, upper.monomial, g, &x[..n], z);
        if x.len() < m + g.len() {
            return Err(Ungathered::Short);
        }
        n = sums::add_multiple(p, lower.coefficient, lower.monomial, g, &z[..m], x);
        if 256 + left.len() * g.len() < n {
            return Err(Ungathered::OverTerms);
        }
        rows = left;
    }
    Ok(n)
}

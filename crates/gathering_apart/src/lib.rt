// Products gathered in buffers of their own, where the lent ones are too short.
#![tactic(auto)]

ghost use Rattle.std.specs.Prelude.{◌≡◌, false, ◌≤◌, ◌<◌, length};
ghost use Rattle.polynomials.specs.Poly.{product};
ghost use Rattle.polynomials.specs.Bounds.{standard, at_most, degrees_over, tested};
ghost use Rattle.polynomials.specs.Packed.{terms};
ghost use Rattle.polynomials.specs.Working.{Holds, Forms};
ghost use Rattle.gathering.specs.Gathers.{Gathers, room_for};

use gathering::Ungathered;
use polynomials::{Passed, Term};
use residues::Modulus;

// `gathering::gather` in buffers of its own, of N terms each. What is formed is copied into x, which has room for any result.
// Stack: 32 bytes for each of the N, cleared at each call.
pub fn gather_apart<const N: usize>(
    p: Modulus,
    f: &[Term],
    g: &[Term],
    x: &mut [Term],
) -> Result<usize, Ungathered>
    requires holds { Holds p f.now × (0 < length f.now) }
    requires holds_2 { Holds p g.now × (degrees_over (at_most 255) (terms f.now) (terms g.now) ≡ false) }
    requires in_bounds { 256 ≤ length x.old }
    requires room { (256 ≤ N) × (N ≤ 33408) }
    ensures { Gathers (product p (terms f.now) (terms g.now)) (room_for (length f.now) (length g.now)) result x.new N N }
{
    let mut a = [Term {
        coefficient: 0,
        monomial: 0,
    }; N];
    let mut b = [Term {
        coefficient: 0,
        monomial: 0,
    }; N];
    let n = gathering::gather(p, f, g, &mut a, &mut b)?;
    x[..n].copy_from_slice(&a[..n]);
    Ok(n)
}

// The same in buffers that hold whatever is gathered: they are never too short. Stack: 1.0 MiB, cleared at each call.
pub fn gather_large(p: Modulus, f: &[Term], g: &[Term], x: &mut [Term]) -> Result<usize, Passed>
    requires holds { Holds p f.now × (0 < length f.now) }
    requires holds_2 { Holds p g.now × (degrees_over (at_most 255) (terms f.now) (terms g.now) ≡ false) }
    requires in_bounds { 256 ≤ length x.old }
    ensures { Forms (tested standard (product p (terms f.now) (terms g.now))) result x.new }
{
    gather_apart::<33408>(p, f, g, x).map_err(|_| Passed::Terms)
}

// A round of a division wherever it fits: in the lent buffers, or in buffers of its own.
#![tactic(auto)]

ghost use Rattle.std.specs.Prelude.{◌≡◌, ◌≤◌, leb, length, take};
ghost use Rattle.polynomials.specs.Bounds.{standard, bounded_round};
ghost use Rattle.polynomials.specs.Division.{degree};
ghost use Rattle.polynomials.specs.Packed.{terms};
ghost use Rattle.polynomials.specs.Working.{Holds, Forms};
ghost use Rattle.division.specs.Lent.{lent_for_round};

use division::Pivot;
use polynomials::{Passed, Term};

const ZERO: Term = Term {
    coefficient: 0,
    monomial: 0,
};

// Whether buffers with room for so many terms suit a round with R of n terms, an initial of c and a pivot of m.
pub fn round_fits(n: usize, c: usize, m: usize, room: usize) -> bool
    requires { (n ≤ 256) × (c ≤ 256) × (m ≤ 256) }
    ensures { result ≡ leb (lent_for_round n c m) room }
{
    if 512 <= room {
        return true;
    }
    n * (c + m) <= room
}

// `division::round` in buffers of its own, for one that doesn't fit those at hand (`round_fits`): r need only hold the result. Stack: 32 KiB, cleared at
// each call, besides that of `product`.
pub fn round_apart(pivot: &Pivot<'_>, e: u64, r: &mut [Term], n: usize) -> Result<usize, Passed>
    requires at_least { pivot.now.d ≤ e }
    requires n_within { n ≤ length r.old }
    requires dividend { Holds pivot.now.p (take n r.old) × (degree pivot.now.k (terms (take n r.old)) ≡ e) }
    requires r_room { 256 ≤ length r.old }
    ensures { Forms (bounded_round standard pivot.now.p pivot.now.k pivot.now.d (terms pivot.now.divisor.now) (terms (take n r.old))) result r.new }
{
    let mut a = [ZERO; 512];
    let mut x = [ZERO; 512];
    let mut y = [ZERO; 512];
    let mut z = [ZERO; 512];
    a[..n].copy_from_slice(&r[..n]);
    let m = division::round(pivot, e, &mut a, n, &mut x, &mut y, &mut z)?;
    r[..m].copy_from_slice(&a[..m]);
    Ok(m)
}

// `division::round` in the lent buffers if it fits them, and else in buffers of its own; r need only hold the result.
pub fn round_anywhere(
    pivot: &Pivot<'_>,
    e: u64,
    r: &mut [Term],
    n: usize,
    x: &mut [Term],
    y: &mut [Term],
    z: &mut [Term],
) -> Result<usize, Passed>
    requires at_least { pivot.now.d ≤ e }
    requires n_within { n ≤ length r.old }
    requires dividend { Holds pivot.now.p (take n r.old) × (degree pivot.now.k (terms (take n r.old)) ≡ e) }
    requires r_room { 256 ≤ length r.old }
    requires x_shortest { (length x.old ≤ length r.old) × (length x.old ≤ length y.old) × (length x.old ≤ length z.old) }
    ensures { Forms (bounded_round standard pivot.now.p pivot.now.k pivot.now.d (terms pivot.now.divisor.now) (terms (take n r.old))) result r.new }
{
    if round_fits(n, pivot.initial.len(), pivot.divisor.len(), x.len()) {
        return division::round(pivot, e, r, n, x, y, z);
    }
    round_apart(pivot, e, r, n)
}

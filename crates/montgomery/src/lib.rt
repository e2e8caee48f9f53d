// Montgomery's products modulo an odd p: reduced by a division by 2^32 in place of one by p.
#![tactic(auto)]

ghost use Rattle.std.specs.Prelude.{◌*◌, ◌%◌, ◌<◌, ◌≡◌};
ghost use Rattle.montgomery.specs.Montgomery.{NegatedInverse, Squares, Reduced};

// An odd modulus p below 2^31, with the n below 2^32 for which p times n leaves -1 modulo 2^32.
#[derive(Clone, Copy)]
pub struct Modulus {
    pub p: u64,
    pub n: u64,
    ghost p_below: { p < 2147483648 },
    ghost n_below: { n < 4294967296 },
    ghost inverse: { NegatedInverse 4294967296 p n },
}

impl Modulus {
    // Modulo 4 the negated inverse of p is p + 2. Each step squares the 4: 16, 256, 65536, 2^32.
    pub fn new(p: u64) -> Self
        requires below { p < 2147483648 }
        requires odd { p % 2 ≡ 1 }
        ensures { result.p ≡ p }
    {
        let mut n = p + 2;
        for _ in 0u32..4 {
            n = newton(p, n);
        }
        Modulus { p, n }
    }

    // The product of a and u, divided by 2^32 modulo p: no division by p.
    pub fn multiply_reduced(self, a: u64, u: u64) -> u64
        requires a_below { a < 4294967296 }
        requires u_below { u < 2147483648 }
        ensures below { result < 4294967296 }
        ensures reduced { Reduced self.p (a * u) result }
    {
        let x = a * u;
        let m = x % 4294967296 * self.n % 4294967296;
        (x + m * self.p) / 4294967296
    }
}

// From a negated inverse modulo m to one modulo the square of m.
fn newton(p: u64, n: u64) -> u64
    requires p_below { p < 2147483648 }
    requires n_below { n < 4294967296 }
    ensures below { result < 4294967296 }
    ensures squares { Squares p n result }
{
    n * (2 + p * n % 4294967296) % 4294967296
}

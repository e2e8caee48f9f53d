// Monomials: eight exponents packed in 64 bits, v1's in the lowest byte.
#![tactic(auto)]

ghost use Rattle.std.specs.Prelude.{◌≡◌, ◌+◌, ◌*◌, ◌<◌, ltb, get_or};
ghost use Rattle.std.proofs.Math.Dec.{is_le};
ghost use Rattle.polynomials.specs.Packed.{bytes, exponents};
ghost use Rattle.polynomials.specs.Bounds.{at_most, some_over};
ghost use Rattle.polynomials.specs.Division.{highest};
ghost use Rattle.polynomials.specs.Poly.{join, order};

use std::marker::Model;

// A variable by its position: k for v(k+1).
#[derive(Clone, Copy, PartialEq, Eq)]
pub struct Variable {
    position: u32,
}

impl Model for Variable {
    ghost use Rattle.std.specs.Prelude.{ℕ, ◌<◌};

    ghost Value = { ℕ };

    ghost view = { λ v. v.position };

    ghost inverse = { λ k. record { position = k } };

    ghost invariant = { λ v. v.position < 8 };
}

impl Variable {
    pub fn new(position: u32) -> Variable
        requires { position < 8 }
        ensures { result ≡ position }
    {
        Variable { position }
    }

    // The position.
    pub fn get(self) -> u32
        ensures is { result ≡ self }
        ensures below { self < 8 }
    {
        self.position
    }
}

// The exponent of v(k+1).
pub fn exponent(m: u64, k: Variable) -> u64
    ensures { result ≡ get_or (bytes 8 m) k 0 }
{
    (m >> (8 * k.position)) % 256
}

// The monomial of a table's two exponent words.
pub fn packed(high: u32, low: u32) -> u64
    ensures { (result ≡ high * 4294967296 + low) × (bytes 8 result ≡ exponents high low) }
{
    (u64::from(high) << 32) + u64::from(low)
}

// Whether a is not above b: the order of monomials is that of numbers.
pub fn at_most(a: u64, b: u64) -> bool
    ensures { result ≡ is_le (order (bytes 8 a) (bytes 8 b)) }
{
    a <= b
}

// The leading variable: k for vk, 0 for none. It is how many bytes m takes.
pub fn highest(m: u64) -> u32
    ensures { result ≡ highest (bytes 8 m) }
{
    let mut left = m;
    let mut k: u32 = 0;
    // No range: how many bytes there are is what the loop finds.
    while 0 < left {
        left /= 256;
        k += 1;
    }
    k
}

// Whether the exponents of v(k+1) sum to over 255.
#[tactic(auto, using(polynomials::specs::laws::Packed::byte_small))]
fn passes_at(a: u64, b: u64, k: Variable) -> bool
    ensures { result ≡ ltb 255 (get_or (bytes 8 a) k 0 + get_or (bytes 8 b) k 0) }
{
    255 < exponent(a, k) + exponent(b, k)
}

// Whether some exponent of the product of two monomials passes 255.
pub fn passes(a: u64, b: u64) -> bool
    ensures { result ≡ some_over (at_most 255) (join (bytes 8 a) (bytes 8 b)) }
{
    (0..8).any(|k| passes_at(a, b, Variable::new(k)))
}

// Residues modulo p, the numbers 0 to p - 1, with p below 2^31: sum, difference, product, power, and the inverse for a prime p.
#![tactic(auto)]

ghost use Rattle.std.specs.Prelude.{◌≡◌, ◌%◌, ◌^◌, ◌≤◌, ◌<◌};
ghost use Rattle.residues.specs.Prime.{Prime};
ghost use Rattle.residues.specs.Residue.{sum, difference, product, inverse};

use std::marker::Model;

// What residues are taken by: a number from 1, below 2^31.
#[derive(Clone, Copy)]
pub struct Modulus {
    p: u64,
}

impl Model for Modulus {
    ghost use Rattle.std.specs.Prelude.{ℕ, ◌≤◌, ◌<◌};

    ghost Value = { ℕ };

    ghost view = { λ m. m.p };

    ghost inverse = { λ p. record { p = p } };

    ghost invariant = { λ m. (1 ≤ m.p) × (m.p < 2147483648) };
}

impl Modulus {
    pub fn new(p: u64) -> Modulus
        requires positive { 1 ≤ p }
        requires below { p < 2147483648 }
        ensures { result ≡ p }
    {
        Modulus { p }
    }

    // The number.
    pub fn get(self) -> u64
        ensures is { result ≡ self }
        ensures positive { 1 ≤ self }
        ensures below { self < 2147483648 }
    {
        self.p
    }

    // The sum of two residues.
    pub fn add(self, a: u64, b: u64) -> u64
        requires { (a < self) × (b < self) }
        ensures { result ≡ sum self a b }
    {
        let s = a + b;
        if s < self.p { s } else { s - self.p }
    }

    // The difference of two residues.
    pub fn subtract(self, a: u64, b: u64) -> u64
        requires { (a < self) × (b < self) }
        ensures { result ≡ difference self a b }
    {
        if b <= a { a - b } else { a + (self.p - b) }
    }

    // The product of two residues.
    #[tactic(auto, unfolding(crate::specs::Residue::product))]
    pub fn multiply(self, a: u64, b: u64) -> u64
        requires { (a < self) × (b < self) }
        ensures { result ≡ product self a b }
    {
        a * b % self.p
    }

    // The inverse of a residue other than 0, modulo a prime.
    pub fn invert(self, a: u64) -> u64
        requires { Prime self × (1 ≤ a) × (a < self) }
        ensures { result ≡ inverse self a }
    {
        let mut x = a;
        let mut t: u64 = 1;
        while 1 < x {
            let q = self.p / x;
            t = t * (self.p - q) % self.p;
            x = self.p % x;
        }
        t
    }

    // The power of a residue, by the bits of the exponent: each turn squares the base and halves the exponent that is left.
    pub fn power(self, x: u64, e: u64) -> u64
        requires { (x < self) × (2 ≤ self) × (e < 256) }
        ensures { result ≡ x ^ e % self }
    {
        if e == 0 {
            return 1;
        }
        let mut r: u64 = 1;
        let mut b = x;
        let mut k = e;
        while 1 < k {
            if k % 2 == 1 {
                r = self.multiply(r, b);
            }
            b = self.multiply(b, b);
            k = k / 2;
        }
        self.multiply(r, b)
    }
}

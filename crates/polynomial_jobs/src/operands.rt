// Operands: regular ones, and random ones. What they hold is for the caller to test.
//
// A monomial is made from a number: its digits in a base are the exponents, v1's first, each times a scale. Falling numbers give
// falling monomials as long as no exponent passes 255.
ghost use Rattle.std.specs.Prelude.{◌≤◌, length};

use crate::generator::Generator;
use polynomials::Term;

pub const ZERO: Term = Term {
    coefficient: 0,
    monomial: 0,
};

// The digits of numbers in a base.
#[derive(Clone, Copy)]
pub struct Digits {
    pub base: u64,
    ghost at_least_two: { 2 ≤ base },
    ghost at_most_256: { base ≤ 256 },
}

impl Digits {
    // The monomial whose exponents are the first eight digits of j, each times the scale.
    fn monomial(self, j: u64, scale: u64) -> u64
        requires { scale ≤ 256 }
    {
        let mut exponents = [0u8; 8];
        let mut left = j;
        for e in exponents.iter_mut() {
            *e = (left % self.base * scale % 256) as u8;
            left /= self.base;
        }
        u64::from_le_bytes(exponents)
    }

    // Whether the digits of j have an odd sum.
    fn is_odd(self, j: u64) -> bool {
        let mut odd = false;
        let mut left = j;
        // As many turns as j has digits: nothing is counted.
        while 0 < left {
            odd ^= left % self.base % 2 == 1;
            left /= self.base;
        }
        odd
    }

    // The base to the power n, or to the first power that passes 2^23.
    fn power(self, n: u64) -> u64
        ensures { (1 ≤ result) × (result ≤ 2147483648) }
    {
        let mut q: u64 = 1;
        for _i in 0..n {
            if 8388608 <= q {
                return q;
            }
            q *= self.base;
        }
        q
    }
}

// The monomials of top, top - gap, .. in the base; the coefficient is `odd_coefficient` where the exponents have an odd sum, else 1.
#[derive(Clone, Copy)]
pub struct Progression {
    pub top: u64,
    pub gap: u64,
    pub digits: Digits,
    pub odd_coefficient: u64,
    ghost falls: { 1 ≤ gap },
}

impl Progression {
    // Up to 512 of these terms, into the first ones of `out`: those.
    pub fn terms(self, out: &mut [Term]) -> &[Term]
        requires { 512 ≤ length out.old }
        ensures { length result.now ≤ 512 }
    {
        let count = (self.top / self.gap).min(511) as usize + 1;
        let mut j = self.top;
        for term in out[..count].iter_mut() {
            *term = Term {
                coefficient: if self.digits.is_odd(j) {
                    self.odd_coefficient
                } else {
                    1
                },
                monomial: self.digits.monomial(j, 1),
            };
            j = j.saturating_sub(self.gap);
        }
        &out[..count]
    }
}

// What random operands have in common: numbers below `places`, whose digits in the base are scaled.
#[derive(Clone, Copy)]
pub struct Shape {
    digits: Digits,
    places: u64,
    scale: u64,
    ghost some: { 1 ≤ places },
    ghost few: { places ≤ 2147483648 },
    ghost small_scale: { scale ≤ 256 },
}

impl Shape {
    // 1 to 8 variables, with small or large exponents.
    pub fn draw(generator: &mut Generator) -> Self {
        let base = 2 + generator.draw_below_one([2, 8, 30, 255]);
        let digits = Digits { base };
        let variables = 1 + generator.draw(8);
        let places = digits.power(variables);
        let scale = if generator.draw(2) == 0 {
            1
        } else {
            1 + generator.draw(255 / (base - 1))
        };
        Shape {
            digits,
            places,
            scale,
        }
    }

    // A random number of terms with random gaps between their monomials, into the first ones of `out`: those.
    pub fn terms<'a>(self, generator: &mut Generator, p: u64, out: &'a mut [Term]) -> &'a [Term]
        requires le_p { 2 ≤ p }
        requires in_bounds { 256 ≤ length out.old }
        ensures { length result.now ≤ 256 }
    {
        let count = 1 + generator.draw_below_one([3, 8, 40, 256]);
        let mut j = generator.draw(self.places);
        let mut n = 0;
        for left in (1..=count).rev() {
            out[n] = Term {
                coefficient: 1 + generator.draw(p - 1),
                monomial: self.digits.monomial(j, self.scale),
            };
            n += 1;
            let gap = 1 + generator.draw(1 + 2 * j / left);
            if j < gap {
                break;
            }
            j -= gap;
        }
        &out[..n]
    }
}

// The prime test: trial division by the candidates of a wheel of 30, or one product of them modulo p.
#![tactic(auto)]

ghost use Rattle.std.specs.Prelude.{◌≡◌, ◌+◌, ◌%◌, ◌≤◌, ◌<◌, ◌↔◌, IsTrue};
ghost use Rattle.std.specs.Int.{IsGcd};
ghost use Rattle.residues.specs.Prime.{is_prime, is_modulus};
ghost use Rattle.wheel.specs.Wheel.{Coprime30};
ghost use Rattle.primes.specs.Gathered.{AllGathered};

use montgomery::Modulus;

// The candidates of a turn are pairs as far from its middle: these behind its first number, and 28 less these.
const NEAR: [u64; 4] = [0, 6, 10, 12];

// Whether p is a prime below 2^31.
pub fn is_prime(p: u32) -> bool
    ensures { result ≡ is_modulus p }
{
    if p >= 2147483648 {
        return false;
    }
    if p < 2 {
        return false;
    }
    for q in [2, 3, 5] {
        if p % q == 0 {
            return p == q;
        }
    }
    if p < 65536 {
        return wheel::is_prime_by_wheel(p);
    }
    is_prime_by_products(u64::from(p))
}

// Whether p, which 2, 3 and 5 do not divide, is prime: the candidates of the turns from 1, 31, 61 and so on up to the root of p are multiplied modulo p,
// and one test tells whether any of them has a divisor in common with p. The pairs are gathered in four products, which the processor works on side by side.
fn is_prime_by_products(p: u64) -> bool
    requires low { 65536 ≤ p }
    requires high { p < 2147483648 }
    requires coprime { Coprime30 p }
    ensures { result ≡ is_prime p }
{
    let modulus = Modulus::new(p);
    let mut products: [u64; 4] = [1; 4];
    let mut first: u64 = 1;
    // No range of turns: its end would be the root of p, which the squares find without taking a root.
    while first * first <= p {
        gather_turn(modulus, first, &mut products);
        first += 30;
    }
    let [a, b, c, d] = products;
    let x = a * b % p;
    let y = c * d % p;
    coprime(p, x * y % p)
}

// Multiplies each product by its pair of candidates of the turn from `first`.
fn gather_turn(modulus: Modulus, first: u64, products: &mut [u64; 4])
    requires large { 65536 ≤ modulus.p }
    requires first { first % 30 ≡ 1 }
    requires small { first ≤ 46321 }
    requires gathered { AllGathered modulus.p first products.old }
    ensures { AllGathered modulus.p (first + 30) products.new }
{
    let outer = first * (first + 28);
    // By index, since a zip of the two arrays takes four times as long.
    for i in 0..4 {
        let near = NEAR[i];
        let pair = outer + near * (28 - near);
        products[i] = modulus.multiply_reduced(products[i], pair);
    }
}

// Whether no number but 1 divides both a and b.
fn coprime(a: u64, b: u64) -> bool
    ensures { IsTrue result ↔ IsGcd a b 1 }
{
    let (mut x, mut y) = (a, b);
    while y != 0 {
        (x, y) = (y, x % y);
    }
    x == 1
}

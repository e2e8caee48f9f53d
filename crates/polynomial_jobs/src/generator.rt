// Random numbers, from a small linear congruential generator.
ghost use Rattle.std.specs.Prelude.{◌≤◌, ◌<◌, All, slice_index};

use residues::Modulus;

// The state stays below 2^31, so that no product wraps.
#[derive(Drop)]
pub struct Generator {
    state: u64,
    ghost small: { state < 2147483648 },
}

const PRIMES: [u32; 8] = [2, 3, 7, 101, 65537, 1000003, 2147483629, 2147483647];

impl Generator {
    ghost use Rattle.polynomials.specs.Value.{Point};

    pub fn new(seed: u64) -> Self
        requires { seed < 2147483648 }
    {
        Generator { state: seed }
    }

    // A number below n.
    pub fn draw(&mut self, n: u64) -> u64
        requires { 1 ≤ n }
        ensures { result < n }
    {
        self.state = self.state * 48271 % 2147483647;
        self.state % n
    }

    // A number below one of four bounds, each as often as the others.
    pub fn draw_below_one(&mut self, bounds: [u64; 4]) -> u64
        requires some { All (λ n. 1 ≤ n) bounds }
        requires last { All (λ n. n ≤ slice_index bounds 3) bounds }
        ensures { result < slice_index bounds 3 }
    {
        let bound = bounds[self.draw(4) as usize];
        self.draw(bound)
    }

    // One of eight primes.
    pub fn prime(&mut self) -> u32
        ensures { 2 ≤ result }
    {
        PRIMES[self.draw(8) as usize]
    }

    // A point of eight residues modulo p.
    pub fn point(&mut self, p: Modulus) -> [u32; 8]
        ensures { Point p result }
    {
        let mut x = [0u32; 8];
        for residue in x.iter_mut() {
            *residue = self.draw(p.get()) as u32;
        }
        x
    }
}

// Trial division by the candidates of a wheel of 30.
#![tactic(auto)]

ghost use Rattle.std.specs.Prelude.{◌≡◌, ◌%◌, ◌≤◌, ◌<◌};
ghost use Rattle.residues.specs.Prime.{is_prime};
ghost use Rattle.wheel.specs.Wheel.{Coprime30, Turn};

// From the first of a turn to each of its candidates, which are 7, 11, 13, 17, 19, 23, 29 and 31 modulo 30.
const OFFSETS: [u32; 8] = [0, 4, 6, 10, 12, 16, 22, 24];

// Whether p, which 2, 3 and 5 do not divide, is prime: turns of the wheel of 30 up to the root of p.
pub fn is_prime_by_wheel(p: u32) -> bool
    requires low { 2 ≤ p }
    requires high { p < 2147483648 }
    requires coprime { Coprime30 p }
    ensures { result ≡ is_prime p }
{
    let mut d: u32 = 7;
    // No range of turns: its end would be the root of p, which the squares find without taking a root.
    while d * d <= p {
        if turn_divides(p, d) {
            return false;
        }
        d += 30;
    }
    true
}

// Whether one of the eight numbers coprime to 30 from d up to d + 30 divides p.
fn turn_divides(p: u32, d: u32) -> bool
    requires first { d % 30 ≡ 7 }
    requires small { d < 65536 }
    ensures { Turn p d result }
{
    OFFSETS.iter().any(|offset| p % (d + *offset) == 0)
}

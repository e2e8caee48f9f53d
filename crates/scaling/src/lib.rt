// The monic polynomial: every coefficient times the inverse of the first.
#![tactic(auto)]

ghost use Rattle.std.specs.Prelude.{◌≡◌, ◌^◌, ◌<◌};
ghost use Rattle.residues.specs.Each.{Each};
ghost use Rattle.residues.specs.Prime.{Prime};
ghost use Rattle.residues.specs.Residue.{product};
ghost use Rattle.polynomials.specs.Poly.{monic};
ghost use Rattle.polynomials.specs.Canonical.{Canonical};
ghost use Rattle.polynomials.specs.Packed.{terms};

use polynomials::Term;
use residues::Modulus;

// The term t times c.
fn scaled(p: Modulus, c: u64, t: Term) -> Term
    requires { (c < p) × (t.coefficient < p) }
    ensures coefficient { result.coefficient ≡ product p c t.coefficient }
    ensures monomial { (result.monomial ≡ t.monomial) × (result.monomial < 2 ^ 64) }
{
    Term {
        coefficient: p.multiply(c, t.coefficient),
        monomial: t.monomial,
    }
}

// Makes f monic. Each monomial is a word still.
pub fn monic(p: Modulus, f: &mut [Term])
    requires prime { Prime p }
    requires canonical { Canonical p (terms f.old) }
    ensures is { terms f.new ≡ monic p (terms f.old) }
    ensures in_words { Each (λ t. t.monomial < 2 ^ 64) f.new }
{
    let Some(&first) = f.first() else {
        return;
    };
    let c = p.invert(first.coefficient);
    for t in f.iter_mut() {
        *t = scaled(p, c, *t);
    }
}

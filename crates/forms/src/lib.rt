// Polynomials as terms: whether terms, or words, hold one, and whether two are equal.
#![tactic(auto)]

ghost use Rattle.std.specs.Prelude.{◌≡◌, [], ◌∷◌};
ghost use Rattle.polynomials.specs.Poly.{equal};
ghost use Rattle.polynomials.specs.Packed.{bytes, term, terms};
ghost use Rattle.polynomials.specs.Working.{falls, is_held};
ghost use Rattle.forms.specs.Words.{paired, words_are_held};

use polynomials::Term;

// Whether f holds a polynomial: at most 256 terms that strictly fall, with coefficients 1 to p - 1.
pub fn is_polynomial(p: u64, f: &[Term]) -> bool
    ensures { result ≡ is_held p f.now }
{
    if 256 < f.len() {
        return false;
    }
    let mut rest = f;
    while let [t, behind @ ..] = rest {
        if t.coefficient == 0 || p <= t.coefficient || !is_above(t.monomial, behind) {
            return false;
        }
        rest = behind;
    }
    true
}

// Whether the monomial is above the first one of f, where there is one.
fn is_above(monomial: u64, f: &[Term]) -> bool
    ensures { result ≡ falls (bytes 8 monomial) (terms f.now) }
{
    f.is_empty() || f[0].monomial < monomial
}

// Whether the words hold a polynomial: pairs, a term's coefficient and then its monomial, of at most 256 terms. Half a pair is refused.
pub fn words_are_polynomial(p: u64, words: &[u64]) -> bool
    ensures { result ≡ words_are_held p words.now }
{
    if words.len() % 2 == 1 || 512 < words.len() {
        return false;
    }
    let mut rest = words;
    while let [coefficient, monomial, behind @ ..] = rest {
        if *coefficient == 0 || p <= *coefficient || !is_above_pair(*monomial, behind) {
            return false;
        }
        rest = behind;
    }
    true
}

// Whether the monomial is above that of the first pair of the words, where there is one.
fn is_above_pair(monomial: u64, words: &[u64]) -> bool
    ensures { result ≡ falls (bytes 8 monomial) (terms (paired words.now)) }
{
    words.len() < 2 || words[1] < monomial
}

// Whether two polynomials are equal.
pub fn equal(f: &[Term], g: &[Term]) -> bool
    ensures { result ≡ equal (terms f.now) (terms g.now) }
{
    f.len() == g.len() && f.iter().zip(g).all(|(t, u)| is_same(*t, *u))
}

// Whether two terms are the same. What `==` of slices answers doesn't prove `equal`: it says nothing of the range of their numbers.
fn is_same(t: Term, u: Term) -> bool
    ensures { result ≡ equal (term t ∷ []) (term u ∷ []) }
{
    t == u
}

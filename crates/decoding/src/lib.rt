// Words from bytes, four to a word, the lowest first.
#![tactic(auto)]

ghost use Rattle.std.specs.Prelude.{◌≡◌, ◌+◌, ◌*◌, ◌/◌, ◌≤◌, length, take, drop};
ghost use Rattle.decoding.specs.Words.{word_at, words_of};

// The word at byte i: std's conversion, said of the slice.
pub fn word_at(bytes: &[u8], i: usize) -> u32
    requires { i + 4 ≤ length bytes.now }
    ensures { result ≡ word_at bytes.now i }
{
    u32::from_le_bytes([bytes[i], bytes[i + 1], bytes[i + 2], bytes[i + 3]])
}

// Puts the whole words of the bytes to the start of `words`.
#[tactic(auto, unfolding(crate::specs::Words::words_of, crate::specs::Words::words_from))]
pub fn decode(bytes: &[u8], words: &mut [u32])
    requires { length bytes.now / 4 ≤ length words.old }
    ensures words_after { take (length bytes.now / 4) words.new ≡ words_of bytes.now }
    ensures words_unchanged { drop (length bytes.now / 4) words.new ≡ drop (length bytes.now / 4) words.old }
{
    let n = bytes.len() / 4;
    for i in 0..n {
        words[i] = word_at(bytes, 4 * i);
    }
}

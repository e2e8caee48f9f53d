// Words from a reader by way of a lent buffer. What the reader gives is free: of a word that is read the contracts say where it stands in the
// buffer, of words that stood in the buffer already that they are taken in order, none skipped, and of a buffer filled anew that its first is taken.
#![tactic(auto)]

ghost use Rattle.std.specs.Prelude.{◌≡◌, ◌+◌, ◌-◌, ◌≤◌, ◌<◌, length, take, drop, get_or, Some, None, IsSome, IfSome};
ghost use Rattle.decoding.specs.Words.{word_at};
ghost use Rattle.input.specs.Input.{Before, Enough, Left, further, Taken, Counted};

use std::io::Read;
use std::marker::Model;

// The words that a reader gives. The bytes of the buffer that are read and not yet used are from `at` up to `end`.
#[derive(Drop)]
pub struct Words<'a, R> {
    reader: R,
    buffer: &'a mut [u8],
    at: usize,
    end: usize,
}

impl<'a, R> Model for Words<'a, R> {
    ghost use Rattle.std.specs.Prelude.{◌≤◌, length};
    ghost use Rattle.input.specs.Window.{Window};

    ghost Value = { Window };

    ghost view = { λ w. record { bytes = w.buffer.now; at = w.at; end = w.end } };

    ghost invariant = { λ w. (w.at ≤ w.end) × (w.end ≤ length w.buffer.now) };
}

impl<'a, R: Read> Words<'a, R> {
    // Nothing is read yet. The buffer's length is to be a multiple of 4: a word that it cuts is lost.
    pub fn new(reader: R, buffer: &'a mut [u8]) -> Words<'a, R>
        ensures { result ≡ record { bytes = buffer.old; at = 0; end = 0 } }
    {
        Words {
            reader,
            buffer,
            at: 0,
            end: 0,
        }
    }

    // The bytes of the buffer from `at` up to `end` are read already and not yet used. None are where the buffer has no such bytes: the next word
    // is then read anew.
    pub fn resume(reader: R, buffer: &'a mut [u8], at: usize, end: usize) -> Words<'a, R>
        ensures window { (at ≤ end) × (end ≤ length buffer.old) → result ≡ record { bytes = buffer.old; at = at; end = end } }
        ensures none { ((at ≤ end) × (end ≤ length buffer.old) → ⊥) → result ≡ record { bytes = buffer.old; at = 0; end = 0 } }
    {
        if end < at || buffer.len() < end {
            return Words::new(reader, buffer);
        }
        Self {
            reader,
            buffer,
            at,
            end,
        }
    }

    // The bytes that are read and not yet used.
    pub fn buffer(&self) -> &[u8]
        ensures { result.now ≡ take (self.now.end - self.now.at) (drop self.now.at self.now.bytes) }
    {
        &self.buffer[self.at..self.end]
    }

    // The next word. The buffer is filled anew when it holds no whole word more.
    pub fn next(&mut self) -> Option<u32>
        ensures reached { IfSome result (λ x. Before x self.new) }
        ensures value { Left self.old → (result ≡ Some (word_at self.old.bytes self.old.at)) × (self.new ≡ further 1 self.old) }
        ensures anew { (Left self.old → ⊥) → IfSome result (λ _. self.new.at ≡ 4) }
        ensures capacity { length self.new.bytes ≡ length self.old.bytes }
    {
        if self.end - self.at < 4 {
            self.end = read_full(&mut self.reader, self.buffer);
            self.at = 0;
        }
        self.word()
    }

    // The next word of the buffer, where it holds one.
    fn word(&mut self) -> Option<u32>
        ensures reached { IfSome result (λ x. Before x self.new) }
        ensures value { Left self.old → (result ≡ Some (word_at self.old.bytes self.old.at)) × (self.new ≡ further 1 self.old) }
        ensures none { (Left self.old → ⊥) → (result ≡ None) × (self.new ≡ self.old) }
    {
        if self.end - self.at < 4 {
            return None;
        }
        let at = self.at;
        let buffer = &mut *self.buffer;
        let word = decoding::word_at(buffer, at);
        self.at += 4;
        Some(word)
    }

    // Reads as many words as the slice has.
    pub fn fill(&mut self, words: &mut [u32]) -> Option<()>
        ensures ended { IfSome result (λ _. 0 < length words.new → Before (get_or words.new (length words.new - 1) 0) self.new) }
        ensures taken { Enough (length words.old) self.old → IsSome result × Taken self.old self.new words.new }
        ensures capacity { length self.new.bytes ≡ length self.old.bytes }
    {
        // `next` would store the position at each word and load it again, so the words that the buffer holds are taken here.
        let mut at = self.at;
        for i in 0..words.len() {
            if self.end - at < 4 {
                self.at = at;
                words[i] = self.next()?;
                at = self.at;
                continue;
            }
            let buffer = &mut *self.buffer;
            words[i] = decoding::word_at(buffer, at);
            at += 4;
        }
        self.at = at;
        Some(())
    }

    // Reads a count, and as many words to the start of the slice.
    pub fn counted(&mut self, words: &mut [u32]) -> Option<usize>
        ensures within { IfSome result (λ n. (n ≤ length words.new) × (drop n words.new ≡ drop n words.old)) }
        ensures counted { Left self.old → Counted self.old words.old result self.new words.new }
        ensures capacity { length self.new.bytes ≡ length self.old.bytes }
    {
        let n = self.next()? as usize;
        if words.len() < n {
            return None;
        }
        self.fill(&mut words[..n])?;
        Some(n)
    }
}

// Reads until the buffer is full, the input ends or a read fails; answers how many bytes it put to the buffer's start.
pub fn read_full<R: Read>(reader: &mut R, buffer: &mut [u8]) -> usize
    ensures { result ≤ length buffer.new }
{
    let mut done = 0;
    while done < buffer.len() {
        match reader.read(&mut buffer[done..]) {
            Ok(0) | Err(_) => {
                return done;
            }
            Ok(n) => done += n,
        }
    }
    done
}

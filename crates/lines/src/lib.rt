// Lines of numbers, gathered in a lent buffer.
#![tactic(auto)]

ghost use Rattle.std.specs.Prelude.{◌≡◌, [], ◌∷◌, ◌++◌, ◌+◌, ◌-◌, ◌*◌, ◌≤◌, ◌<◌, length, take, IsOk, OnOk, OnErr};
ghost use Rattle.std.specs.Fmt.{decimal};
ghost use Rattle.std.specs.Io.KnownBytes.{Appends};
ghost use Rattle.lines.specs.Written.{capacity, Adds};
ghost use Rattle.lines.specs.Text.{LineAdded};

use std::io;
use std::io::Write;
use std::marker::Model;

// The first `end` bytes of the buffer are the text so far, and what stands behind them is free.
#[derive(Drop)]
pub struct Text<'a> {
    buffer: &'a mut [u8],
    end: usize,
}

impl<'a> Model for Text<'a> {
    ghost use Rattle.std.specs.Prelude.{◌≤◌, ◌-◌, length, take};
    ghost use Rattle.lines.specs.Written.{Written};

    ghost Value = { Written };

    ghost view = { λ t. record { bytes = take t.end t.buffer.now; free = length t.buffer.now - t.end } };

    ghost invariant = { λ t. t.end ≤ length t.buffer.now };
}

impl<'a> Text<'a> {
    pub fn new(buffer: &'a mut [u8]) -> Text<'a>
        ensures { result ≡ record { bytes = []; free = length buffer.old } }
    {
        Text { buffer, end: 0 }
    }

    // The first `end` bytes of the buffer are the text so far.
    pub fn resume(buffer: &'a mut [u8], end: usize) -> Text<'a>
        requires { end ≤ length buffer.old }
        ensures { result ≡ record { bytes = take end buffer.old; free = length buffer.old - end } }
    {
        Text { buffer, end }
    }

    // Adds a byte.
    pub fn put_byte(&mut self, byte: u8)
        requires { 1 ≤ self.old.free }
        ensures { Adds (byte ∷ []) self.old self.new }
    {
        self.buffer[self.end] = byte;
        self.end += 1;
    }

    // Adds bytes.
    fn put(&mut self, bytes: &[u8])
        requires { length bytes.now ≤ self.old.free }
        ensures { Adds bytes.now self.old self.new }
    {
        let from = self.end;
        let to = from + bytes.len();
        self.buffer[from..to].copy_from_slice(bytes);
        self.end = to;
    }

    // Adds a number in decimal, of at most 20 digits.
    pub fn put_number(&mut self, n: u64)
        requires { 20 ≤ self.old.free }
        ensures value { Adds (decimal n) self.old self.new }
        ensures upper_bound { length self.new.bytes ≤ length self.old.bytes + 20 }
    {
        self.put(itoa::Buffer::new().format(n).as_bytes());
    }

    // The text so far.
    pub fn as_bytes(&self) -> &[u8]
        ensures { result.now ≡ self.now.bytes }
    {
        &self.buffer[..self.end]
    }

    // Writes the text so far.
    pub fn write<W: Write>(&self, out: &mut W) -> io::Result<()>
        ensures { OnOk result (Appends (W.contents out.old) (W.contents out.new) self.now.bytes) }
    {
        out.write_all(self.as_bytes())
    }

    // Makes room for 128 bytes more: writes the text so far if there is less, and begins anew.
    pub fn room<W: Write>(&mut self, out: &mut W) -> io::Result<()>
        requires { 128 ≤ capacity self.old }
        ensures free { OnOk result (128 ≤ self.new.free) }
        ensures kept { 128 ≤ self.old.free → IsOk result × (self.new ≡ self.old) }
        ensures written { self.old.free < 128 → OnOk result ((self.new.bytes ≡ []) × Appends (W.contents out.old) (W.contents out.new) self.old.bytes) }
        ensures err { OnErr result (self.new ≡ self.old) }
        ensures capacity { capacity self.new ≡ capacity self.old }
    {
        if 128 <= self.buffer.len() - self.end {
            return Ok(());
        }
        self.write(out)?;
        self.end = 0;
        Ok(())
    }

    // Adds a separator and a number.
    fn put_next(&mut self, separator: u8, number: u32)
        requires { 21 ≤ self.old.free }
        ensures value { Adds (separator ∷ decimal number) self.old self.new }
        ensures upper_bound { length self.new.bytes ≤ length self.old.bytes + 21 }
    {
        self.put_byte(separator);
        self.put_number(u64::from(number));
    }

    // Adds a line, where there is room for it. Not by `write!`, whose contract says nothing of the text's room.
    pub fn put_line(&mut self, numbers: &[u32])
        requires { 21 * length numbers.now + 1 ≤ self.old.free }
        ensures { LineAdded numbers.now self.old self.new }
    {
        let Some((first, rest)) = numbers.split_first() else {
            return self.put_byte(b'\n');
        };
        self.put_number(u64::from(*first));
        for number in rest {
            self.put_next(b' ', *number);
        }
        self.put_byte(b'\n');
    }

    // Adds a line: the numbers, separated by single blanks. Where the text comes near the buffer's end it is written first.
    pub fn print_line<W: Write>(&mut self, out: &mut W, numbers: &[u32]) -> io::Result<()>
        requires { 128 ≤ capacity self.old }
        ensures line_added { 21 * length numbers.now + 128 ≤ self.old.free → IsOk result × LineAdded numbers.now self.old self.new }
        ensures capacity { capacity self.new ≡ capacity self.old }
    {
        self.room(out)?;
        let Some((first, others)) = numbers.split_first() else {
            self.put_byte(b'\n');
            return Ok(());
        };
        self.put_number(u64::from(*first));
        for next in others {
            self.room(out)?;
            self.put_next(b' ', *next);
        }
        self.room(out)?;
        self.put_byte(b'\n');
        Ok(())
    }
}

// Text on its way to a sink.
ghost use Rattle.std.specs.Prelude.{◌≡◌, ◌+◌, ◌*◌, ◌^◌, ◌<◌, ◌≤◌, ◌++◌, ◌∷◌, [], length, decimal, OnOk};
ghost use Rattle.std.specs.Fmt.{signed_decimal};
ghost use Rattle.hex.specs.Hex.{encode_lower};
ghost use Rattle.link_base.specs.Faults.{HasCause};
ghost use Rattle.link_base.specs.Sink.{Appends, AppendsFront};
ghost use Rattle.link_text.specs.Gathered.{Gathers, text_capacity};

use crate::digits::encode;
use crate::laid::Lay;
use itoa::Buffer;
use link_base::{Failed, Sink, put_all};
use std::marker::Model;

/// How many octets of text are held at most.
const CAPACITY: usize = 16_384;

/// Text that is gathered, so that it is written in few pieces. Clauses see it as the octets in hand.
#[derive(Drop)]
pub struct TextBuffer {
    octets: [u8; CAPACITY],
    // how many of them are in hand
    len: usize,
}

impl Model for TextBuffer {
    ghost use Rattle.std.specs.Prelude.{ℕ, List, ◌≤◌, take};

    ghost Value = { List ℕ };

    ghost view = { λ b. take b.len b.octets };

    ghost invariant = { λ b. b.len ≤ 16384 };
}

impl TextBuffer {
    /// No text.
    pub fn new() -> TextBuffer
        ensures { result ≡ [] }
    {
        TextBuffer {
            octets: [0; CAPACITY],
            len: 0,
        }
    }

    /// Writes the text in hand. After an `Err` a front of it was written, and the buffer is of no more use.
    pub fn flush<K: Sink>(&mut self, out: &mut K) -> Result<(), Failed>
        ensures cause { HasCause (K.taken out.old).faults (K.taken out.new).faults result }
        ensures empty { OnOk result (self.new ≡ []) }
        ensures whole { OnOk result (Appends self.old (K.taken out.old) (K.taken out.new)) }
        ensures front { AppendsFront self.old (K.taken out.old) (K.taken out.new) }
    {
        let written = put_all(out, &self.octets[..self.len]);
        self.len = 0;
        written
    }

    /// Makes room for so many octets: writes the text in hand where there is none.
    pub fn make_room<K: Sink>(&mut self, octets: usize, out: &mut K) -> Result<(), Failed>
        requires { octets ≤ text_capacity }
        ensures cause { HasCause (K.taken out.old).faults (K.taken out.new).faults result }
        ensures room { OnOk result (length self.new + octets ≤ text_capacity) }
        ensures gathers { OnOk result (Gathers [] self.old (K.taken out.old) self.new (K.taken out.new)) }
        ensures front { AppendsFront self.old (K.taken out.old) (K.taken out.new) }
    {
        if CAPACITY - self.len < octets {
            return self.flush(out);
        }
        Ok(())
    }

    /// Appends octets.
    pub fn put(&mut self, octets: &[u8])
        requires { length self.old + length octets.now ≤ text_capacity }
        ensures { self.new ≡ self.old ++ octets.now }
    {
        let end = self.len + octets.len();
        self.octets[self.len..end].copy_from_slice(octets);
        self.len = end;
    }

    /// Appends an octet.
    #[inline(always)]
    pub fn put_octet(&mut self, octet: u8)
        requires { length self.old < text_capacity }
        ensures { self.new ≡ self.old ++ octet ∷ [] }
    {
        self.octets[self.len] = octet;
        self.len += 1;
    }

    /// Appends a text that lays itself out.
    #[inline]
    pub fn put_laid<L: Lay>(&mut self, piece: &L)
        requires { length self.old + L.room piece.now ≤ text_capacity }
        ensures { self.new ≡ self.old ++ L.text piece.now }
    {
        self.len = piece.lay(&mut self.octets, self.len);
    }

    /// Appends the hexadecimal digits of octets, letters in lower case.
    pub fn put_hex(&mut self, octets: &[u8])
        requires { length self.old + 2 * length octets.now ≤ text_capacity }
        ensures text { self.new ≡ self.old ++ encode_lower octets.now }
        ensures long { length self.new ≡ length self.old + 2 * length octets.now }
    {
        let end = self.len + 2 * octets.len();
        encode(octets, &mut self.octets[self.len..end]);
        self.len = end;
    }

    // Appends a number of one digit or two.
    #[inline(always)]
    fn put_short(&mut self, n: u8)
        requires room { length self.old + 2 ≤ text_capacity }
        requires short { n < 100 }
        ensures text { self.new ≡ self.old ++ decimal n }
        ensures short { length self.new ≤ length self.old + 2 }
    {
        if n < 10 {
            self.put_octet(b'0' + n);
        } else {
            self.put_octet(b'0' + n / 10);
            self.put_octet(b'0' + n % 10);
        }
    }

    // Appends a number of more digits.
    fn put_long(&mut self, n: u64)
        requires { length self.old + 20 ≤ text_capacity }
        ensures text { self.new ≡ self.old ++ decimal n }
        ensures short { length self.new ≤ length self.old + 20 }
    {
        let mut buffer = Buffer::new();
        self.put(buffer.format(n).as_bytes());
    }

    /// Appends a number as a canonical decimal.
    #[inline(always)]
    pub fn put_number(&mut self, n: u64)
        requires { length self.old + 20 ≤ text_capacity }
        ensures text { self.new ≡ self.old ++ decimal n }
        ensures short { length self.new ≤ length self.old + 20 }
    {
        if n < 100 {
            self.put_short(n as u8);
        } else {
            self.put_long(n);
        }
    }

    /// Appends a number that may be below 0, as a canonical decimal with its sign.
    pub fn put_signed(&mut self, z: i32)
        requires room { length self.old + 11 ≤ text_capacity }
        ensures text { self.new ≡ self.old ++ signed_decimal z }
        ensures short { length self.new ≤ length self.old + 11 }
    {
        let mut buffer = Buffer::new();
        self.put(buffer.format(z).as_bytes());
    }
}

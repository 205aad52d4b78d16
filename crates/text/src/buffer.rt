// A buffer of `N` bytes that is filled from its start. Contracts see the bytes that were put.
ghost use Rattle.std.specs.Prelude.{◌≡◌, ◌++◌, ◌+◌, ◌≤◌, [], length};
ghost use Rattle.text.specs.Text.{decimal};

use std::marker::Model;

#[derive(Drop)]
pub struct Buffer<const N: usize> {
    bytes: [u8; N],
    len: usize,
}

impl<const N: usize> Model for Buffer<N> {
    ghost use Rattle.std.specs.Prelude.{ℕ, List, take, ◌≤◌};

    ghost Value = { List ℕ };

    ghost view = { λ b. take b.len b.bytes };

    ghost invariant = { λ b. b.len ≤ N };
}

impl<const N: usize> Buffer<N> {
    // Nothing was put yet.
    pub fn new() -> Self
        ensures { result ≡ [] }
    {
        Buffer {
            bytes: [0; N],
            len: 0,
        }
    }

    // What was put.
    pub fn bytes(&self) -> &[u8]
        ensures { result.now ≡ self.now }
    {
        let all = &self.bytes[..];
        &all[..self.len]
    }

    pub fn len(&self) -> usize
        ensures { (result ≡ length self.now) × (result ≤ N) }
    {
        self.len
    }

    pub fn clear(&mut self)
        ensures { self.new ≡ [] }
    {
        self.len = 0;
    }

    pub fn put(&mut self, bytes: &[u8])
        requires { length self.old + length bytes.now ≤ N }
        ensures { self.new ≡ self.old ++ bytes.now }
    {
        let end = self.len + bytes.len();
        let all = &mut self.bytes[..];
        all[self.len..end].copy_from_slice(bytes);
        self.len = end;
    }

    // A number in decimal digits: at most 20, as it is below 2^64.
    pub fn put_number(&mut self, n: u64)
        requires { length self.old + 20 ≤ N }
        ensures put { self.new ≡ self.old ++ decimal n }
        ensures upper_bound { length self.new ≤ length self.old + 20 }
    {
        let mut digits = itoa::Buffer::new();
        self.put(digits.format(n).as_bytes());
    }

    // Words, and a number behind them.
    pub fn put_figure(&mut self, words: &[u8], n: u64)
        requires { length self.old + length words.now + 20 ≤ N }
        ensures put { self.new ≡ self.old ++ words.now ++ decimal n }
        ensures upper_bound { length self.new ≤ length self.old + length words.now + 20 }
    {
        self.put(words);
        self.put_number(n);
    }
}

// A message that the chain works: its first block stands apart, since held bytes begin it, and the rest is borrowed.
ghost use Rattle.std.specs.Prelude.{◌≡◌, ℕ, List, ◌++◌, ◌*◌, ◌+◌, ◌≤◌, length, take, drop};

use std::marker::Model;

#[derive(Drop)]
pub struct Message<'a> {
    first: [u8; 16],
    rest: &'a [u8],
}

impl<'a> Model for Message<'a> {
    ghost Value = { List ℕ };

    ghost view = { λ m. m.first ++ m.rest.now };
}

impl<'a> Message<'a> {
    pub fn new(first: [u8; 16], rest: &'a [u8]) -> Self
        ensures { result ≡ first ++ rest.now }
    {
        Message { first, rest }
    }

    // Block j, counted from 0.
    pub fn block(&self, j: usize) -> [u8; 16]
        requires { 16 * j + 16 ≤ length self.now }
        ensures { result ≡ take 16 (drop (16 * j) self.now) }
    {
        if j == 0 {
            return self.first;
        }
        runs::part(self.rest, 16 * (j - 1))
    }
}

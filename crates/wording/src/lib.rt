// A text put together in a fixed space. What has no room is left out, and the text then ends with the space.
#![tactic(auto)]

ghost use Rattle.std.specs.Prelude.{◌≡◌, ◌≤◌, [], ◌∷◌, length, take, min};
ghost use Rattle.wording.specs.Numbers.{decimal, in_tenths};
ghost use Rattle.wording.specs.Filled.{stands_for, uses, filled};

#[derive(Drop)]
pub struct Text<'a> {
    space: &'a mut [u8],
    len: usize,
    ghost fits: { len ≤ length space.now },
}

impl<'a> Text<'a> {
    ghost use Rattle.wording.specs.Added.{Begins, Adds};

    // An empty text, at the front of a space.
    pub fn new(space: &'a mut [u8]) -> Text<'a>
        ensures { Begins space.entry 0 result }
    {
        Text::after(space, 0)
    }

    // A text that goes on from a place of a space, or from its end.
    pub fn after(space: &'a mut [u8], at: usize) -> Text<'a>
        ensures { Begins space.entry at result }
    {
        let len = at.min(space.len());
        Text { space, len }
    }

    pub fn words(&mut self, text: &[u8])
        ensures { Adds text.now self.old self.new }
    {
        let n = text.len().min(self.space.len() - self.len);
        let end = self.len + n;
        self.space[self.len..end].copy_from_slice(&text[..n]);
        self.len = end;
    }

    pub fn number(&mut self, n: u64)
        ensures { Adds (decimal n) self.old self.new }
    {
        let mut digits = [0u8; 20];
        let k = io::decimal(n, &mut digits);
        self.words(&digits[..k]);
    }

    // A number of tenths, with one decimal place.
    pub fn tenths(&mut self, n: u64)
        ensures { Adds (in_tenths n) self.old self.new }
    {
        self.number(n / 10);
        self.words(b".");
        self.number(n % 10);
    }

    // By itself, since `words` copies a slice, which is more work for one byte.
    fn byte(&mut self, c: u8)
        ensures { Adds (c ∷ []) self.old self.new }
    {
        if self.len < self.space.len() {
            self.space[self.len] = c;
            self.len += 1;
        }
    }

    fn character(&mut self, c: u8, n: u64)
        ensures { Adds (stands_for n c) self.old self.new }
    {
        match c {
            b'$' => self.number(n),
            b'~' => self.tenths(n),
            _ => self.byte(c),
        }
    }

    // Words with numbers among them: `$` stands for the next one, `~` for the next one as tenths.
    pub fn fill(&mut self, text: &[u8], numbers: &[u64])
        ensures { Adds (filled text.now numbers.now) self.old self.new }
    {
        let mut k: usize = 0;
        for c in text {
            self.character(*c, numbers.get(k).copied().unwrap_or(0));
            k += uses(*c);
        }
    }

    // What was written.
    pub fn written(&self) -> &[u8]
        ensures { result.now ≡ take self.now.len self.now.space.now }
    {
        &self.space[..self.len]
    }
}

// How many numbers a character uses up.
fn uses(c: u8) -> usize
    ensures { result ≡ uses c }
{
    match c {
        b'$' | b'~' => 1,
        _ => 0,
    }
}

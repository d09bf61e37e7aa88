// One slot of 16 bytes: where it lies, its fields, its rules, and whether it has a pair.
ghost use Rattle.std.specs.Prelude.{◌≡◌, ◌+◌, ◌*◌, ◌/◌, ◌<◌, length};
ghost use Rattle.laws.specs.Range.{within};
ghost use Rattle.card_slots.specs.Slot as spec;
ghost use Rattle.card_slots.specs.Card as cards;
ghost use Rattle.card_slots.specs.Find as finds;

// A part of a card, or a record by itself.
#[derive(Clone, Copy)]
pub struct Slot<'a> {
    pub bytes: &'a [u8],
    ghost long: { length bytes.now ≡ 16 },
}

fn number(high: u8, low: u8) -> u16
    ensures { result ≡ high * 256 + low }
{
    u16::from_be_bytes([high, low])
}

fn is_within(low: u16, high: u16, x: u16) -> bool
    ensures { result ≡ within low high x }
{
    (low..=high).contains(&x)
}

impl<'a> Slot<'a> {
    // Slot i, a part of the card.
    pub fn at(card: &'a [u8], i: usize) -> Slot<'a>
        requires { i < length card.now / 16 }
        ensures { finds.Part card.entry (i * 16) (cards.slot card.now i) result.bytes }
    {
        let from = i * 16;
        let to = from + 16;
        Slot {
            bytes: &card[from..to],
        }
    }

    pub fn recipe(self) -> u16
        ensures { result ≡ spec.recipe self.entry.bytes.now }
    {
        number(self.bytes[0], self.bytes[1])
    }

    pub fn segment(self) -> u8
        ensures { result ≡ spec.segment self.entry.bytes.now }
    {
        self.bytes[2]
    }

    pub fn kind(self) -> u8
        ensures { result ≡ spec.kind self.entry.bytes.now }
    {
        self.bytes[3]
    }

    pub fn target(self) -> u16
        ensures { result ≡ spec.target self.entry.bytes.now }
    {
        number(self.bytes[4], self.bytes[5])
    }

    pub fn rate(self) -> u16
        ensures { result ≡ spec.rate self.entry.bytes.now }
    {
        number(self.bytes[6], self.bytes[7])
    }

    pub fn hold(self) -> u16
        ensures { result ≡ spec.hold_minutes self.entry.bytes.now }
    {
        number(self.bytes[8], self.bytes[9])
    }

    #[tactic(auto, unfolding(crate::specs::Slot::empty))]
    pub fn is_empty(self) -> bool
        ensures { result ≡ spec.empty self.entry.bytes.now }
    {
        runs::zero_from(self.bytes, 0)
    }

    // Does it keep the rules of a slot that isn't empty?
    #[tactic(auto, unfolding(crate::specs::Slot::keeps_rules))]
    fn keeps_rules(self) -> bool
        ensures { result ≡ spec.keeps_rules self.entry.bytes.now }
    {
        is_within(1, 65535, self.recipe())
            & is_within(1, 32, self.segment().into())
            & is_within(1, 3, self.kind().into())
            & (self.target() <= 13500)
            & runs::zero_from(self.bytes, 10)
    }

    // Nearly every slot keeps the rules, so whether it is empty is looked at last.
    pub fn is_illegal(self) -> bool
        ensures { result ≡ spec.illegal self.entry.bytes.now }
    {
        !self.keeps_rules() && !self.is_empty()
    }

    // Three bytes tell nearly every slot apart, so whether it is empty is looked at last.
    #[tactic(auto, unfolding(crate::specs::Find::named))]
    pub fn has_pair(self, recipe: u64, segment: u64) -> bool
        ensures { result ≡ finds.named (recipe, segment) self.entry.bytes.now }
    {
        recipe == u64::from(self.recipe())
            && segment == u64::from(self.segment())
            && !self.is_empty()
    }
}

// May the record be put?
#[tactic(auto, unfolding(crate::specs::Slot::good_record))]
pub fn good_record(record: &[u8]) -> bool
    ensures { result ≡ spec.good_record «record».now }
{
    if record.len() != 16 {
        return false;
    }
    let slot = Slot { bytes: record };
    !slot.is_illegal() && !slot.is_empty()
}

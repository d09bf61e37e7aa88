// The refusals of 01's table, and of later requests, by name: the one place where a number stands in code. The order of each call's is a definition in specs/, and the code that decides by it is in the crates `.._orders`.
#![tactic(auto)]

ghost use Rattle.std.specs.Prelude.{◌≡◌};
ghost use Rattle.laws.specs.Choice.{choose};
ghost use Rattle.refusals.specs.Refusals.{done};
ghost use Rattle.refusals.specs.Numbers.{number_of, number};

#[derive(Clone, Copy, Debug, PartialEq, Eq)]
pub enum Refusal {
    UnknownCipher = 1,
    KeyLength = 2,
    FirstBlockLength = 3,
    Direction = 4,
    BadSchedule = 5,
    BadState = 6,
    Closed = 7,
    OverLimit = 8,
    NoRoom = 9,
    BytesHeld = 10,
    BlockLength = 11,
    BadCard = 12,
    BadRecord = 13,
    NoSlot = 14,
    BadStreamRecord = 15,
    OtherSchedule = 16,
    BlankKey = 17,
}

// What a call answers: done, or the first of its refusals that applies.
pub type Answer = Result<(), Refusal>;

impl Refusal {
    pub fn number(self) -> u8
        ensures { result ≡ number_of self }
    {
        self as u8
    }
}

// The number of an answer: 0 is done.
pub fn number(answer: Answer) -> u8
    ensures { result ≡ number answer }
{
    match answer {
        Ok(()) => 0,
        Err(refusal) => refusal.number(),
    }
}

// The refusal, if its cause applies.
pub fn refuse_if(applies: bool, refusal: Refusal) -> Answer
    ensures { number result ≡ choose applies (number_of refusal) done }
{
    if applies { Err(refusal) } else { Ok(()) }
}

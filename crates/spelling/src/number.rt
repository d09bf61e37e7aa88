// A number in digits, 1 to 9 of them; where tenths are meant, a point and one more digit may follow.
ghost use Rattle.std.specs.Prelude.{◌≡◌, ◌-◌, Some, None};
ghost use Rattle.laws.specs.Choice.{choose};
ghost use Rattle.spelling.specs.Number as spec;

fn digit(c: u8) -> Option<u64>
    ensures { result ≡ choose (spec.digit c) (Some (c - 48)) None }
{
    match c {
        b'0'..=b'9' => Some(u64::from(c - b'0')),
        _ => None,
    }
}

// The number that a text spells, if it spells one.
#[tactic(auto, unfolding(crate::specs::Number::digit))]
pub fn whole(text: &[u8]) -> Option<u64>
    ensures { result ≡ spec.whole text.now }
{
    if text.is_empty() || text.len() > 9 {
        return None;
    }
    let mut value = 0;
    for c in text {
        value = value * 10 + digit(*c)?;
    }
    Some(value)
}

// The same, in tenths.
pub fn tenths(text: &[u8]) -> Option<u64>
    ensures { result ≡ spec.tenths text.now }
{
    match text {
        [front @ .., b'.', tenth] => Some(whole(front)? * 10 + digit(*tenth)?),
        _ => Some(whole(text)? * 10),
    }
}

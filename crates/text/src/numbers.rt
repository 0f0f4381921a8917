ghost use Rattle.std.specs.Prelude.{◌≡◌, ◌<◌, IfSome};
ghost use Rattle.text.specs.Numbers.{digit_of, spelled, spelled_signed};

/// The number that a field spells, if it spells one.
#[tactic(auto, unfolding(crate::specs::Numbers::spelled))]
pub fn number(field: &[u8]) -> Option<u32>
    ensures value { result ≡ spelled field.now }
    ensures small { IfSome result (λ n. n < 1000000) }
{
    if field.is_empty() || field.len() > 6 {
        return None;
    }
    let mut n = 0;
    for b in field {
        n = n * 10 + digit(*b)?;
    }
    Some(n)
}

/// The number that a field spells, with a minus before its digits or without.
pub fn signed_number(field: &[u8]) -> Option<i32>
    ensures { result ≡ spelled_signed field.now }
{
    match field {
        [b'-', digits @ ..] => number(digits).map(|n| -(n as i32)),
        _ => number(field).map(|n| n as i32),
    }
}

// The digit that a byte shows, if it is one.
fn digit(byte: u8) -> Option<u32>
    ensures value { result ≡ digit_of byte }
    ensures small { IfSome result (λ d. d < 10) }
{
    char::from(byte).to_digit(10)
}

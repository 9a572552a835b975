//! Parts a text, and reads the numbers in it.
ghost use Rattle.std.specs.Prelude.{◌≡◌};
ghost use Rattle.std.specs.Option.{option_map};
ghost use Rattle.casetext.specs.Text.{number, before, behind};

/// The decimal number from `low` to `high` that the field is. Digits go on for as long as they
/// like: reading ends where the number passes `high`.
pub(crate) fn read_number(field: &[u8], low: u16, high: u16) -> Option<u16>
    ensures { result ≡ number low high field.now }
{
    if let [] | [b'0', _, ..] = field {
        return None;
    }
    let mut n: u32 = 0;
    for b in field {
        if !b.is_ascii_digit() {
            return None;
        }
        n = n * 10 + u32::from(*b - b'0');
        if n > u32::from(high) {
            return None;
        }
    }
    (u32::from(low) <= n).then_some(n as u16)
}

/// What comes before the first `sep`, and what comes behind it.
pub(crate) fn cut(text: &[u8], sep: u8) -> (&[u8], Option<&[u8]>)
    ensures front { result.0.now ≡ before sep text.now }
    ensures rest { option_map (λ x. x.now) result.1 ≡ behind sep text.now }
{
    match text.iter().position(|b| *b == sep) {
        Some(i) => (&text[..i], Some(&text[i + 1..])),
        None => (text, None),
    }
}

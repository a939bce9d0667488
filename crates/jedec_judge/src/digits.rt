// Decimal and hex digits, and the numbers that they write.
// A byte or bytes that write none are answered by `None`.
ghost use Rattle.std.specs.Prelude.{◌≡◌};
ghost use Rattle.jedec.specs.Characters.{decimal_value, hex_value, number_in, sum_in};
ghost use Rattle.jedec_judge.specs.Judged.{number_read, DigitsStand};

// Decimal digits from the first byte on, and the number that they write.
#[derive(Clone, Copy, Debug, PartialEq, Eq)]
pub struct LeadingDigits {
    pub value: u32,
    pub length: usize,
}

// What a decimal digit stands for.
fn decimal_value(b: u8) -> Option<u32>
    ensures { number_read result ≡ decimal_value b }
{
    match b {
        b'0'..=b'9' => Some((b - b'0') as u32),
        _ => None,
    }
}

// What a hex digit stands for.
pub fn hex_value(b: u8) -> Option<u32>
    ensures { number_read result ≡ hex_value b }
{
    match b {
        b'0'..=b'9' => Some((b - b'0') as u32),
        b'A'..=b'F' => Some((b - b'A') as u32 + 10),
        b'a'..=b'f' => Some((b - b'a') as u32 + 10),
        _ => None,
    }
}

// The first bytes that are decimal digits, at most seven, and the number that they write.
pub fn leading_digits(bytes: &[u8]) -> LeadingDigits
    ensures { DigitsStand bytes.now result }
{
    let most = bytes.len().min(7);
    let mut value: u32 = 0;
    for i in 0..most {
        let Some(digit) = decimal_value(bytes[i]) else {
            return LeadingDigits { value, length: i };
        };
        value = value * 10 + digit;
    }
    LeadingDigits {
        value,
        length: most,
    }
}

// The number that 1 to 7 decimal digits write.
pub fn number_in(bytes: &[u8]) -> Option<u32>
    ensures { number_read result ≡ number_in bytes.now }
{
    let digits = leading_digits(bytes);
    if digits.length == 0 {
        return None;
    }
    if digits.length != bytes.len() {
        return None;
    }
    Some(digits.value)
}

// The number that four hex digits write.
pub fn sum_in(bytes: &[u8]) -> Option<u32>
    ensures { number_read result ≡ sum_in bytes.now }
{
    if bytes.len() != 4 {
        return None;
    }
    let mut sum: u32 = 0;
    for b in bytes {
        sum = sum * 16 + hex_value(*b)?;
    }
    Some(sum)
}

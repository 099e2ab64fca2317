ghost use Rattle.std.specs.Prelude.{◌≡◌};
ghost use Rattle.byte_text.specs.Numerals.{number_to};

// The number that `bytes` writes in decimal digits, or `top` where it is larger.
// None where they are no numeral: no digits at all, another byte among them, or a needless 0 in front.
pub fn number_to(bytes: &[u8], top: u64) -> Option<u64>
    ensures { result ≡ number_to top bytes.now }
{
    if bytes.is_empty() {
        return None;
    }
    if bytes.len() > 1 && bytes[0] == b'0' {
        return None;
    }
    let mut number: u64 = 0;
    for b in bytes {
        if !b.is_ascii_digit() {
            return None;
        }
        number = number
            .saturating_mul(10)
            .saturating_add(u64::from(*b - b'0'))
            .min(top);
    }
    Some(number)
}

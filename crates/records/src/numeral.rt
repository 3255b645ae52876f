// Whole numerals. Whoever reads one tests a limit of its own.
ghost use Rattle.std.specs.Prelude.{◌≡◌};
ghost use Rattle.records.specs.Numerals.{negative, unsigned, magnitude, numeral, limited};

// An optional sign and digits, any number of zeros in front. A magnitude from 2^64 on is held as 2^64 - 1, which is beyond every limit that `within` takes.
#[derive(Clone, Copy, PartialEq, Eq, Debug)]
pub struct Numeral {
    // A field of its own, since no signed type of 64 bits holds every magnitude with its sign.
    pub negative: bool,
    pub magnitude: u64,
}

impl Numeral {
    pub fn read(text: &[u8]) -> Option<Numeral>
        ensures { result ≡ numeral text.now }
    {
        let magnitude = read_digits(after_sign(text))?;
        Some(Numeral {
            negative: is_negative(text),
            magnitude,
        })
    }

    // The number, where its magnitude is at most the limit.
    pub fn within(self, limit: u32) -> Option<i64>
        ensures { result ≡ limited limit self }
    {
        if self.magnitude > u64::from(limit) {
            return None;
        }
        let magnitude = self.magnitude as i64;
        Some(if self.negative { -magnitude } else { magnitude })
    }
}

fn is_negative(text: &[u8]) -> bool
    ensures { result ≡ negative text.now }
{
    matches!(text, [b'-', ..])
}

fn after_sign(text: &[u8]) -> &[u8]
    ensures { result.now ≡ unsigned text.now }
{
    match text {
        [b'+' | b'-', rest @ ..] => rest,
        _ => text,
    }
}

// What digits write, or None where there is no digit or another byte.
fn read_digits(digits: &[u8]) -> Option<u64>
    ensures { result ≡ magnitude digits.now }
{
    let mut sum: u64 = 0;
    for b in digits {
        if !b.is_ascii_digit() {
            return None;
        }
        sum = sum.saturating_mul(10).saturating_add(u64::from(*b - b'0'));
    }
    if digits.is_empty() { None } else { Some(sum) }
}

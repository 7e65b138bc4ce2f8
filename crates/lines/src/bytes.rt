// What is read byte by byte.
ghost use Rattle.std.specs.Prelude.{◌≡◌, ℕ, ◌<◌};
ghost use Rattle.lines.specs.OneByte.{number_grown, byte_next};

// What one byte more makes of a reading: a digit, or another byte.
pub trait ByteByByte: Copy {
    ghost digit_next: { Self → ℕ → Self };

    ghost letter_next: { Self → ℕ → Self };

    fn with_digit(self, d: u64) -> Self
        requires { d < 10 }
        ensures { result ≡ digit_next self d };

    fn with_letter(self, b: u8) -> Self
        ensures { result ≡ letter_next self b };
}

// One more byte.
pub fn with_byte<R: ByteByByte>(so_far: R, b: u8) -> R
    ensures { result ≡ byte_next R.digit_next R.letter_next so_far b }
{
    match b {
        b'0'..=b'9' => so_far.with_digit(u64::from(b - b'0')),
        _ => so_far.with_letter(b),
    }
}

// A number with one more digit, if it fits.
pub fn grow(v: u64, d: u64) -> Option<u64>
    requires { d < 10 }
    ensures { result ≡ number_grown v d }
{
    v.checked_mul(10)?.checked_add(d)
}

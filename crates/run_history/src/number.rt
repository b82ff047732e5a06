// Numbers in decimal.
ghost use Rattle.std.specs.Prelude.{◌≡◌, ℕ, ◌^◌, ◌<◌, ◌↔◌, Some, IfSome, decimal};

use itoa::Buffer;
use std::str;

// The number that the text writes in decimal, with no leading zero.
pub(crate) fn number_of(text: &[u8]) -> Option<u32>
    ensures exact { (n : ℕ) → n < 2 ^ 32 → (result ≡ Some n) ↔ (text.now ≡ decimal n) }
    ensures small { IfSome result (λ n. n < 2 ^ 32) }
{
    let number = str::from_utf8(text).ok()?.parse::<u32>().ok()?;
    let mut buffer = Buffer::new();
    if buffer.format(number).as_bytes() == text {
        Some(number)
    } else {
        None
    }
}

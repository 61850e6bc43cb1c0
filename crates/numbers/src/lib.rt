// Numbers in lent bytes, little-endian and unsigned. A read past the end is 0, so no function asks its caller for anything.
#![tactic(auto)]

ghost use Rattle.std.specs.Prelude.{◌≡◌, ℕ, ◌+◌, ◌*◌, ◌<◌, get_or};
ghost use Rattle.rules.specs.Record.{number};

use std::array::from_fn;

// The number of two bytes, the lower one first.
pub fn join_two(a: u8, b: u8) -> u16
    ensures { result ≡ a + 256 * b }
{
    u16::from_le_bytes([a, b])
}

// Byte i.
pub fn byte_at(b: &[u8], i: usize) -> u8
    ensures { result ≡ get_or b.now i 0 }
{
    b.get(i).copied().unwrap_or(0)
}

// The N bytes from byte i on, zeros past the end.
fn bytes_at<const N: usize>(b: &[u8], i: usize) -> [u8; N]
    ensures { (k : ℕ) → k < N → get_or result k 0 ≡ get_or b.now (i + k) 0 }
{
    let Some(rest) = b.get(i..) else {
        return [0; N];
    };
    if let Some(all) = rest.first_chunk() {
        return *all;
    }
    from_fn(|k| byte_at(rest, k))
}

// The two bytes from byte i on as a number.
#[tactic(auto, unfolding(rules::specs::Record::number))]
pub fn u16_at(b: &[u8], i: usize) -> u16
    ensures { result ≡ number 2 b.now i }
{
    let [low, high]: [u8; 2] = bytes_at(b, i);
    join_two(low, high)
}

// The four bytes from byte i on as a number.
#[tactic(auto, unfolding(rules::specs::Record::number))]
pub fn u32_at(b: &[u8], i: usize) -> u32
    ensures { result ≡ number 4 b.now i }
{
    u32::from_le_bytes(bytes_at(b, i))
}

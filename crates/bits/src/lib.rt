// A field of up to 16 bits at any bit of a slice of bytes, most significant bit first: read as a number, and written. Each takes the
// three bytes that such a field can touch as one number, so the work does not grow with the width; and the byte at an index, for all who
// read bytes. It leans on scope's `Bits`.

#![tactic(auto)]

ghost use Rattle.std.specs.Prelude.{◌≡◌, ◌+◌, ◌%◌, ◌^◌, ◌≤◌, ◌<◌, set};
ghost use Rattle.std.proofs.lemmas.List.Edits.{sets};
ghost use Rattle.scope.specs.Bits.{bits, bits_of};
ghost use Rattle.bits.specs.Word.{word_at, mixed, Power, Byte, Within, Read};

// A power of two, no larger than three bytes hold.
pub fn power(k: usize) -> usize
    requires { k ≤ 24 }
    ensures { Power k result }
{
    1 << k
}

// The byte at an index, 0 past the end.
pub fn byte(bytes: &[u8], i: usize) -> usize
    ensures { Byte bytes.now i result }
{
    if i < bytes.len() {
        bytes[i] as usize
    } else {
        0
    }
}

// The three bytes from an index on, as one number.
fn word(bytes: &[u8], i: usize) -> usize
    requires { i < 2 ^ 32 }
    ensures { (result ≡ word_at bytes.now i) × (result < 2 ^ 24) }
{
    byte(bytes, i) * 65536 + byte(bytes, i + 1) * 256 + byte(bytes, i + 2)
}

// The lowest eight bits of a number into the byte at an index; nothing past the end.
fn store(bytes: &mut [u8], i: usize, x: usize)
    ensures { bytes.new ≡ set bytes.old i (x % 256) }
{
    if i < bytes.len() {
        bytes[i] = (x % 256) as u8;
    }
}

// The number in the field of `width` bits from bit `at` on.
pub fn field(bytes: &[u8], at: usize, width: usize) -> usize
    requires { Within bytes.now at width }
    ensures { Read bytes.now at width result }
{
    let low = 24 - at % 8 - width;
    word(bytes, at / 8) / power(low) % power(width)
}

// A number with `value` for the `width` bits that stand above its lowest ones.
fn mix(old: usize, lowest: usize, width: usize, value: usize) -> usize
    requires { (old < 2 ^ 24) × (lowest ≤ 24) × (width ≤ 16) × (value < 2 ^ width) }
    ensures { result ≡ mixed old lowest width value }
{
    let low = power(lowest);
    let span = power(width);
    (old / low / span * span + value) * low + old % low
}

// A number into the field of `width` bits from bit `at` on.
pub fn put(bytes: &mut [u8], at: usize, width: usize, value: usize)
    requires { Within bytes.old at width × (value < 2 ^ width) }
    ensures { bits bytes.new ≡ sets (bits bytes.old) at (bits_of width value) }
{
    let i = at / 8;
    let new = mix(word(bytes, i), 24 - at % 8 - width, width, value);
    store(bytes, i, new / 65536);
    store(bytes, i + 1, new / 256);
    store(bytes, i + 2, new);
}

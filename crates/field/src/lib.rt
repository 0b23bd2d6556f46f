// Fields of packed octets: unsigned, top bit first, 1 to 50 bits at any bit offset.
// Ported from `put` and `take` of link/spach.rs (chrismoos/136-bts 7c60b63bf4, Apache-2.0) and changed: see NOTICE.
#![tactic(auto)]

ghost use Rattle.std.specs.Prelude.{◌≡◌, ◌+◌, ◌-◌, ◌*◌, ◌/◌, ◌%◌, ◌^◌, ◌≤◌, ◌<◌, min, length, take, drop};
ghost use Rattle.field.specs.Layout.{any_set};
ghost use Rattle.field.specs.Bits.{bits, value, bits_of, field, put, splice};
ghost use Rattle.field.specs.Spans.{Packs, Placed, Run};

// At most eight octets as one number. Eight are one load to the compiler.
fn load(octets: &[u8]) -> u64
    requires { length octets.now ≤ 8 }
    ensures { result ≡ value (bits_of octets.now) }
{
    match <[u8; 8]>::try_from(octets) {
        Ok(eight) => u64::from_be_bytes(eight),
        Err(_) => octets
            .iter()
            .fold(0, |x, &octet| (x << 8) | u64::from(octet)),
    }
}

// The low bits of x to at most eight octets. A copy of eight is one store to the compiler, a copy of n is not.
fn store(octets: &mut [u8], x: u64)
    requires { length octets.old ≤ 8 }
    ensures { bits_of octets.new ≡ bits (8 * length octets.old) x }
{
    let bytes = x.to_be_bytes();
    let n = octets.len();
    if n == 8 {
        octets.copy_from_slice(&bytes);
    } else {
        octets.copy_from_slice(&bytes[8 - n..]);
    }
}

// Where the n octets start that hold the field at bit offset o: at its own octet or, near the end, n before the end.
fn window_start(octets: usize, n: usize, o: usize) -> usize
    requires { n ≤ octets }
    ensures { result ≡ min (o / 8) (octets - n) }
{
    // Tried with `min`: it comes out as a branch, a nanosecond of each read.
    let last = octets - n;
    if o / 8 < last { o / 8 } else { last }
}

// The field of w bits at bit offset o.
pub fn read_field(s: &[u8], o: usize, w: usize) -> u64
    requires { Placed s.now o w }
    ensures value { result ≡ field o w (bits_of s.now) }
    ensures below { result < 2 ^ w }
{
    let n = s.len().min(8);
    let first = window_start(s.len(), n, o);
    let low = 8 * (first + n) - (o + w);
    (load(&s[first..first + n]) >> low) & ((1u64 << w) - 1)
}

// The number x with the low w bits of v in the place of those above its low ones.
fn exchange(x: u64, low: usize, w: usize, v: u64) -> u64
    requires { (1 ≤ w) × (w ≤ 50) × (low + w ≤ 64) }
    ensures { result ≡ (x / 2 ^ (low + w) * 2 ^ w + v % 2 ^ w) * 2 ^ low + x % 2 ^ low }
{
    let mask = (1u64 << w) - 1;
    let others = x - (((x >> low) & mask) << low);
    others + ((v & mask) << low)
}

// Puts the low w bits of v into the field of w bits at bit offset o. All other bits stay.
pub fn write_field(s: &mut [u8], o: usize, w: usize, v: u64)
    requires { Placed s.old o w }
    ensures { Packs s.new (length s.old) (put o w v (bits_of s.old)) }
{
    let n = s.len().min(8);
    let first = window_start(s.len(), n, o);
    let low = 8 * (first + n) - (o + w);
    let octets = &mut s[first..first + n];
    store(octets, exchange(load(octets), low, w, v));
}

// The n bits at offset o of src, to offset d of dst. All other bits of dst stay.
pub fn copy_bits(dst: &mut [u8], d: usize, src: &[u8], o: usize, n: usize)
    requires { Run dst.old d n × Run src.now o n }
    ensures { Packs dst.new (length dst.old) (splice d (take n (drop o (bits_of src.now))) (bits_of dst.old)) }
{
    for k in (0..n).step_by(50) {
        let w = (n - k).min(50);
        write_field(dst, d + k, w, read_field(src, o + k, w));
    }
}

// Whether one of the n bits at offset o is set.
pub fn any_set(s: &[u8], o: usize, n: usize) -> bool
    requires { Run s.now o n }
    ensures { result ≡ any_set (take n (drop o (bits_of s.now))) }
{
    for k in (0..n).step_by(50) {
        if read_field(s, o + k, (n - k).min(50)) != 0 {
            return true;
        }
    }
    false
}

// Fields of a record: the bytes from a place `at` of a slice. The caller has checked that they are there.
// One loop reads a number and one writes it, at any width up to 8 bytes; at a width of 2, 4 or 8 they compile to one load, one store.
ghost use Rattle.std.specs.Prelude.{ℕ, ◌≡◌, refl, ◌+◌, ◌≤◌, ◌<◌, ◌^◌, length};
ghost use Rattle.little_endian.specs.Bytes.{to_bytes};
ghost use Rattle.little_endian.specs.TwosComplement.{signed, unsigned};
ghost use Rattle.little_endian.specs.Fields.{unsigned_at};
ghost use Rattle.little_endian.specs.Stored.{stored};
ghost use Rattle.little_endian.specs.RoundTrips.{unsigned-signed};

use crate::twos_complement::{signed_32, signed_64, unsigned_32, unsigned_64};

// The number of `width` bytes. Its bound is for the callers that cast it.
pub fn read_bytes(s: &[u8], at: usize, width: usize) -> u64
    requires { (width ≤ 8) × (at + width ≤ length s.now) }
    ensures { (result ≡ unsigned_at s.now at width) × (result < 256 ^ width) }
{
    let mut v: u64 = 0;
    for byte in s[at..at + width].iter().rev() {
        v = u64::from(*byte) + v * 256;
    }
    v
}

// The `width` lowest bytes of a number.
pub fn write_bytes(out: &mut [u8], at: usize, width: usize, x: u64)
    requires { at + width ≤ length out.old }
    ensures { out.new ≡ stored out.old at (to_bytes width x) }
{
    let mut v = x;
    for byte in &mut out[at..at + width] {
        *byte = (v % 256) as u8;
        v /= 256;
    }
}

// Bytes as they are.
pub fn put_bytes(out: &mut [u8], at: usize, bytes: &[u8])
    requires { at + length bytes.now ≤ length out.old }
    ensures { out.new ≡ stored out.old at bytes.now }
{
    // The library's `copy_from_slice` calls memmove, which the library for C does not have: it is linked with nothing.
    for (i, byte) in bytes.iter().enumerate() {
        out[at + i] = *byte;
    }
}

// A number that is a field of a record: how many bytes it has, which number they mean, and which bytes a number has.
pub trait Field: Sized {
    ghost width: { ℕ };

    ghost meant: { ℕ → Self };

    ghost bits: { Self → ℕ };

    fn read(s: &[u8], at: usize) -> Self
        requires { at + width ≤ length s.now }
        ensures { result ≡ meant (unsigned_at s.now at width) };

    fn write(self, out: &mut [u8], at: usize)
        requires { at + width ≤ length out.old }
        ensures { out.new ≡ stored out.old at (to_bytes width (bits self)) };

    // What is read and written again leaves its bytes as they were.
    ghost back: { (n : ℕ) → n < 256 ^ width → bits (meant n) ≡ n };
}

impl Field for u16 {
    ghost width = { 2 };

    ghost meant = { λ n. n };

    ghost bits = { λ x. x };

    fn read(s: &[u8], at: usize) -> u16 {
        read_bytes(s, at, 2) as u16
    }

    fn write(self, out: &mut [u8], at: usize) {
        write_bytes(out, at, 2, u64::from(self));
    }

    ghost back = { λ n h. refl };
}

impl Field for u32 {
    ghost width = { 4 };

    ghost meant = { λ n. n };

    ghost bits = { λ x. x };

    fn read(s: &[u8], at: usize) -> u32 {
        read_bytes(s, at, 4) as u32
    }

    fn write(self, out: &mut [u8], at: usize) {
        write_bytes(out, at, 4, u64::from(self));
    }

    ghost back = { λ n h. refl };
}

impl Field for u64 {
    ghost width = { 8 };

    ghost meant = { λ n. n };

    ghost bits = { λ x. x };

    fn read(s: &[u8], at: usize) -> u64 {
        read_bytes(s, at, 8)
    }

    fn write(self, out: &mut [u8], at: usize) {
        write_bytes(out, at, 8, self);
    }

    ghost back = { λ n h. refl };
}

impl Field for i32 {
    ghost width = { 4 };

    ghost meant = { signed 4 };

    ghost bits = { unsigned 4 };

    fn read(s: &[u8], at: usize) -> i32 {
        signed_32(u32::read(s, at))
    }

    fn write(self, out: &mut [u8], at: usize) {
        unsigned_32(self).write(out, at);
    }

    ghost back = { unsigned-signed 4 };
}

impl Field for i64 {
    ghost width = { 8 };

    ghost meant = { signed 8 };

    ghost bits = { unsigned 8 };

    fn read(s: &[u8], at: usize) -> i64 {
        signed_64(u64::read(s, at))
    }

    fn write(self, out: &mut [u8], at: usize) {
        unsigned_64(self).write(out, at);
    }

    ghost back = { unsigned-signed 8 };
}

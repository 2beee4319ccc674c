// Signed numbers in two's complement, 4 and 8 bytes wide: the machine's own bits.
ghost use Rattle.std.specs.Prelude.{◌≡◌};
ghost use Rattle.little_endian.specs.TwosComplement.{signed, unsigned};

pub fn signed_32(u: u32) -> i32
    ensures { result ≡ signed 4 u }
{
    u32::cast_signed(u)
}

pub fn signed_64(u: u64) -> i64
    ensures { result ≡ signed 8 u }
{
    u64::cast_signed(u)
}

pub fn unsigned_32(x: i32) -> u32
    ensures { result ≡ unsigned 4 x }
{
    i32::cast_unsigned(x)
}

pub fn unsigned_64(x: i64) -> u64
    ensures { result ≡ unsigned 8 x }
{
    i64::cast_unsigned(x)
}

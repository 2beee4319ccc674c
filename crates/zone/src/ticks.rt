// Ticks of 100 ns since 1601. A tick of UTC and a tick of local time are different kinds of number.
#[repr(C)]
#[derive(Clone, Copy)]
pub struct UtcTick(pub i64);

#[repr(C)]
#[derive(Clone, Copy)]
pub struct LocalTick(pub i64);

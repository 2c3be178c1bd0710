//! That a number fits its type, said where a contract wants it of more than eight numbers at once.
//! Nothing is run.

ghost use Rattle.std.specs.Prelude.{◌<◌, ◌^◌};

pub(crate) fn fits_u16(_number: u16)
    ensures { _number < 2 ^ 16 }
{}

pub(crate) fn fits_u32(_number: u32)
    ensures { _number < 2 ^ 32 }
{}

pub(crate) fn fits_u64(_number: u64)
    ensures { _number < 2 ^ 64 }
{}

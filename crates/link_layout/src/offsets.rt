//! Offsets and pages.

ghost use Rattle.std.specs.Prelude.{◌≡◌, ◌+◌, ◌*◌, ◌^◌, ◌<◌, ◌≤◌};
ghost use Rattle.link_model.specs.Layout.{aligned, page, pages_of};

/// The bytes of a page.
pub const PAGE: u64 = 4_096;

/// The next offset that the alignment divides, which is this one where it does. An alignment is 1
/// to 4,096, and an offset counts from the base.
pub fn aligned(align: u64, offset: u64) -> u64
    requires align { (1 ≤ align) × (align ≤ 4096) }
    requires offset { offset ≤ 2 ^ 56 }
    ensures value { result ≡ aligned align offset }
    ensures near { result < offset + align }
{
    (offset + (align - 1)) / align * align
}

/// How many pages so many bytes take.
pub fn pages_of(size: u64) -> u64
    requires { size ≤ 2 ^ 56 }
    ensures value { result ≡ pages_of size }
    ensures near { page * result ≤ size + 4095 }
{
    (size + (PAGE - 1)) / PAGE
}

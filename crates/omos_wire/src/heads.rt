//! What stands in a reply's frame before its long part, in place. Refusals are in refused_head.rt.

ghost use Rattle.std.specs.Prelude.{◌≡◌, ◌+◌, ◌*◌, ◌≤◌, ◌∷◌, [], ◌++◌, length, map};
ghost use Rattle.std.specs.List.{flat_map};
ghost use Rattle.arrayvec.specs.ArrayVec.{array_vec_len};
ghost use Rattle.omos_base.specs.Endian.{little_bytes};
ghost use Rattle.omos_wire.specs.Answer.{IsSendable, answer_of, flag, reply_frame};
ghost use Rattle.omos_wire.specs.Answer.{longest_reply, span_bytes, nine_counts, wire_span};
ghost use Rattle.omos_wire.specs.inside.Heads.{bulk, HasFixedWidth};

use crate::reply::Reply;
use arrayvec::ArrayVec;
use hub_store::Counts;
use omos_model::Placement;

/// The part of a small frame that has a fixed width.
pub(crate) type Head = ArrayVec<u8, 96>;

/// Appends the bytes, for which there is room.
pub(crate) fn put<const N: usize>(bytes: &mut ArrayVec<u8, N>, more: &[u8])
    requires { array_vec_len bytes.old + length more.now ≤ N }
    ensures items { bytes.new.items ≡ bytes.old.items ++ more.now }
    ensures len { array_vec_len bytes.new ≡ array_vec_len bytes.old + length more.now }
{
    bytes.try_extend_from_slice(more).unwrap();
}

fn put_number<const N: usize>(bytes: &mut ArrayVec<u8, N>, number: u64)
    requires { array_vec_len bytes.old + 8 ≤ N }
    ensures items { bytes.new.items ≡ bytes.old.items ++ little_bytes 8 number }
    ensures len { array_vec_len bytes.new ≡ array_vec_len bytes.old + 8 }
{
    put(bytes, &number.to_le_bytes());
}

fn begin(size: u32, kind: u8) -> Head
    ensures items { result.items ≡ little_bytes 4 size ++ kind ∷ [] }
    ensures len { array_vec_len result ≡ 5 }
{
    let mut head = Head::new();
    put(&mut head, &size.to_le_bytes());
    put(&mut head, &[kind]);
    head
}

fn with_one(size: u32, kind: u8, number: u64) -> Head
    ensures items { result.items ≡ little_bytes 4 size ++ kind ∷ little_bytes 8 number }
    ensures len { array_vec_len result ≡ 13 }
{
    let mut head = begin(size, kind);
    put_number(&mut head, number);
    head
}

fn with_two(size: u32, kind: u8, first: u64, second: u64) -> Head
    ensures items { result.items
        ≡ little_bytes 4 size ++ kind ∷ little_bytes 8 first ++ little_bytes 8 second }
    ensures len { array_vec_len result ≡ 21 }
{
    let mut head = with_one(size, kind, first);
    put_number(&mut head, second);
    head
}

/// Three numbers behind what is there.
fn put_three(head: &mut Head, first: u64, second: u64, third: u64)
    requires { array_vec_len head.old + 24 ≤ 96 }
    ensures items { head.new.items ≡ head.old.items
        ++ (little_bytes 8 first ++ little_bytes 8 second ++ little_bytes 8 third) }
    ensures len { array_vec_len head.new ≡ array_vec_len head.old + 24 }
{
    put_number(head, first);
    put_number(head, second);
    put_number(head, third);
}

fn counts_head(counts: &Counts) -> Head
    ensures { result.items
        ≡ little_bytes 4 73 ++ 133 ∷ flat_map (little_bytes 8) (nine_counts counts.now) }
{
    let mut head = begin(73, 133);
    put_three(&mut head, counts.version, counts.paths, counts.placements);
    put_three(&mut head, counts.asked, counts.hits, counts.stored);
    put_three(&mut head, counts.evicted, counts.held, counts.steps);
    head
}

fn flushed_head(held: bool) -> Head
    ensures { result.items ≡ little_bytes 4 2 ++ 134 ∷ flag held ∷ [] }
{
    let mut head = begin(2, 134);
    put(&mut head, &[u8::from(held)]);
    head
}

/// What stands before the placements of a list.
pub(crate) fn places_head(placements: &[Placement]) -> Head
    requires { 5 + 12 * length placements.now ≤ longest_reply }
    ensures { result.items ≡ little_bytes 4 (5 + 12 * length placements.now)
        ++ 132 ∷ little_bytes 4 (length placements.now) }
{
    let count = placements.len() as u32;
    let mut head = begin(5 + 12 * count, 132);
    put(&mut head, &count.to_le_bytes());
    head
}

/// What stands before the file of an image, or all of a reply of fixed width.
#[tactic(auto, unfolding(crate::specs::Answer::reply_frame))]
pub(crate) fn head_of(reply: &Reply<'_>) -> Head
    requires size { IsSendable (answer_of reply.now) }
    requires small { HasFixedWidth (answer_of reply.now) }
    ensures { result.items ++ bulk (answer_of reply.now) ≡ reply_frame (answer_of reply.now) }
{
    match reply {
        Reply::Published(version) => with_one(9, 129, *version),
        Reply::Image {
            version,
            base,
            bytes,
        } => with_two(bytes.len() as u32 + 17, 130, *version, *base),
        Reply::Refused(_) => unreachable!(),
        Reply::Places(_) => unreachable!(),
        Reply::Counts(counts) => counts_head(counts),
        Reply::Flushed(held) => flushed_head(*held),
        Reply::Bye => begin(1, 135),
        Reply::NoMemory => begin(1, 136),
        Reply::Full => begin(1, 137),
        Reply::KeptFull => begin(1, 138),
    }
}

/// The bytes of at most 64 placements.
pub(crate) fn spans_of(placements: &[Placement]) -> ArrayVec<u8, 768>
    requires { length placements.now ≤ 64 }
    ensures { result.items ≡ flat_map span_bytes (map wire_span placements.now) }
{
    let mut bytes = ArrayVec::new();
    for placement in placements {
        put_span(&mut bytes, placement);
    }
    bytes
}

/// Appends a placement's bytes, for which there is room.
pub(crate) fn put_span<const N: usize>(bytes: &mut ArrayVec<u8, N>, placement: &Placement)
    requires { array_vec_len bytes.old + 12 ≤ N }
    ensures items { bytes.new.items ≡ bytes.old.items ++ span_bytes (wire_span placement.now) }
    ensures len { array_vec_len bytes.new ≡ array_vec_len bytes.old + 12 }
{
    put_number(bytes, placement.base);
    put(bytes, &placement.pages.to_le_bytes());
}

//! The line that a server prints once it has served all sessions. It is made in place and needs no
//! memory.

ghost use Rattle.std.specs.Prelude.{◌≡◌, ◌+◌, ◌≤◌, ◌++◌, decimal, length};
ghost use Rattle.arrayvec.specs.ArrayVec.{array_vec_len};
ghost use Rattle.session_calls.specs.Socket.{totals_line};

use arrayvec::ArrayVec;
use hub_store::Totals;
use itoa::Buffer;

/// Room for seven counts of at most 64 bytes each, and the newline.
pub(crate) type Text = ArrayVec<u8, 512>;

/// Appends the bytes, for which there is room.
fn put(line: &mut Text, more: &[u8])
    requires { array_vec_len line.old + length more.now ≤ 512 }
    ensures items { line.new.items ≡ line.old.items ++ more.now }
    ensures len { array_vec_len line.new ≡ array_vec_len line.old + length more.now }
{
    line.try_extend_from_slice(more).unwrap();
}

/// Appends a text and a number in decimal.
fn put_count(line: &mut Text, text: &[u8], number: u64)
    requires text { length text.now ≤ 24 }
    requires room { array_vec_len line.old + 64 ≤ 512 }
    ensures items { line.new.items ≡ line.old.items ++ text.now ++ decimal number }
    ensures len { array_vec_len line.new ≤ array_vec_len line.old + 64 }
{
    let mut buffer = Buffer::new();
    put(line, text);
    put(line, buffer.format(number).as_bytes());
}

/// `sessions N requests R version V placements L hits H stored T evicted E`.
pub(crate) fn totals_line(sessions: u64, totals: &Totals) -> Text
    ensures { result.items ≡ totals_line sessions totals.now }
{
    let mut line = Text::new();
    put_count(&mut line, b"sessions ", sessions);
    put_count(&mut line, b" requests ", totals.requests);
    put_count(&mut line, b" version ", totals.counts.version);
    put_count(&mut line, b" placements ", totals.counts.placements);
    put_count(&mut line, b" hits ", totals.counts.hits);
    put_count(&mut line, b" stored ", totals.counts.stored);
    put_count(&mut line, b" evicted ", totals.counts.evicted);
    put(&mut line, b"\n");
    line
}

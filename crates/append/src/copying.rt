// The calls that a walk left, as numbers.
ghost use Rattle.std.specs.Prelude.{◌≡◌, ◌+◌, ◌*◌, ◌≤◌, length, take};
ghost use Rattle.calls.specs.Records.{numbers_of};
ghost use Rattle.context.specs.Context.{call_row};
ghost use Rattle.text.specs.Put.{put};

use calls::{Call, CallList};
use context::CALL_ROW;

// A list of calls whose first rows can be read. Only `append` asks for them, after it has checked that they are there.
pub trait CallRows: CallList {
    // The first `count` rows, from place `at` of `out` on.
    fn copy_rows(&self, count: usize, out: &mut [u32], at: usize)
        requires fits { count * call_row ≤ length (Self.numbers self.now) }
        requires room { at + count * call_row ≤ length out.old }
        ensures { out.new ≡ put out.old at (take (count * call_row) (Self.numbers self.now)) };
}

impl CallRows for &mut [u32] {
    fn copy_rows(&self, count: usize, out: &mut [u32], at: usize) {
        crate::put(out, at, &self[..count * CALL_ROW]);
    }
}

// The numbers of records, one row after another.
fn copy_records(calls: &[Call], out: &mut [u32], at: usize)
    requires { at + length calls.now * call_row ≤ length out.old }
    ensures { out.new ≡ put out.old at (numbers_of calls.now) }
{
    for (i, call) in calls.iter().enumerate() {
        let row = [call.address, call.word, call.destination, call.mode];
        crate::put(out, at + i * CALL_ROW, &row);
    }
}

impl CallRows for &mut [Call] {
    fn copy_rows(&self, count: usize, out: &mut [u32], at: usize) {
        copy_records(&self[..count], out, at);
    }
}

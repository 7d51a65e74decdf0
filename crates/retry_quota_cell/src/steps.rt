//! One exchange or one look of a pass.
ghost use Rattle.std.specs.Prelude.{◌≡◌, ◌+◌, ◌-◌, ◌<◌, [], IfSome};
ghost use Rattle.std.specs.Option.{IfNone};
ghost use Rattle.crossbeam_utils.specs.Seq.{cell_view as known};
ghost use Rattle.retry_quota_cell.specs.View.{Live};
ghost use Rattle.retry_quota_cell.specs.Rule.{
  newcomer,
  opened,
  state_of,
  with_parts,
  with_pool,
  words_of,
  Adds,
};
ghost use Rattle.retry_quota_cell.specs.Known.{Since, opening_of};

use crate::call::Call;
use crate::rule::{
    Begun, Cell, Counts, HandOver, Loads, Makes, Opens, PartIn, PartOut, Seat, Told,
};
use retry_quota::{BucketState, TokenBucket};
use std::sync::Wait;

// The changing numbers that the words have.
fn read(words: &[u64; 8]) -> BucketState
    ensures { result ≡ state_of words.now }
{
    BucketState {
        granted: words[0],
        available: words[1],
        held: words[2],
        forgotten: words[3],
        fraction: words[4],
        last_refill_secs: words[5],
    }
}

// The words of a bucket, with this count of calls and this pool of parts.
fn write(bucket: &TokenBucket, count: u64, pool: u64) -> [u64; 8]
    ensures { result ≡ words_of bucket.now count pool }
{
    let state = bucket.state();
    [
        state.granted,
        state.available,
        state.held,
        state.forgotten,
        state.fraction,
        state.last_refill_secs,
        count,
        pool,
    ]
}

// The words with another pool.
fn repool(words: &[u64; 8], pool: u64) -> [u64; 8]
    ensures { result ≡ with_pool words.now pool }
{
    [
        words[0], words[1], words[2], words[3], words[4], words[5], words[6], pool,
    ]
}

// Opens a new cell with this bucket, for this many callers. B names both.
pub fn open<B: Begun, R: Wait>(
    rt: &R,
    cell: &Cell,
    seat: &mut Seat,
    bucket: &TokenBucket,
    _callers: u32,
)
    requires own { seat.old.table_id ≡ cell.now.table.shared.table_id }
    requires fresh { known seat.old ≡ newcomer }
    requires opening { B.opening ≡ opening_of bucket.now _callers }
    ensures cell { seat.new.table_id ≡ seat.old.table_id }
    ensures view { known seat.new ≡ opened (opening_of bucket.now _callers) }
{
    let _state = bucket.state();
    let words = write(bucket, 0, 0);
    cell.swap_as::<Opens<B>, R>(rt, seat, words);
}

// Makes the call on a cell that was opened with this bucket, unless another caller was first. B
// names the call's step.
fn try_make<B: Told, C: Call, R: Wait>(
    rt: &R,
    cell: &Cell,
    opened: &TokenBucket,
    seat: &mut Seat,
    call: &C,
) -> Option<C::Answer>
    requires own { seat.old.table_id ≡ cell.now.table.shared.table_id }
    requires live { (known seat.old).stage ≡ Live }
    requires parts { 0 < (known seat.old).parts }
    requires step { C.step call.now ≡ B.step }
    requires book { opened.now ≡ (known seat.old).opening.book }
    ensures cell { seat.new.table_id ≡ seat.old.table_id }
    ensures none { IfNone result (Since (known seat.old) (known seat.new)) }
    ensures some { IfSome
        result
        (λ a. Adds (C.step call.now) (known seat.old) (C.reply a) (known seat.new)) }
{
    let found = cell.load_as::<Loads, R>(rt, seat);
    if found[6] == u64::MAX {
        return None;
    }
    let mut bucket = TokenBucket::of(opened.terms(), read(&found));
    let answer = call.make(&mut bucket);
    let _state = bucket.state();
    let new = write(&bucket, found[6] + 1, found[7]);
    match cell.compare_exchange_as::<Makes<B>, R>(rt, seat, found, new) {
        Ok(_) => Some(answer),
        Err(_) => None,
    }
}

// Makes the call on a cell that was opened with this bucket. B names the call's step.
pub fn make<B: Told, C: Call, R: Wait>(
    rt: &R,
    cell: &Cell,
    opened: &TokenBucket,
    seat: &mut Seat,
    call: &C,
) -> C::Answer
    requires own { seat.old.table_id ≡ cell.now.table.shared.table_id }
    requires live { (known seat.old).stage ≡ Live }
    requires parts { 0 < (known seat.old).parts }
    requires step { C.step call.now ≡ B.step }
    requires book { opened.now ≡ (known seat.old).opening.book }
    ensures cell { seat.new.table_id ≡ seat.old.table_id }
    ensures made { Adds (C.step call.now) (known seat.old) (C.reply result) (known seat.new) }
{
    for _ in rt.forever() {
        if let Some(answer) = try_make::<B, C, R>(rt, cell, opened, seat, call) {
            return answer;
        }
    }
    unreachable!()
}

// Gives a part to the pool.
pub fn put_out<R: Wait>(rt: &R, cell: &Cell, seat: &mut Seat)
    requires own { seat.old.table_id ≡ cell.now.table.shared.table_id }
    requires live { (known seat.old).stage ≡ Live }
    requires parts { 1 < (known seat.old).parts }
    ensures cell { seat.new.table_id ≡ seat.old.table_id }
    ensures view { known seat.new ≡ with_parts (known seat.old) ((known seat.old).parts - 1) }
{
    for _ in rt.forever() {
        let found = cell.load_as::<Counts, R>(rt, seat);
        if found[7] < u64::MAX {
            let new = repool(&found, found[7] + 1);
            match cell.compare_exchange_as::<PartOut, R>(rt, seat, found, new) {
                Ok(_) => return,
                Err(_) => {}
            }
        }
    }
    unreachable!()
}

// Takes a part from the pool.
pub fn take_in<R: Wait>(rt: &R, cell: &Cell, seat: &mut Seat)
    requires own { seat.old.table_id ≡ cell.now.table.shared.table_id }
    requires live { (known seat.old).stage ≡ Live }
    ensures cell { seat.new.table_id ≡ seat.old.table_id }
    ensures view { known seat.new ≡ with_parts (known seat.old) ((known seat.old).parts + 1) }
{
    for _ in rt.forever() {
        let found = cell.load_as::<Counts, R>(rt, seat);
        if found[7] > 0 {
            let new = repool(&found, found[7] - 1);
            match cell.compare_exchange_as::<PartIn, R>(rt, seat, found, new) {
                Ok(_) => return,
                Err(_) => {}
            }
        }
    }
    unreachable!()
}

// The same view on a new seat. A seat that has made steps can't be joined, since no clause of a
// step says that it holds no slot; a new one can.
pub fn fresh_seat(cell: &Cell, mut seat: Seat) -> Seat
    requires own { seat.table_id ≡ cell.now.table.shared.table_id }
    requires live { (known seat).stage ≡ Live }
    ensures cell { result.table_id ≡ seat.table_id }
    ensures view { known result ≡ known seat }
    ensures free { result.me.1 ≡ [] }
{
    cell.split_pass::<HandOver>(&mut seat)
}

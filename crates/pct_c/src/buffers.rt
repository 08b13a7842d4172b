//! Lists that are put into the caller's buffers.

ghost use Rattle.std.specs.Prelude.{◌≡◌, ◌≤◌, ◌<◌, ◌++◌, length, drop, IfOk};
ghost use Rattle.pct_c.specs.Buffers.{IsPutInRoom, IsFilled, refusal_status};

use crate::status::{BAD, DONE, NO_MEMORY, NO_ROOM, PctCount};
use c_values::Refused;
use pct_ask::Sequence;

/// A status and a number.
pub fn counted(status: u32, count: usize) -> PctCount
    ensures status { result.status ≡ status }
    ensures count { result.count ≡ count }
{
    PctCount {
        status,
        count: count as u64,
    }
}

/// The status of a refusal.
pub fn refusal(why: Refused) -> u32
    ensures { result ≡ refusal_status why }
{
    match why {
        Refused::Bad => BAD,
        Refused::NoMemory => NO_MEMORY,
    }
}

/// Puts a list at the front of a buffer that has room for it.
fn put_front<T: Copy>(list: &[T], buffer: &mut [T])
    requires { length list.now ≤ length buffer.old }
    ensures { buffer.new ≡ list.now ++ drop (length list.now) buffer.old }
{
    buffer[..list.len()].copy_from_slice(list);
}

/// Puts what is told at the front of a buffer, where there is room for it.
pub fn put<T: Copy + Drop>(told: Result<Sequence<T>, Refused>, buffer: &mut [T]) -> PctCount
    ensures { IsPutInRoom told result.status result.count buffer.old buffer.new }
{
    match told {
        Ok(list) => {
            if list.len() > buffer.len() {
                return counted(NO_ROOM, list.len());
            }
            put_front(list.as_slice(), buffer);
            counted(DONE, list.len())
        }
        Err(why) => counted(refusal(why), 0),
    }
}

/// Fills a buffer of just its length with what is told.
pub fn fill<T: Copy + Drop>(told: Result<Sequence<T>, Refused>, buffer: &mut [T]) -> u32
    requires { IfOk told (λ list. length list ≡ length buffer.old) }
    ensures { IsFilled told result buffer.old buffer.new }
{
    match told {
        Ok(list) => {
            put_front(list.as_slice(), buffer);
            DONE
        }
        Err(why) => refusal(why),
    }
}

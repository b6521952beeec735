// SPECIFICATION 14: six heads hand in squares, and one reader takes them in turn (an addition to the original). The queue stands in 12 lent
// bytes: an entry of two bytes, head and side, for each head that waits, the longest waiting first, and zeros behind them.
#![tactic(auto)]

ghost use Rattle.std.specs.Prelude.{◌≡◌, ◌*◌, ◌≤◌, length};
ghost use Rattle.queue.specs.Queue.{waiting, is_waiting, entry_refusal, hand_in, hand_in_of, turn, turn_of};
ghost use Rattle.queue.specs.Inner.{front, byte_before, kept, Counted};

use symbol::{FromSide, Version};

pub const HEADS: usize = 6;

// The bytes of a queue.
pub const SIZE: usize = 2 * HEADS;

// What a turn gives: the refusal number or 0, and the head that is served with its side, both 0 if there is none.
#[repr(C)]
#[derive(Clone, Copy)]
pub struct Served {
    pub number: usize,
    pub head: usize,
    pub side: usize,
}

// A byte as a number.
fn wide(byte: u8) -> usize
    ensures { result ≡ byte }
{
    byte as usize
}

// A head has one of the first n entries.
fn is_waiting(state: &[u8], n: usize, head: usize) -> bool
    requires { 2 * n ≤ length state.now }
    ensures { result ≡ is_waiting head (front n state.now) }
{
    let mut i = 0;
    while i < n {
        if wide(state[2 * i]) == head {
            return true;
        }
        i += 1;
    }
    false
}

// What refuses a head with a side behind the first n entries: 16, 17, 1, or 0 for nothing.
fn refusal(state: &[u8], n: usize, head: usize, side: usize) -> usize
    requires { 2 * n ≤ length state.now }
    ensures { result ≡ entry_refusal (front n state.now) (waiting head side) }
{
    if HEADS <= head {
        return 16;
    }
    if is_waiting(state, n, head) {
        return 17;
    }
    match Version::from_side(side) {
        FromSide::Found(_) => 0,
        FromSide::NoVersion => 1,
    }
}

// How many entries wait: those before the first that would be refused behind them.
fn count(state: &[u8]) -> usize
    requires { length state.now ≡ 12 }
    ensures { Counted state.now result }
{
    let mut n = 0;
    while n < HEADS {
        if refusal(state, n, wide(state[2 * n]), wide(state[2 * n + 1])) != 0 {
            return n;
        }
        n += 1;
    }
    n
}

// The byte at a place before an end, or 0.
fn byte_before(state: &[u8], at: usize, end: usize) -> u8
    requires { end ≤ length state.now }
    ensures { result ≡ byte_before end state.now at }
{
    if at < end { state[at] } else { 0 }
}

// The bytes from a place to an end come to the front, and zeros behind them.
fn keep(state: &mut [u8], from: usize, end: usize)
    requires { (length state.old ≡ 12) × (from ≤ end) × (end ≤ 12) }
    ensures { state.new ≡ kept from end state.old }
{
    let mut i = 0;
    while i < SIZE {
        state[i] = byte_before(state, from + i, end);
        i += 1;
    }
}

// SPECIFICATION 10.13, Hand in: the head waits behind all others.
pub fn hand_in(state: &mut [u8], head: usize, side: usize) -> usize
    ensures { hand_in result state.new ≡ hand_in_of state.old head side }
{
    if state.len() != SIZE {
        return 2;
    }
    let n = count(state);
    let number = refusal(state, n, head, side);
    if number != 0 {
        return number;
    }
    keep(state, 0, 2 * n);
    state[2 * n] = head as u8;
    state[2 * n + 1] = side as u8;
    0
}

// SPECIFICATION 10.14, Turn: the longest waiting is named and taken off.
pub fn take_turn(state: &mut [u8]) -> Served
    ensures { turn result.number result.head result.side state.new ≡ turn_of state.old }
{
    if state.len() != SIZE {
        return Served {
            number: 2,
            head: 0,
            side: 0,
        };
    }
    let n = count(state);
    if n == 0 {
        return Served {
            number: 0,
            head: 0,
            side: 0,
        };
    }
    let head = wide(state[0]);
    let side = wide(state[1]);
    keep(state, 2, 2 * n);
    Served {
        number: 0,
        head: head,
        side: side,
    }
}

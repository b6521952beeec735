// The operations for a station program in C, on numbers and byte slices only (include/han_xin.h). What they mean stands in marks/specs and
// queue/specs.
#![tactic(auto)]

ghost use Rattle.std.specs.Prelude.{◌≡◌};
ghost use Rattle.marks.specs.Read.{reading_of, read_of, read_known_of};
ghost use Rattle.marks.specs.Write.{writing_of, write_of};
ghost use Rattle.marks.specs.Smallest.{smallest, smallest_of};
ghost use Rattle.queue.specs.Queue.{hand_in, hand_in_of, turn, turn_of};

// What an operation gives that answers a number beside the refusal number: both, and the second is 0 after a refusal.
#[repr(C)]
#[derive(Clone, Copy)]
pub struct Answer {
    pub number: usize,
    pub value: usize,
}

// SPECIFICATION 10.9: Read a square.
#[unsafe(no_mangle)]
pub extern "C" fn hx_read_square(
    square: &[u8],
    side: usize,
    payload: &mut [u8],
    script: &mut [u8],
    receipt: &mut [u8],
) -> usize
    ensures { reading_of result receipt.new payload.new script.new
        ≡ read_of square.now side payload.old script.old receipt.old }
{
    reader::read_square(square, side, payload, script, receipt)
}

// SPECIFICATION 10.10: Read with known version, level, mask.
#[unsafe(no_mangle)]
pub extern "C" fn hx_read_known(
    square: &[u8],
    version: usize,
    level: usize,
    mask: usize,
    payload: &mut [u8],
    script: &mut [u8],
    receipt: &mut [u8],
) -> usize
    ensures { reading_of result receipt.new payload.new script.new
        ≡ read_known_of square.now version level mask payload.old script.old receipt.old }
{
    reader::read_known(square, version, level, mask, payload, script, receipt)
}

// SPECIFICATION 10.11: Write a square.
#[unsafe(no_mangle)]
pub extern "C" fn hx_write_square(
    version: usize,
    level: usize,
    mask: usize,
    script: &[u8],
    payload: &[u8],
    square: &mut [u8],
) -> usize
    ensures { writing_of result square.new ≡ write_of version level mask script.now payload.now square.old }
{
    writer::write_square(version, level, mask, script, payload, square)
}

// SPECIFICATION 10.12: Write the smallest mark. The value is the version found.
#[unsafe(no_mangle)]
pub extern "C" fn hx_write_smallest(
    level: usize,
    mask: usize,
    script: &[u8],
    payload: &[u8],
    square: &mut [u8],
) -> Answer
    ensures { smallest result.number result.value square.new
        ≡ smallest_of level mask script.now payload.now square.old }
{
    let found = writer::smallest::write_smallest(level, mask, script, payload, square);
    Answer {
        number: found.number,
        value: found.version,
    }
}

// SPECIFICATION 10.13: Hand in.
#[unsafe(no_mangle)]
pub extern "C" fn hx_queue_hand_in(queue: &mut [u8], head: usize, side: usize) -> usize
    ensures { hand_in result queue.new ≡ hand_in_of queue.old head side }
{
    queue::hand_in(queue, head, side)
}

// SPECIFICATION 10.14: Turn.
#[unsafe(no_mangle)]
pub extern "C" fn hx_queue_turn(queue: &mut [u8]) -> queue::Served
    ensures { turn result.number result.head result.side queue.new ≡ turn_of queue.old }
{
    queue::take_turn(queue)
}

// SPECIFICATION 10.11: Write a square (an addition to the original, which reads only). 10.12 stands in `smallest`.
#![tactic(auto)]

ghost use Rattle.std.specs.Prelude.{◌≡◌, ◌*◌, ◌≤◌, T, leb, length, take};
ghost use Rattle.symbol.specs.Version.{side_of};
ghost use Rattle.symbol.specs.Layout.{layout_of};
ghost use Rattle.block_table.specs.Blocks.{total_of, shapes, total_size, total_data, row_holds};
ghost use Rattle.codewords.specs.Codewords.{mask_bit};
ghost use Rattle.blocks.specs.Blockwise.{stream_of};
ghost use Rattle.script.specs.Check.{commands_of};
ghost use Rattle.script.specs.Inner.{Fits, script_data};
ghost use Rattle.marks.specs.Read.{unless};
ghost use Rattle.marks.specs.Write.{room_of, write_refusal, mark_of, writing_of, write_of};
ghost use Rattle.writer.specs.Inner.{ValidMark, Row, MarkWithLayout, place_refusal, script_refusal};
ghost use Rattle.codewords.specs.Inner.{square_of};

use information::InfoBits;
use script::Check;
use symbol::Version;

pub mod smallest;

// What a mark is written with: its version, level and mask, and the word of these three.
#[derive(Clone, Copy)]
pub struct Mark {
    pub version: usize,
    pub level: usize,
    pub mask: usize,
    pub word: u64,
}

// 1 for a version with too few data modules (the rows of the table hold their rule), 2 if the square has not side × side bytes, else 0.
fn place_refusal(m: Mark, kinds: &[u8], size: usize) -> usize
    requires { MarkWithLayout m kinds.now }
    ensures { result ≡ place_refusal m.version m.level size }
{
    let side = Version { number: m.version }.side();
    let total = block_table::total_codewords(m.version);
    if symbol::counting::data_modules(kinds, side * side) < 8 * total {
        return 1;
    }
    if size != side * side {
        return 2;
    }
    0
}

// 13 if there are more bits than the data codewords have, else 0.
fn bits_refusal(m: Mark, row: &[u8], bits: usize) -> usize
    requires { ValidMark m × Row m row.now }
    ensures { result ≡ unless (leb bits (8 * room_of m.version m.level)) 13 }
{
    if 8 * blocks::data_length(row) < bits {
        return 13;
    }
    0
}

// The refusal of script and payload, or 0.
fn script_refusal(m: Mark, row: &[u8], script: &[u8], payload: &[u8]) -> usize
    requires { ValidMark m × Row m row.now }
    ensures { result ≡ script_refusal m.version m.level script.now payload.now }
{
    match script::check_script(script, payload) {
        Check::Bits(n) => bits_refusal(m, row, n),
        Check::Malformed => 11,
        Check::Lacking => 12,
        Check::Empty => 8,
    }
}

// The stream of a script and payload, in the blocks of a row. `data` has room for the data codewords of the row.
fn encode_stream(stream: &mut [u8], data: &mut [u8], row: &[u8], script: &[u8], payload: &[u8])
    requires row_len { (length row.now ≡ 9) × T (row_holds (shapes row.now) (total_size (shapes row.now)))
        × (total_size (shapes row.now) ≤ length stream.old) × (length «data».old ≡ total_data (shapes row.now)) }
    requires fits { Fits script.now payload.now (length «data».old) × (length «data».old ≤ 3886) }
    ensures { take (total_size (shapes row.now)) stream.new
        ≡ stream_of (shapes row.now) (script_data (total_data (shapes row.now))
        (commands_of script.now payload.now)) }
{
    encoding::encode(script, payload, data);
    block_writer::write_blocks(stream, data, row);
}

// A stream in the data modules of a square; the information modules are light. The codewords are put in order in a lent buffer.
fn place_stream(square: &mut [u8], kinds: &[u8], m: Mark, stream: &[u8], found: &mut [u8])
    requires { MarkWithLayout m kinds.now × (length square.old ≡ side_of m.version * side_of m.version)
        × (total_of m.version ≤ length stream.now) × (total_of m.version ≤ length found.old) }
    ensures { square.new ≡ square_of (mask_bit (side_of m.version) m.mask) (layout_of m.version)
        (take (total_of m.version) stream.now) }
{
    let total = block_table::total_codewords(m.version);
    let side = Version { number: m.version }.side();
    codewords::from_stream(found, stream, total);
    drawing::place_codewords(square, kinds, found, total, side, m.mask);
}

// The mark, in all modules of a square. Two buffers are lent for its codewords.
fn write_mark_in(
    square: &mut [u8],
    kinds: &[u8],
    m: Mark,
    row: &[u8],
    script: &[u8],
    payload: &[u8],
    stream: &mut [u8],
    spare: &mut [u8],
)
    requires mark_with_layout { MarkWithLayout m kinds.now × (write_refusal m.version m.level m.mask script.now payload.now square.old ≡ 0) }
    requires row { Row m row.now × (total_of m.version ≤ length stream.old) × (total_of m.version ≤ length spare.old) }
    ensures { square.new ≡ mark_of m.version m.level m.mask script.now payload.now }
{
    let side = Version { number: m.version }.side();
    let room = blocks::data_length(row);
    encode_stream(stream, &mut spare[..room], row, script, payload);
    place_stream(square, kinds, m, stream, spare);
    information::write_info(square, side, m.word);
}

// The same. A small mark has small buffers, which are sooner cleared.
fn write_mark(square: &mut [u8], kinds: &[u8], m: Mark, row: &[u8], script: &[u8], payload: &[u8])
    requires { MarkWithLayout m kinds.now × (write_refusal m.version m.level m.mask script.now payload.now square.old ≡ 0) × Row m row.now }
    ensures { square.new ≡ mark_of m.version m.level m.mask script.now payload.now }
{
    if m.version < 4 {
        let mut stream = [0u8; 50];
        let mut spare = [0u8; 50];
        write_mark_in(
            square,
            kinds,
            m,
            row,
            script,
            payload,
            &mut stream,
            &mut spare,
        );
        return;
    }
    let mut stream = [0u8; block_table::MAX_CODEWORDS];
    let mut spare = [0u8; block_table::MAX_CODEWORDS];
    write_mark_in(
        square,
        kinds,
        m,
        row,
        script,
        payload,
        &mut stream,
        &mut spare,
    );
}

// The mark and 0, or the first refusal behind that of version, level and mask; `text` is that of script and payload. The layout is drawn
// into a lent buffer.
fn write_in(
    kinds: &mut [u8],
    m: Mark,
    row: &[u8],
    text: usize,
    script: &[u8],
    payload: &[u8],
    square: &mut [u8],
) -> usize
    requires { ValidMark m × Row m row.now × (side_of m.version * side_of m.version ≤ length kinds.old)
        × (text ≡ script_refusal m.version m.level script.now payload.now) }
    ensures { writing_of result square.new ≡ write_of m.version m.level m.mask script.now payload.now
        square.old }
{
    symbol::layout(m.version, kinds);
    let place = place_refusal(m, kinds, square.len());
    if place != 0 {
        return place;
    }
    if text != 0 {
        return text;
    }
    write_mark(square, kinds, m, row, script, payload);
    0
}

// The same. A small mark has a small buffer for its layout: to clear one for any layout takes longer than to write a small mark.
fn write_checked(
    m: Mark,
    row: &[u8],
    text: usize,
    script: &[u8],
    payload: &[u8],
    square: &mut [u8],
) -> usize
    requires { ValidMark m × Row m row.now × (text ≡ script_refusal m.version m.level script.now payload.now) }
    ensures { writing_of result square.new ≡ write_of m.version m.level m.mask script.now payload.now
        square.old }
{
    if m.version <= 10 {
        let mut kinds = [0u8; 1681];
        return write_in(&mut kinds, m, row, text, script, payload, square);
    }
    let mut kinds = [0u8; Version::MAX_SQUARE];
    write_in(&mut kinds, m, row, text, script, payload, square)
}

// Write a square.
pub fn write_square(
    version: usize,
    level: usize,
    mask: usize,
    script: &[u8],
    payload: &[u8],
    square: &mut [u8],
) -> usize
    ensures { writing_of result square.new ≡ write_of version level mask script.now payload.now square.old }
{
    let InfoBits::Word(word) = information::info_bits(version, level, mask) else {
        return 1;
    };
    let m = Mark {
        version: version,
        level: level,
        mask: mask,
        word: word,
    };
    let row = block_table::block_row(version, level);
    let text = script_refusal(m, &row, script, payload);
    write_checked(m, &row, text, script, payload, square)
}

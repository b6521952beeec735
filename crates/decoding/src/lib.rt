// The answer for a square that has passed the first refusals: its stream is read and corrected, and the segments of its data are decoded.
#![tactic(auto)]

ghost use Rattle.std.specs.Prelude.{◌≡◌, ℕ, ◌*◌, ◌<◌, ◌≤◌, length, get_or};
ghost use Rattle.symbol.specs.Version.{side_of};
ghost use Rattle.symbol.specs.Layout.{layout_of};
ghost use Rattle.block_table.specs.Blocks.{total_of};
ghost use Rattle.symbol.specs.Layout.{data_modules};
ghost use Rattle.marks.specs.Read.{body_of};
ghost use Rattle.blocks.specs.Inner.{Flagged};
ghost use Rattle.receipts.specs.Inner.{FitsReceipt};
ghost use Rattle.decoding.specs.Inner.{PassesFirstRefusals, Tells, InTable, HasLayout, HasStream, FlagsRead, AnswersStream, reading_in, body_or1};

use blocks::Blocks;
use receipts::{Mark, SquareAnswer};
use symbol::Version;

// The stream of a square whose layout is drawn.
fn read_stream(stream: &mut [u8], kinds: &[u8], square: &[u8], m: Mark)
    requires { PassesFirstRefusals m square.now × HasLayout m.version kinds.now × (8 * total_of m.version ≤ data_modules (layout_of m.version))
        × (total_of m.version ≤ length stream.old) }
    ensures { HasStream m square.now stream.new }
{
    let side = Version { number: m.version }.side();
    let total = block_table::total_codewords(m.version);
    let mut found = [0u8; block_table::MAX_CODEWORDS];
    placement::read_codewords(&mut found, total, kinds, square, side, m.mask);
    codewords::to_stream(stream, &found, total);
}

// The flags of such a square.
fn read_flags(flags: &mut [u8], kinds: &[u8], square: &[u8], m: Mark)
    requires { PassesFirstRefusals m square.now × HasLayout m.version kinds.now × (8 * total_of m.version ≤ data_modules (layout_of m.version))
        × (total_of m.version ≤ length flags.old) }
    ensures { FlagsRead m.version square.now flags.new }
{
    let total = block_table::total_codewords(m.version);
    let mut found = [0u8; block_table::MAX_CODEWORDS];
    flags::read_flags(&mut found, total, kinds, square);
    codewords::to_stream(flags, &found, total);
}

// The stream of a square of bits of version 1 to 3, which have no alignment patterns: its layout need not be drawn.
fn read_open_stream(stream: &mut [u8], square: &[u8], m: Mark)
    requires { PassesFirstRefusals m square.now × (m.version < 4) × (total_of m.version ≤ length stream.old)
        × ((i : ℕ) → get_or square.now i 0 < 2) }
    ensures { HasStream m square.now stream.new }
{
    let total = block_table::total_codewords(m.version);
    let mut found = [0u8; 50];
    small_marks::read_open(&mut found, total, square, m.version, m.mask);
    codewords::to_stream(stream, &found, total);
}

// A stream with its flags corrected, and its segments. The answer holds for every square with these.
fn decode_stream(
    stream: &mut [u8],
    flags: &[u8],
    spare: &mut [u8],
    m: Mark,
    payload: &mut [u8],
    script: &mut [u8],
) -> SquareAnswer
    requires { InTable m × (total_of m.version ≤ length stream.old) × Flagged flags.now (total_of m.version) }
    ensures { AnswersStream m stream.old flags.now payload.old script.old result payload.new script.new }
{
    let row = block_table::block_row(m.version, m.level);
    match blocks::correct_blocks(stream, flags, &row) {
        Blocks::Corrected(count) => receipts::decode_segments(
            stream, spare, &row, count, payload, script,
        ),
        Blocks::Refused(number) => receipts::refused(number),
    }
}

// The answer for a square with unknown modules whose layout is drawn.
fn decode_unknown(
    kinds: &mut [u8],
    square: &[u8],
    m: Mark,
    payload: &mut [u8],
    script: &mut [u8],
) -> SquareAnswer
    requires { PassesFirstRefusals m square.now × HasLayout m.version kinds.old × (8 * total_of m.version ≤ data_modules (layout_of m.version)) }
    ensures { (reading_in m result payload.new script.new
        ≡ body_of m.version m.level m.mask m.distance square.now payload.old script.old) × FitsReceipt result }
{
    let mut flags = [0u8; block_table::MAX_CODEWORDS];
    read_flags(&mut flags, kinds, square, m);
    let mut stream = [0u8; block_table::MAX_CODEWORDS];
    read_stream(&mut stream, kinds, square, m);
    decode_stream(&mut stream, &flags, kinds, m, payload, script)
}

// The answer for a square whose layout is drawn. A small one has a small buffer, which is sooner cleared.
fn decode_with_layout(
    kinds: &mut [u8],
    square: &[u8],
    unknown: bool,
    m: Mark,
    payload: &mut [u8],
    script: &mut [u8],
) -> SquareAnswer
    requires { PassesFirstRefusals m square.now × HasLayout m.version kinds.old × (8 * total_of m.version ≤ data_modules (layout_of m.version))
        × Tells unknown square.now }
    ensures { (reading_in m result payload.new script.new
        ≡ body_of m.version m.level m.mask m.distance square.now payload.old script.old) × FitsReceipt result }
{
    if unknown {
        return decode_unknown(kinds, square, m, payload, script);
    }
    if m.version <= 10 {
        let mut stream = [0u8; 155];
        read_stream(&mut stream, kinds, square, m);
        return decode_stream(&mut stream, &square[..0], kinds, m, payload, script);
    }
    let mut stream = [0u8; block_table::MAX_CODEWORDS];
    read_stream(&mut stream, kinds, square, m);
    decode_stream(&mut stream, &square[..0], kinds, m, payload, script)
}

// The same, or 1 for a version with too few data modules: the rows of the table hold their rule.
fn decode_or_refuse(
    kinds: &mut [u8],
    square: &[u8],
    unknown: bool,
    m: Mark,
    payload: &mut [u8],
    script: &mut [u8],
) -> SquareAnswer
    requires { PassesFirstRefusals m square.now × HasLayout m.version kinds.old × Tells unknown square.now }
    ensures { (reading_in m result payload.new script.new
        ≡ body_or1 m square.now payload.old script.old) × FitsReceipt result }
{
    if symbol::counting::data_modules(kinds, square.len())
        < 8 * block_table::total_codewords(m.version)
    {
        return receipts::refused(1);
    }
    decode_with_layout(kinds, square, unknown, m, payload, script)
}

// The answer for a square of version 1 to 3 with no unknown modules: no layout, and a small buffer, which is sooner cleared.
fn decode_open(
    spare: &mut [u8],
    square: &[u8],
    m: Mark,
    payload: &mut [u8],
    script: &mut [u8],
) -> SquareAnswer
    requires { PassesFirstRefusals m square.now × (m.version < 4) × ((i : ℕ) → get_or square.now i 0 < 2) }
    ensures { (reading_in m result payload.new script.new
        ≡ body_or1 m square.now payload.old script.old) × FitsReceipt result }
{
    let mut stream = [0u8; 50];
    read_open_stream(&mut stream, square, m);
    decode_stream(&mut stream, &square[..0], spare, m, payload, script)
}

// The answer for a square that has passed the first refusals, and whether it has unknown modules. The buffer for its layout is lent.
pub fn decode(
    kinds: &mut [u8],
    square: &[u8],
    unknown: bool,
    m: Mark,
    payload: &mut [u8],
    script: &mut [u8],
) -> SquareAnswer
    requires { PassesFirstRefusals m square.now × (side_of m.version * side_of m.version ≤ length kinds.old) × Tells unknown square.now }
    ensures { (reading_in m result payload.new script.new
        ≡ body_or1 m square.now payload.old script.old) × FitsReceipt result }
{
    if !unknown {
        if m.version < 4 {
            return decode_open(kinds, square, m, payload, script);
        }
    }
    symbol::layout(m.version, kinds);
    decode_or_refuse(kinds, square, unknown, m, payload, script)
}

// The receipt of a square that is read (SPECIFICATION 2.6), and the answer for its corrected blocks: script and payload.
#![tactic(auto)]

ghost use Rattle.std.specs.Prelude.{◌≡◌, ◌%◌, ◌<◌, ◌≤◌, length};
ghost use Rattle.block_table.specs.Blocks.{shapes, total_size, total_data, cut, data_parts};
ghost use Rattle.segments.specs.FromData.{from_data};
ghost use Rattle.receipts.specs.Inner.{receipt_in, FitsReceipt, Refuses, FromAnswer, FromOutcome};
ghost use Rattle.marks.specs.Receipt.{receipt_of, refusal_receipt};

use segments::Answer;

// What a square is read with: its version, level and mask, and how far the information was from theirs.
#[derive(Clone, Copy)]
pub struct Mark {
    pub version: usize,
    pub level: usize,
    pub mask: usize,
    pub distance: usize,
}

// The answer for a square: the refusal number or 0, the count of corrections, and the lengths of payload and script.
#[derive(Clone, Copy)]
pub struct SquareAnswer {
    pub number: usize,
    pub count: usize,
    pub payload: usize,
    pub script: usize,
}

fn low_byte(n: usize) -> u8
    ensures { result ≡ n % 256 }
{
    (n % 256) as u8
}

fn accepted(m: Mark, t: SquareAnswer) -> [u8; 12]
    requires version_bound { (m.version < 256) × (m.level < 256) × (m.mask < 256) × (m.distance < 256) }
    requires fits_receipt { FitsReceipt t }
    ensures { result ≡ receipt_of m.version m.level m.mask t.count m.distance t.payload t.script }
{
    [
        0,
        low_byte(m.version),
        low_byte(m.level),
        low_byte(m.mask),
        low_byte(t.count / 256),
        low_byte(t.count),
        low_byte(m.distance),
        low_byte(t.payload / 256),
        low_byte(t.payload),
        low_byte(t.script / 256),
        low_byte(t.script),
        0,
    ]
}

fn refusal(number: usize) -> [u8; 12]
    requires { number < 256 }
    ensures { result ≡ refusal_receipt number }
{
    [low_byte(number), 0, 0, 0, 0, 0, 0, 0, 0, 0, 0, 0]
}

fn put(receipt: &mut [u8], bytes: &[u8; 12])
    requires { (length receipt.old ≡ 12) × (length bytes.now ≡ 12) }
    ensures { receipt.new ≡ bytes.now }
{
    let mut i = 0;
    while i < 12 {
        receipt[i] = bytes[i];
        i += 1;
    }
}

// The receipt of an answer.
pub fn write_receipt(receipt: &mut [u8], m: Mark, t: SquareAnswer)
    requires receipt_len { length receipt.old ≡ 12 }
    requires version_bound { (m.version < 256) × (m.level < 256) × (m.mask < 256) × (m.distance < 256) }
    requires fits_receipt { FitsReceipt t }
    ensures { receipt.new ≡ receipt_in m t }
{
    let number = t.number;
    if number == 0 {
        let bytes = accepted(m, t);
        put(receipt, &bytes);
        return;
    }
    let bytes = refusal(number);
    put(receipt, &bytes);
}

// The answer of a refusal.
pub fn refused(number: usize) -> SquareAnswer
    ensures { Refuses number result }
{
    SquareAnswer {
        number: number,
        count: 0,
        payload: 0,
        script: 0,
    }
}

// A refusal with its receipt.
pub fn refuse(receipt: &mut [u8], number: usize) -> usize
    requires { (length receipt.old ≡ 12) × (number < 256) }
    ensures { (result ≡ number) × (receipt.new ≡ refusal_receipt number) }
{
    let bytes = refusal(number);
    put(receipt, &bytes);
    number
}

// The answer for a square by the answer for its data, where `count` codewords were changed.
fn square_answer(answer: Answer, count: usize) -> SquareAnswer
    ensures { FromAnswer answer count result }
{
    match answer {
        Answer::Read(p, s) => SquareAnswer {
            number: 0,
            count: count,
            payload: p,
            script: s,
        },
        Answer::TooLong => refused(2),
        Answer::Broken => refused(7),
        Answer::Empty => refused(8),
        Answer::PayloadFull => refused(9),
        Answer::ScriptFull => refused(10),
    }
}

// Script and payload of the corrected blocks, of which `count` codewords were changed. The data are gathered in a lent buffer; the stream
// and another, which are not needed any more, are what the segments are decoded into first.
fn decode_segments_with(
    stream: &mut [u8],
    data: &mut [u8],
    spare: &mut [u8],
    row: &[u8],
    count: usize,
    payload: &mut [u8],
    script: &mut [u8],
) -> SquareAnswer
    requires { (length row.now ≡ 9) × (total_size (shapes row.now) ≤ length stream.old) × (total_data (shapes row.now) ≤ length «data».old)
        × (total_data (shapes row.now) ≤ 3886) × (count < 65536) }
    ensures { FromOutcome count (from_data (data_parts (shapes row.now) (cut (shapes row.now) stream.old))
        payload.old script.old) result payload.new script.new }
{
    let n = blocks::gather_data(data, stream, row);
    square_answer(
        parse::from_data_with(&data[..n], payload, script, spare, stream),
        count,
    )
}

// The same. Few data have a small buffer, which is sooner cleared.
pub fn decode_segments(
    stream: &mut [u8],
    spare: &mut [u8],
    row: &[u8],
    count: usize,
    payload: &mut [u8],
    script: &mut [u8],
) -> SquareAnswer
    requires { (length row.now ≡ 9) × (total_size (shapes row.now) ≤ length stream.old) × (total_data (shapes row.now) ≤ 3886) × (count < 65536) }
    ensures { FromOutcome count (from_data (data_parts (shapes row.now) (cut (shapes row.now) stream.old))
        payload.old script.old) result payload.new script.new }
{
    if blocks::data_length(row) <= 155 {
        let mut data = [0u8; 155];
        return decode_segments_with(stream, &mut data, spare, row, count, payload, script);
    }
    let mut data = [0u8; segments::MAX_DATA];
    decode_segments_with(stream, &mut data, spare, row, count, payload, script)
}

// The bits of a script and its payload, in a lent run of data bytes.
#![tactic(auto)]

ghost use Rattle.std.specs.Prelude.{◌≡◌, true, ◌++◌, ◌+◌, ◌-◌, ◌*◌, ◌/◌, ◌<◌, ◌≤◌, length, get_or, take, drop, replicate};
ghost use Rattle.bits.specs.Bits.{bits_of, low_bits, word_bits};
ghost use Rattle.script.specs.Writer.{numeric_words, mode_has, encoding_of};
ghost use Rattle.script.specs.Characters.{words_of, has_all, width_of, switch_of, end_of, begins_in};
ghost use Rattle.segments.specs.Script.{run, eci};
ghost use Rattle.script.specs.Check.{commands_of};
ghost use Rattle.script.specs.Inner.{Fits, script_data};
ghost use Rattle.encoding.specs.Written.{Written, WordsLeft, group_at};

use script::{Character, Command};

// Writes the n low bits of a number, and says where the next go.
fn put(buf: &mut [u8], at: usize, n: usize, v: usize) -> usize
    requires { (length buf.old ≤ 4096) × (at + n ≤ 8 * length buf.old) × (n ≤ 24) }
    ensures { Written buf.old at (low_bits n v) result buf.new }
{
    bits::write_bits(buf, at, n, v);
    at + n
}

fn switch_word(mode: usize) -> usize
    ensures { result ≡ switch_of mode }
{
    if mode == segments::TEXT { 62 } else { 4094 }
}

fn end_word(mode: usize) -> usize
    ensures { result ≡ end_of mode }
{
    if mode == segments::TEXT {
        return 63;
    }
    if mode == segments::TWO_BYTE {
        return 32767;
    }
    4095
}

// The characters of a run in modes 2, 4, 5 and 6, and the end.
fn write_chars(buf: &mut [u8], from: usize, mode: usize, run: &[u8]) -> usize
    requires { (length buf.old ≤ 4096) × (has_all mode run.now ≡ true)
        × (from + width_of mode * length (words_of mode (begins_in mode) run.now) ≤ 8 * length buf.old) }
    ensures { Written buf.old from (word_bits (width_of mode) (words_of mode (begins_in mode) run.now)) result buf.new }
{
    let by = script::step(mode);
    let w = script::width(mode);
    let mut first = mode != segments::REGION_TWO;
    let mut at = from;
    let mut j: usize = 0;
    while j < run.len() {
        let g = script::character_at(mode, first, run, j);
        match g {
            Character::Same(c) => {
                at = put(buf, at, w, c);
                j += by;
            }
            Character::Other(c) => {
                let next = put(buf, at, w, switch_word(mode));
                at = put(buf, next, w, c);
                first = !first;
                j += by;
            }
            Character::Lacking => {
                return at;
            }
        }
    }
    put(buf, at, w, end_word(mode))
}

// The digit at a place of a run.
fn digit(run: &[u8], j: usize) -> usize
    requires { j < length run.now }
    ensures { (result ≡ get_or run.now j 0 - 48) × (result < 256) }
{
    script::values::saturating_sub(bits::as_usize(run[j]), 48)
}

// The three digits from a place of a run on, as a number.
fn group(run: &[u8], j: usize) -> usize
    requires { j + 3 ≤ length run.now }
    ensures { (result ≡ group_at run.now j) × (result < 65536) }
{
    digit(run, j) * 100 + digit(run, j + 1) * 10 + digit(run, j + 2)
}

// The digits of a run, as far as there are six, with two groups of three in one word: fewer words wait for each other.
fn write_sixes(buf: &mut [u8], from: usize, run: &[u8]) -> usize
    requires { (length buf.old ≤ 4096) × (from + 10 * length (numeric_words run.now) ≤ 8 * length buf.old) }
    ensures { WordsLeft 10 buf.old from (numeric_words run.now) buf.new result
        (numeric_words (drop (length run.now / 6 * 6) run.now)) }
{
    let mut at = from;
    let mut j: usize = 0;
    while 6 <= run.len() - j {
        let first = group(run, j);
        let second = group(run, j + 3);
        at = put(buf, at, 20, first * 1024 + second % 1024);
        j += 6;
    }
    at
}

// The digits of a run in groups of three, and the end with the number of the last group's digits.
fn write_groups(buf: &mut [u8], from: usize, run: &[u8]) -> usize
    requires { (length buf.old ≤ 4096) × (from + 10 * length (numeric_words run.now) ≤ 8 * length buf.old) }
    ensures { Written buf.old from (word_bits 10 (numeric_words run.now)) result buf.new }
{
    let mut at = from;
    let mut j: usize = 0;
    while 3 <= run.len() - j {
        at = put(buf, at, 10, group(run, j));
        j += 3;
    }
    let left = run.len() - j;
    if left == 1 {
        let next = put(buf, at, 10, digit(run, j));
        return put(buf, next, 10, 1021);
    }
    if left == 2 {
        let next = put(buf, at, 10, digit(run, j) * 10 + digit(run, j + 1));
        return put(buf, next, 10, 1022);
    }
    put(buf, at, 10, 1023)
}

// The same, six digits at a time first.
fn write_numeric(buf: &mut [u8], from: usize, run: &[u8]) -> usize
    requires { (length buf.old ≤ 4096) × (from + 10 * length (numeric_words run.now) ≤ 8 * length buf.old) }
    ensures { Written buf.old from (word_bits 10 (numeric_words run.now)) result buf.new }
{
    let at = write_sixes(buf, from, run);
    let done = run.len() / 6 * 6;
    write_groups(buf, at, &run[done..])
}

// The bytes of a run.
fn write_bytes(buf: &mut [u8], from: usize, run: &[u8]) -> usize
    requires { (length buf.old ≤ 4096) × (from + 8 * length run.now ≤ 8 * length buf.old) }
    ensures { Written buf.old from (word_bits 8 run.now) result buf.new }
{
    let mut at = from;
    let mut j: usize = 0;
    while j < run.len() {
        at = put(buf, at, 8, bits::as_usize(run[j]));
        j += 1;
    }
    at
}

// A segment of modes 1 to 7: four bits of mode, then its run.
fn write_run(buf: &mut [u8], from: usize, mode: usize, chars: &[u8]) -> usize
    requires { (length buf.old ≤ 4096) × (1 ≤ mode) × (mode ≤ 7) × (mode_has mode chars.now ≡ true)
        × (from + length (encoding_of (run mode chars.now)) ≤ 8 * length buf.old) }
    ensures { Written buf.old from (encoding_of (run mode chars.now)) result buf.new }
{
    let at = put(buf, from, 4, mode);
    if mode == segments::NUMERIC {
        return write_numeric(buf, at, chars);
    }
    if mode == segments::BYTES {
        let next = put(buf, at, 13, chars.len());
        return write_bytes(buf, next, chars);
    }
    if mode == segments::FOUR_BYTE {
        return put(buf, at, 21, script::values::four_code(chars));
    }
    write_chars(buf, at, mode, chars)
}

// An ECI: four bits of mode, then the shortest prefix and the value.
fn write_eci(buf: &mut [u8], from: usize, v: usize) -> usize
    requires { (length buf.old ≤ 4096) × (from + length (encoding_of (eci v)) ≤ 8 * length buf.old) }
    ensures { Written buf.old from (encoding_of (eci v)) result buf.new }
{
    let at = put(buf, from, 4, segments::ECI);
    if v < 128 {
        return put(buf, at, 8, v);
    }
    if v < 16384 {
        return put(buf, at, 16, 0x8000 + v);
    }
    put(buf, at, 24, 0xC00000 + v % 0x200000)
}

// Sets the bytes from a place on to 0.
fn clear(buf: &mut [u8], from: usize)
    requires { from ≤ length buf.old }
    ensures { buf.new ≡ take from buf.old ++ replicate (length buf.old - from) 0 }
{
    let mut i = from;
    while i < buf.len() {
        buf[i] = 0;
        i += 1;
    }
}

// Sets the bits from a position on to 0.
fn pad(buf: &mut [u8], at: usize)
    requires { (length buf.old ≤ 4096) × (at ≤ 8 * length buf.old) }
    ensures { bits_of buf.new ≡ take at (bits_of buf.old) ++ replicate (8 * length buf.old - at) 0 }
{
    bits::write_bits(buf, at, (8 - at % 8) % 8, 0);
    clear(buf, (at + 7) / 8);
}

// The data bytes of a script and its payload that the check has accepted: their bits, and zeros behind.
pub fn encode(script: &[u8], payload: &[u8], codewords: &mut [u8])
    requires { Fits script.now payload.now (length codewords.old) × (length codewords.old ≤ 3886) }
    ensures { codewords.new ≡ script_data (length codewords.old) (commands_of script.now payload.now) }
{
    let mut i: usize = 0;
    let mut j: usize = 0;
    let mut at: usize = 0;
    while i < script.len() {
        let next = script::commands::command_at(script, i);
        match next {
            Command::Run(mode, n) => {
                let end = j + n;
                at = write_run(codewords, at, mode, &payload[j..end]);
                j = end;
                i += script::commands::command_size(mode);
            }
            Command::Eci(v) => {
                at = write_eci(codewords, at, v);
                i += 4;
            }
            Command::Wrong => {
                return;
            }
        }
    }
    pad(codewords, at);
}

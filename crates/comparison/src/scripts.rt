// Segments from data, and the check of a script, for the comparison with the Rust.
ghost use Rattle.segments.specs.FromData.{from_data};
ghost use Rattle.script.specs.Inner.{check_of};
ghost use Rattle.comparison.specs.Scripts.{DataSays, ScriptSays};

use script::Check;
use segments::Answer;

// SPECIFICATION 10.7: the refusal number, and the lengths of payload and script beside it.
#[repr(C)]
#[derive(Clone, Copy)]
pub struct DataAnswer {
    pub number: usize,
    pub payload: usize,
    pub script: usize,
}

// Segments from data.
#[unsafe(no_mangle)]
pub extern "C" fn hx_from_data(
    codewords: &[u8],
    payload: &mut [u8],
    script: &mut [u8],
) -> DataAnswer
    ensures { DataSays (from_data codewords.now payload.old script.old) result.number result.payload result.script
        payload.new script.new }
{
    let answer = parse::from_data(codewords, payload, script);
    match answer {
        Answer::Read(n, m) => DataAnswer {
            number: 0,
            payload: n,
            script: m,
        },
        Answer::TooLong => DataAnswer {
            number: 2,
            payload: 0,
            script: 0,
        },
        Answer::Broken => DataAnswer {
            number: 7,
            payload: 0,
            script: 0,
        },
        Answer::Empty => DataAnswer {
            number: 8,
            payload: 0,
            script: 0,
        },
        Answer::PayloadFull => DataAnswer {
            number: 9,
            payload: 0,
            script: 0,
        },
        Answer::ScriptFull => DataAnswer {
            number: 10,
            payload: 0,
            script: 0,
        },
    }
}

// SPECIFICATION 10.8: the refusal number, and the number of bits beside it.
#[repr(C)]
#[derive(Clone, Copy)]
pub struct ScriptAnswer {
    pub number: usize,
    pub bits: usize,
}

// The check of a script and its payload.
#[unsafe(no_mangle)]
pub extern "C" fn hx_check_script(script: &[u8], payload: &[u8]) -> ScriptAnswer
    ensures { ScriptSays (check_of script.now payload.now) result.number result.bits }
{
    let answer = script::check_script(script, payload);
    match answer {
        Check::Bits(n) => ScriptAnswer { number: 0, bits: n },
        Check::Malformed => ScriptAnswer {
            number: 11,
            bits: 0,
        },
        Check::Lacking => ScriptAnswer {
            number: 12,
            bits: 0,
        },
        Check::Empty => ScriptAnswer { number: 8, bits: 0 },
    }
}

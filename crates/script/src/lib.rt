// SPECIFICATION 10.8: a script and its payload, what writing asks of them, and how many bits they take.
#![tactic(auto)]

ghost use Rattle.std.specs.Prelude.{◌≡◌, true, false, ◌+◌, ◌-◌, ◌*◌, ◌/◌, ◌<◌, ◌≤◌, length, drop};
ghost use Rattle.script.specs.Lengths.{eci_length};
ghost use Rattle.script.specs.Inner.{capped, check_of};
ghost use Rattle.script.specs.Characters.{text_character, region_character, double_character, CharacterIs, char_cost, cost_of, Limited, step_of, width_of};

use crate::commands::{command_at, command_size};
use crate::values::{
    all_digits, code, double_code, in_double, in_four, in_region, in_subset, pair_code,
};

pub mod commands;
pub mod values;

// A command with its operand: a mode of 1 to 7 with the number of its payload bytes, or an ECI with its value.
#[derive(Clone, Copy)]
pub enum Command {
    Run(usize, usize),
    Eci(usize),
    Wrong,
}

// A character's word in the present subset or region, or in the other one, behind a switch.
#[derive(Clone, Copy)]
pub enum Character {
    Same(usize),
    Other(usize),
    Lacking,
}

// The number of bits of a run.
#[derive(Clone, Copy)]
pub enum Cost {
    Takes(usize),
    NotInMode,
}

// The answers of the check: the number of bits, or why there is none.
#[derive(Clone, Copy)]
pub enum Check {
    Bits(usize),
    Malformed,
    Lacking,
    Empty,
}

fn text_character(first: bool, b: usize) -> Character
    ensures { result ≡ text_character first b }
{
    if in_subset(first, b) {
        return Character::Same(code(first, b));
    }
    if in_subset(!first, b) {
        return Character::Other(code(!first, b));
    }
    Character::Lacking
}

fn region_character(one: bool, a: usize, b: usize) -> Character
    requires { (a < 256) × (b < 256) }
    ensures { result ≡ region_character one a b }
{
    if in_region(one, a, b) {
        return Character::Same(pair_code(one, a, b));
    }
    if in_region(!one, a, b) {
        return Character::Other(pair_code(!one, a, b));
    }
    Character::Lacking
}

fn double_character(a: usize, b: usize) -> Character
    requires { (a < 256) × (b < 256) }
    ensures { result ≡ double_character a b }
{
    if in_double(a, b) {
        return Character::Same(double_code(a, b));
    }
    Character::Lacking
}

// The character at a place of a run in modes 2, 4, 5 and 6.
pub fn character_at(mode: usize, first: bool, run: &[u8], j: usize) -> Character
    requires { j < length run.now }
    ensures { CharacterIs mode first (drop j run.now) result }
{
    if mode == segments::TEXT {
        return text_character(first, bits::as_usize(run[j]));
    }
    if run.len() - j < 2 {
        return Character::Lacking;
    }
    if mode == segments::TWO_BYTE {
        return double_character(bits::as_usize(run[j]), bits::as_usize(run[j + 1]));
    }
    region_character(first, bits::as_usize(run[j]), bits::as_usize(run[j + 1]))
}

pub fn step(mode: usize) -> usize
    ensures { (result ≡ step_of mode) × (1 ≤ result) × (result ≤ 2) }
{
    if mode == segments::TEXT { 1 } else { 2 }
}

pub fn width(mode: usize) -> usize
    ensures { (result ≡ width_of mode) × (1 ≤ result) × (result ≤ 15) }
{
    if mode == segments::TEXT {
        return 6;
    }
    if mode == segments::TWO_BYTE {
        return 15;
    }
    12
}

// The bits of a run in modes 2, 4, 5 and 6.
fn char_bits(mode: usize, run: &[u8]) -> Cost
    requires { length run.now < 65536 }
    ensures { (result ≡ char_cost mode run.now) × Limited result }
{
    let by = step(mode);
    let mut first = mode != segments::REGION_TWO;
    let mut words: usize = 0;
    let mut j: usize = 0;
    while j < run.len() {
        let g = character_at(mode, first, run, j);
        match g {
            Character::Same(_) => {
                words += 1;
                j += by;
            }
            Character::Other(_) => {
                words += 2;
                first = !first;
                j += by;
            }
            Character::Lacking => {
                return Cost::NotInMode;
            }
        }
    }
    Cost::Takes(4 + width(mode) * (words + 1))
}

// The number of bits of a run in a mode of 1 to 7.
fn run_bits(mode: usize, run: &[u8]) -> Cost
    requires { (1 ≤ mode) × (mode ≤ 7) × (length run.now < 65536) }
    ensures { (result ≡ cost_of mode run.now) × Limited result }
{
    if mode == segments::NUMERIC {
        if all_digits(run) {
            return Cost::Takes(14 + 10 * ((run.len() + 2) / 3));
        }
        return Cost::NotInMode;
    }
    if mode == segments::BYTES {
        return Cost::Takes(17 + 8 * run.len());
    }
    if mode == segments::FOUR_BYTE {
        if in_four(run) {
            return Cost::Takes(25);
        }
        return Cost::NotInMode;
    }
    char_bits(mode, run)
}

// The number of bits of an ECI.
fn eci_bits(v: usize) -> usize
    ensures { (result ≡ eci_length v) × (result ≤ 28) }
{
    if v < 128 {
        return 12;
    }
    if v < 16384 {
        return 20;
    }
    28
}

// More bits than any mark has: one more than the data of the largest.
pub const TOO_MANY_BITS: usize = 8 * segments::MAX_DATA + 1;

// A sum that stays at that number once it is there.
fn capped_sum(x: usize, y: usize) -> usize
    requires { (x < 100000000) × (y < 100000000) }
    ensures { (result ≡ capped (x + y)) × (result ≤ 31089) }
{
    if x + y < TOO_MANY_BITS {
        return x + y;
    }
    TOO_MANY_BITS
}

// SPECIFICATION 10.8, Check of a script: 11, else 12, else 8, else the number of bits.
pub fn check_script(script: &[u8], payload: &[u8]) -> Check
    ensures { result ≡ check_of script.now payload.now }
{
    let mut i: usize = 0;
    let mut j: usize = 0;
    let mut total: usize = 0;
    let mut lacks = false;
    while i < script.len() {
        let next = command_at(script, i);
        match next {
            Command::Run(mode, n) => {
                if payload.len() - j < n {
                    return Check::Malformed;
                }
                let end = j + n;
                let cost = run_bits(mode, &payload[j..end]);
                match cost {
                    Cost::Takes(b) => {
                        total = capped_sum(total, b);
                        j = end;
                        i += command_size(mode);
                    }
                    Cost::NotInMode => {
                        lacks = true;
                        j = end;
                        i += command_size(mode);
                    }
                }
            }
            Command::Eci(v) => {
                total = capped_sum(total, eci_bits(v));
                i += 4;
            }
            Command::Wrong => {
                return Check::Malformed;
            }
        }
    }
    if j < payload.len() {
        return Check::Malformed;
    }
    if lacks {
        return Check::Lacking;
    }
    if payload.len() == 0 {
        return Check::Empty;
    }
    Check::Bits(total)
}

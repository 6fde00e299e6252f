//! Lines that are drawn.

use pm_case_text::{Fault, push_number, push_words};

// The next draw. A linear congruence modulo 2^64, of which the highest bits are used.
fn next_draw(draw: u64) -> u64 {
    draw.wrapping_mul(6_364_136_223_846_793_005)
        .wrapping_add(1_442_695_040_888_963_407)
}

// The line that the seven highest bits of a draw choose. A capital letter in it stands for a number.
fn line_of(kind: u64) -> &'static str {
    match kind {
        0..=17 => "C new R K 0K",
        18..=29 => "C store R K S",
        30..=37 => "C load S R K",
        38..=43 => "C swap R K S T",
        44..=46 => "C clear R K",
        47..=49 => "C copy S R",
        50..=53 => "C drop R",
        54 | 55 => "C put R K 0K",
        56 | 57 => "C data R",
        58 => "C id R",
        59 => "C close",
        60..=64 => "C root nK R",
        65..=67 => "C find R nK",
        68 | 69 => "C unroot nK",
        70..=115 => "! gc 1",
        116..=119 => "! flush 1",
        120 | 121 => "C save",
        122 | 123 => "C settle",
        124 => "C unsave",
        _ => "! young",
    }
}

// The number that a draw chooses for a letter: a client, one of eight registers, or a number below 4.
fn number_of(letter: char, draw: u64) -> Option<u64> {
    match letter {
        'C' => Some((draw >> 56) % 2),
        'R' => Some((draw >> 53) % 8),
        'S' => Some((draw >> 50) % 8),
        'T' => Some((draw >> 47) % 8),
        'K' => Some((draw >> 45) % 4),
        _ => None,
    }
}

// Adds a letter, or the number that a draw chooses for it.
fn push_letter(letter: char, draw: u64, script: &mut String) -> Result<(), Fault> {
    match number_of(letter, draw) {
        Some(number) => push_number(number, script),
        None => Ok(script.push(letter)?),
    }
}

// Adds the line of a draw.
fn push_line(draw: u64, script: &mut String) -> Result<(), Fault> {
    for letter in line_of(draw >> 57).chars() {
        push_letter(letter, draw, script)?;
    }
    Ok(())
}

/// Adds this many lines for a run with a nursery, with ` / ` between, each made by a draw, of which the first comes behind
/// the seed: commands of two clients, sweeps, events of the collector and flush events.
pub(crate) fn push_drawn(lines: u64, seed: u64, script: &mut String) -> Result<(), Fault> {
    let mut draw = seed;
    for place in 0..lines {
        if place > 0 {
            push_words(" / ", script)?;
        }
        draw = next_draw(draw);
        push_line(draw, script)?;
    }
    Ok(())
}

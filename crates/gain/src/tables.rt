// The tables of gain as in src/tuners/r82xx.rs, and the middles between the steps.
use crate::GainEntry;

// In tenths of a dB.
pub const GAIN_STEPS: [u16; 29] = [
    0, 9, 14, 27, 37, 77, 87, 125, 144, 157, 166, 197, 207, 229, 254, 280, 297, 328, 338, 364, 372,
    386, 402, 421, 434, 439, 445, 480, 496,
];

// Half the sum of each two neighbouring steps, cut: above it the upper one is nearer. Not in the Rust.
pub const MIDDLES: [u32; 28] = [
    4, 11, 20, 32, 57, 82, 106, 134, 150, 161, 181, 202, 218, 241, 267, 288, 312, 333, 351, 368,
    379, 394, 411, 427, 436, 442, 462, 488,
];

pub const GAIN_TABLE: [GainEntry; 29] = [
    GainEntry {
        lna: 0,
        mix: 0,
        vga: 0,
    },
    GainEntry {
        lna: 1,
        mix: 0,
        vga: 2,
    },
    GainEntry {
        lna: 2,
        mix: 0,
        vga: 2,
    },
    GainEntry {
        lna: 3,
        mix: 0,
        vga: 2,
    },
    GainEntry {
        lna: 4,
        mix: 1,
        vga: 3,
    },
    GainEntry {
        lna: 5,
        mix: 1,
        vga: 3,
    },
    GainEntry {
        lna: 6,
        mix: 2,
        vga: 4,
    },
    GainEntry {
        lna: 7,
        mix: 2,
        vga: 4,
    },
    GainEntry {
        lna: 8,
        mix: 3,
        vga: 5,
    },
    GainEntry {
        lna: 9,
        mix: 3,
        vga: 5,
    },
    GainEntry {
        lna: 10,
        mix: 4,
        vga: 6,
    },
    GainEntry {
        lna: 11,
        mix: 4,
        vga: 6,
    },
    GainEntry {
        lna: 12,
        mix: 5,
        vga: 7,
    },
    GainEntry {
        lna: 13,
        mix: 5,
        vga: 7,
    },
    GainEntry {
        lna: 14,
        mix: 6,
        vga: 8,
    },
    GainEntry {
        lna: 15,
        mix: 6,
        vga: 8,
    },
    GainEntry {
        lna: 15,
        mix: 7,
        vga: 9,
    },
    GainEntry {
        lna: 15,
        mix: 7,
        vga: 9,
    },
    GainEntry {
        lna: 15,
        mix: 8,
        vga: 10,
    },
    GainEntry {
        lna: 15,
        mix: 8,
        vga: 10,
    },
    GainEntry {
        lna: 15,
        mix: 9,
        vga: 11,
    },
    GainEntry {
        lna: 15,
        mix: 9,
        vga: 11,
    },
    GainEntry {
        lna: 15,
        mix: 10,
        vga: 12,
    },
    GainEntry {
        lna: 15,
        mix: 10,
        vga: 12,
    },
    GainEntry {
        lna: 15,
        mix: 11,
        vga: 13,
    },
    GainEntry {
        lna: 15,
        mix: 11,
        vga: 13,
    },
    GainEntry {
        lna: 15,
        mix: 12,
        vga: 14,
    },
    GainEntry {
        lna: 15,
        mix: 12,
        vga: 14,
    },
    GainEntry {
        lna: 15,
        mix: 13,
        vga: 15,
    },
];

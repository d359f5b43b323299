// The Rust's `FREQ_RANGES`.
use crate::FreqRange;

pub const FREQ_RANGES: [FreqRange; 21] = [
    FreqRange {
        hz: 0,
        opendrain: 0x08,
        mux: 0x02,
        filter: 0xdf,
    },
    FreqRange {
        hz: 50_000_000,
        opendrain: 0x08,
        mux: 0x02,
        filter: 0xbe,
    },
    FreqRange {
        hz: 55_000_000,
        opendrain: 0x08,
        mux: 0x02,
        filter: 0x8b,
    },
    FreqRange {
        hz: 60_000_000,
        opendrain: 0x08,
        mux: 0x02,
        filter: 0x7b,
    },
    FreqRange {
        hz: 65_000_000,
        opendrain: 0x08,
        mux: 0x02,
        filter: 0x69,
    },
    FreqRange {
        hz: 70_000_000,
        opendrain: 0x08,
        mux: 0x02,
        filter: 0x58,
    },
    FreqRange {
        hz: 75_000_000,
        opendrain: 0x00,
        mux: 0x02,
        filter: 0x44,
    },
    FreqRange {
        hz: 80_000_000,
        opendrain: 0x00,
        mux: 0x02,
        filter: 0x44,
    },
    FreqRange {
        hz: 90_000_000,
        opendrain: 0x00,
        mux: 0x02,
        filter: 0x34,
    },
    FreqRange {
        hz: 100_000_000,
        opendrain: 0x00,
        mux: 0x02,
        filter: 0x34,
    },
    FreqRange {
        hz: 110_000_000,
        opendrain: 0x00,
        mux: 0x02,
        filter: 0x24,
    },
    FreqRange {
        hz: 120_000_000,
        opendrain: 0x00,
        mux: 0x02,
        filter: 0x24,
    },
    FreqRange {
        hz: 140_000_000,
        opendrain: 0x00,
        mux: 0x02,
        filter: 0x14,
    },
    FreqRange {
        hz: 180_000_000,
        opendrain: 0x00,
        mux: 0x02,
        filter: 0x13,
    },
    FreqRange {
        hz: 220_000_000,
        opendrain: 0x00,
        mux: 0x02,
        filter: 0x13,
    },
    FreqRange {
        hz: 250_000_000,
        opendrain: 0x00,
        mux: 0x02,
        filter: 0x11,
    },
    FreqRange {
        hz: 280_000_000,
        opendrain: 0x00,
        mux: 0x02,
        filter: 0x00,
    },
    FreqRange {
        hz: 310_000_000,
        opendrain: 0x00,
        mux: 0x41,
        filter: 0x00,
    },
    FreqRange {
        hz: 450_000_000,
        opendrain: 0x00,
        mux: 0x41,
        filter: 0x00,
    },
    FreqRange {
        hz: 588_000_000,
        opendrain: 0x00,
        mux: 0x40,
        filter: 0x00,
    },
    FreqRange {
        hz: 650_000_000,
        opendrain: 0x00,
        mux: 0x40,
        filter: 0x00,
    },
];

// The lists of registrations and offers, from the first number on.

// Rising; the eighth has four different bytes.
pub const LEVELS: [u32; 17] = [
    10, 256, 65_536, 1_000_000, 4_000_000, 8_000_000, 12_000_000, 16_909_060, 17_000_000,
    18_000_000, 19_000_000, 20_000_000, 21_000_000, 22_000_000, 23_000_000, 24_000_000, 25_000_000,
];

// Falling.
pub const PRICES: [u32; 10] = [
    39_000, 38_000, 37_000, 36_000, 35_000, 34_000, 33_000, 32_000, 31_000, 30_000,
];

// The first seven of LEVELS from the last down, then 0.
pub const FALLS: [u32; 10] = [
    12_000_000, 8_000_000, 4_000_000, 1_000_000, 65_536, 256, 10, 0, 0, 0,
];

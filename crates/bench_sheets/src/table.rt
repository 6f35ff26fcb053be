// The periods of the books that are searched.

use programs::{List, Range};

// Wide ranges that serve nine numbers in ten, most of them by a long period.
pub(crate) const WIDE: [Range; 8] = [Range {
    low: 500,
    high: 200_000,
}; 8];

// The first periods of the lists are primes whose product is above a million; the last is long.
pub(crate) const BESIDE_WIDE: [List; 8] = [
    List(&[2, 1009]),
    List(&[3, 1013]),
    List(&[5, 1019]),
    List(&[7, 29, 31, 37, 41, 43, 47, 1021]),
    List(&[11, 53, 59, 61, 67, 71, 73, 1031]),
    List(&[13, 79, 83, 89, 97, 101, 103, 1033]),
    List(&[17, 23, 1039]),
    List(&[19, 107, 109, 113, 127, 1049]),
];

// Wide ranges, each of which has a divisor of 969,969.
pub(crate) const LATE_RANGES: [Range; 10] = [
    Range {
        low: 213,
        high: 200_000,
    },
    Range {
        low: 486,
        high: 200_000,
    },
    Range {
        low: 471,
        high: 199_918,
    },
    Range {
        low: 480,
        high: 200_000,
    },
    Range {
        low: 497,
        high: 199_962,
    },
    Range {
        low: 504,
        high: 200_000,
    },
    Range {
        low: 464,
        high: 199_900,
    },
    Range {
        low: 479,
        high: 199_952,
    },
    Range {
        low: 442,
        high: 200_000,
    },
    Range {
        low: 521,
        high: 199_923,
    },
];

// 969,969 is 3 x 7 x 11 x 13 x 17 x 19.
pub(crate) const LATE_LISTS: [List; 6] = [
    List(&[17, 23, 257, 1039]),
    List(&[11, 53, 59, 61, 67, 71, 73, 1031]),
    List(&[3, 37, 59, 1013]),
    List(&[7, 29, 37, 41, 43, 47, 1021]),
    List(&[13, 79, 83, 89, 97, 101, 103, 1033]),
    List(&[19, 107, 109, 113, 127, 197, 1049]),
];

//! Sizes of a font: multiples of 2^-20 times the size at which it is used.
ghost use Rattle.std.specs.Prelude.{◌≡◌, ◌≤◌, ◌<◌, ◌^◌, ◌*◌, ◌/◌, ◌-◌, ◌-ℤ◌, pos, unsigned_abs};
ghost use Rattle.tx_tfm.specs.Scaling.{halvings, scaled};

use super::file::Word;

/// The number in a word, a multiple of 2^-20, times `size`, rounded as TeX does (TeX: The Program, section 572).
#[tactic(auto, unfolding(crate::specs::Scaling::scaled))]
pub fn scale(size: u32, word: Word) -> i64
    requires { size < 2 ^ 27 }
    ensures value { result ≡ scaled size word }
    ensures bound { unsigned_abs result < 2 ^ 31 }
{
    let halved = halve(size);
    let z = halved.size;
    let fraction = ((times(word.d, z) / 256 + times(word.c, z)) / 256 + times(word.b, z))
        / halved.beta;
    let below = if word.a == 0 { 0 } else { halved.alpha * z };
    difference(fraction, below)
}

/// A byte times a size that was halved.
fn times(byte: u8, size: u64) -> u64
    requires { size < 2 ^ 23 }
    ensures value { result ≡ byte * size }
    ensures bound { result ≤ 255 * (2 ^ 23 - 1) }
{
    u64::from(byte) * size
}

/// A size that was halved until it is below 2^23, 16 doubled as often, and 16 halved as often.
#[derive(Clone, Copy)]
struct Halved {
    size: u64,
    alpha: u64,
    beta: u64,
}

fn halve(size: u32) -> Halved
    requires { size < 2 ^ 27 }
    ensures size { result.size ≡ size / 2 ^ halvings size }
    ensures alpha { result.alpha ≡ 16 * 2 ^ halvings size }
    ensures beta { result.beta ≡ 16 / 2 ^ halvings size }
    ensures size_in { result.size < 2 ^ 23 }
    ensures alpha_in { result.alpha ≤ 256 }
    ensures some { 0 < result.beta }
{
    let size = u64::from(size);
    if size < 1 << 23 {
        Halved {
            size,
            alpha: 16,
            beta: 16,
        }
    } else if size < 1 << 24 {
        Halved {
            size: size / 2,
            alpha: 32,
            beta: 8,
        }
    } else if size < 1 << 25 {
        Halved {
            size: size / 4,
            alpha: 64,
            beta: 4,
        }
    } else if size < 1 << 26 {
        Halved {
            size: size / 8,
            alpha: 128,
            beta: 2,
        }
    } else {
        Halved {
            size: size / 16,
            alpha: 256,
            beta: 1,
        }
    }
}

fn difference(a: u64, b: u64) -> i64
    requires a_in { a < 2 ^ 31 }
    requires b_in { b < 2 ^ 31 }
    ensures value { result ≡ pos a -ℤ pos b }
    ensures bound { unsigned_abs result < 2 ^ 31 }
{
    a as i64 - b as i64
}

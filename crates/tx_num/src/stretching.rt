//! How badly glue is stretched or shrunk.
ghost use Rattle.std.specs.Prelude.{◌≡◌, ◌<◌, ◌≤◌, ◌^◌, ◌≤ℤ◌, pos};
ghost use Rattle.tx_num.specs.Badness.{badness_of, badness_of_ratio, ratio_of};

/// The badness of what can't be set at all.
const INFINITELY_BAD: u32 = 10_000;

/// The badness of glue that can move by `s` and has to move by `t`: about 100 (t/s)^3, and 10000 where that is past 8189
/// or nothing can move (TeX: The Program, section 108).
pub fn badness(t: i64, s: i64) -> u32
    requires { pos 0 ≤ℤ t }
    ensures value { result ≡ badness_of t s }
    ensures bound { result ≤ 10000 }
{
    badness_of_sums(i128::from(t), i128::from(s))
}

/// The same of sizes that are sums over a list of any length.
pub fn badness_of_sums(t: i128, s: i128) -> u32
    requires { pos 0 ≤ℤ t }
    ensures value { result ≡ badness_of t s }
    ensures bound { result ≤ 10000 }
{
    if t == 0 {
        return 0;
    }
    if s <= 0 {
        return INFINITELY_BAD;
    }
    badness_at(ratio(t.unsigned_abs(), s.unsigned_abs()))
}

/// How often `s` goes into `t`, times 297, whose cube is about 100 times 2^18.
fn ratio(t: u128, s: u128) -> u128
    requires { 0 < s }
    ensures { result ≡ ratio_of t s }
{
    if t <= 7_230_584 {
        297 * t / s
    } else if s >= 1_663_497 {
        t / (s / 297)
    } else {
        t
    }
}

fn badness_at(ratio: u128) -> u32
    ensures value { result ≡ badness_of_ratio ratio }
    ensures bound { result ≤ 10000 }
{
    if ratio > 1290 {
        return INFINITELY_BAD;
    }
    ((ratio * ratio * ratio + 131_072) / 262_144) as u32
}

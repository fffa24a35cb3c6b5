// Port of math/real.rs: square root, sine and cosine by whole numbers, and the methods of f64 that the filter uses. Not a number is made by `0.0 / 0.0`:
// `f64::NAN` was tried, and two proofs did not close.
ghost use Rattle.std.specs.Prelude.{◌≡◌, ◌+◌, ◌-◌, ◌*◌, ◌/◌, ◌%◌, ◌^◌, ◌<◌, ◌≤◌};
ghost use Rattle.drifters_real.specs.Real.{sqrt, sin_cos, difference, square, abs, max, clamp, is_finite};
ghost use Rattle.drifters_real.specs.Limbs.{IsWholeRoot, nearest_root, IsRootPattern, value, IsWide, AreSums, square_limit};

// A threshold for the branches at small angles.
pub const SMALL_ANGLE: f64 = 1.0e-10;

// Sine and cosine are for angles from 0 to this one.
const ANGLE_LIMIT: f64 = 8.0;

// 2^60: the units that an angle is cut to.
const UNITS: f64 = 1152921504606846976.0;

// 2^-54: the unit of the sums.
const SUM_UNIT: f64 = 5.551115123125783e-17;

// The largest r with r * r <= a, by Newton's iteration. `u64::isqrt`, which goes bit by bit, was tried: a square root took twice as long.
fn root27(a: u64) -> u64
    requires { (2 ^ 52 ≤ a) × (a < 2 ^ 54) }
    ensures { IsWholeRoot a result }
{
    let mut r = (0x800_0000 + (a >> 27)) / 2;
    while a < r * r {
        r = (r + a / r) / 2;
    }
    r
}

// The root of a * 2^52, to the nearest whole number: from the whole part s of a's root, 26 more
// binary digits by one division (Zimmermann's step). `root27` has the
// same `requires`, those of `assemble` and `root_bits` differ: a type for each range would be made here to be taken apart there.
fn rounded(a: u64) -> u64
    requires { (2 ^ 52 ≤ a) × (a < 2 ^ 54) }
    ensures { result ≡ nearest_root (a * 2 ^ 52) }
{
    let s = root27(a);
    let n = (a - s * s) * 0x400_0000;
    let d = 2 * s;
    let u = n / d;
    let v = (n % d) * 0x400_0000;
    let w = s * 0x400_0000 + u;
    let uu = u * u;
    if uu <= v {
        // the root's whole part is w, and v - uu is left
        if w < v - uu { w + 1 } else { w }
    } else {
        // it is w - 1, and v + 2 * w - 1 - uu is left
        if w <= v + 2 * w - 1 - uu { w } else { w - 1 }
    }
}

// The pattern of the root of a * 2^k, where 2^k counts squares of the smallest value.
fn assemble(a: u64, k: u64) -> u64
    requires { (2 ^ 52 ≤ a) × (a < 2 ^ 53) × (52 ≤ k) × (k ≤ 4096) }
    ensures { result ≡ (k - 52) / 2 * 2 ^ 52 + nearest_root ((1 + k % 2) * a * 2 ^ 52) }
{
    (k - 52) / 2 * 0x10_0000_0000_0000 + rounded((1 + k % 2) * a)
}

// The root of a finite number above 0, by the patterns.
fn root_bits(b: u64) -> u64
    requires { (0 < b) × (b < 0x7ff0_0000_0000_0000) }
    ensures { IsRootPattern b result }
{
    let x = b >> 52;
    let t = b % 0x10_0000_0000_0000;
    if x == 0 {
        let z = u64::leading_zeros(t) - 11;
        assemble(t << z, 1074 - z as u64)
    } else {
        assemble(0x10_0000_0000_0000 + t, x + 1073)
    }
}

// The square root: the nearest f64, ties to even. It is not f64's method: that promises the root by a definition of its own, and document 01 wants it
// shown by whole-number squares (docs/DECISIONS.md, 'Scalars').
pub fn sqrt(x: f64) -> f64
    ensures { result ≡ sqrt x }
{
    if x.is_nan() {
        return x;
    }
    // By the pattern from here on, which `root_bits` reads.
    let b = f64::to_bits(x);
    if b > 0x8000_0000_0000_0000 {
        return 0.0 / 0.0;
    }
    if b == 0x8000_0000_0000_0000 {
        return x;
    }
    if b == 0 {
        return x;
    }
    if b >= 0x7ff0_0000_0000_0000 {
        return x;
    }
    f64::from_bits(root_bits(b))
}

// The number h * 2^32 + l. That l is below 2^32 is no ghost field: the sums of `add_times` are not carried.
#[derive(Clone, Copy)]
struct Wide {
    h: u64,
    l: u64,
}

impl Wide {
    // The square of an angle of t units of 2^-60, in units of 2^-64.
    fn squared(t: u64) -> Wide
        requires { t ≤ 2 ^ 63 }
        ensures { IsWide result (square t) }
    {
        let t1 = t >> 32;
        let t0 = t % 0x1_0000_0000;
        let z0 = t0 * t0;
        let z1 = 2 * t1 * t0;
        let m = (z0 >> 32) + z1 % 0x1_0000_0000;
        let u = (m >> 32) + (z1 >> 32) + t1 * t1;
        Wide {
            h: u >> 24,
            l: u % 0x100_0000 * 256 + m % 0x1_0000_0000 / 0x100_0000,
        }
    }

    // The term after this one, for the angle's square x: the product of both, over 2^64 and d.
    fn next_term(self, x: Wide, d: u64) -> Wide
        requires { (self.h < 2 ^ 39) × (self.l < 2 ^ 32) × (x.h < 2 ^ 39) × (x.l < 2 ^ 32) × (0 < d) × (d ≤ 8192) }
        ensures { IsWide result (value self * value x / (2 ^ 64 * d)) }
    {
        let a2 = self.h >> 32;
        let a1 = self.h % 0x1_0000_0000;
        let a0 = self.l;
        let x2 = x.h >> 32;
        let x1 = x.h % 0x1_0000_0000;
        let x0 = x.l;
        let p0 = a0 * x0;
        let p1 = a0 * x1;
        let p2 = a1 * x0;
        let p3 = a1 * x1;
        let t = (p0 >> 32) + p1 % 0x1_0000_0000 + p2 % 0x1_0000_0000;
        let u = (t >> 32) + (p1 >> 32) + (p2 >> 32) + p3 % 0x1_0000_0000 + a2 * x0 + a0 * x2;
        let v = (u >> 32) + (p3 >> 32) + a2 * x1 + a1 * x2 + a2 * x2 * 0x1_0000_0000;
        Wide {
            h: v / d,
            l: (v % d * 0x1_0000_0000 + u % 0x1_0000_0000) / d,
        }
    }

    // The number and k times w, part by part: the low part is not carried.
    fn add_times(self, k: u64, w: Wide) -> Wide
        requires { (self.h ≤ 2 ^ 48) × (self.l ≤ 2 ^ 48) × (k ≤ 64) × (w.h ≤ 2 ^ 38) × (w.l < 2 ^ 32) }
        ensures { (result.h ≡ self.h + k * w.h) × (result.l ≡ self.l + k * w.l) }
    {
        Wide {
            h: self.h + k * w.h,
            l: self.l + k * w.l,
        }
    }

    // The number over 1024, rounded down: from units of 2^-64 to units of 2^-54.
    fn over_1024(self) -> u64
        requires { (self.h < 3 * 2 ^ 40) × (self.l < 2 ^ 48) }
        ensures { result ≡ value self / 2 ^ 10 }
    {
        self.h * 0x40_0000 + self.l / 1024
    }
}

// The sums of the terms that are added and of those that are taken off, in units of 2^-54: sp and
// sn of the sine over the angle, cp and cn of the cosine.
#[derive(Clone, Copy)]
struct Sums {
    sp: u64,
    sn: u64,
    cp: u64,
    cn: u64,
}

// The sums for the angle's square x, in units of 2^-64. Each pass adds two terms, and the loop is
// left where nothing remains to add.
fn power_sums(x: Wide) -> Sums
    requires { (value x ≤ square_limit) × (x.l < 2 ^ 32) }
    ensures { AreSums (value x) result }
{
    let mut w = Wide {
        h: 0x1_0000_0000,
        l: 0,
    };
    let mut sp = Wide { h: 0, l: 0 };
    let mut sn = Wide { h: 0, l: 0 };
    let mut cp = Wide { h: 0, l: 0 };
    let mut cn = Wide { h: 0, l: 0 };
    for i in 0..16u64 {
        if w.h + w.l == 0 {
            break;
        }
        let k = 4 * i;
        let v = w.next_term(x, (k + 2) * (k + 3));
        sp = sp.add_times(1, w);
        cp = cp.add_times(k + 1, w);
        sn = sn.add_times(1, v);
        cn = cn.add_times(k + 3, v);
        w = v.next_term(x, (k + 4) * (k + 5));
    }
    Sums {
        sp: sp.over_1024(),
        sn: sn.over_1024(),
        cp: cp.over_1024(),
        cn: cn.over_1024(),
    }
}

// The f64 nearest to p - n units of 2^-54.
fn difference(p: u64, n: u64) -> f64
    ensures { result ≡ difference p n }
{
    if n <= p {
        std::num::nearest_u64_to_f64(p - n) * SUM_UNIT
    } else {
        -(std::num::nearest_u64_to_f64(n - p) * SUM_UNIT)
    }
}

// A sine and a cosine: the pair that the Rust returns.
#[derive(Clone, Copy)]
pub struct SinCos {
    pub sin: f64,
    pub cos: f64,
}

// The sine and the cosine of an angle from 0 to ANGLE_LIMIT; of anything else not a number. f64's method says nothing of what it gives; document 01
// wants bits that a definition fixes, and bounds on both.
pub fn sin_cos(theta: f64) -> SinCos
    ensures { result ≡ sin_cos theta }
{
    if theta >= 0.0 {
        if theta <= ANGLE_LIMIT {
            let t = std::num::truncating_f64_to_u64(theta * UNITS);
            let s = power_sums(Wide::squared(t));
            return SinCos {
                sin: theta * difference(s.sp, s.sn),
                cos: difference(s.cp, s.cn),
            };
        }
    }
    SinCos {
        sin: 0.0 / 0.0,
        cos: 0.0 / 0.0,
    }
}

// The absolute value: the sign cleared, of -0 too. A helper that document 01 names.
pub fn abs(x: f64) -> f64
    ensures { result ≡ abs x }
{
    x.abs()
}

// The larger; where one is not a number, the other. f64's method says of 0 and -0 only that it gives one of the two; this one gives `a`.
#[tactic(auto, unfolding(crate::specs::Real::max))]
pub fn max(a: f64, b: f64) -> f64
    ensures { result ≡ max a b }
{
    if a < b {
        b
    } else if a.is_nan() {
        b
    } else {
        a
    }
}

// x brought to low..high; what is not a number stays. f64's method asks that low <= high; this one asks nothing.
pub fn clamp(x: f64, low: f64, high: f64) -> f64
    ensures { result ≡ clamp x low high }
{
    let y = if x < low { low } else { x };
    if high < y { high } else { y }
}

// Neither an infinity nor not a number. Its definition is ours, which the demands are stated by, and stands for f64's.
pub fn is_finite(x: f64) -> bool
    ensures { result ≡ is_finite x }
{
    x.is_finite()
}

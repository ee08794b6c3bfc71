// The angle of a complex number (`atan2_fast` of the Rust), for the frequency of every sample of a frame: a polynomial of the smaller
// magnitude over the larger, folded back by the octant. The slicer needs it to about 1e-2.
ghost use Rattle.std.specs.Prelude.{◌≡◌};
ghost use Rattle.arith.specs.Angle.{octant, fold, atan2_of};

use crate::abs;
use std::f32::consts::{FRAC_PI_2, PI};

// The arc tangent of a from 0 to 1, to about 1e-5. The Rust gives its coefficients no names.
fn octant_of(a: f32) -> f32
    ensures { result ≡ octant a }
{
    let s = a * a;
    a * (0.999_977_26
        + s * (-0.332_623_47
            + s * (0.193_543_46 + s * (-0.116_432_87 + s * (0.052_653_32 - s * 0.011_721_2)))))
}

// whole less r where b holds, and else r.
fn fold(b: bool, whole: f32, r: f32) -> f32
    ensures { result ≡ fold b whole r }
{
    if b { whole - r } else { r }
}

// atan2(y, x): 0 for two zeros, and a NaN where one is a NaN.
pub fn atan2_fast(y: f32, x: f32) -> f32
    ensures { result ≡ atan2_of y x }
{
    let ax = abs(x);
    let ay = abs(y);
    let steep = ax < ay;
    let (large, small) = if steep { (ay, ax) } else { (ax, ay) };
    if large == 0.0 {
        return 0.0;
    }
    let r = fold(steep, FRAC_PI_2, octant_of(small / large));
    let r = fold(x < 0.0, PI, r);
    if y < 0.0 { -r } else { r }
}

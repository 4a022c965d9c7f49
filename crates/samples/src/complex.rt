// Complex numbers of 16 bits a part, as pairs of real and imaginary part.
ghost use Rattle.std.specs.Prelude.{◌≡◌, ◌^◌, ◌*ℤ◌};
ghost use Rattle.samples.specs.Bounds.{Between};
ghost use Rattle.samples.specs.Complex.{times};

// One of the four products of two complex numbers' parts.
fn part_product(a: i16, b: i16) -> i64
    ensures value { result ≡ a *ℤ b }
    ensures within { Between (2 ^ 30) result }
{
    i64::from(a) * i64::from(b)
}

/// The whole product, before any division.
pub fn product(z: (i16, i16), w: (i16, i16)) -> (i64, i64)
    ensures value { result ≡ times z w }
    ensures re_within { Between (2 ^ 31) result.0 }
    ensures im_within { Between (2 ^ 31) result.1 }
{
    (
        part_product(z.0, w.0) - part_product(z.1, w.1),
        part_product(z.0, w.1) + part_product(z.1, w.0),
    )
}

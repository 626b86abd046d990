// Points: three floats by value, with the vector operations of the Rust's r3/vector.rs and the chord
// angle between two of them; a float's size and its bit pattern. Every operation is the Rust's, in its
// order, rounded once. Nothing is required of a float anywhere: NaNs, infinities and subnormals have
// the answer that the Rust has.
#![tactic(auto)]

ghost use Rattle.std.specs.Prelude.{◌≡◌};
ghost use Rattle.std.specs.Float.{binary64};
ghost use Rattle.std.specs.Float.Ieee.{of_bits, to_bits};
ghost use Rattle.point.specs.Floats.{abs_of};
ghost use Rattle.point.specs.Vector.{sub_of, mul_of, dot_of, cross_of, norm2_of, norm_of, normalize_of, is_unit};
ghost use Rattle.point.specs.ChordAngle.{chord_angle, sin2_of};

#[repr(C)]
#[derive(Clone, Copy)]
pub struct Point {
    pub x: f64,
    pub y: f64,
    pub z: f64,
}

// The chord angles of less than a point, a quarter turn and a half turn.
pub const NEGATIVE: f64 = -1.0;

pub const RIGHT: f64 = 2.0;

pub const STRAIGHT: f64 = 4.0;

// The float without its sign, by std's method; a NaN stays one. The laws of its three ways by signs are named too, so that a body by them is refused where it is wrong
// and nowhere else.
#[tactic(auto, using(crate::proofs::Laws::one_abs, crate::proofs::Laws::abs_below, crate::proofs::Laws::abs_zero, crate::proofs::Laws::abs_above))]
pub fn abs(x: f64) -> f64
    ensures { result ≡ abs_of x }
{
    x.abs()
}

// The float of a bit pattern. Every pattern of a NaN gives a NaN.
pub fn float_of_bits(b: u64) -> f64
    ensures { result ≡ of_bits binary64 b }
{
    if b % 0x8000_0000_0000_0000 > 0x7ff0_0000_0000_0000 {
        f64::NAN
    } else {
        f64::from_bits(b)
    }
}

// The bit pattern of a float, 0x7ff8000000000000 for a NaN.
pub fn bits_of_float(x: f64) -> u64
    ensures { result ≡ to_bits binary64 x }
{
    if x.is_nan() {
        0x7ff8_0000_0000_0000
    } else {
        x.to_bits()
    }
}

impl Point {
    #[tactic(auto, unfolding(crate::specs::Vector::sub_of))]
    fn sub(self, b: Point) -> Point
        ensures { result ≡ sub_of self b }
    {
        Point {
            x: self.x - b.x,
            y: self.y - b.y,
            z: self.z - b.z,
        }
    }

    // The vector times a number.
    #[tactic(auto, unfolding(crate::specs::Vector::mul_of))]
    pub fn mul(self, m: f64) -> Point
        ensures { result ≡ mul_of self m }
    {
        Point {
            x: self.x * m,
            y: self.y * m,
            z: self.z * m,
        }
    }

    // The scalar product.
    #[tactic(auto, unfolding(crate::specs::Vector::dot_of))]
    pub fn dot(self, b: Point) -> f64
        ensures { result ≡ dot_of self b }
    {
        self.x * b.x + self.y * b.y + self.z * b.z
    }

    // The vector product.
    #[tactic(auto, unfolding(crate::specs::Vector::cross_of))]
    pub fn cross(self, b: Point) -> Point
        ensures { result ≡ cross_of self b }
    {
        Point {
            x: self.y * b.z - self.z * b.y,
            y: self.z * b.x - self.x * b.z,
            z: self.x * b.y - self.y * b.x,
        }
    }

    // The square of the vector's length.
    #[tactic(auto, unfolding(crate::specs::Vector::norm2_of))]
    pub fn norm2(self) -> f64
        ensures { result ≡ norm2_of self }
    {
        self.dot(self)
    }

    // The vector's length, by the software root: one root.
    #[tactic(auto, unfolding(crate::specs::Vector::norm_of))]
    fn norm(self) -> f64
        ensures { result ≡ norm_of self }
    {
        root::root(self.norm2())
    }

    // The vector at unit length; the zero vector as it is. One root and one division.
    #[tactic(auto, unfolding(crate::specs::Vector::normalize_of, crate::specs::Vector::is_zero))]
    pub fn normalize(self) -> Point
        ensures { result ≡ normalize_of self }
    {
        if self.x == 0.0 && self.y == 0.0 && self.z == 0.0 {
            self
        } else {
            self.mul(1.0 / self.norm())
        }
    }

    // Whether the vector has about unit length.
    #[tactic(auto, unfolding(crate::specs::Vector::is_unit))]
    pub fn is_unit(self) -> bool
        ensures { result ≡ is_unit self }
    {
        abs(self.norm2() - 1.0) < 5e-14
    }

    // The chord angle between two points, at most 4; 4 where the distance is no number. Not by std's `min`, which leaves open which of two equal floats it is.
    #[tactic(auto, unfolding(crate::specs::ChordAngle::chord_angle, crate::specs::ChordAngle::at_most4))]
    pub fn chordangle(self, b: Point) -> f64
        ensures { result ≡ chord_angle self b }
    {
        let d = self.sub(b).norm2();
        if d < 4.0 { d } else { 4.0 }
    }
}

// The square of a chord angle's sine.
#[tactic(auto, unfolding(crate::specs::ChordAngle::sin2_of))]
pub fn sin2(length2: f64) -> f64
    ensures { result ≡ sin2_of length2 }
{
    length2 * (1.0 - 0.25 * length2)
}

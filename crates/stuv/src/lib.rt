// The cube's faces, and the coordinates on them: (s, t) in 0 to 1, in which the cells are squares, and
// (u, v) in -1 to 1, in which a face is a plane. Every operation is the Rust's s2/stuv.rs, in its order,
// rounded once; floats may be anything, a face over 5 is barred.
#![tactic(auto)]

ghost use Rattle.std.specs.Prelude.{◌≡◌, cond, ◌+◌, ◌<◌};
ghost use Rattle.std.specs.Float.Ieee.{lt};
ghost use Rattle.point.specs.Floats.{zero_f};
ghost use Rattle.stuv.specs.Projection.{st_to_uv, uv_to_st, face_toward, uv_at, xyz_to_face_uv, face_uv_to_xyz, behind, face_xyz_to_uv, u_norm, v_norm};

use point::Point;

// A place on a face.
#[derive(Clone, Copy)]
pub struct Uv {
    pub u: f64,
    pub v: f64,
}

// A face and a place on it. A face is a number, 0 to 5: it is that of an id's top three bits. What takes one asks for
// that, here and above: the definitions have a row for any number.
#[derive(Clone, Copy)]
pub struct FaceUv {
    pub face: u64,
    pub uv: Uv,
}

// From (s, t) to (u, v): the quadratic map.
#[tactic(auto, unfolding(crate::specs::Projection::st_to_uv))]
pub fn st_to_uv(s: f64) -> f64
    ensures { result ≡ st_to_uv s }
{
    if s >= 0.5 {
        (1.0 / 3.0) * (4.0 * s * s - 1.0)
    } else {
        (1.0 / 3.0) * (1.0 - 4.0 * (1.0 - s) * (1.0 - s))
    }
}

// The way back: one root.
#[tactic(auto, unfolding(crate::specs::Projection::uv_to_st))]
pub fn uv_to_st(u: f64) -> f64
    ensures { result ≡ uv_to_st u }
{
    if u >= 0.0 {
        0.5 * root::root(1.0 + 3.0 * u)
    } else {
        1.0 - 0.5 * root::root(1.0 - 3.0 * u)
    }
}

// The face that a vector points to, 0 to 5; of components of one size the first decides, and a NaN is
// larger than none and smaller than none.
fn face(r: Point) -> u64
    ensures { result ≡ face_toward r }
{
    let x = point::abs(r.x);
    let y = point::abs(r.y);
    let z = point::abs(r.z);
    if y > x {
        if z > y {
            signed(2, r.z)
        } else {
            signed(1, r.y)
        }
    } else if z > x {
        signed(2, r.z)
    } else {
        signed(0, r.x)
    }
}

// The face of an axis, by the sign of the component along it.
fn signed(axis: u64, value: f64) -> u64
    requires { axis < 3 }
    ensures { result ≡ cond (lt value zero_f) (axis + 3) axis }
{
    if value < 0.0 { axis + 3 } else { axis }
}

// Where the line through r meets the face's plane: two divisions.
#[tactic(auto, unfolding(crate::specs::Projection::uv_at))]
fn valid_face_xyz_to_uv(face: u64, r: Point) -> Uv
    requires { face < 6 }
    ensures { result ≡ uv_at face r }
{
    match face {
        0 => Uv {
            u: r.y / r.x,
            v: r.z / r.x,
        },
        1 => Uv {
            u: -r.x / r.y,
            v: r.z / r.y,
        },
        2 => Uv {
            u: -r.x / r.z,
            v: -r.y / r.z,
        },
        3 => Uv {
            u: r.z / r.x,
            v: r.y / r.x,
        },
        4 => Uv {
            u: r.z / r.y,
            v: -r.x / r.y,
        },
        _ => Uv {
            u: -r.y / r.z,
            v: -r.x / r.z,
        },
    }
}

// The face that a vector points to, and the place there.
pub fn xyz_to_face_uv(r: Point) -> FaceUv
    ensures { result ≡ xyz_to_face_uv r }
{
    let face = face(r);
    let uv = valid_face_xyz_to_uv(face, r);
    FaceUv { face, uv }
}

// The vector, not of unit length, that meets the face there.
#[tactic(auto, unfolding(crate::specs::Projection::face_uv_to_xyz))]
pub fn face_uv_to_xyz(face: u64, u: f64, v: f64) -> Point
    requires { face < 6 }
    ensures { result ≡ face_uv_to_xyz face u v }
{
    match face {
        0 => Point { x: 1.0, y: u, z: v },
        1 => Point {
            x: -u,
            y: 1.0,
            z: v,
        },
        2 => Point {
            x: -u,
            y: -v,
            z: 1.0,
        },
        3 => Point {
            x: -1.0,
            y: -v,
            z: -u,
        },
        4 => Point {
            x: v,
            y: -1.0,
            z: -u,
        },
        _ => Point {
            x: v,
            y: u,
            z: -1.0,
        },
    }
}

#[tactic(auto, unfolding(crate::specs::Projection::behind))]
fn is_behind(face: u64, p: Point) -> bool
    requires { face < 6 }
    ensures { result ≡ behind face p }
{
    match face {
        0 => p.x <= 0.0,
        1 => p.y <= 0.0,
        2 => p.z <= 0.0,
        3 => p.x >= 0.0,
        4 => p.y >= 0.0,
        _ => p.z >= 0.0,
    }
}

// Where p meets the face, if it is on the face's side.
#[tactic(auto, unfolding(crate::specs::Projection::face_xyz_to_uv))]
pub fn face_xyz_to_uv(face: u64, p: Point) -> Option<Uv>
    requires { face < 6 }
    ensures { result ≡ face_xyz_to_uv face p }
{
    if is_behind(face, p) {
        None
    } else {
        Some(valid_face_xyz_to_uv(face, p))
    }
}

// The normal, not of unit length, of the plane through the origin and the face's line of a constant u.
#[tactic(auto, unfolding(crate::specs::Projection::u_norm))]
pub fn unorm(face: u64, u: f64) -> Point
    requires { face < 6 }
    ensures { result ≡ u_norm face u }
{
    match face {
        0 => Point {
            x: u,
            y: -1.0,
            z: 0.0,
        },
        1 => Point {
            x: 1.0,
            y: u,
            z: 0.0,
        },
        2 => Point {
            x: 1.0,
            y: 0.0,
            z: u,
        },
        3 => Point {
            x: -u,
            y: 0.0,
            z: 1.0,
        },
        4 => Point {
            x: 0.0,
            y: -u,
            z: 1.0,
        },
        _ => Point {
            x: 0.0,
            y: -1.0,
            z: -u,
        },
    }
}

// The same for a constant v. A row of its own: the faces take other axes, and other signs, for v than for u.
#[tactic(auto, unfolding(crate::specs::Projection::v_norm))]
pub fn vnorm(face: u64, v: f64) -> Point
    requires { face < 6 }
    ensures { result ≡ v_norm face v }
{
    match face {
        0 => Point {
            x: -v,
            y: 0.0,
            z: 1.0,
        },
        1 => Point {
            x: 0.0,
            y: -v,
            z: 1.0,
        },
        2 => Point {
            x: 0.0,
            y: -1.0,
            z: -v,
        },
        3 => Point {
            x: v,
            y: -1.0,
            z: 0.0,
        },
        4 => Point {
            x: 1.0,
            y: v,
            z: 0.0,
        },
        _ => Point {
            x: 1.0,
            y: 0.0,
            z: v,
        },
    }
}

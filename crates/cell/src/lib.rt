// Cells as pieces of the sphere: the Rust's cell.rs, as far as the coverer reaches it. A cell is its face
// and its bounds in (u, v), made from an id once; a corner costs one root and one division and can be had
// by itself, the normals of the edges cost as much for each line. The four children of a cell have six
// lines and nine corners between them. Every corner and every normal is the Rust's, bit for bit.
#![tactic(auto)]

ghost use Rattle.std.specs.Prelude.{◌≡◌, ◌^◌, ◌≤◌, ◌<◌};
ghost use Rattle.std.specs.Float.Ieee.{neg};
ghost use Rattle.cellid.specs.CellId as CellId;
ghost use Rattle.point.specs.Floats.{one_f};
ghost use Rattle.point.specs.Vector.{mul_of, normalize_of};
ghost use Rattle.stuv.specs.Projection.{u_norm, v_norm};
ghost use Rattle.cell.specs.Cell.{ij_to_st_min, line_at, span_at, bound_uv, cell_of, unit_at, vertex_at, edge_at, expanded_of, in_interval, center_of, holds_point, max_of, add_point, cap_bound};
ghost use Rattle.cell.specs.Siblings.{lines_at, quarters_of, half_of, cell_between, quarter_at, shared_corner, corners_of, scale_of, scales_of, scaled_of, cell_scales};

use point::Point;

// A closed interval of floats; empty where lo is above hi.
#[derive(Clone, Copy)]
pub struct Interval {
    pub lo: f64,
    pub hi: f64,
}

impl Interval {
    // The interval with the margin on both sides; an empty one as it is.
    #[tactic(auto, unfolding(crate::specs::Cell::expanded_of))]
    fn expanded(self) -> Interval
        ensures { result ≡ expanded_of self }
    {
        if self.lo > self.hi {
            self
        } else {
            Interval {
                lo: self.lo - DBL_EPSILON,
                hi: self.hi + DBL_EPSILON,
            }
        }
    }

    #[tactic(auto, unfolding(crate::specs::Cell::in_interval))]
    fn contains(self, p: f64) -> bool
        ensures { result ≡ in_interval self p }
    {
        self.lo <= p && p <= self.hi
    }

    fn center(self) -> f64
        ensures { result ≡ center_of self }
    {
        0.5 * (self.lo + self.hi)
    }
}

// An interval in u and one in v.
#[derive(Clone, Copy)]
pub struct Rect {
    pub x: Interval,
    pub y: Interval,
}

// A cell is its face and its bounds. That a face is one of six, and a place one of a face's, is asked where it matters and not held by the types: the
// definitions make a cell of any number.
#[derive(Clone, Copy)]
pub struct Cell {
    pub face: u64,
    pub uv: Rect,
}

// A centre, and the square of the chord from it to the edge; a negative radius means empty.
#[repr(C)]
#[derive(Clone, Copy)]
pub struct Cap {
    pub center: Point,
    pub radius: f64,
}

const DBL_EPSILON: f64 = 2.220446049250313e-16;

// The larger of two floats; of a number and a NaN, the number. Not std's `max`, which leaves open which of two equal floats it is.
#[tactic(auto, unfolding(crate::specs::Cell::max_of))]
fn max(a: f64, b: f64) -> f64
    ensures { result ≡ max_of a b }
{
    if a != a || a < b { b } else { a }
}

impl Cap {
    // The cap grown to reach p; an empty one becomes the point.
    #[tactic(auto, unfolding(crate::specs::Cell::add_point))]
    fn add_point(self, p: Point) -> Cap
        ensures { result ≡ add_point self p }
    {
        if self.radius < 0.0 {
            Cap {
                center: p,
                radius: 0.0,
            }
        } else {
            Cap {
                center: self.center,
                radius: max(self.center.chordangle(p), self.radius),
            }
        }
    }
}

// A line of the leaves' grid in (s, t). A signed number becomes a float in one instruction, an unsigned one in six.
fn ij_to_stmin(i: u64) -> f64
    requires { i ≤ 2 ^ 30 }
    ensures { result ≡ ij_to_st_min i }
{
    (i as i32) as f64 / 1073741824.0
}

// A line of the leaves' grid in (u, v).
#[tactic(auto, unfolding(crate::specs::Cell::line_at))]
fn line_at(i: u64) -> f64
    requires { i ≤ 2 ^ 30 }
    ensures { result ≡ line_at i }
{
    stuv::st_to_uv(ij_to_stmin(i))
}

// The lines between which the cell of a level lies that has the leaf i in it.
fn span_at(i: u64, level: u64) -> Interval
    requires { (i < 2 ^ 30) × (level ≤ 30) }
    ensures { result ≡ span_at i level }
{
    let shift = 30 - level;
    let first = (i >> shift) << shift;
    Interval {
        lo: line_at(first),
        hi: line_at(first + (1 << shift)),
    }
}

// The bounds of the cell at a level that has the leaf at i, j in it.
#[tactic(auto, unfolding(crate::specs::Cell::bound_uv))]
fn ij_level_to_bound_uv(i: u64, j: u64, level: u64) -> Rect
    requires { (i < 2 ^ 30) × (j < 2 ^ 30) × (level ≤ 30) }
    ensures { result ≡ bound_uv i j level }
{
    let x = span_at(i, level);
    let y = span_at(j, level);
    Rect { x, y }
}

// The cell of a valid id: thirty turns of the curve, and no root.
pub fn from_id(id: u64) -> Cell
    requires { CellId.Cell id }
    ensures { result ≡ cell_of id }
{
    let f = hilbert::face_ij_orientation(id);
    let level = cellid::level(id);
    let uv = ij_level_to_bound_uv(f.i, f.j, level);
    Cell { face: f.face, uv }
}

// The unit vector to a place of a face: one root, one division.
#[tactic(auto, unfolding(crate::specs::Cell::unit_at))]
fn unit_at(face: u64, u: f64, v: f64) -> Point
    requires { face < 6 }
    ensures { result ≡ unit_at face u v }
{
    stuv::face_uv_to_xyz(face, u, v).normalize()
}

// What brings the normals of a line to unit length: one root, one division.
#[tactic(auto, unfolding(crate::specs::Siblings::scale_of))]
fn scale(w: f64) -> f64
    ensures { result ≡ scale_of w }
{
    1.0 / root::root(1.0 + w * w)
}

impl Cell {
    // The k-th corner, 0 to 3: lower left, lower right, upper right, upper left in (u, v).
    #[tactic(auto, unfolding(crate::specs::Cell::vertex_at))]
    pub fn vertex(self, k: u64) -> Point
        requires { (self.face < 6) × (k < 4) }
        ensures { result ≡ vertex_at self k }
    {
        match k {
            0 => unit_at(self.face, self.uv.x.lo, self.uv.y.lo),
            1 => unit_at(self.face, self.uv.x.hi, self.uv.y.lo),
            2 => unit_at(self.face, self.uv.x.hi, self.uv.y.hi),
            _ => unit_at(self.face, self.uv.x.lo, self.uv.y.hi),
        }
    }

    // Whether the cell, its bounds widened by DBL_EPSILON, has the point in it: two divisions, no root.
    #[tactic(auto, unfolding(crate::specs::Cell::holds_point, crate::specs::Cell::on_side))]
    pub fn contains_point(self, p: Point) -> bool
        requires { self.face < 6 }
        ensures { result ≡ holds_point self p }
    {
        match stuv::face_xyz_to_uv(self.face, p) {
            Some(q) => self.uv.x.expanded().contains(q.u) && self.uv.y.expanded().contains(q.v),
            None => false,
        }
    }

    // The cap around a cell: five roots, five divisions.
    #[tactic(auto, unfolding(crate::specs::Cell::cap_bound, crate::specs::Cell::middle_of))]
    pub fn cap_bound(self) -> Cap
        requires { self.face < 6 }
        ensures { result ≡ cap_bound self }
    {
        let cap = Cap {
            center: unit_at(self.face, self.uv.x.center(), self.uv.y.center()),
            radius: 0.0,
        };
        let a = cap.add_point(self.vertex(0));
        let b = a.add_point(self.vertex(1));
        let d = b.add_point(self.vertex(2));
        d.add_point(self.vertex(3))
    }

    // The scales of a cell's four lines.
    #[tactic(auto, unfolding(crate::specs::Siblings::cell_scales))]
    pub fn scales(self) -> Rect
        ensures { result ≡ cell_scales self }
    {
        let x = Interval {
            lo: scale(self.uv.x.lo),
            hi: scale(self.uv.x.hi),
        };
        let y = Interval {
            lo: scale(self.uv.y.lo),
            hi: scale(self.uv.y.hi),
        };
        Rect { x, y }
    }

    // The k-th edge's inward normal, at unit length, where the scales of the cell's lines are known: no root, no division.
    pub fn edge(self, m: Rect, k: u64) -> Point
        requires { (self.face < 6) × (k < 4) × (m ≡ cell_scales self) }
        ensures { result ≡ edge_at self k }
    {
        match k {
            0 => stuv::vnorm(self.face, self.uv.y.lo).mul(m.y.lo),
            1 => stuv::unorm(self.face, self.uv.x.hi).mul(m.x.hi),
            2 => stuv::vnorm(self.face, self.uv.y.hi).mul(-1.0).mul(m.y.hi),
            _ => stuv::unorm(self.face, self.uv.x.lo).mul(-1.0).mul(m.x.lo),
        }
    }
}

// Three lines of u, or of v: the first, the middle and the last of a cell. They are named, not counted: each half and each corner takes its own.
#[derive(Clone, Copy)]
pub struct Lines {
    pub a: f64,
    pub b: f64,
    pub c: f64,
}

impl Lines {
    #[tactic(auto, unfolding(crate::specs::Siblings::half_of))]
    fn lower(self) -> Interval
        ensures { result ≡ half_of self 0 }
    {
        Interval {
            lo: self.a,
            hi: self.b,
        }
    }

    #[tactic(auto, unfolding(crate::specs::Siblings::half_of))]
    fn upper(self) -> Interval
        ensures { result ≡ half_of self 1 }
    {
        Interval {
            lo: self.b,
            hi: self.c,
        }
    }

    #[tactic(auto, unfolding(crate::specs::Siblings::scales_of))]
    fn scales(self) -> Lines
        ensures { result ≡ scales_of self }
    {
        Lines {
            a: scale(self.a),
            b: scale(self.b),
            c: scale(self.c),
        }
    }
}

// The lines between which the four children of a cell lie, and the order in which the curve passes them.
#[derive(Clone, Copy)]
pub struct Quarters {
    pub face: u64,
    pub orientation: u64,
    pub x: Lines,
    pub y: Lines,
}

fn lines_at(i: u64, level: u64) -> Lines
    requires { (i < 2 ^ 30) × (level < 30) }
    ensures { result ≡ lines_at i level }
{
    let half = 29 - level;
    let shift = 30 - level;
    let first = (i >> shift) << shift;
    Lines {
        a: line_at(first),
        b: line_at(first + (1 << half)),
        c: line_at(first + (1 << shift)),
    }
}

// The lines of a valid id that is no leaf: thirty turns of the curve for all four children, and no root.
pub fn quarters_of(id: u64) -> Quarters
    requires { CellId.Cell id × (CellId.level_of id < 30) }
    ensures { result ≡ quarters_of id }
{
    let f = hilbert::face_ij_orientation(id);
    let level = cellid::level(id);
    let x = lines_at(f.i, level);
    let y = lines_at(f.j, level);
    Quarters {
        face: f.face,
        orientation: f.orientation,
        x,
        y,
    }
}

fn between(face: u64, x: Interval, y: Interval) -> Cell
    ensures { result ≡ cell_between face x y }
{
    let uv = Rect { x, y };
    Cell { face, uv }
}

impl Quarters {
    // The quarter 0 to 3, i's bit over j's.
    #[tactic(auto, unfolding(crate::specs::Siblings::quarter_at))]
    pub fn quarter(self, n: u64) -> Cell
        requires { n < 4 }
        ensures { result ≡ quarter_at self n }
    {
        match n {
            0 => between(self.face, self.x.lower(), self.y.lower()),
            1 => between(self.face, self.x.lower(), self.y.upper()),
            2 => between(self.face, self.x.upper(), self.y.lower()),
            _ => between(self.face, self.x.upper(), self.y.upper()),
        }
    }

    // The corner that all four children share.
    pub fn shared_corner(self) -> Point
        requires { self.face < 6 }
        ensures { result ≡ shared_corner self }
    {
        unit_at(self.face, self.x.b, self.y.b)
    }

    // The nine corners of the four children, the one on the i-th line of u and the j-th of v at 3 * i + j.
    #[tactic(auto, unfolding(crate::specs::Siblings::corners_of))]
    pub fn corners(self) -> [Point; 9]
        requires { self.face < 6 }
        ensures { result ≡ corners_of self }
    {
        [
            unit_at(self.face, self.x.a, self.y.a),
            unit_at(self.face, self.x.a, self.y.b),
            unit_at(self.face, self.x.a, self.y.c),
            unit_at(self.face, self.x.b, self.y.a),
            unit_at(self.face, self.x.b, self.y.b),
            unit_at(self.face, self.x.b, self.y.c),
            unit_at(self.face, self.x.c, self.y.a),
            unit_at(self.face, self.x.c, self.y.b),
            unit_at(self.face, self.x.c, self.y.c),
        ]
    }

    // The scales of six lines, in their places.
    #[tactic(auto, unfolding(crate::specs::Siblings::scaled_of))]
    pub fn scaled(self) -> Quarters
        ensures { result ≡ scaled_of self }
    {
        Quarters {
            x: self.x.scales(),
            y: self.y.scales(),
            ..self
        }
    }
}

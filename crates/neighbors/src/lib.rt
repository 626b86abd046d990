// From points to leaves, and from a cell to the three or four cells around its nearest corner. Every
// float operation is the Rust's s2/cellid.rs, in its order, rounded once. A leaf's coordinates on its
// face are 0 to 2^30 - 1; one that may lie one past the face is written one up, 0 to 2^30 + 1.
#![tactic(auto)]

ghost use Rattle.std.specs.Prelude.{◌≡◌, ◌+◌, ◌^◌, ◌<◌, ◌≤◌, true};
ghost use Rattle.std.specs.Float.{binary64};
ghost use Rattle.std.specs.Float.Ieee.{minus, of_int};
ghost use Rattle.cellid.specs.CellId.{Cell};
ghost use Rattle.neighbors.specs.Neighbors.{st_to_ij, leaf_of_point, middle_at, leaf_wrapped, leaf_beside, toward_of, vertex_neighbors, in_four, AtLevel};

use point::Point;

// The way to the cell beside: whether it is on the same face, and its coordinate, one up, which is read in either case.
#[derive(Clone, Copy)]
struct Toward {
    same: bool,
    at: u64,
}

// The cells around a corner, in the first `count` places, zeros after: there is no heap for three or four.
#[derive(Clone, Copy)]
pub struct Neighbors {
    pub ids: [u64; 4],
    pub count: usize,
}

#[tactic(auto, unfolding(crate::specs::Neighbors::st_to_ij))]
fn st_to_ij(s: f64) -> u64
    ensures { result ≡ st_to_ij s }
{
    std::num::saturating_f64_to_u64(1073741824.0 * s).min(1073741823)
}

// The leaf that a point lies in: a valid id whatever the floats are. Two roots, two divisions.
pub fn cellid_from_point(p: Point) -> u64
    ensures value { result ≡ leaf_of_point p }
    ensures leaf { AtLevel 30 result }
{
    let f = stuv::xyz_to_face_uv(p);
    let i = st_to_ij(stuv::uv_to_st(f.uv.u));
    let j = st_to_ij(stuv::uv_to_st(f.uv.v));
    hilbert::from_face_ij(f.face, i, j)
}

// k - 1 as a float.
fn coordinate(k: u64) -> f64
    requires { k ≤ 2 ^ 30 + 1 }
    ensures { result ≡ of_int binary64 (minus k 1) }
{
    (k as i64 - 1) as f64
}

// The middle of the leaf k - 1 along a face, from -1 to 1 and the next floats beyond.
#[tactic(auto, unfolding(crate::specs::Neighbors::middle_at, crate::specs::Neighbors::clamp_of))]
fn middle(k: u64) -> f64
    requires { k ≤ 2 ^ 30 + 1 }
    ensures { result ≡ middle_at k }
{
    (SCALE * (2.0 * coordinate(k) + 1.0 - 1073741824.0)).clamp(-LIMIT, LIMIT)
}

const SCALE: f64 = 9.313225746154785e-10;

const LIMIT: f64 = 1.0000000000000002;

// The leaf at i - 1, j - 1 of the face, on the face beside where that lies past the face.
fn from_face_ij_wrap(face: u64, i: u64, j: u64) -> u64
    requires face_bound { face < 6 }
    requires i_bound { i ≤ 2 ^ 30 + 1 }
    requires j_bound { j ≤ 2 ^ 30 + 1 }
    ensures { result ≡ leaf_wrapped face i j }
{
    let f = stuv::xyz_to_face_uv(stuv::face_uv_to_xyz(face, middle(i), middle(j)));
    hilbert::from_face_ij(
        f.face,
        st_to_ij(0.5 * (f.uv.u + 1.0)),
        st_to_ij(0.5 * (f.uv.v + 1.0)),
    )
}

fn from_face_ij_same(face: u64, i: u64, j: u64, same: bool) -> u64
    requires face_bound { face < 6 }
    requires reach { (i ≤ 2 ^ 30 + 1) × (j ≤ 2 ^ 30 + 1) }
    requires on_face { same ≡ true → (0 < i) × (i ≤ 2 ^ 30) × (0 < j) × (j ≤ 2 ^ 30) }
    ensures { result ≡ leaf_beside face i j same }
{
    if same {
        hilbert::from_face_ij(face, i - 1, j - 1)
    } else {
        from_face_ij_wrap(face, i, j)
    }
}

// From the coordinate i to the nearer of the cells beside its own, of twice 2^place leaves a side.
fn nearer(i: u64, place: u64) -> Toward
    requires i_bound { i < 2 ^ 30 }
    requires place_bound { place < 30 }
    ensures { result ≡ toward_of i (2 ^ place) }
{
    let half = 1 << place;
    let size = half << 1;
    if i & half != 0 {
        Toward {
            same: i + size < 1073741824,
            at: (i + size).min(1073741824) + 1,
        }
    } else {
        Toward {
            same: size <= i,
            at: (i + 1).saturating_sub(size),
        }
    }
}

// The cells of a level that meet at the corner next to the cell's middle, three or four, in the Rust's
// order: its own ancestor, those beside it along i and j, the one across. At most three leaves wrapped.
pub fn vertex_neighbors(id: u64, level: u64) -> Neighbors
    requires cell { Cell id }
    requires level_bound { level < 30 }
    ensures { result ≡ in_four (vertex_neighbors id level) }
{
    let f = hilbert::face_ij_orientation(id);
    let a = nearer(f.i, 29 - level);
    let b = nearer(f.j, 29 - level);
    let own = cellid::parent(id, level);
    let along_i = cellid::parent(from_face_ij_same(f.face, a.at, f.j + 1, a.same), level);
    let along_j = cellid::parent(from_face_ij_same(f.face, f.i + 1, b.at, b.same), level);
    if a.same | b.same {
        let across = cellid::parent(
            from_face_ij_same(f.face, a.at, b.at, a.same & b.same),
            level,
        );
        Neighbors {
            ids: [own, along_i, along_j, across],
            count: 4,
        }
    } else {
        Neighbors {
            ids: [own, along_i, along_j, 0],
            count: 3,
        }
    }
}

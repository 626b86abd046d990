// Caps: the Rust's cap.rs, as far as the coverer reaches it. A cap is a centre and the square of the chord to its edge, by value. One look tells whether a cell
// lies outside, crosses the rim or lies inside: it stops at the first corner that decides, computes no corner and no edge twice, and has the answer of the Rust
// bit for bit, whatever the floats are. The four children of a cell are looked at together.
#![tactic(auto)]

ghost use Rattle.std.specs.Prelude.{◌≡◌, true, not, ◌&&◌, IfSome, ℕ, ◌*◌, ◌/◌, ◌%◌, ◌^◌, ◌<◌, ◌≤◌, eqb, get_or};
ghost use Rattle.cellid.specs.CellId as CellId;
ghost use Rattle.cellid.specs.CellId.{one};
ghost use Rattle.cell.specs.Cell.{vertex_at, vertices_of};
ghost use Rattle.cell.specs.Siblings.{quarter_at, shared_corner, corners_of, scaled_of, cell_scales};
ghost use Rattle.sight.specs.Sight.{sight_of, sights_of};
ghost use Rattle.std.specs.Float.{nan};
ghost use Rattle.cap.specs.Bound.{thresholds, level_for, union_bound, in_six};
ghost use Rattle.cap.specs.Cap.{is_empty_cap, is_full_cap, cap_holds, cap_around, complement_of, edge_says, edges_say, touches, cap_intersects, cap_contains};
ghost use Rattle.cap.specs.Looks.{sight_in, other_side, can_reach, sight_past, asks_edges, quarter_sights, held_of, held_nine, square_at, held_at, turned};

use cell::{Cap, Cell, Quarters, Rect};
use point::Point;
use sight::{Sight, Sights};

// The cells of a bound, in the first `count` places, zeros after: there is no heap for three, four or six.
#[derive(Clone, Copy)]
pub struct Bound {
    pub ids: [u64; 6],
    pub count: usize,
}

// A negative radius means empty.
#[tactic(auto, unfolding(crate::specs::Cap::is_empty_cap))]
pub fn is_empty(c: Cap) -> bool
    ensures { result ≡ is_empty_cap c }
{
    c.radius < 0.0
}

// The half turn means full.
#[tactic(auto, unfolding(crate::specs::Cap::is_full_cap))]
pub fn is_full(c: Cap) -> bool
    ensures { result ≡ is_full_cap c }
{
    c.radius == point::STRAIGHT
}

// Whether the point is at most the radius away from the centre.
#[tactic(auto, unfolding(crate::specs::Cap::cap_holds))]
pub fn contains_point(c: Cap, p: Point) -> bool
    ensures { result ≡ cap_holds c p }
{
    c.center.chordangle(p) <= c.radius
}

// A cap around the x axis.
fn around(radius: f64) -> Cap
    ensures { result ≡ cap_around radius }
{
    let center = Point {
        x: 1.0,
        y: 0.0,
        z: 0.0,
    };
    Cap { center, radius }
}

// The other side of the sphere, with the cap's edge: full gives empty, and empty full.
#[tactic(auto, unfolding(crate::specs::Cap::complement_of))]
pub fn complement(c: Cap) -> Cap
    ensures { result ≡ complement_of c }
{
    if is_full(c) {
        around(point::NEGATIVE)
    } else if is_empty(c) {
        around(point::STRAIGHT)
    } else {
        Cap {
            center: c.center.mul(-1.0),
            radius: point::STRAIGHT - c.radius,
        }
    }
}

// What the edge with the inward normal `edge`, from a to b, says of a cap that has none of the corners: nothing, or the answer. No root, no division.
#[tactic(auto, unfolding(crate::specs::Cap::edge_says))]
fn edge_says(center: Point, sin2: f64, edge: Point, a: Point, b: Point) -> Option<bool>
    ensures { result ≡ edge_says center sin2 edge a b }
{
    let dot = center.dot(edge);
    if dot > 0.0 {
        None
    } else if dot * dot > sin2 * edge.norm2() {
        Some(false)
    } else {
        let dir = edge.cross(center);
        if dir.dot(a) < 0.0 && dir.dot(b) > 0.0 {
            Some(true)
        } else {
            None
        }
    }
}

// The four edges of a cell with these corners and these scales of its lines, in turn: no root, no division. Corners are there before it is known
// whether scales are asked for, so a cell, its scales and its corners go by themselves, here and below, and with them that the corners are the cell's.
fn edges_say(center: Point, sin2: f64, c: Cell, m: Rect, vertices: [Point; 4]) -> bool
    requires face_bound { (c.face < 6) × (m ≡ cell_scales c) }
    requires vertices_value { vertices ≡ vertices_of c }
    ensures { result ≡ edges_say center sin2 c 4 }
{
    for k in 0..4 {
        let edge = c.edge(m, k as u64);
        let says = edge_says(center, sin2, edge, vertices[k], vertices[(k + 1) % 4]);
        if let Some(reached) = says {
            return reached;
        }
    }
    false
}

// Whether a cap can have a point of a cell of whose corners it has none.
fn can_reach(cap: Cap) -> bool
    ensures { result ≡ can_reach cap }
{
    !(cap.radius >= point::RIGHT)
}

// Whether it has one, where it can: the centre lies in the cell, or an edge is crossed. Two divisions; the scales of the cell's lines, where m doesn't tell
// them, only for the edges.
#[tactic(auto, unfolding(crate::specs::Cap::touches))]
fn touches_by(cap: Cap, c: Cell, m: Option<Rect>, vertices: [Point; 4]) -> bool
    requires { (can_reach cap ≡ true) × (c.face < 6) × (vertices ≡ vertices_of c) × IfSome m (λ m. m ≡ cell_scales c) }
    ensures { result ≡ touches cap c }
{
    !is_empty(cap)
        && (c.contains_point(cap.center)
            || edges_say(
                cap.center,
                point::sin2(cap.radius),
                c,
                m.unwrap_or_else(move || c.scales()),
                vertices,
            ))
}

// What a cell is to a cap that has all of its corners, or none: crossing where the other side of the rim reaches into it.
fn sight_past(all: bool, reached: bool) -> Sight
    ensures { result ≡ sight_past all reached }
{
    if reached {
        Sight::Crossing
    } else if all {
        Sight::Inside
    } else {
        Sight::Outside
    }
}

// ---- one cell

// The side of the rim that has none of the corners.
fn other_side(cap: Cap, all: bool) -> Cap
    ensures { result ≡ other_side cap all }
{
    if all { complement(cap) } else { cap }
}

// What a cell is to a cap that has all of its corners, or none. `look_past` says the same where the scales are known: with one call of `touches_by` in all,
// the compiler would put it in there, and what only decides would be a call that copies corners.
fn look_edges(cap: Cap, c: Cell, vertices: [Point; 4], all: bool) -> Sight
    requires { (c.face < 6) × (vertices ≡ vertices_of c) }
    ensures { result ≡ sight_past all (touches (other_side cap all) c) }
{
    let other = other_side(cap, all);
    if can_reach(other) {
        sight_past(all, touches_by(other, c, None, vertices))
    } else {
        sight_past(all, false)
    }
}

// Past the first corner: one that doesn't lie where the first does, in the cap or not, decides, before the next is worked out; else the other side of the rim does.
fn look_corners(cap: Cap, c: Cell, a: Point, all: bool) -> Sight
    requires { (c.face < 6) × (a ≡ vertex_at c 0) × (all ≡ cap_holds cap a) }
    ensures { result ≡ sight_in cap true c }
{
    let b = c.vertex(1);
    if contains_point(cap, b) != all {
        return Sight::Crossing;
    }
    let d = c.vertex(2);
    if contains_point(cap, d) != all {
        return Sight::Crossing;
    }
    let e = c.vertex(3);
    if contains_point(cap, e) != all {
        return Sight::Crossing;
    }
    look_edges(cap, c, [a, b, d, e], all)
}

// What the cell of a valid id is to the cap; where `whole` is false only outside or not. At best one root and one division, at worst eight roots and ten divisions.
pub fn look_at(cap: Cap, id: u64, whole: bool) -> Sight
    requires { CellId.Cell id }
    ensures { result ≡ sight_of (cap_intersects cap) (cap_contains cap) whole id }
{
    let c = cell::from_id(id);
    let a = c.vertex(0);
    let all = contains_point(cap, a);
    if all && !whole {
        Sight::Crossing
    } else {
        look_corners(cap, c, a, all)
    }
}

// ---- the four children of a cell

// 1 for a point in the cap, 0 for another.
fn held(cap: Cap, p: Point) -> u64
    ensures { result ≡ one (cap_holds cap p) }
{
    contains_point(cap, p) as u64
}

// Which of the nine corners lie in the cap. Written out: nine in a row are one piece of machine code, packed in pairs (docs/SPEED.md).
#[tactic(auto, unfolding(crate::specs::Looks::held_nine))]
fn held_nine(cap: Cap, p: [Point; 9]) -> [u64; 9]
    ensures { result ≡ held_nine cap p }
{
    [
        held(cap, p[0]),
        held(cap, p[1]),
        held(cap, p[2]),
        held(cap, p[3]),
        held(cap, p[4]),
        held(cap, p[5]),
        held(cap, p[6]),
        held(cap, p[7]),
        held(cap, p[8]),
    ]
}

// The corners of the square whose lower left one is at `at` of the nine.
#[tactic(auto, unfolding(crate::specs::Looks::square_at))]
fn square(p: [Point; 9], at: usize) -> [Point; 4]
    requires { at ≤ 4 }
    ensures { result ≡ square_at p at }
{
    [p[at], p[at + 3], p[at + 4], p[at + 1]]
}

// How many of them lie in the cap, where h tells it of each of the nine.
fn held_square(h: [u64; 9], at: usize) -> u64
    requires { (at ≤ 4) × ((k : ℕ) → get_or h k 0 ≤ 1) }
    ensures { result ≡ held_at h at }
{
    h[at] + h[at + 3] + h[at + 4] + h[at + 1]
}

// Whether one of four counts of corners is zero.
fn some_zero(a: u64, b: u64, c: u64, d: u64) -> bool
    requires { (a ≤ 4) × (b ≤ 4) × (c ≤ 4) × (d ≤ 4) }
    ensures { result ≡ eqb (a * b * c * d) 0 }
{
    a * b * c * d == 0
}

// Whether some quarter's edges may be asked, of whose corners a, b, c and d lie in the cap: one that has none of them where the cap can reach into it, or all
// where the other side of the rim can. Four numbers and no array, here and below: each is handed to the look at its own quarter.
fn asks_edges(near: bool, beyond: bool, a: u64, b: u64, c: u64, d: u64) -> bool
    requires { (a ≤ 4) × (b ≤ 4) × (c ≤ 4) × (d ≤ 4) }
    ensures { result ≡ asks_edges near beyond a b c d }
{
    near && some_zero(a, b, c, d) || beyond && some_zero(4 - a, 4 - b, 4 - c, 4 - d)
}

// The scales of the six lines, if they may be asked for: six roots and six divisions.
fn scaled_if(asked: bool, q: Quarters) -> Quarters
    ensures { asked ≡ true → result ≡ scaled_of q }
{
    if asked { q.scaled() } else { q }
}

// What a quarter with all of its corners in the cap, or none, is to it, where `other` is the side of the rim that has none of them.
fn look_past(other: Cap, can: bool, c: Cell, m: Rect, vertices: [Point; 4], all: bool) -> Sight
    requires { (can ≡ can_reach other) × (c.face < 6) × (vertices ≡ vertices_of c) × (can ≡ true → m ≡ cell_scales c) }
    ensures { result ≡ sight_past all (touches other c) }
{
    if can {
        sight_past(all, touches_by(other, c, Some(m), vertices))
    } else {
        sight_past(all, false)
    }
}

// What a quarter is to the cap: some corners in and some out decide by themselves; only none or all take the edges.
fn look_quarter(
    cap: Cap,
    near: bool,
    beyond: bool,
    c: Cell,
    m: Rect,
    vertices: [Point; 4],
    held: u64,
) -> Sight
    requires near_value { (near ≡ can_reach cap) × (beyond ≡ can_reach (complement_of cap)) × (held ≡ held_of cap c) }
    requires face_bound { (c.face < 6) × (vertices ≡ vertices_of c) × (held ≡ 0 → near ≡ true → m ≡ cell_scales c) × (held ≡ 4 → beyond ≡ true → m ≡ cell_scales c) }
    ensures { result ≡ sight_in cap true c }
{
    match held {
        0 => look_past(cap, near, c, m, vertices, false),
        4 => look_past(complement(cap), beyond, c, m, vertices, true),
        _ => Sight::Crossing,
    }
}

// The four quarters, of whose corners a, b, c and d lie in the cap. What each takes is picked here, at known places: a call that took all of it would copy
// it, and a call that only decides is none in the machine code.
fn look_parts(cap: Cap, q: Quarters, p: [Point; 9], a: u64, b: u64, c: u64, d: u64) -> Sights
    requires face_bound { (q.face < 6) × (p ≡ corners_of q) }
    requires a_value { (a ≡ held_of cap (quarter_at q 0)) × (b ≡ held_of cap (quarter_at q 1)) × (c ≡ held_of cap (quarter_at q 2)) × (d ≡ held_of cap (quarter_at q 3)) }
    ensures { result ≡ quarter_sights cap true q }
{
    let near = can_reach(cap);
    let beyond = can_reach(complement(cap));
    let s = scaled_if(asks_edges(near, beyond, a, b, c, d), q);
    let k = s.quarter(0);
    let l = s.quarter(1);
    let m = s.quarter(2);
    let n = s.quarter(3);
    sight::four(
        look_quarter(cap, near, beyond, q.quarter(0), k.uv, square(p, 0), a),
        look_quarter(cap, near, beyond, q.quarter(1), l.uv, square(p, 1), b),
        look_quarter(cap, near, beyond, q.quarter(2), m.uv, square(p, 3), c),
        look_quarter(cap, near, beyond, q.quarter(3), n.uv, square(p, 4), d),
    )
}

// Whether the corner that all four quarters share says all that is asked. Where it doesn't it is worked out again, with the other eight: handed on it costs
// every look for all of a cell more than it saves here (docs/SPEED.md).
fn shared_is_enough(cap: Cap, q: Quarters, whole: bool) -> bool
    requires { q.face < 6 }
    ensures { result ≡ (not whole && cap_holds cap (shared_corner q)) }
{
    !whole && contains_point(cap, q.shared_corner())
}

// The four quarters together: nine corners, and the edges of those quarters alone that have no corner in the cap or all four.
fn look_quarters(cap: Cap, q: Quarters, whole: bool) -> Sights
    requires { q.face < 6 }
    ensures { result ≡ quarter_sights cap whole q }
{
    if shared_is_enough(cap, q, whole) {
        return Sights {
            passing: 15,
            inside: 0,
        };
    }
    let p = q.corners();
    let h = held_nine(cap, p);
    look_parts(
        cap,
        q,
        p,
        held_square(h, 0),
        held_square(h, 1),
        held_square(h, 3),
        held_square(h, 4),
    )
}

// A digit of a table of sixteen, four bits each.
fn pick(table: u64, set: u64) -> u64
    requires { set < 16 }
    ensures { result ≡ table / 2 ^ (4 * set) % 16 }
{
    (table >> (4 * set)) % 16
}

// A set of quarters as a set of places on the curve.
fn by_place(row: u64, set: u64) -> u64
    requires { (row < 4) × (set < 16) }
    ensures { result ≡ turned row set }
{
    match row {
        0 => pick(0xfedc_7654_ba98_3210, set),
        1 => pick(0xfe76_dc54_ba32_9810, set),
        2 => pick(0xfb73_d951_ea62_c840, set),
        _ => pick(0xfbd9_7351_eac8_6240, set),
    }
}

// The four children of a valid id that is no leaf, looked at together: one walk of the curve.
pub fn look_children(cap: Cap, id: u64, whole: bool) -> Sights
    requires { CellId.Cell id × (CellId.level_of id < 30) }
    ensures { result ≡ sights_of (sight_of (cap_intersects cap) (cap_contains cap) whole) id }
{
    let q = cell::quarters_of(id);
    let l = look_quarters(cap, q, whole);
    Sights {
        passing: by_place(q.orientation, l.passing),
        inside: by_place(q.orientation, l.inside),
    }
}

// ---- the bound

// The largest squared chord radius at which the Rust still takes level n + 1 for a bound.
#[tactic(auto, unfolding(crate::specs::Bound::thresholds))]
fn threshold(n: u64) -> f64
    requires { n < 30 }
    ensures { result ≡ get_or thresholds n nan }
{
    match n {
        0 => 0.21813735837609255,
        1 => 0.05529882973658202,
        2 => 0.013872821226340001,
        3 => 0.003471217644568992,
        4 => 0.000867992764001838,
        5 => 0.00021700996433161429,
        6 => 5.425322693606181e-05,
        7 => 1.356335272514974e-05,
        8 => 3.390841055738201e-06,
        9 => 8.477104435877994e-07,
        10 => 2.119276221252791e-07,
        11 => 5.2981906233090365e-08,
        12 => 1.3245476602133256e-08,
        13 => 3.3113691532746054e-09,
        14 => 8.278422884899819e-10,
        15 => 2.0696057213320368e-10,
        16 => 5.1740143033970174e-11,
        17 => 1.2935035758534373e-11,
        18 => 3.2337589396362076e-12,
        19 => 8.084397349092153e-13,
        20 => 2.0210993372731402e-13,
        21 => 5.052748343182915e-14,
        22 => 1.2631870857957328e-14,
        23 => 3.1579677144893344e-15,
        24 => 7.894919286223338e-16,
        25 => 1.9737298215558345e-16,
        26 => 4.934324553889586e-17,
        27 => 1.2335811384723965e-17,
        28 => 3.0839528461809914e-18,
        _ => 7.709882115452478e-19,
    }
}

// The level of a bound, 0 to 30, for a squared chord radius: what the Rust's metric gives for the angle.
pub fn level_for(radius: f64) -> u64
    ensures { result ≡ level_for radius }
{
    for level in 0..30 {
        if !(radius <= threshold(level)) {
            return level;
        }
    }
    30
}

// The cells that bound a cap: six faces, or the three or four cells around the corner next to its
// centre. An empty cap has a bound too, as in the Rust.
pub fn cell_union_bound(c: Cap) -> Bound
    ensures { result ≡ in_six (union_bound c) }
{
    let level = level_for(c.radius);
    if level == 0 {
        return Bound {
            ids: [
                0x1000_0000_0000_0000,
                0x3000_0000_0000_0000,
                0x5000_0000_0000_0000,
                0x7000_0000_0000_0000,
                0x9000_0000_0000_0000,
                0xb000_0000_0000_0000,
            ],
            count: 6,
        };
    }
    let leaf = neighbors::cellid_from_point(c.center);
    let n = neighbors::vertex_neighbors(leaf, level - 1);
    let ids = n.ids;
    Bound {
        ids: [ids[0], ids[1], ids[2], ids[3], 0, 0],
        count: n.count,
    }
}

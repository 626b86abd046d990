// Reads a question a line from standard input and writes an answer a line. Each question is about one function of a layer, whose contract says what is
// right: here nothing is promised of what is written, and a slip shows as a difference against the oracle.
// The page, the words and how many of them are filled go side by side: all memory is lent by `main`, and parts of it are written while others are read. That an id is a
// cell's is asked of each function, as of those that it calls.
#![tactic(auto)]

ghost use Rattle.std.specs.Prelude.{◌≡◌, true, ◌<◌, ◌≤◌, length};
ghost use Rattle.cellid.specs.CellId as CellId;
ghost use Rattle.region.specs.Region.{area_of, in_domain};
ghost use Rattle.fast.specs.Memory.{NumbersFit, Cells};
ghost use Rattle.input.specs.Feed.{LineWithin};

use cell::{Cap, Cell};
use hilbert::FaceIj;
use input::{Found, Span, Streams};
use point::Point;
use region::Region;
use run::{MEMORY_WORDS, RegionCoverer};
use sight::Sight;
use text::{Base, Fault, Read};
use tokens::Form;

// Room for the longest answer: 65,536 ids of 17 bytes each, and what stands before and after them.
type Page = [u8; 1114368];

// A number that no answer is, so that all numbers of an answer are written one way. Written as -1: two cells have no common ancestor.
const NOTHING: u64 = 0xffff_ffff_ffff_ffff;

// What is asked, in the order of the words.
#[derive(Clone, Copy, PartialEq, Eq)]
enum Question {
    Sqrt,
    StToUv,
    UvToSt,
    CellidFromPoint,
    Valid,
    LevelFor,
    IsUnit,
    CommonAncestorLevel,
    CellContainsPoint,
    CapContainsCell,
    CapIntersectsCell,
    FaceIjOrientation,
    CellCapBound,
    Vertices,
    Edges,
    VertexNeighbors,
    Bound,
    Starts,
    Normalize,
    Denormalize,
    NormalizeCovering,
    RegionContainsCell,
    RegionIntersectsCell,
    RegionLook,
}

impl Question {
    // Whether its numbers are answered in hexadecimal digits.
    fn is_hex(self) -> bool {
        matches!(
            self,
            Question::Sqrt
                | Question::StToUv
                | Question::UvToSt
                | Question::CellidFromPoint
                | Question::CellCapBound
                | Question::Vertices
                | Question::Edges
        )
    }

    // Whether the last of its numbers is any number, and no cell's id.
    fn is_of_numbers(self) -> bool {
        matches!(
            self,
            Question::Sqrt
                | Question::StToUv
                | Question::UvToSt
                | Question::CellidFromPoint
                | Question::Valid
                | Question::LevelFor
                | Question::IsUnit
        )
    }
}

fn read_question(line: &[u8], at: usize) -> Result<Read<Question>, Fault> {
    text::read_choice(
        line,
        at,
        b"sqrt st_to_uv uv_to_st cellid_from_point valid level is_unit common_ancestor_level cell_contains_point cap_contains_cell cap_intersects_cell face_ij_orientation cell_cap_bound vertices edges vertex_neighbors bound starts normalize denormalize normalize_covering region_contains_cell region_intersects_cell region_look",
        &[
            Question::Sqrt,
            Question::StToUv,
            Question::UvToSt,
            Question::CellidFromPoint,
            Question::Valid,
            Question::LevelFor,
            Question::IsUnit,
            Question::CommonAncestorLevel,
            Question::CellContainsPoint,
            Question::CapContainsCell,
            Question::CapIntersectsCell,
            Question::FaceIjOrientation,
            Question::CellCapBound,
            Question::Vertices,
            Question::Edges,
            Question::VertexNeighbors,
            Question::Bound,
            Question::Starts,
            Question::Normalize,
            Question::Denormalize,
            Question::NormalizeCovering,
            Question::RegionContainsCell,
            Question::RegionIntersectsCell,
            Question::RegionLook,
        ],
        Fault::UnknownKind,
    )
}

// ---- questions of numbers: floats by their bits, and ids. The first number is `a`, the first four are the cap `g`, the last is a cell's id.

// The id, or that of a face where it is not valid.
fn cell_id(id: u64) -> u64
    ensures { CellId.Cell result }
{
    if cellid::is_valid(id) {
        return id;
    }
    0x1000_0000_0000_0000
}

// Whether the numbers but the last lie in the question's domain. A radius is tested as that of a cap about the x axis; where a point is not finite, 0 times
// it is no number.
fn in_domain(q: Question, a: u64, g: Cap) -> bool {
    match q {
        Question::StToUv => g.center.x.is_finite(),
        Question::UvToSt => g.center.x.is_finite(),
        Question::CellidFromPoint => g.center.is_unit(),
        Question::LevelFor => region::cap_in_domain(requests::cap_of(
            0x3ff0_0000_0000_0000,
            0,
            0,
            a,
        )),
        Question::IsUnit => g.center.mul(0.0).norm2().is_finite(),
        Question::CommonAncestorLevel => cellid::is_valid(a),
        Question::CellContainsPoint => g.center.is_unit(),
        Question::CapContainsCell => region::cap_in_domain(g),
        Question::CapIntersectsCell => region::cap_in_domain(g),
        _ => true,
    }
}

fn of_numbers(q: Question, a: u64, g: Cap) -> u64 {
    match q {
        Question::Sqrt => root::root_bits(a),
        Question::StToUv => point::bits_of_float(stuv::st_to_uv(g.center.x)),
        Question::UvToSt => point::bits_of_float(stuv::uv_to_st(g.center.x)),
        Question::CellidFromPoint => neighbors::cellid_from_point(g.center),
        Question::Valid => cellid::is_valid(a) as u64,
        Question::LevelFor => cap::level_for(g.center.x),
        _ => g.center.is_unit() as u64,
    }
}

fn common_level(a: u64, b: u64) -> u64
    requires { CellId.Cell b }
{
    cellid::common_ancestor_level(cell_id(a), b).unwrap_or(NOTHING)
}

fn grid_number(g: FaceIj, i: u64) -> u64 {
    match i {
        0 => g.face,
        1 => g.i,
        2 => g.j,
        _ => g.orientation,
    }
}

fn axis(p: Point, i: u64) -> u64 {
    match i {
        0 => point::bits_of_float(p.x),
        1 => point::bits_of_float(p.y),
        _ => point::bits_of_float(p.z),
    }
}

fn cap_number(c: Cap, i: u64) -> u64 {
    match i {
        3 => point::bits_of_float(c.radius),
        _ => axis(c.center, i),
    }
}

// How many numbers an answer has: a `match` is a table.
fn count_of(q: Question) -> u64
    ensures { result ≤ 12 }
{
    match q {
        Question::FaceIjOrientation => 4,
        Question::CellCapBound => 4,
        Question::Vertices => 12,
        Question::Edges => 12,
        _ => 1,
    }
}

// The i-th of them.
fn number_of(q: Question, a: u64, g: Cap, id: u64, c: Cell, i: u64) -> u64
    requires { CellId.Cell id × (c.face < 6) × (i < 12) }
{
    match q {
        Question::CommonAncestorLevel => common_level(a, id),
        Question::CellContainsPoint => c.contains_point(g.center) as u64,
        Question::CapContainsCell => cap::look_at(g, id, true).is_inside() as u64,
        Question::CapIntersectsCell => cap::look_at(g, id, false).passes() as u64,
        Question::FaceIjOrientation => grid_number(hilbert::face_ij_orientation(id), i),
        Question::CellCapBound => cap_number(c.cap_bound(), i),
        Question::Vertices => axis(c.vertex(i / 3), i % 3),
        Question::Edges => axis(c.edge(c.scales(), i / 3), i % 3),
        _ => of_numbers(q, a, g),
    }
}

fn put_digits(page: &mut Page, at: usize, hex: bool, x: u64) -> usize {
    if hex {
        return replies::put_name(page, at, Form::Digits, x);
    }
    if x == NOTHING {
        return replies::put(page, at, b"-1");
    }
    replies::put_decimal(page, at, x)
}

fn put_numbers(q: Question, a: u64, g: Cap, id: u64, page: &mut Page) -> usize
    requires { CellId.Cell id }
{
    let c = cell::from_id(id);
    let hex = q.is_hex();
    let count = count_of(q);
    let mut n = put_digits(page, 0, hex, number_of(q, a, g, id, c, 0));
    for i in 1..count {
        n = replies::put(page, n, b" ");
        n = put_digits(page, n, hex, number_of(q, a, g, id, c, i));
    }
    n
}

// Writes the first so many ids, and tells how long the list is.
fn put_list(page: &mut Page, ids: &[u64], count: usize) -> usize {
    if count <= ids.len() {
        let n = replies::put_decimal(page, 0, count as u64);
        return replies::put_ids(page, n, Form::Digits, &ids[..count]);
    }
    0
}

fn put_neighbors(id: u64, level: u64, page: &mut Page) -> usize
    requires { CellId.Cell id }
{
    if level < cellid::level(id) {
        let v = neighbors::vertex_neighbors(id, level);
        let ids = v.ids;
        return put_list(page, &ids, v.count);
    }
    0
}

// How many hexadecimal fields a question of numbers has: a `match` is a table.
fn fields_of(q: Question) -> usize
    ensures { (0 < result) × (result ≤ 5) }
{
    match q {
        Question::CellidFromPoint => 3,
        Question::IsUnit => 3,
        Question::CommonAncestorLevel => 2,
        Question::CellContainsPoint => 4,
        Question::CapContainsCell => 5,
        Question::CapIntersectsCell => 5,
        _ => 1,
    }
}

// Writes the answer, and tells how long it is: 0 outside the domain.
fn answer_numbers(q: Question, a: u64, g: Cap, last: u64, level: u64, page: &mut Page) -> usize {
    let id = cell_id(last);
    if in_domain(q, a, g) && (q.is_of_numbers() || id == last) {
        if q == Question::VertexNeighbors {
            return put_neighbors(id, level, page);
        }
        return put_numbers(q, a, g, id, page);
    }
    0
}

fn read_level(q: Question, line: &[u8], at: usize) -> Result<Read<u64>, Fault> {
    if q == Question::VertexNeighbors {
        return text::read_number(line, at, Base::Ten, u64::MAX);
    }
    Ok(Read {
        value: 0,
        after: at,
    })
}

fn ask_numbers(q: Question, line: &[u8], at: usize, page: &mut Page) -> Result<usize, Fault> {
    let mut v = [0u64; 5];
    let count = fields_of(q);
    let after = text::read_numbers(line, at, Base::Sixteen, &mut v[..count])?;
    let level = read_level(q, line, after)?;
    text::read_end(line, level.after)?;
    let g = requests::cap_of(v[0], v[1], v[2], v[3]);
    Ok(answer_numbers(q, v[0], g, v[count - 1], level.value, page))
}

// ---- the numbers of a request

// `MIN MOD`.
fn read_levels(line: &[u8], at: usize) -> Result<Read<RegionCoverer>, Fault> {
    let n = text::read_array::<2>(line, at, Base::Ten)?;
    let [min_level, level_mod] = n.value;
    let value = RegionCoverer {
        min_level,
        max_level: 30,
        level_mod,
        max_cells: 8,
        edition: 1,
    };
    Ok(Read {
        value,
        after: n.after,
    })
}

// The numbers of a request, as many of them as the question has.
fn read_coverer(q: Question, line: &[u8], at: usize) -> Result<Read<RegionCoverer>, Fault> {
    match q {
        Question::Starts => requests::read_coverer(line, at),
        Question::Denormalize => read_levels(line, at),
        Question::NormalizeCovering => requests::read_coverer(line, at),
        _ => Ok(Read {
            value: RegionCoverer {
                min_level: 0,
                max_level: 30,
                level_mod: 1,
                max_cells: 8,
                edition: 1,
            },
            after: at,
        }),
    }
}

// ---- questions about a region

// The id of a cell, that of a face where the question has none.
fn read_cell(q: Question, line: &[u8], at: usize) -> Result<Read<u64>, Fault> {
    if q == Question::Bound || q == Question::Starts {
        return Ok(Read {
            value: 0x1000_0000_0000_0000,
            after: at,
        });
    }
    text::read_number(line, at, Base::Sixteen, u64::MAX)
}

fn put_bound(g: Region<'_>, page: &mut Page) -> usize
    requires { in_domain (area_of g) ≡ true }
{
    let mut mem: [u64; MEMORY_WORDS] = blank::filled(0);
    let count = g.cell_union_bound(&mut mem);
    put_list(page, &mem, count)
}

fn put_starts(c: RegionCoverer, g: Region<'_>, page: &mut Page) -> usize
    requires { NumbersFit c × (in_domain (area_of g) ≡ true) }
{
    let mut mem: [u64; MEMORY_WORDS] = blank::filled(0);
    let s = fast::starts(c, g, &mut mem);
    let ids = s.ids;
    put_list(page, &ids, s.count)
}

fn put_number(page: &mut Page, at: usize, x: u64) -> usize {
    let n = replies::put(page, at, b" ");
    replies::put_decimal(page, n, x)
}

// 0 outside, 1 crossing, 2 inside: what the line says, by a `match` as a table.
fn sight_number(s: Sight) -> u64 {
    match s {
        Sight::Outside => 0,
        Sight::Crossing => 1,
        Sight::Inside => 2,
    }
}

// The looks at the four children: those that pass and those inside, and, where only outside or not is asked, those that pass; zeros for a leaf, which has none.
fn put_children(g: Region<'_>, id: u64, page: &mut Page, at: usize) -> usize
    requires { (in_domain (area_of g) ≡ true) × CellId.Cell id }
{
    if cellid::level(id) < 30 {
        let l = g.look_children(id, true);
        let less = g.look_children(id, false);
        let n = put_number(page, at, l.passing);
        let m = put_number(page, n, l.inside);
        return put_number(page, m, less.passing);
    }
    replies::put(page, at, b" 0 0 0")
}

// The look at the cell, then whether it passes, where only outside or not is asked, then the looks at its children.
fn put_look(g: Region<'_>, id: u64, page: &mut Page) -> usize
    requires { (in_domain (area_of g) ≡ true) × CellId.Cell id }
{
    let n = replies::put_decimal(page, 0, sight_number(g.look_at(id, true)));
    let m = put_number(page, n, g.look_at(id, false).passes() as u64);
    put_children(g, id, page, m)
}

fn put_truth(page: &mut Page, b: bool) -> usize {
    replies::put_decimal(page, 0, b as u64)
}

// By the question: each arm is one call, since each asks for another answer.
fn put_region(q: Question, c: RegionCoverer, g: Region<'_>, id: u64, page: &mut Page) -> usize
    requires { NumbersFit c × (in_domain (area_of g) ≡ true) × CellId.Cell id }
{
    match q {
        Question::Bound => put_bound(g, page),
        Question::Starts => put_starts(c, g, page),
        Question::RegionContainsCell => put_truth(page, g.look_at(id, true).is_inside()),
        Question::RegionIntersectsCell => put_truth(page, g.look_at(id, false).passes()),
        _ => put_look(g, id, page),
    }
}

// Writes the answer, and tells how long it is: 0 outside the domain.
fn answer_region(
    q: Question,
    c: RegionCoverer,
    g: Region<'_>,
    last: u64,
    page: &mut Page,
) -> usize {
    let id = cell_id(last);
    let first = bars::first_refusal(c, g, MEMORY_WORDS);
    match first {
        Ok(()) => {
            if id == last {
                return put_region(q, c, g, id, page);
            }
            0
        }
        Err(_) => 0,
    }
}

fn ask_region(q: Question, line: &[u8], at: usize, page: &mut Page) -> Result<usize, Fault> {
    let c = read_coverer(q, line, at)?;
    // More words than the longest line can fill.
    let mut list: [u64; 16_384] = blank::filled(0);
    let g = requests::read_region(line, c.after, &mut list)?;
    let id = read_cell(q, line, g.after)?;
    text::read_end(line, id.after)?;
    let region = g.value.region(&list);
    Ok(answer_region(q, c.value, region, id.value, page))
}

// ---- questions about a list

// How many of the first n words, from the front, are ids of cells.
fn cells_in_front(ids: &[u64], n: usize) -> usize
    ensures { Cells result ids.now }
{
    let most = n.min(ids.len());
    for i in 0..most {
        if !cellid::is_valid(ids[i]) {
            return i;
        }
    }
    most
}

fn put_normal(ids: &mut [u64; 4096], n: usize, page: &mut Page) -> usize
    requires { Cells n ids.old }
{
    let m = cellunion::normalize(ids, n);
    put_list(page, ids, m)
}

// Lays the list over the output: which way, the question says.
fn lay(
    q: Question,
    c: RegionCoverer,
    ids: &mut [u64; 4096],
    n: usize,
    out: &mut [u64; 65536],
) -> Option<usize>
    requires { NumbersFit c × Cells n ids.old }
{
    match q {
        Question::Denormalize => denorm::denormalize(&ids[..n], c.min_level, c.level_mod, out),
        _ => fast::normalize_covering(c, ids, n, out),
    }
}

// Writes the list that stands in the output, if it has room there.
fn put_laid(page: &mut Page, laid: Option<usize>, out: &[u64; 65536]) -> usize {
    match laid {
        Some(count) => put_list(page, out, count),
        None => 0,
    }
}

fn put_covering(
    q: Question,
    c: RegionCoverer,
    ids: &mut [u64; 4096],
    n: usize,
    page: &mut Page,
) -> usize
    requires { NumbersFit c × Cells n ids.old }
{
    let mut out: [u64; 65_536] = blank::filled(0);
    let laid = lay(q, c, ids, n, &mut out);
    put_laid(page, laid, &out)
}

fn put_answer(
    q: Question,
    c: RegionCoverer,
    ids: &mut [u64; 4096],
    n: usize,
    page: &mut Page,
) -> usize
    requires { NumbersFit c × Cells n ids.old }
{
    match q {
        Question::Normalize => put_normal(ids, n, page),
        _ => put_covering(q, c, ids, n, page),
    }
}

// Writes the answer, and tells how long it is: 0 outside the domain, and where the list is too long. A face as the region has the numbers alone tested.
fn answer_list(
    q: Question,
    c: RegionCoverer,
    ids: &mut [u64; 4096],
    n: usize,
    page: &mut Page,
) -> usize {
    let m = cells_in_front(ids, n);
    let first = bars::first_refusal(c, Region::Cell(0x1000_0000_0000_0000), MEMORY_WORDS);
    match first {
        Ok(()) => {
            if m == n {
                return put_answer(q, c, ids, m, page);
            }
            0
        }
        Err(_) => 0,
    }
}

fn ask_list(q: Question, line: &[u8], at: usize, page: &mut Page) -> Result<usize, Fault> {
    let c = read_coverer(q, line, at)?;
    let mut ids: [u64; 4096] = blank::filled(0);
    let list = text::read_list(line, c.after, &mut ids)?;
    text::read_end(line, list.after)?;
    Ok(answer_list(q, c.value, &mut ids, list.value as usize, page))
}

// ---- line after line

// Writes the answer to a question but for the newline, and tells how long it is: 0 outside the domain.
fn ask(line: &[u8], page: &mut Page) -> Result<usize, Fault> {
    let start = text::read_start(line)?;
    let question = read_question(line, start)?;
    let q = question.value;
    let at = question.after;
    match q {
        Question::Normalize | Question::Denormalize | Question::NormalizeCovering => {
            ask_list(q, line, at, page)
        }
        Question::Bound
        | Question::Starts
        | Question::RegionContainsCell
        | Question::RegionIntersectsCell
        | Question::RegionLook => ask_region(q, line, at, page),
        _ => ask_numbers(q, line, at, page),
    }
}

fn answer_line(line: &[u8], number: u64, page: &mut Page) -> usize {
    if text::is_silent(line) {
        return 0;
    }
    match ask(line, page) {
        Ok(0) => replies::put_error(page, number, Fault::OutsideDomain),
        Ok(n) => replies::put(page, n, b"\n"),
        Err(fault) => replies::put_error(page, number, fault),
    }
}

fn answer(found: Found, number: u64, answered: u64, buf: &[u8], page: &mut Page) -> usize
    requires { LineWithin (length buf.now) found }
{
    match found {
        Found::Line(line) => answer_line(line.of(buf), number, page),
        Found::TooLong => replies::put_error(page, number, Fault::LineTooLong),
        Found::Failed => replies::put_error(page, number, Fault::ReadFailed),
        Found::End => replies::put_end(page, answered),
    }
}

// Tells the answer, the first n bytes of the page, and whether there is more to read.
fn tell(streams: Streams, found: Found, page: &[u8], n: usize) -> bool {
    n <= page.len() && input::tell(streams, found, &page[..n])
}

// Line after line, numbered from 1 on, until the input ends or fails, or the output can't be written.
fn run(streams: Streams, buf: &mut [u8], page: &mut Page) {
    let mut unread = Span::NONE;
    let mut answered: u64 = 0;
    for before in 0..u64::MAX {
        let feed = input::next_line(streams, buf, unread);
        let n = answer(feed.found, before + 1, answered, buf, page);
        if !tell(streams, feed.found, page, n) {
            return;
        }
        if 0 < n {
            answered += 1;
        }
        unread = feed.unread;
    }
}

fn main(rt: HostRuntime) {
    let mut buf: [u8; input::ROOM] = blank::filled(0);
    let mut page: Page = blank::filled(0);
    run(input::standard_streams(rt), &mut buf, &mut page);
}

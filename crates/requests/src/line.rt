// A request of `cover` as a line: `KIND MIN MAX MOD MAX_CELLS REGION [allow=N] [out=N] [mem=N] [tokens=N] [edition=N] [engine=WORD]`, the options in any
// order. Any numbers and any bits of floats are taken: whoever answers the request tests its domain.
ghost use Rattle.std.specs.Prelude.{◌≡◌, ◌≤◌, length};
ghost use Rattle.region.specs.Region.{area_of};
ghost use Rattle.requests.specs.Line.{kind_after, coverer_after, point_of, cap_of, named_after, cap_after, cell_after, ReadShape, held, area_in, once, engine_in, with_option, option_of, options_after, form_of, ReadAsked};

use cell::Cap;
use covering::{Ending, Kind};
use point::Point;
use queue::Engine;
use region::Region;
use run::{MEMORY_WORDS, RegionCoverer};
use selftest::Engines;
use text::{Base, Fault, Read};
use tokens::Form;

// A region as a line names it: a cap, a cell, or a list of so many ids, which were read into the first of the words that are lent.
#[derive(Clone, Copy)]
pub enum Shape {
    Cap(Cap),
    Cell(u64),
    List(usize),
}

impl Shape {
    // The region, a list's ids in the first of the words.
    #[tactic(auto, unfolding(region::specs::Region::area_of))]
    pub fn region<'a>(self, words: &'a [u64]) -> Region<'a>
        requires { held self ≤ length words.now }
        ensures { area_of result ≡ area_in self words.now }
    {
        match self {
            Shape::Cap(c) => Region::Cap(c),
            Shape::Cell(id) => Region::Cell(id),
            Shape::List(n) => Region::List(&words[..n]),
        }
    }
}

// The words for a region.
#[derive(Clone, Copy)]
enum Named {
    Cap,
    Cell,
    List,
}

// The options that were given.
#[derive(Clone, Copy)]
pub struct Options {
    pub allowance: Option<u64>,
    pub out: Option<u64>,
    pub mem: Option<u64>,
    pub tokens: Option<u64>,
    pub edition: Option<u64>,
    pub engines: Option<Engines>,
}

// The keys of the options.
#[derive(Clone, Copy)]
enum Key {
    Allow,
    Out,
    Mem,
    Tokens,
    Edition,
    Engine,
}

// What a line asks: the kind of answer, of what, with how much, how ids are to be written, and which engines are to answer.
#[derive(Clone, Copy)]
pub struct Asked {
    pub kind: Kind,
    pub coverer: RegionCoverer,
    pub shape: Shape,
    pub allowance: u64,
    pub out: u64,
    pub mem: u64,
    pub form: Form,
    pub engines: Engines,
}

// ---- the parts of a line, each from a place on, as text has them

// The kind of answer that is asked for.
#[tactic(auto, unfolding(crate::specs::Line::kind_after, text::specs::Ascii::ascii))]
fn read_kind(line: &[u8], at: usize) -> Result<Read<Kind>, Fault>
    ensures { result ≡ kind_after line.now at }
{
    text::read_choice(
        line,
        at,
        b"covering cellunion raw interior icellunion iraw fast",
        &[
            Kind::Outer(Ending::Covering),
            Kind::Outer(Ending::CellUnion),
            Kind::Outer(Ending::Raw),
            Kind::Inner(Ending::Covering),
            Kind::Inner(Ending::CellUnion),
            Kind::Inner(Ending::Raw),
            Kind::Fast,
        ],
        Fault::UnknownKind,
    )
}

// `MIN MAX MOD MAX_CELLS`, of edition 1: another is an option's to name.
#[tactic(auto, unfolding(crate::specs::Line::coverer_after))]
pub fn read_coverer(line: &[u8], at: usize) -> Result<Read<RegionCoverer>, Fault>
    ensures { result ≡ coverer_after line.now at }
{
    let n = text::read_array::<4>(line, at, Base::Ten)?;
    let [min_level, max_level, level_mod, max_cells] = n.value;
    let value = RegionCoverer {
        min_level,
        max_level,
        level_mod,
        max_cells,
        edition: 1,
    };
    Ok(Read {
        value,
        after: n.after,
    })
}

// The point of three bit patterns.
fn point_of(x: u64, y: u64, z: u64) -> Point
    ensures { result ≡ point_of x y z }
{
    Point {
        x: point::float_of_bits(x),
        y: point::float_of_bits(y),
        z: point::float_of_bits(z),
    }
}

// The cap of a centre and a squared chord radius.
#[tactic(auto, unfolding(crate::specs::Line::cap_of))]
pub fn cap_of(x: u64, y: u64, z: u64, r: u64) -> Cap
    ensures { result ≡ cap_of x y z r }
{
    Cap {
        center: point_of(x, y, z),
        radius: point::float_of_bits(r),
    }
}

// `X Y Z R`.
#[tactic(auto, unfolding(crate::specs::Line::cap_after))]
pub fn read_cap(line: &[u8], at: usize) -> Result<Read<Cap>, Fault>
    ensures { result ≡ cap_after line.now at }
{
    let n = text::read_array::<4>(line, at, Base::Sixteen)?;
    let [x, y, z, r] = n.value;
    Ok(Read {
        value: cap_of(x, y, z, r),
        after: n.after,
    })
}

// `ID`.
pub fn read_cell(line: &[u8], at: usize) -> Result<Read<u64>, Fault>
    ensures { result ≡ cell_after line.now at }
{
    text::read_number(line, at, Base::Sixteen, u64::MAX)
}

// The word for a region.
#[tactic(auto, unfolding(crate::specs::Line::named_after, text::specs::Ascii::ascii))]
fn read_named(line: &[u8], at: usize) -> Result<Read<Named>, Fault>
    ensures { result ≡ named_after line.now at }
{
    text::read_choice(
        line,
        at,
        b"cap cell list",
        &[Named::Cap, Named::Cell, Named::List],
        Fault::UnknownRegion,
    )
}

// `cap X Y Z R`, `cell ID` or `list COUNT ID...`, the ids of a list into the words that are lent.
#[tactic(auto, unfolding(crate::specs::Line::area_after, crate::specs::Line::area_named, crate::specs::Line::ids_after, crate::specs::Line::ids_named, crate::specs::Line::shape_of, text::specs::Text::words_with))]
pub fn read_region(line: &[u8], at: usize, words: &mut [u64]) -> Result<Read<Shape>, Fault>
    ensures { ReadShape (length words.old) line.now at result words.old words.new }
{
    let named = read_named(line, at)?;
    match named.value {
        Named::Cap => {
            let cap = read_cap(line, named.after)?;
            Ok(Read {
                value: Shape::Cap(cap.value),
                after: cap.after,
            })
        }
        Named::Cell => {
            let id = read_cell(line, named.after)?;
            Ok(Read {
                value: Shape::Cell(id.value),
                after: id.after,
            })
        }
        Named::List => {
            let list = text::read_list(line, named.after, words)?;
            Ok(Read {
                value: Shape::List(list.value as usize),
                after: list.after,
            })
        }
    }
}

// What an option is given as: it must not have been given before.
fn once<T: Copy>(given: Option<T>, value: Result<T, Fault>) -> Result<Option<T>, Fault>
    ensures { result ≡ once given value }
{
    if given.is_some() {
        return Err(Fault::RepeatedOption);
    }
    let value = value?;
    Ok(Some(value))
}

// The engines that a word names.
#[tactic(auto, unfolding(crate::specs::Line::engine_in, text::specs::Ascii::ascii))]
fn engines_of(word: &[u8]) -> Result<Engines, Fault>
    ensures { result ≡ engine_in word.now }
{
    text::choice_of(
        word,
        b"quick plain both",
        &[
            Engines::One(Engine::Quick),
            Engines::One(Engine::Plain),
            Engines::Both,
        ],
    )
    .ok_or(Fault::UnknownEngine)
}

// One option more, with the bytes after its key; it is given once.
#[tactic(auto, unfolding(crate::specs::Line::with_option))]
fn with_option(key: Key, s: &[u8], o: Options) -> Result<Options, Fault>
    ensures { result ≡ with_option key s.now o }
{
    match key {
        Key::Allow => {
            let allowance = once(o.allowance, text::read_bytes(s, Base::Ten, 4294967295))?;
            Ok(Options { allowance, ..o })
        }
        Key::Out => {
            let out = once(o.out, text::read_bytes(s, Base::Ten, 65536))?;
            Ok(Options { out, ..o })
        }
        Key::Mem => {
            let mem = once(o.mem, text::read_bytes(s, Base::Ten, 8192))?;
            Ok(Options { mem, ..o })
        }
        Key::Tokens => {
            let tokens = once(o.tokens, text::read_bytes(s, Base::Ten, 1))?;
            Ok(Options { tokens, ..o })
        }
        Key::Edition => {
            let edition = once(o.edition, text::read_bytes(s, Base::Ten, 4294967295))?;
            Ok(Options { edition, ..o })
        }
        Key::Engine => {
            let engines = once(o.engines, engines_of(s))?;
            Ok(Options { engines, ..o })
        }
    }
}

// The option that a field is: a key, which ends before its first `=`, and a value.
#[tactic(auto, unfolding(crate::specs::Line::option_of, text::specs::Ascii::ascii))]
fn option_of(field: &[u8], o: Options) -> Result<Options, Fault>
    ensures { result ≡ option_of field.now o }
{
    let sign = text::find(field, b'=').ok_or(Fault::ExtraField)?;
    let key = text::choice_of(
        &field[..sign],
        b"allow out mem tokens edition engine",
        &[
            Key::Allow,
            Key::Out,
            Key::Mem,
            Key::Tokens,
            Key::Edition,
            Key::Engine,
        ],
    )
    .ok_or(Fault::ExtraField)?;
    with_option(key, &field[sign + 1..], o)
}

// The options: six at most, each once. A seventh field is a fault, and which it is is told by its own turn.
#[tactic(auto, unfolding(crate::specs::Line::options_after, crate::specs::Line::options_from))]
pub fn read_options(line: &[u8], at: usize) -> Result<Read<Options>, Fault>
    ensures { result ≡ options_after line.now at }
{
    let mut value = Options {
        allowance: None,
        out: None,
        mem: None,
        tokens: None,
        edition: None,
        engines: None,
    };
    let mut after = at;
    for _ in 0..7u64 {
        let Some(field) = text::read_field(line, after) else {
            return Ok(Read { value, after });
        };
        value = option_of(&line[field.start..field.end], value)?;
        after = field.end;
    }
    Ok(Read { value, after })
}

// How ids are to be written, by the value of `tokens=`.
pub fn form_of(v: u64) -> Form
    ensures { result ≡ form_of v }
{
    if v == 1 { Form::Token } else { Form::Digits }
}

// What a line asks, the ids of a list into the words that are lent.
#[tactic(auto, unfolding(crate::specs::Line::wish_of, crate::specs::Line::region_at, crate::specs::Line::ids_of, text::specs::Text::words_with))]
pub fn read_asked(line: &[u8], words: &mut [u64]) -> Result<Asked, Fault>
    ensures { ReadAsked (length words.old) line.now result words.old words.new }
{
    let start = text::read_start(line)?;
    let kind = read_kind(line, start)?;
    let coverer = read_coverer(line, kind.after)?;
    let shape = read_region(line, coverer.after, words)?;
    let options = read_options(line, shape.after)?;
    text::read_end(line, options.after)?;
    let o = options.value;
    Ok(Asked {
        kind: kind.value,
        coverer: RegionCoverer {
            edition: o.edition.unwrap_or(1),
            ..coverer.value
        },
        shape: shape.value,
        allowance: o.allowance.unwrap_or(4294967295),
        out: o.out.unwrap_or(65536),
        mem: o.mem.unwrap_or(MEMORY_WORDS as u64),
        form: form_of(o.tokens.unwrap_or(0)),
        engines: o.engines.unwrap_or(Engines::One(Engine::Quick)),
    })
}

// The functions for programs in C or Rust, as a static library: include/flaxbadger.h declares them. They take numbers and slices, and require nothing of the
// caller. Each returns the papers' number, 0 for success, and writes the values of the answer through `count`, `steps` and `aside`, which takes six totals. Their
// runs are of edition 1. Those whose names end in `_by` do the same in either edition, by the quick engine, by the plain one, or by both, and write through
// `agree` whether they agree.
#![tactic(auto, unfolding(region::specs::Region::area_of))]

ghost use Rattle.std.specs.Prelude.{◌≡◌, length};
ghost use Rattle.covering.specs.declared.Ending.{Ending};
ghost use Rattle.covering.specs.declared.Kind.{Kind};
ghost use Rattle.covering.specs.Covering.{result_of};
ghost use Rattle.region.specs.Region.{cell_area, list_area};
ghost use Rattle.ranges.specs.Ranges.{pairs_result, cells_result};
ghost use Rattle.sets.specs.declared.Op.{Op};
ghost use Rattle.sets.specs.Sets.{set_result};
ghost use Rattle.tokens.specs.declared.Form.{Form};
ghost use Rattle.tokens.specs.Tokens.{write_result, read_result};
ghost use Rattle.capi.specs.Calls.{region_coverer, cap_given, Called, CalledBy, CalledOf, NamesCalled, NightCalled};

use covering::{Ending, Kind};
use orders::Order;
use region::Region;
use sets::Op;
use tokens::Form;

// The functions from here to the lists' are alike but for their kind, their region and `_by`: the C interface names each, with these parameters.

// The covering: cells of levels min_level to max_level, in whole steps of level_mod, that cover the region as the outer run does. Of a cap, a cell, a list.
#[unsafe(no_mangle)]
pub extern "C" fn flaxbadger_covering_cap(
    x: f64,
    y: f64,
    z: f64,
    radius: f64,
    min_level: u64,
    max_level: u64,
    level_mod: u64,
    max_cells: u64,
    allowance: u32,
    mem: &mut [u64],
    out: &mut [u64],
    count: &mut u64,
    steps: &mut u64,
    aside: &mut [u64; 6],
) -> u64
    ensures { Called (result_of (Kind.Outer Ending.Covering) (region_coverer min_level max_level level_mod max_cells 1) (cap_given x y z radius) allowance (length mem.old) (length out.old)) result mem.old mem.new out.old out.new count.new steps.new aside.new }
{
    let kind = Kind::Outer(Ending::Covering);
    let c = capi::coverer(min_level, max_level, level_mod, max_cells, 1);
    let g = Region::Cap(capi::cap(x, y, z, radius));
    capi::call(kind, c, g, allowance, mem, out, count, steps, aside)
}

#[unsafe(no_mangle)]
pub extern "C" fn flaxbadger_covering_cell(
    id: u64,
    min_level: u64,
    max_level: u64,
    level_mod: u64,
    max_cells: u64,
    allowance: u32,
    mem: &mut [u64],
    out: &mut [u64],
    count: &mut u64,
    steps: &mut u64,
    aside: &mut [u64; 6],
) -> u64
    ensures { Called (result_of (Kind.Outer Ending.Covering) (region_coverer min_level max_level level_mod max_cells 1) (cell_area id) allowance (length mem.old) (length out.old)) result mem.old mem.new out.old out.new count.new steps.new aside.new }
{
    let kind = Kind::Outer(Ending::Covering);
    let c = capi::coverer(min_level, max_level, level_mod, max_cells, 1);
    let g = Region::Cell(id);
    capi::call(kind, c, g, allowance, mem, out, count, steps, aside)
}

#[unsafe(no_mangle)]
pub extern "C" fn flaxbadger_covering_list(
    list: &[u64],
    min_level: u64,
    max_level: u64,
    level_mod: u64,
    max_cells: u64,
    allowance: u32,
    mem: &mut [u64],
    out: &mut [u64],
    count: &mut u64,
    steps: &mut u64,
    aside: &mut [u64; 6],
) -> u64
    ensures { Called (result_of (Kind.Outer Ending.Covering) (region_coverer min_level max_level level_mod max_cells 1) (list_area list.now) allowance (length mem.old) (length out.old)) result mem.old mem.new out.old out.new count.new steps.new aside.new }
{
    let kind = Kind::Outer(Ending::Covering);
    let c = capi::coverer(min_level, max_level, level_mod, max_cells, 1);
    let g = Region::List(list);
    capi::call(kind, c, g, allowance, mem, out, count, steps, aside)
}

// The outer run's raw list, normalised; nothing is promised of levels. Of a cap, a cell, a list.
#[unsafe(no_mangle)]
pub extern "C" fn flaxbadger_cellunion_cap(
    x: f64,
    y: f64,
    z: f64,
    radius: f64,
    min_level: u64,
    max_level: u64,
    level_mod: u64,
    max_cells: u64,
    allowance: u32,
    mem: &mut [u64],
    out: &mut [u64],
    count: &mut u64,
    steps: &mut u64,
    aside: &mut [u64; 6],
) -> u64
    ensures { Called (result_of (Kind.Outer Ending.CellUnion) (region_coverer min_level max_level level_mod max_cells 1) (cap_given x y z radius) allowance (length mem.old) (length out.old)) result mem.old mem.new out.old out.new count.new steps.new aside.new }
{
    let kind = Kind::Outer(Ending::CellUnion);
    let c = capi::coverer(min_level, max_level, level_mod, max_cells, 1);
    let g = Region::Cap(capi::cap(x, y, z, radius));
    capi::call(kind, c, g, allowance, mem, out, count, steps, aside)
}

#[unsafe(no_mangle)]
pub extern "C" fn flaxbadger_cellunion_cell(
    id: u64,
    min_level: u64,
    max_level: u64,
    level_mod: u64,
    max_cells: u64,
    allowance: u32,
    mem: &mut [u64],
    out: &mut [u64],
    count: &mut u64,
    steps: &mut u64,
    aside: &mut [u64; 6],
) -> u64
    ensures { Called (result_of (Kind.Outer Ending.CellUnion) (region_coverer min_level max_level level_mod max_cells 1) (cell_area id) allowance (length mem.old) (length out.old)) result mem.old mem.new out.old out.new count.new steps.new aside.new }
{
    let kind = Kind::Outer(Ending::CellUnion);
    let c = capi::coverer(min_level, max_level, level_mod, max_cells, 1);
    let g = Region::Cell(id);
    capi::call(kind, c, g, allowance, mem, out, count, steps, aside)
}

#[unsafe(no_mangle)]
pub extern "C" fn flaxbadger_cellunion_list(
    list: &[u64],
    min_level: u64,
    max_level: u64,
    level_mod: u64,
    max_cells: u64,
    allowance: u32,
    mem: &mut [u64],
    out: &mut [u64],
    count: &mut u64,
    steps: &mut u64,
    aside: &mut [u64; 6],
) -> u64
    ensures { Called (result_of (Kind.Outer Ending.CellUnion) (region_coverer min_level max_level level_mod max_cells 1) (list_area list.now) allowance (length mem.old) (length out.old)) result mem.old mem.new out.old out.new count.new steps.new aside.new }
{
    let kind = Kind::Outer(Ending::CellUnion);
    let c = capi::coverer(min_level, max_level, level_mod, max_cells, 1);
    let g = Region::List(list);
    capi::call(kind, c, g, allowance, mem, out, count, steps, aside)
}

// The outer run's raw list, in the order kept. Of a cap, a cell, a list.
#[unsafe(no_mangle)]
pub extern "C" fn flaxbadger_raw_cap(
    x: f64,
    y: f64,
    z: f64,
    radius: f64,
    min_level: u64,
    max_level: u64,
    level_mod: u64,
    max_cells: u64,
    allowance: u32,
    mem: &mut [u64],
    out: &mut [u64],
    count: &mut u64,
    steps: &mut u64,
    aside: &mut [u64; 6],
) -> u64
    ensures { Called (result_of (Kind.Outer Ending.Raw) (region_coverer min_level max_level level_mod max_cells 1) (cap_given x y z radius) allowance (length mem.old) (length out.old)) result mem.old mem.new out.old out.new count.new steps.new aside.new }
{
    let kind = Kind::Outer(Ending::Raw);
    let c = capi::coverer(min_level, max_level, level_mod, max_cells, 1);
    let g = Region::Cap(capi::cap(x, y, z, radius));
    capi::call(kind, c, g, allowance, mem, out, count, steps, aside)
}

#[unsafe(no_mangle)]
pub extern "C" fn flaxbadger_raw_cell(
    id: u64,
    min_level: u64,
    max_level: u64,
    level_mod: u64,
    max_cells: u64,
    allowance: u32,
    mem: &mut [u64],
    out: &mut [u64],
    count: &mut u64,
    steps: &mut u64,
    aside: &mut [u64; 6],
) -> u64
    ensures { Called (result_of (Kind.Outer Ending.Raw) (region_coverer min_level max_level level_mod max_cells 1) (cell_area id) allowance (length mem.old) (length out.old)) result mem.old mem.new out.old out.new count.new steps.new aside.new }
{
    let kind = Kind::Outer(Ending::Raw);
    let c = capi::coverer(min_level, max_level, level_mod, max_cells, 1);
    let g = Region::Cell(id);
    capi::call(kind, c, g, allowance, mem, out, count, steps, aside)
}

#[unsafe(no_mangle)]
pub extern "C" fn flaxbadger_raw_list(
    list: &[u64],
    min_level: u64,
    max_level: u64,
    level_mod: u64,
    max_cells: u64,
    allowance: u32,
    mem: &mut [u64],
    out: &mut [u64],
    count: &mut u64,
    steps: &mut u64,
    aside: &mut [u64; 6],
) -> u64
    ensures { Called (result_of (Kind.Outer Ending.Raw) (region_coverer min_level max_level level_mod max_cells 1) (list_area list.now) allowance (length mem.old) (length out.old)) result mem.old mem.new out.old out.new count.new steps.new aside.new }
{
    let kind = Kind::Outer(Ending::Raw);
    let c = capi::coverer(min_level, max_level, level_mod, max_cells, 1);
    let g = Region::List(list);
    capi::call(kind, c, g, allowance, mem, out, count, steps, aside)
}

// Cells inside the region, of levels min_level to max_level in whole steps of level_mod. Of a cap, a cell, a list.
#[unsafe(no_mangle)]
pub extern "C" fn flaxbadger_interior_covering_cap(
    x: f64,
    y: f64,
    z: f64,
    radius: f64,
    min_level: u64,
    max_level: u64,
    level_mod: u64,
    max_cells: u64,
    allowance: u32,
    mem: &mut [u64],
    out: &mut [u64],
    count: &mut u64,
    steps: &mut u64,
    aside: &mut [u64; 6],
) -> u64
    ensures { Called (result_of (Kind.Inner Ending.Covering) (region_coverer min_level max_level level_mod max_cells 1) (cap_given x y z radius) allowance (length mem.old) (length out.old)) result mem.old mem.new out.old out.new count.new steps.new aside.new }
{
    let kind = Kind::Inner(Ending::Covering);
    let c = capi::coverer(min_level, max_level, level_mod, max_cells, 1);
    let g = Region::Cap(capi::cap(x, y, z, radius));
    capi::call(kind, c, g, allowance, mem, out, count, steps, aside)
}

#[unsafe(no_mangle)]
pub extern "C" fn flaxbadger_interior_covering_cell(
    id: u64,
    min_level: u64,
    max_level: u64,
    level_mod: u64,
    max_cells: u64,
    allowance: u32,
    mem: &mut [u64],
    out: &mut [u64],
    count: &mut u64,
    steps: &mut u64,
    aside: &mut [u64; 6],
) -> u64
    ensures { Called (result_of (Kind.Inner Ending.Covering) (region_coverer min_level max_level level_mod max_cells 1) (cell_area id) allowance (length mem.old) (length out.old)) result mem.old mem.new out.old out.new count.new steps.new aside.new }
{
    let kind = Kind::Inner(Ending::Covering);
    let c = capi::coverer(min_level, max_level, level_mod, max_cells, 1);
    let g = Region::Cell(id);
    capi::call(kind, c, g, allowance, mem, out, count, steps, aside)
}

#[unsafe(no_mangle)]
pub extern "C" fn flaxbadger_interior_covering_list(
    list: &[u64],
    min_level: u64,
    max_level: u64,
    level_mod: u64,
    max_cells: u64,
    allowance: u32,
    mem: &mut [u64],
    out: &mut [u64],
    count: &mut u64,
    steps: &mut u64,
    aside: &mut [u64; 6],
) -> u64
    ensures { Called (result_of (Kind.Inner Ending.Covering) (region_coverer min_level max_level level_mod max_cells 1) (list_area list.now) allowance (length mem.old) (length out.old)) result mem.old mem.new out.old out.new count.new steps.new aside.new }
{
    let kind = Kind::Inner(Ending::Covering);
    let c = capi::coverer(min_level, max_level, level_mod, max_cells, 1);
    let g = Region::List(list);
    capi::call(kind, c, g, allowance, mem, out, count, steps, aside)
}

// The inner run's raw list, normalised; nothing is promised of levels. Of a cap, a cell, a list.
#[unsafe(no_mangle)]
pub extern "C" fn flaxbadger_interior_cellunion_cap(
    x: f64,
    y: f64,
    z: f64,
    radius: f64,
    min_level: u64,
    max_level: u64,
    level_mod: u64,
    max_cells: u64,
    allowance: u32,
    mem: &mut [u64],
    out: &mut [u64],
    count: &mut u64,
    steps: &mut u64,
    aside: &mut [u64; 6],
) -> u64
    ensures { Called (result_of (Kind.Inner Ending.CellUnion) (region_coverer min_level max_level level_mod max_cells 1) (cap_given x y z radius) allowance (length mem.old) (length out.old)) result mem.old mem.new out.old out.new count.new steps.new aside.new }
{
    let kind = Kind::Inner(Ending::CellUnion);
    let c = capi::coverer(min_level, max_level, level_mod, max_cells, 1);
    let g = Region::Cap(capi::cap(x, y, z, radius));
    capi::call(kind, c, g, allowance, mem, out, count, steps, aside)
}

#[unsafe(no_mangle)]
pub extern "C" fn flaxbadger_interior_cellunion_cell(
    id: u64,
    min_level: u64,
    max_level: u64,
    level_mod: u64,
    max_cells: u64,
    allowance: u32,
    mem: &mut [u64],
    out: &mut [u64],
    count: &mut u64,
    steps: &mut u64,
    aside: &mut [u64; 6],
) -> u64
    ensures { Called (result_of (Kind.Inner Ending.CellUnion) (region_coverer min_level max_level level_mod max_cells 1) (cell_area id) allowance (length mem.old) (length out.old)) result mem.old mem.new out.old out.new count.new steps.new aside.new }
{
    let kind = Kind::Inner(Ending::CellUnion);
    let c = capi::coverer(min_level, max_level, level_mod, max_cells, 1);
    let g = Region::Cell(id);
    capi::call(kind, c, g, allowance, mem, out, count, steps, aside)
}

#[unsafe(no_mangle)]
pub extern "C" fn flaxbadger_interior_cellunion_list(
    list: &[u64],
    min_level: u64,
    max_level: u64,
    level_mod: u64,
    max_cells: u64,
    allowance: u32,
    mem: &mut [u64],
    out: &mut [u64],
    count: &mut u64,
    steps: &mut u64,
    aside: &mut [u64; 6],
) -> u64
    ensures { Called (result_of (Kind.Inner Ending.CellUnion) (region_coverer min_level max_level level_mod max_cells 1) (list_area list.now) allowance (length mem.old) (length out.old)) result mem.old mem.new out.old out.new count.new steps.new aside.new }
{
    let kind = Kind::Inner(Ending::CellUnion);
    let c = capi::coverer(min_level, max_level, level_mod, max_cells, 1);
    let g = Region::List(list);
    capi::call(kind, c, g, allowance, mem, out, count, steps, aside)
}

// The inner run's raw list, in the order kept. Of a cap, a cell, a list.
#[unsafe(no_mangle)]
pub extern "C" fn flaxbadger_interior_raw_cap(
    x: f64,
    y: f64,
    z: f64,
    radius: f64,
    min_level: u64,
    max_level: u64,
    level_mod: u64,
    max_cells: u64,
    allowance: u32,
    mem: &mut [u64],
    out: &mut [u64],
    count: &mut u64,
    steps: &mut u64,
    aside: &mut [u64; 6],
) -> u64
    ensures { Called (result_of (Kind.Inner Ending.Raw) (region_coverer min_level max_level level_mod max_cells 1) (cap_given x y z radius) allowance (length mem.old) (length out.old)) result mem.old mem.new out.old out.new count.new steps.new aside.new }
{
    let kind = Kind::Inner(Ending::Raw);
    let c = capi::coverer(min_level, max_level, level_mod, max_cells, 1);
    let g = Region::Cap(capi::cap(x, y, z, radius));
    capi::call(kind, c, g, allowance, mem, out, count, steps, aside)
}

#[unsafe(no_mangle)]
pub extern "C" fn flaxbadger_interior_raw_cell(
    id: u64,
    min_level: u64,
    max_level: u64,
    level_mod: u64,
    max_cells: u64,
    allowance: u32,
    mem: &mut [u64],
    out: &mut [u64],
    count: &mut u64,
    steps: &mut u64,
    aside: &mut [u64; 6],
) -> u64
    ensures { Called (result_of (Kind.Inner Ending.Raw) (region_coverer min_level max_level level_mod max_cells 1) (cell_area id) allowance (length mem.old) (length out.old)) result mem.old mem.new out.old out.new count.new steps.new aside.new }
{
    let kind = Kind::Inner(Ending::Raw);
    let c = capi::coverer(min_level, max_level, level_mod, max_cells, 1);
    let g = Region::Cell(id);
    capi::call(kind, c, g, allowance, mem, out, count, steps, aside)
}

#[unsafe(no_mangle)]
pub extern "C" fn flaxbadger_interior_raw_list(
    list: &[u64],
    min_level: u64,
    max_level: u64,
    level_mod: u64,
    max_cells: u64,
    allowance: u32,
    mem: &mut [u64],
    out: &mut [u64],
    count: &mut u64,
    steps: &mut u64,
    aside: &mut [u64; 6],
) -> u64
    ensures { Called (result_of (Kind.Inner Ending.Raw) (region_coverer min_level max_level level_mod max_cells 1) (list_area list.now) allowance (length mem.old) (length out.old)) result mem.old mem.new out.old out.new count.new steps.new aside.new }
{
    let kind = Kind::Inner(Ending::Raw);
    let c = capi::coverer(min_level, max_level, level_mod, max_cells, 1);
    let g = Region::List(list);
    capi::call(kind, c, g, allowance, mem, out, count, steps, aside)
}

// The quick, coarse covering of the region's bound, with no run and 0 steps. Of a cap, a cell, a list.
#[unsafe(no_mangle)]
pub extern "C" fn flaxbadger_fast_covering_cap(
    x: f64,
    y: f64,
    z: f64,
    radius: f64,
    min_level: u64,
    max_level: u64,
    level_mod: u64,
    max_cells: u64,
    mem: &mut [u64],
    out: &mut [u64],
    count: &mut u64,
    steps: &mut u64,
    aside: &mut [u64; 6],
) -> u64
    ensures { Called (result_of Kind.Fast (region_coverer min_level max_level level_mod max_cells 1) (cap_given x y z radius) 0 (length mem.old) (length out.old)) result mem.old mem.new out.old out.new count.new steps.new aside.new }
{
    let kind = Kind::Fast;
    let c = capi::coverer(min_level, max_level, level_mod, max_cells, 1);
    let g = Region::Cap(capi::cap(x, y, z, radius));
    capi::call(kind, c, g, 0, mem, out, count, steps, aside)
}

#[unsafe(no_mangle)]
pub extern "C" fn flaxbadger_fast_covering_cell(
    id: u64,
    min_level: u64,
    max_level: u64,
    level_mod: u64,
    max_cells: u64,
    mem: &mut [u64],
    out: &mut [u64],
    count: &mut u64,
    steps: &mut u64,
    aside: &mut [u64; 6],
) -> u64
    ensures { Called (result_of Kind.Fast (region_coverer min_level max_level level_mod max_cells 1) (cell_area id) 0 (length mem.old) (length out.old)) result mem.old mem.new out.old out.new count.new steps.new aside.new }
{
    let kind = Kind::Fast;
    let c = capi::coverer(min_level, max_level, level_mod, max_cells, 1);
    let g = Region::Cell(id);
    capi::call(kind, c, g, 0, mem, out, count, steps, aside)
}

#[unsafe(no_mangle)]
pub extern "C" fn flaxbadger_fast_covering_list(
    list: &[u64],
    min_level: u64,
    max_level: u64,
    level_mod: u64,
    max_cells: u64,
    mem: &mut [u64],
    out: &mut [u64],
    count: &mut u64,
    steps: &mut u64,
    aside: &mut [u64; 6],
) -> u64
    ensures { Called (result_of Kind.Fast (region_coverer min_level max_level level_mod max_cells 1) (list_area list.now) 0 (length mem.old) (length out.old)) result mem.old mem.new out.old out.new count.new steps.new aside.new }
{
    let kind = Kind::Fast;
    let c = capi::coverer(min_level, max_level, level_mod, max_cells, 1);
    let g = Region::List(list);
    capi::call(kind, c, g, 0, mem, out, count, steps, aside)
}

// The covering, by the engines asked for. Of a cap, a cell, a list.
#[unsafe(no_mangle)]
pub extern "C" fn flaxbadger_covering_cap_by(
    engines: u64,
    x: f64,
    y: f64,
    z: f64,
    radius: f64,
    min_level: u64,
    max_level: u64,
    level_mod: u64,
    max_cells: u64,
    edition: u64,
    allowance: u32,
    mem: &mut [u64],
    out: &mut [u64],
    count: &mut u64,
    steps: &mut u64,
    aside: &mut [u64; 6],
    agree: &mut u64,
) -> u64
    ensures { CalledBy (result_of (Kind.Outer Ending.Covering) (region_coverer min_level max_level level_mod max_cells edition) (cap_given x y z radius) allowance (length mem.old) (length out.old)) result mem.old mem.new out.old out.new count.new steps.new aside.new agree.new }
{
    let kind = Kind::Outer(Ending::Covering);
    let c = capi::coverer(min_level, max_level, level_mod, max_cells, edition);
    let g = Region::Cap(capi::cap(x, y, z, radius));
    capi::call_by(
        engines, kind, c, g, allowance, mem, out, count, steps, aside, agree,
    )
}

#[unsafe(no_mangle)]
pub extern "C" fn flaxbadger_covering_cell_by(
    engines: u64,
    id: u64,
    min_level: u64,
    max_level: u64,
    level_mod: u64,
    max_cells: u64,
    edition: u64,
    allowance: u32,
    mem: &mut [u64],
    out: &mut [u64],
    count: &mut u64,
    steps: &mut u64,
    aside: &mut [u64; 6],
    agree: &mut u64,
) -> u64
    ensures { CalledBy (result_of (Kind.Outer Ending.Covering) (region_coverer min_level max_level level_mod max_cells edition) (cell_area id) allowance (length mem.old) (length out.old)) result mem.old mem.new out.old out.new count.new steps.new aside.new agree.new }
{
    let kind = Kind::Outer(Ending::Covering);
    let c = capi::coverer(min_level, max_level, level_mod, max_cells, edition);
    let g = Region::Cell(id);
    capi::call_by(
        engines, kind, c, g, allowance, mem, out, count, steps, aside, agree,
    )
}

#[unsafe(no_mangle)]
pub extern "C" fn flaxbadger_covering_list_by(
    engines: u64,
    list: &[u64],
    min_level: u64,
    max_level: u64,
    level_mod: u64,
    max_cells: u64,
    edition: u64,
    allowance: u32,
    mem: &mut [u64],
    out: &mut [u64],
    count: &mut u64,
    steps: &mut u64,
    aside: &mut [u64; 6],
    agree: &mut u64,
) -> u64
    ensures { CalledBy (result_of (Kind.Outer Ending.Covering) (region_coverer min_level max_level level_mod max_cells edition) (list_area list.now) allowance (length mem.old) (length out.old)) result mem.old mem.new out.old out.new count.new steps.new aside.new agree.new }
{
    let kind = Kind::Outer(Ending::Covering);
    let c = capi::coverer(min_level, max_level, level_mod, max_cells, edition);
    let g = Region::List(list);
    capi::call_by(
        engines, kind, c, g, allowance, mem, out, count, steps, aside, agree,
    )
}

// The outer run's raw list, normalised, by the engines asked for. Of a cap, a cell, a list.
#[unsafe(no_mangle)]
pub extern "C" fn flaxbadger_cellunion_cap_by(
    engines: u64,
    x: f64,
    y: f64,
    z: f64,
    radius: f64,
    min_level: u64,
    max_level: u64,
    level_mod: u64,
    max_cells: u64,
    edition: u64,
    allowance: u32,
    mem: &mut [u64],
    out: &mut [u64],
    count: &mut u64,
    steps: &mut u64,
    aside: &mut [u64; 6],
    agree: &mut u64,
) -> u64
    ensures { CalledBy (result_of (Kind.Outer Ending.CellUnion) (region_coverer min_level max_level level_mod max_cells edition) (cap_given x y z radius) allowance (length mem.old) (length out.old)) result mem.old mem.new out.old out.new count.new steps.new aside.new agree.new }
{
    let kind = Kind::Outer(Ending::CellUnion);
    let c = capi::coverer(min_level, max_level, level_mod, max_cells, edition);
    let g = Region::Cap(capi::cap(x, y, z, radius));
    capi::call_by(
        engines, kind, c, g, allowance, mem, out, count, steps, aside, agree,
    )
}

#[unsafe(no_mangle)]
pub extern "C" fn flaxbadger_cellunion_cell_by(
    engines: u64,
    id: u64,
    min_level: u64,
    max_level: u64,
    level_mod: u64,
    max_cells: u64,
    edition: u64,
    allowance: u32,
    mem: &mut [u64],
    out: &mut [u64],
    count: &mut u64,
    steps: &mut u64,
    aside: &mut [u64; 6],
    agree: &mut u64,
) -> u64
    ensures { CalledBy (result_of (Kind.Outer Ending.CellUnion) (region_coverer min_level max_level level_mod max_cells edition) (cell_area id) allowance (length mem.old) (length out.old)) result mem.old mem.new out.old out.new count.new steps.new aside.new agree.new }
{
    let kind = Kind::Outer(Ending::CellUnion);
    let c = capi::coverer(min_level, max_level, level_mod, max_cells, edition);
    let g = Region::Cell(id);
    capi::call_by(
        engines, kind, c, g, allowance, mem, out, count, steps, aside, agree,
    )
}

#[unsafe(no_mangle)]
pub extern "C" fn flaxbadger_cellunion_list_by(
    engines: u64,
    list: &[u64],
    min_level: u64,
    max_level: u64,
    level_mod: u64,
    max_cells: u64,
    edition: u64,
    allowance: u32,
    mem: &mut [u64],
    out: &mut [u64],
    count: &mut u64,
    steps: &mut u64,
    aside: &mut [u64; 6],
    agree: &mut u64,
) -> u64
    ensures { CalledBy (result_of (Kind.Outer Ending.CellUnion) (region_coverer min_level max_level level_mod max_cells edition) (list_area list.now) allowance (length mem.old) (length out.old)) result mem.old mem.new out.old out.new count.new steps.new aside.new agree.new }
{
    let kind = Kind::Outer(Ending::CellUnion);
    let c = capi::coverer(min_level, max_level, level_mod, max_cells, edition);
    let g = Region::List(list);
    capi::call_by(
        engines, kind, c, g, allowance, mem, out, count, steps, aside, agree,
    )
}

// The outer run's raw list, in the order kept, by the engines asked for. Of a cap, a cell, a list.
#[unsafe(no_mangle)]
pub extern "C" fn flaxbadger_raw_cap_by(
    engines: u64,
    x: f64,
    y: f64,
    z: f64,
    radius: f64,
    min_level: u64,
    max_level: u64,
    level_mod: u64,
    max_cells: u64,
    edition: u64,
    allowance: u32,
    mem: &mut [u64],
    out: &mut [u64],
    count: &mut u64,
    steps: &mut u64,
    aside: &mut [u64; 6],
    agree: &mut u64,
) -> u64
    ensures { CalledBy (result_of (Kind.Outer Ending.Raw) (region_coverer min_level max_level level_mod max_cells edition) (cap_given x y z radius) allowance (length mem.old) (length out.old)) result mem.old mem.new out.old out.new count.new steps.new aside.new agree.new }
{
    let kind = Kind::Outer(Ending::Raw);
    let c = capi::coverer(min_level, max_level, level_mod, max_cells, edition);
    let g = Region::Cap(capi::cap(x, y, z, radius));
    capi::call_by(
        engines, kind, c, g, allowance, mem, out, count, steps, aside, agree,
    )
}

#[unsafe(no_mangle)]
pub extern "C" fn flaxbadger_raw_cell_by(
    engines: u64,
    id: u64,
    min_level: u64,
    max_level: u64,
    level_mod: u64,
    max_cells: u64,
    edition: u64,
    allowance: u32,
    mem: &mut [u64],
    out: &mut [u64],
    count: &mut u64,
    steps: &mut u64,
    aside: &mut [u64; 6],
    agree: &mut u64,
) -> u64
    ensures { CalledBy (result_of (Kind.Outer Ending.Raw) (region_coverer min_level max_level level_mod max_cells edition) (cell_area id) allowance (length mem.old) (length out.old)) result mem.old mem.new out.old out.new count.new steps.new aside.new agree.new }
{
    let kind = Kind::Outer(Ending::Raw);
    let c = capi::coverer(min_level, max_level, level_mod, max_cells, edition);
    let g = Region::Cell(id);
    capi::call_by(
        engines, kind, c, g, allowance, mem, out, count, steps, aside, agree,
    )
}

#[unsafe(no_mangle)]
pub extern "C" fn flaxbadger_raw_list_by(
    engines: u64,
    list: &[u64],
    min_level: u64,
    max_level: u64,
    level_mod: u64,
    max_cells: u64,
    edition: u64,
    allowance: u32,
    mem: &mut [u64],
    out: &mut [u64],
    count: &mut u64,
    steps: &mut u64,
    aside: &mut [u64; 6],
    agree: &mut u64,
) -> u64
    ensures { CalledBy (result_of (Kind.Outer Ending.Raw) (region_coverer min_level max_level level_mod max_cells edition) (list_area list.now) allowance (length mem.old) (length out.old)) result mem.old mem.new out.old out.new count.new steps.new aside.new agree.new }
{
    let kind = Kind::Outer(Ending::Raw);
    let c = capi::coverer(min_level, max_level, level_mod, max_cells, edition);
    let g = Region::List(list);
    capi::call_by(
        engines, kind, c, g, allowance, mem, out, count, steps, aside, agree,
    )
}

// Cells inside the region, by the engines asked for. Of a cap, a cell, a list.
#[unsafe(no_mangle)]
pub extern "C" fn flaxbadger_interior_covering_cap_by(
    engines: u64,
    x: f64,
    y: f64,
    z: f64,
    radius: f64,
    min_level: u64,
    max_level: u64,
    level_mod: u64,
    max_cells: u64,
    edition: u64,
    allowance: u32,
    mem: &mut [u64],
    out: &mut [u64],
    count: &mut u64,
    steps: &mut u64,
    aside: &mut [u64; 6],
    agree: &mut u64,
) -> u64
    ensures { CalledBy (result_of (Kind.Inner Ending.Covering) (region_coverer min_level max_level level_mod max_cells edition) (cap_given x y z radius) allowance (length mem.old) (length out.old)) result mem.old mem.new out.old out.new count.new steps.new aside.new agree.new }
{
    let kind = Kind::Inner(Ending::Covering);
    let c = capi::coverer(min_level, max_level, level_mod, max_cells, edition);
    let g = Region::Cap(capi::cap(x, y, z, radius));
    capi::call_by(
        engines, kind, c, g, allowance, mem, out, count, steps, aside, agree,
    )
}

#[unsafe(no_mangle)]
pub extern "C" fn flaxbadger_interior_covering_cell_by(
    engines: u64,
    id: u64,
    min_level: u64,
    max_level: u64,
    level_mod: u64,
    max_cells: u64,
    edition: u64,
    allowance: u32,
    mem: &mut [u64],
    out: &mut [u64],
    count: &mut u64,
    steps: &mut u64,
    aside: &mut [u64; 6],
    agree: &mut u64,
) -> u64
    ensures { CalledBy (result_of (Kind.Inner Ending.Covering) (region_coverer min_level max_level level_mod max_cells edition) (cell_area id) allowance (length mem.old) (length out.old)) result mem.old mem.new out.old out.new count.new steps.new aside.new agree.new }
{
    let kind = Kind::Inner(Ending::Covering);
    let c = capi::coverer(min_level, max_level, level_mod, max_cells, edition);
    let g = Region::Cell(id);
    capi::call_by(
        engines, kind, c, g, allowance, mem, out, count, steps, aside, agree,
    )
}

#[unsafe(no_mangle)]
pub extern "C" fn flaxbadger_interior_covering_list_by(
    engines: u64,
    list: &[u64],
    min_level: u64,
    max_level: u64,
    level_mod: u64,
    max_cells: u64,
    edition: u64,
    allowance: u32,
    mem: &mut [u64],
    out: &mut [u64],
    count: &mut u64,
    steps: &mut u64,
    aside: &mut [u64; 6],
    agree: &mut u64,
) -> u64
    ensures { CalledBy (result_of (Kind.Inner Ending.Covering) (region_coverer min_level max_level level_mod max_cells edition) (list_area list.now) allowance (length mem.old) (length out.old)) result mem.old mem.new out.old out.new count.new steps.new aside.new agree.new }
{
    let kind = Kind::Inner(Ending::Covering);
    let c = capi::coverer(min_level, max_level, level_mod, max_cells, edition);
    let g = Region::List(list);
    capi::call_by(
        engines, kind, c, g, allowance, mem, out, count, steps, aside, agree,
    )
}

// The inner run's raw list, normalised, by the engines asked for. Of a cap, a cell, a list.
#[unsafe(no_mangle)]
pub extern "C" fn flaxbadger_interior_cellunion_cap_by(
    engines: u64,
    x: f64,
    y: f64,
    z: f64,
    radius: f64,
    min_level: u64,
    max_level: u64,
    level_mod: u64,
    max_cells: u64,
    edition: u64,
    allowance: u32,
    mem: &mut [u64],
    out: &mut [u64],
    count: &mut u64,
    steps: &mut u64,
    aside: &mut [u64; 6],
    agree: &mut u64,
) -> u64
    ensures { CalledBy (result_of (Kind.Inner Ending.CellUnion) (region_coverer min_level max_level level_mod max_cells edition) (cap_given x y z radius) allowance (length mem.old) (length out.old)) result mem.old mem.new out.old out.new count.new steps.new aside.new agree.new }
{
    let kind = Kind::Inner(Ending::CellUnion);
    let c = capi::coverer(min_level, max_level, level_mod, max_cells, edition);
    let g = Region::Cap(capi::cap(x, y, z, radius));
    capi::call_by(
        engines, kind, c, g, allowance, mem, out, count, steps, aside, agree,
    )
}

#[unsafe(no_mangle)]
pub extern "C" fn flaxbadger_interior_cellunion_cell_by(
    engines: u64,
    id: u64,
    min_level: u64,
    max_level: u64,
    level_mod: u64,
    max_cells: u64,
    edition: u64,
    allowance: u32,
    mem: &mut [u64],
    out: &mut [u64],
    count: &mut u64,
    steps: &mut u64,
    aside: &mut [u64; 6],
    agree: &mut u64,
) -> u64
    ensures { CalledBy (result_of (Kind.Inner Ending.CellUnion) (region_coverer min_level max_level level_mod max_cells edition) (cell_area id) allowance (length mem.old) (length out.old)) result mem.old mem.new out.old out.new count.new steps.new aside.new agree.new }
{
    let kind = Kind::Inner(Ending::CellUnion);
    let c = capi::coverer(min_level, max_level, level_mod, max_cells, edition);
    let g = Region::Cell(id);
    capi::call_by(
        engines, kind, c, g, allowance, mem, out, count, steps, aside, agree,
    )
}

#[unsafe(no_mangle)]
pub extern "C" fn flaxbadger_interior_cellunion_list_by(
    engines: u64,
    list: &[u64],
    min_level: u64,
    max_level: u64,
    level_mod: u64,
    max_cells: u64,
    edition: u64,
    allowance: u32,
    mem: &mut [u64],
    out: &mut [u64],
    count: &mut u64,
    steps: &mut u64,
    aside: &mut [u64; 6],
    agree: &mut u64,
) -> u64
    ensures { CalledBy (result_of (Kind.Inner Ending.CellUnion) (region_coverer min_level max_level level_mod max_cells edition) (list_area list.now) allowance (length mem.old) (length out.old)) result mem.old mem.new out.old out.new count.new steps.new aside.new agree.new }
{
    let kind = Kind::Inner(Ending::CellUnion);
    let c = capi::coverer(min_level, max_level, level_mod, max_cells, edition);
    let g = Region::List(list);
    capi::call_by(
        engines, kind, c, g, allowance, mem, out, count, steps, aside, agree,
    )
}

// The inner run's raw list, in the order kept, by the engines asked for. Of a cap, a cell, a list.
#[unsafe(no_mangle)]
pub extern "C" fn flaxbadger_interior_raw_cap_by(
    engines: u64,
    x: f64,
    y: f64,
    z: f64,
    radius: f64,
    min_level: u64,
    max_level: u64,
    level_mod: u64,
    max_cells: u64,
    edition: u64,
    allowance: u32,
    mem: &mut [u64],
    out: &mut [u64],
    count: &mut u64,
    steps: &mut u64,
    aside: &mut [u64; 6],
    agree: &mut u64,
) -> u64
    ensures { CalledBy (result_of (Kind.Inner Ending.Raw) (region_coverer min_level max_level level_mod max_cells edition) (cap_given x y z radius) allowance (length mem.old) (length out.old)) result mem.old mem.new out.old out.new count.new steps.new aside.new agree.new }
{
    let kind = Kind::Inner(Ending::Raw);
    let c = capi::coverer(min_level, max_level, level_mod, max_cells, edition);
    let g = Region::Cap(capi::cap(x, y, z, radius));
    capi::call_by(
        engines, kind, c, g, allowance, mem, out, count, steps, aside, agree,
    )
}

#[unsafe(no_mangle)]
pub extern "C" fn flaxbadger_interior_raw_cell_by(
    engines: u64,
    id: u64,
    min_level: u64,
    max_level: u64,
    level_mod: u64,
    max_cells: u64,
    edition: u64,
    allowance: u32,
    mem: &mut [u64],
    out: &mut [u64],
    count: &mut u64,
    steps: &mut u64,
    aside: &mut [u64; 6],
    agree: &mut u64,
) -> u64
    ensures { CalledBy (result_of (Kind.Inner Ending.Raw) (region_coverer min_level max_level level_mod max_cells edition) (cell_area id) allowance (length mem.old) (length out.old)) result mem.old mem.new out.old out.new count.new steps.new aside.new agree.new }
{
    let kind = Kind::Inner(Ending::Raw);
    let c = capi::coverer(min_level, max_level, level_mod, max_cells, edition);
    let g = Region::Cell(id);
    capi::call_by(
        engines, kind, c, g, allowance, mem, out, count, steps, aside, agree,
    )
}

#[unsafe(no_mangle)]
pub extern "C" fn flaxbadger_interior_raw_list_by(
    engines: u64,
    list: &[u64],
    min_level: u64,
    max_level: u64,
    level_mod: u64,
    max_cells: u64,
    edition: u64,
    allowance: u32,
    mem: &mut [u64],
    out: &mut [u64],
    count: &mut u64,
    steps: &mut u64,
    aside: &mut [u64; 6],
    agree: &mut u64,
) -> u64
    ensures { CalledBy (result_of (Kind.Inner Ending.Raw) (region_coverer min_level max_level level_mod max_cells edition) (list_area list.now) allowance (length mem.old) (length out.old)) result mem.old mem.new out.old out.new count.new steps.new aside.new agree.new }
{
    let kind = Kind::Inner(Ending::Raw);
    let c = capi::coverer(min_level, max_level, level_mod, max_cells, edition);
    let g = Region::List(list);
    capi::call_by(
        engines, kind, c, g, allowance, mem, out, count, steps, aside, agree,
    )
}

// A list as pairs of first and last leaf, neighbouring pairs joined.
#[unsafe(no_mangle)]
pub extern "C" fn flaxbadger_ranges(ids: &[u64], out: &mut [u64], count: &mut u64) -> u64
    ensures { CalledOf (pairs_result ids.now (length out.old)) result out.old out.new count.new }
{
    capi::tell_words(ranges::pairs(ids, out), count)
}

// Such pairs as the normalised list of their leaves.
#[unsafe(no_mangle)]
pub extern "C" fn flaxbadger_cells(pairs: &[u64], out: &mut [u64], count: &mut u64) -> u64
    ensures { CalledOf (cells_result pairs.now (length out.old)) result out.old out.new count.new }
{
    capi::tell_words(ranges::cells(pairs, out), count)
}

// The leaves of either list, normalised.
#[unsafe(no_mangle)]
pub extern "C" fn flaxbadger_union(
    first: &[u64],
    second: &[u64],
    out: &mut [u64],
    count: &mut u64,
) -> u64
    ensures { CalledOf (set_result Op.Union first.now second.now (length out.old)) result out.old out.new count.new }
{
    capi::tell_words(sets::combine(Op::Union, first, second, out), count)
}

// The leaves of both lists, normalised.
#[unsafe(no_mangle)]
pub extern "C" fn flaxbadger_common(
    first: &[u64],
    second: &[u64],
    out: &mut [u64],
    count: &mut u64,
) -> u64
    ensures { CalledOf (set_result Op.Common first.now second.now (length out.old)) result out.old out.new count.new }
{
    capi::tell_words(sets::combine(Op::Common, first, second, out), count)
}

// The leaves of the first list alone, normalised.
#[unsafe(no_mangle)]
pub extern "C" fn flaxbadger_difference(
    first: &[u64],
    second: &[u64],
    out: &mut [u64],
    count: &mut u64,
) -> u64
    ensures { CalledOf (set_result Op.Difference first.now second.now (length out.old)) result out.old out.new count.new }
{
    capi::tell_words(sets::combine(Op::Difference, first, second, out), count)
}

// A list as a text, a token a line.
#[unsafe(no_mangle)]
pub extern "C" fn flaxbadger_write_tokens(
    ids: &[u64],
    text: &mut [u8],
    count: &mut u64,
    first: &mut u64,
) -> u64
    ensures { NamesCalled (write_result Form.Token ids.now (length text.old)) result text.old text.new count.new first.new }
{
    capi::tell_names(tokens::write(Form::Token, ids, text), count, first)
}

// Such a text as the list.
#[unsafe(no_mangle)]
pub extern "C" fn flaxbadger_read_tokens(
    text: &[u8],
    ids: &mut [u64],
    count: &mut u64,
    first: &mut u64,
) -> u64
    ensures { NamesCalled (read_result Form.Token text.now (length ids.old)) result ids.old ids.new count.new first.new }
{
    capi::tell_names(tokens::read(Form::Token, text, ids), count, first)
}

// A night's orders, one after another: each record is answered as the functions above answer it alone, with the room that the orders before it left.
#[unsafe(no_mangle)]
pub extern "C" fn flaxbadger_night(orders: &mut [Order], mem: &mut [u64], out: &mut [u64]) -> u64
    ensures { NightCalled orders.old orders.new result mem.old mem.new out.old out.new }
{
    refusal::number(orders::night(orders, mem, out))
}

// The archive for other languages: each call of `raudvisk` under its own name, as C sees it.

#![tactic(auto)]

ghost use Rattle.std.specs.Prelude.{◌≡◌, min, length};
ghost use Rattle.paths.specs.EliminatedBytes.{EliminatedBytes};
ghost use Rattle.ranges.specs.Given.{RangeGiven};
ghost use Rattle.raudvisk.specs.ArrayCalls.{StartedHost, RanHost};
ghost use Rattle.raudvisk.specs.RoadCalls.{RoadReadHost};
ghost use Rattle.sheet_form.specs.Sheet.{sheet_of};
ghost use Rattle.systolic.specs.Run.{ran};
ghost use Rattle.text.specs.Page.{overwritten};
ghost use Rattle.ways.specs.Given.{WayGivenHost};

#[unsafe(no_mangle)]
pub extern "C" fn array_start(
    algebras: &[u16],
    order: usize,
    sizes: &[u16],
    weights: &[u16],
    state: &mut [u16],
) -> u32
    ensures { StartedHost result algebras.now order sizes.now weights.now state.old state.new }
{
    raudvisk::array_start(algebras, order, sizes, weights, state)
}

#[unsafe(no_mangle)]
pub extern "C" fn array_run(
    state: &mut [u16],
    algebras: &[u16],
    sizes: &[u16],
    weights: &[u16],
    allowance: u16,
    scratch: &mut [u16],
    results: &mut [u16],
    made: &mut u16,
) -> u32
    ensures { RanHost result made.old made.new state.new scratch.new results.new
        (ran state.old algebras.now sizes.now weights.now allowance scratch.old
        results.old) }
{
    raudvisk::array_run(
        state, algebras, sizes, weights, allowance, scratch, results, made,
    )
}

#[unsafe(no_mangle)]
pub extern "C" fn interval_close_range(
    algebra: u32,
    size: usize,
    best: &[u16],
    worst: &[u16],
    best_result: &mut [u16],
    worst_result: &mut [u16],
) -> u32
    ensures { RangeGiven result algebra size best.now worst.now
        best_result.old worst_result.old best_result.new worst_result.new }
{
    raudvisk::interval_close_range(algebra, size, best, worst, best_result, worst_result)
}

#[unsafe(no_mangle)]
pub extern "C" fn paths_eliminate(algebra: u32, size: usize, weights: &[u8], res: &mut [u8]) -> u32
    ensures { EliminatedBytes result algebra size weights.now res.old res.new }
{
    raudvisk::paths_eliminate(algebra, size, weights, res)
}

#[unsafe(no_mangle)]
pub extern "C" fn road_read(file: &[u8], table: &mut [u16], points: &mut usize) -> u32
    ensures { RoadReadHost (length table.old) file.now result points.old points.new table.new }
{
    raudvisk::road_read(file, table, points)
}

#[unsafe(no_mangle)]
pub extern "C" fn sheet_print(text: &[u8], page: &mut [u8]) -> usize
    ensures outcome { result ≡ min (length page.old) (length (sheet_of text.now)) }
    ensures memory { page.new ≡ overwritten (sheet_of text.now) page.old }
{
    raudvisk::sheet_print(text, page)
}

#[unsafe(no_mangle)]
pub extern "C" fn traceback_way(
    algebra: u32,
    size: usize,
    links: &[u16],
    closed: &[u16],
    from: usize,
    to: usize,
    list: &mut [u16],
    length: &mut usize,
) -> u32
    ensures { WayGivenHost result algebra size links.now closed.now from to
        list.old list.new length.old length.new }
{
    raudvisk::traceback_way(algebra, size, links, closed, from, to, list, length)
}

// The bench cards of document 01, run: one line for each.

#![tactic(auto)]

mod array_cards;
mod limit_cards;
mod listing_card;
mod machine;
mod scratch_cards;
mod table_cards;
mod verdict;
mod way_cards;
mod wrong_cards;

use std::io;
use verdict::tell;

// Each card is told before the next one runs: in one array of their verdicts all would run before the first line, and on a
// larger stack.
fn main(rt: HostRuntime) -> io::Result<()> {
    tell(&rt, "B1", table_cards::one_point())?;
    tell(&rt, "B2", table_cards::one_point_reach())?;
    tell(&rt, "B3", table_cards::distance())?;
    tell(&rt, "B4", table_cards::steepest())?;
    tell(&rt, "B5", table_cards::reach())?;
    tell(&rt, "B6", table_cards::longest())?;
    tell(&rt, "B7", table_cards::far())?;
    tell(&rt, "B8", array_cards::one_cell())?;
    tell(&rt, "B9", listing_card::listing())?;
    tell(&rt, "B10", array_cards::two_jobs())?;
    tell(&rt, "B11", limit_cards::all())?;
    tell(
        &rt,
        "elimination, B3 in bytes",
        table_cards::distance_bytes(),
    )?;
    tell(&rt, "elimination, last pass", table_cards::last_pass())?;
    tell(
        &rt,
        "elimination, 65534 in steepest",
        table_cards::steepest_65534(),
    )?;
    tell(&rt, "array, far and none", array_cards::far())?;
    tell(&rt, "array, third pass", array_cards::third_pass())?;
    tell(&rt, "array, three algebras", array_cards::three_algebras())?;
    tell(&rt, "array, lists of algebras", array_cards::algebras())?;
    tell(&rt, "array, zero ticks", limit_cards::zero_ticks())?;
    tell(
        &rt,
        "array, two lines of scratch",
        scratch_cards::two_lines(),
    )?;
    tell(&rt, "sheet, three algebras", listing_card::mixed())?;
    tell(&rt, "way, two of one word", way_cards::two_ways())?;
    tell(&rt, "way, a point to itself", way_cards::alone())?;
    tell(&rt, "way, none", way_cards::no_way())?;
    tell(&rt, "way, a point outside", way_cards::outside())?;
    tell(&rt, "way, other lists", way_cards::other_lists())?;
    wrong_cards::tell_all(&rt)
}

// The refusals 1 to 6 and 14, which come before anything is touched: of a request's numbers, of its edition, of its region and of the working memory, each by
// itself and one after another in the papers' order.
#![tactic(auto)]

ghost use Rattle.std.specs.Prelude.{◌≡◌};
ghost use Rattle.region.specs.Region.{area_of};
ghost use Rattle.bars.specs.Bars.{numbers_bar, edition_bar, region_bar, memory_bar, bar_of};

use refusal::Refusal;
use region::Region;
use run::{MEMORY_WORDS, RegionCoverer};

// 1 to 4: the request's numbers.
pub fn numbers_bar(c: RegionCoverer) -> Result<(), Refusal>
    ensures { result ≡ numbers_bar c }
{
    if c.max_level > 30 {
        Err(Refusal::MaxLevel)
    } else if c.max_level < c.min_level {
        Err(Refusal::MinLevel)
    } else if !(1..=3).contains(&c.level_mod) {
        Err(Refusal::LevelMod)
    } else if c.max_cells > 1000 {
        Err(Refusal::MaxCells)
    } else {
        Ok(())
    }
}

// 14: the edition of the queue's order.
pub fn edition_bar(n: u64) -> Result<(), Refusal>
    ensures { result ≡ edition_bar n }
{
    if (1..=2).contains(&n) {
        Ok(())
    } else {
        Err(Refusal::Edition)
    }
}

// 5: the region.
pub fn region_bar(g: Region<'_>) -> Result<(), Refusal>
    ensures { result ≡ region_bar (area_of g.entry) }
{
    if g.in_domain() {
        Ok(())
    } else {
        Err(Refusal::Region)
    }
}

// 6: the working memory.
pub fn memory_bar(words: usize) -> Result<(), Refusal>
    ensures { result ≡ memory_bar words }
{
    if words < MEMORY_WORDS {
        Err(Refusal::Memory)
    } else {
        Ok(())
    }
}

// The first of these refusals that is to be given, if any.
#[tactic(auto, unfolding(crate::specs::Bars::bar_of))]
pub fn first_refusal(c: RegionCoverer, g: Region<'_>, words: usize) -> Result<(), Refusal>
    ensures { result ≡ bar_of c (area_of g.entry) words }
{
    numbers_bar(c)?;
    edition_bar(c.edition)?;
    region_bar(g)?;
    memory_bar(words)
}

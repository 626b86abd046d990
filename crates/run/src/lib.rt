// The defined run of paper 01 and what follows from it: specs/ and proofs/. The code that follows it is in the crates candidate, queue and coverer;
// here are only the types that it speaks of, what is asked and what an expansion answers with, and the sizes.
#![tactic(auto)]

// The most that the queue and the raw list hold, and where they stand in the working memory: the queue's records in the first words, four a record, the kept
// ids behind them.
pub const QUEUE_MOST: usize = 1024;

pub const RAW_MOST: usize = 1024;

pub const QUEUE_WORDS: usize = 4096;

pub const MEMORY_WORDS: usize = 5120;

// The numbers of a request: those of region.rs's RegionCoverer, and the edition of the queue's order.
#[repr(C)]
#[derive(Clone, Copy)]
pub struct RegionCoverer {
    pub min_level: u64,
    pub max_level: u64,
    pub level_mod: u64,
    pub max_cells: u64,
    pub edition: u64,
}

// What is asked of a run: the numbers, and which of the two kinds it is, an outer or an inner one.
#[derive(Clone, Copy)]
pub struct Request {
    pub coverer: RegionCoverer,
    pub inner: bool,
}

// An expansion's children as two 64-bit sets by Hilbert place: which are there, and which of those are terminal.
#[derive(Clone, Copy)]
pub struct Found {
    pub present: u64,
    pub terminal: u64,
}

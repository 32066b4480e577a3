//! How much a round of each workload does.

use crate::small::Batches;

/// How much a round of a workload does.
pub(crate) struct Sizes {
    /// How often a value is looked for. Which of two `Local`s finds it goes by the bits of the
    /// look's number that are in the mask.
    pub(crate) hits: u64,
    pub(crate) mask: u64,
    pub(crate) tables: u64,
    pub(crate) locals: u64,
    pub(crate) reserved: u32,
    pub(crate) values: u32,
    /// Tables of few values, and how often one of 8 or of 64 values is walked over.
    pub(crate) fresh: Batches,
    pub(crate) eight: Batches,
    pub(crate) lengths: Batches,
    pub(crate) storm: Batches,
    pub(crate) eight_walks: u32,
    pub(crate) sixty_four_walks: u32,
    /// Values that lie in the processor's cache, how often they are walked over, in how many tables
    /// they are published, and large values.
    pub(crate) near: u32,
    pub(crate) walks: u32,
    pub(crate) near_tables: u32,
    pub(crate) cleared: Batches,
    pub(crate) large: u32,
    pub(crate) sparse: u32,
    pub(crate) room: u32,
    /// Ids that are held, and how often one is taken and given back.
    pub(crate) held: u32,
    pub(crate) few: u64,
    pub(crate) pairs: u64,
    pub(crate) numbers: u64,
    pub(crate) counts: u64,
    pub(crate) threads: u64,
    /// How often each thread uses a value of a pool that it has alone, and a value of its own.
    pub(crate) uses: u64,
    pub(crate) own_uses: u64,
    /// How often each of four threads takes a `Local` and drops it, and how many values they publish.
    pub(crate) shared_locals: u64,
    pub(crate) shared_values: u32,
}

pub(crate) const MANY: Sizes = Sizes {
    hits: 50_000_000,
    mask: 1,
    tables: 1_000_000,
    locals: 10_000_000,
    reserved: (1 << 20) - 1,
    values: 1 << 20,
    fresh: Batches {
        values: 0,
        tables: 64,
        times: 8_000,
    },
    eight: Batches {
        values: 8,
        tables: 64,
        times: 2_000,
    },
    lengths: Batches {
        values: 8,
        tables: 16,
        times: 25_000,
    },
    storm: Batches {
        values: 0,
        tables: 20_000,
        times: 1,
    },
    eight_walks: 400_000,
    sixty_four_walks: 100_000,
    near: 1023,
    walks: 20_000,
    near_tables: 1_000,
    cleared: Batches {
        values: 1023,
        tables: 1000,
        times: 2,
    },
    large: 1 << 18,
    sparse: 1 << 14,
    room: 1 << 20,
    held: 100_000,
    few: 10_000_000,
    pairs: 5_000_000,
    numbers: 4_000_000,
    counts: 10_000_000,
    threads: 2_000,
    uses: 800_000,
    own_uses: 10_000_000,
    shared_locals: 100_000,
    shared_values: 1 << 20,
};

pub(crate) const FEW: Sizes = Sizes {
    hits: 100,
    mask: 0,
    tables: 100,
    locals: 100,
    reserved: 100,
    values: 100,
    fresh: Batches {
        values: 0,
        tables: 4,
        times: 2,
    },
    eight: Batches {
        values: 8,
        tables: 4,
        times: 2,
    },
    lengths: Batches {
        values: 8,
        tables: 4,
        times: 2,
    },
    storm: Batches {
        values: 0,
        tables: 10,
        times: 1,
    },
    eight_walks: 10,
    sixty_four_walks: 10,
    near: 100,
    walks: 10,
    near_tables: 2,
    cleared: Batches {
        values: 100,
        tables: 2,
        times: 2,
    },
    large: 100,
    sparse: 10,
    room: 100,
    held: 100,
    few: 100,
    pairs: 100,
    numbers: 100,
    counts: 100,
    threads: 10,
    uses: 160,
    own_uses: 100,
    shared_locals: 100,
    shared_values: 100,
};

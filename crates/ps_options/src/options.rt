//! How a query is run.
ghost use Rattle.std.specs.Prelude.{◌≡◌, ◌≤◌, ◌<◌, ◌⊎◌, ◌^◌, IfSome, IfNone};

/// How many workers run a query, how many rows a morsel has at most, into how many partitions keys are spread, and the
/// seed by which they are spread. None of these changes which tables may be answered.
///
/// Whoever has options knows their ranges: they are a part of the type.
#[derive(Clone, Copy, Debug, PartialEq, Eq)]
pub struct Options {
    workers: usize,
    morsel_rows: usize,
    partitions: usize,
    seed: u64,
    pub ghost some_workers: { 1 ≤ workers },
    pub ghost few_workers: { workers ≤ 256 },
    pub ghost some_rows: { 1 ≤ morsel_rows },
    pub ghost few_rows: { morsel_rows ≤ 2 ^ 20 },
    pub ghost some_partitions: { 1 ≤ partitions },
    pub ghost few_partitions: { partitions ≤ 1024 },
}

impl Options {
    /// The options of 1 to 256 workers, 1 to 2^20 rows a morsel, 1 to 1024 partitions and any seed; none outside these.
    pub fn new(workers: usize, morsel_rows: usize, partitions: usize, seed: u64) -> Option<Options>
        ensures some { IfSome result (λ o. (o.workers ≡ workers) × (o.morsel_rows ≡ morsel_rows) × (o.partitions ≡ partitions) × (o.seed ≡ seed)) }
        ensures within { IfSome result (λ _. ((1 ≤ workers) × (workers ≤ 256)) × ((1 ≤ morsel_rows) × (morsel_rows ≤ 2 ^ 20)) × ((1 ≤ partitions) × (partitions ≤ 1024))) }
        ensures none { IfNone result (((workers < 1) ⊎ (256 < workers)) ⊎ ((morsel_rows < 1) ⊎ (2 ^ 20 < morsel_rows)) ⊎ ((partitions < 1) ⊎ (1024 < partitions))) }
    {
        if workers < 1 || workers > 256 {
            return None;
        }
        if morsel_rows < 1 || morsel_rows > 1 << 20 {
            return None;
        }
        if partitions < 1 || partitions > 1024 {
            return None;
        }
        Some(Options {
            workers,
            morsel_rows,
            partitions,
            seed,
        })
    }

    /// How many workers run a query: 1 to 256.
    pub fn workers(&self) -> usize
        ensures { result ≡ self.now.workers }
    {
        self.workers
    }

    /// How many rows a morsel has at most: 1 to 2^20.
    pub fn morsel_rows(&self) -> usize
        ensures { result ≡ self.now.morsel_rows }
    {
        self.morsel_rows
    }

    /// Into how many partitions keys are spread: 1 to 1024.
    pub fn partitions(&self) -> usize
        ensures { result ≡ self.now.partitions }
    {
        self.partitions
    }

    /// The seed by which keys are spread.
    pub fn seed(&self) -> u64
        ensures { result ≡ self.now.seed }
    {
        self.seed
    }
}

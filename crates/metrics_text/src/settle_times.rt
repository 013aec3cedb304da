//! How long settles took, as a histogram: docs/SERVING.md, "Metrics".

ghost use Rattle.std.specs.Prelude.{◌≡◌, ◌+◌, ◌-◌, ◌^◌, min};
ghost use Rattle.std.specs.List.{position};
ghost use Rattle.metrics_text.specs.SettleTimes.{after_settle, counted_at, empty_bucket, holds, no_settles, with_one_more};

/// How many settles took at most a time, and longer than that of the bucket before.
#[derive(Clone, Copy, Debug, PartialEq, Eq)]
pub struct SettleBucket {
    /// The time, in microseconds.
    pub most: u64,
    /// How many settles.
    pub count: u64,
}

impl SettleBucket {
    /// No settle took so long.
    fn new(most: u64) -> SettleBucket
        ensures { result ≡ empty_bucket most }
    {
        SettleBucket { most, count: 0 }
    }

    /// Whether a settle of so many microseconds took at most its time.
    fn holds(&self, micros: u64) -> bool
        ensures { result ≡ holds micros self.now }
    {
        micros <= self.most
    }

    /// With one settle more.
    fn with_one_more(self) -> SettleBucket
        ensures { result ≡ with_one_more self }
    {
        SettleBucket {
            most: self.most,
            count: self.count.saturating_add(1),
        }
    }
}

/// How long settles took. No number passes the last `u64`.
#[derive(Clone, Copy, Debug, PartialEq, Eq)]
pub struct SettleTimes {
    /// By rising times, from 50 microseconds to 5 seconds.
    pub buckets: [SettleBucket; 16],
    /// Microseconds that all settles took, also longer ones.
    pub micros: u64,
    /// How many settles there were.
    pub count: u64,
}

impl SettleTimes {
    /// There was no settle.
    pub fn new() -> SettleTimes
        ensures { result ≡ no_settles }
    {
        SettleTimes {
            buckets: [
                SettleBucket::new(50),
                SettleBucket::new(100),
                SettleBucket::new(250),
                SettleBucket::new(500),
                SettleBucket::new(1_000),
                SettleBucket::new(2_500),
                SettleBucket::new(5_000),
                SettleBucket::new(10_000),
                SettleBucket::new(25_000),
                SettleBucket::new(50_000),
                SettleBucket::new(100_000),
                SettleBucket::new(250_000),
                SettleBucket::new(500_000),
                SettleBucket::new(1_000_000),
                SettleBucket::new(2_500_000),
                SettleBucket::new(5_000_000),
            ],
            micros: 0,
            count: 0,
        }
    }

    /// A settle was made, which took so many microseconds. It counts in the first bucket whose time it did not pass, if there is
    /// one.
    pub fn note(&mut self, micros: u64)
        ensures { self.new ≡ after_settle micros self.old }
    {
        let found = self.bucket_of(micros);
        self.count_at(found);
        self.micros = self.micros.saturating_add(micros);
        self.count = self.count.saturating_add(1);
    }

    /// The first bucket whose time a settle of so many microseconds did not pass.
    fn bucket_of(&self, micros: u64) -> Option<usize>
        ensures { result ≡ position (holds micros) self.now.buckets }
    {
        self.buckets.iter().position(|bucket| bucket.holds(micros))
    }

    fn count_at(&mut self, found: Option<usize>)
        ensures { self.new ≡ record self.old { buckets = counted_at found self.old.buckets } }
    {
        if let Some(index) = found {
            if index < self.buckets.len() {
                self.buckets[index] = self.buckets[index].with_one_more();
            }
        }
    }
}

//! How many recordings the server begins by itself within a short time. docs/SERVING.md, "Recording without being asked".

ghost use Rattle.std.specs.Prelude.{◌≡◌, nat_lt};
ghost use Rattle.server_recorder.specs.Tokens.{came_back, tokens_at, without_token};

/// Recordings that may begin within a short time.
const MOST: u64 = 64;
/// Milliseconds after which one more may begin.
const PAUSE: u64 = 15_000;

/// How many recordings may begin now: at most 64, and one more each 15,000 milliseconds.
#[derive(Clone, Copy, Debug, PartialEq, Eq)]
pub(crate) struct Tokens {
    /// How many may.
    pub left: u64,
    /// Since when the next one is on its way, in milliseconds.
    pub since: u64,
}

impl Tokens {
    /// All of 64.
    pub fn new() -> Tokens
        ensures { result ≡ record { left = 64; since = 0 } }
    {
        Tokens {
            left: MOST,
            since: 0,
        }
    }

    /// Whether a recording may begin now.
    pub fn has_one(&self, now: u64) -> bool
        ensures { result ≡ nat_lt 0 (tokens_at now self.now).left }
    {
        self.at(now).left > 0
    }

    /// A recording began now.
    pub fn take(&mut self, now: u64)
        ensures { self.new ≡ without_token (tokens_at now self.old) }
    {
        let tokens = self.at(now);
        self.left = tokens.left.saturating_sub(1);
        self.since = tokens.since;
    }

    /// How many may begin at a time.
    fn at(&self, now: u64) -> Tokens
        ensures { result ≡ tokens_at now self.now }
    {
        let came = self.came_back(now);
        if MOST.saturating_sub(self.left) <= came {
            Tokens {
                left: MOST,
                since: now,
            }
        } else {
            Tokens {
                left: self.left + came,
                since: self.since + came * PAUSE,
            }
        }
    }

    fn came_back(&self, now: u64) -> u64
        ensures { result ≡ came_back now self.now }
    {
        now.saturating_sub(self.since) / PAUSE
    }
}

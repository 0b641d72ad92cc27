// How much a core takes.
ghost use Rattle.std.specs.Prelude.{◌≡◌};
ghost use Rattle.rt_world.specs.World.{full_limits, limits_from};
ghost use Rattle.rt_world.specs.Limited.{AreLimits};

/// The most listeners that are registered at once.
pub const MAX_LISTENERS: u32 = 65536;

/// The most requests that are unsettled at once.
pub const MAX_REQUESTS: u32 = 65536;

/// The largest number of a listener, a request or a tag: JavaScript has all up to here exactly.
pub const MAX_NUMBER: u64 = 9007199254740991;

/// The most listeners, the most unsettled requests, and the last number that a listener, a request
/// or a tag may have.
#[derive(Clone, Copy, Debug, PartialEq, Eq)]
pub struct Limits {
    pub listeners: u32,
    pub requests: u32,
    pub last_number: u64,
}

impl Limits {
    /// The most that a core takes: [`MAX_LISTENERS`], [`MAX_REQUESTS`], [`MAX_NUMBER`].
    pub fn full() -> Limits
        ensures { result ≡ full_limits }
    {
        Limits {
            listeners: MAX_LISTENERS,
            requests: MAX_REQUESTS,
            last_number: MAX_NUMBER,
        }
    }

    /// These limits within what a core takes: a 0 counts as 1, and more than the most as the most.
    pub fn within_full(self) -> Limits
        ensures made { result ≡ limits_from self }
        ensures within { AreLimits result }
    {
        Limits {
            listeners: self.listeners.max(1).min(MAX_LISTENERS),
            requests: self.requests.max(1).min(MAX_REQUESTS),
            last_number: self.last_number.max(1).min(MAX_NUMBER),
        }
    }
}

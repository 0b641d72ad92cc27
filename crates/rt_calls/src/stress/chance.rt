// Numbers by chance, the same for the same seed.

#[derive(Drop)]
pub(crate) struct Chance {
    state: u64,
}

impl Chance {
    // For one of a run's threads.
    pub(crate) fn new(seed: u64, place: u64) -> Chance {
        let state = seed.wrapping_mul(0x9E37_79B9_7F4A_7C15);
        Chance {
            state: state.wrapping_add(place.wrapping_mul(7919)),
        }
    }

    // A number below that one, or 0.
    pub(crate) fn below(&mut self, bound: u64) -> u64 {
        let state = self.state.wrapping_mul(6_364_136_223_846_793_005);
        self.state = state.wrapping_add(1_442_695_040_888_963_407);
        (self.state >> 33).checked_rem(bound).unwrap_or(0)
    }

    // Whether one of so many chances has come.
    pub(crate) fn once_in(&mut self, count: u64) -> bool {
        self.below(count) == 0
    }

    // One of these texts.
    pub(crate) fn of<'a>(&mut self, texts: &[&'a str]) -> &'a str {
        let place = self.below(texts.len() as u64) as usize;
        match texts.get(place) {
            Some(text) => *text,
            None => "",
        }
    }

    // One of these numbers; none where there are none.
    pub(crate) fn number(&mut self, numbers: &[u64]) -> Option<u64> {
        let place = self.below(numbers.len() as u64) as usize;
        numbers.get(place).copied()
    }
}

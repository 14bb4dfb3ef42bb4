// What the backward check holds before a frame.
ghost use Rattle.std.specs.Prelude.{◌<◌, ◌^◌};

// What the frames from some frame on reserve: at the level of that frame and at one level more, and a charge that no
// reserve is above. `after` and `above` are what both levels reserve after that frame; `above` is for the contract
// alone.
#[derive(Clone, Copy)]
pub struct Weight {
    pub level: u64,
    pub low: u64,
    pub high: u64,
    pub gap: u64,
    pub after: u64,
    pub above: u64,
    pub ghost low_fits: { low < 2 ^ 32 },
    pub ghost high_fits: { high < 2 ^ 32 },
    pub ghost after_fits: { after < 2 ^ 32 },
}

// What a level and one level more reserve after a frame.
#[derive(Clone, Copy)]
pub struct Turned {
    pub low: u64,
    pub high: u64,
    pub ghost low_fits: { low < 2 ^ 32 },
    pub ghost high_fits: { high < 2 ^ 32 },
}

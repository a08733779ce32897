// Times in three units, which cannot be taken for each other. Each conversion has a name and says when it is exact.
// No sum or product wraps: a time past the end of the scale counts as the longest.
#![tactic(auto)]

ghost use Rattle.std.specs.Prelude.{◌≡◌, ◌+◌, ◌*◌, max, ltb};
ghost use Rattle.unit.specs.Time.{capped, in_micros, on_raster};

// A time in nanoseconds; also the length of one step of a raster.
#[derive(Clone, Copy, PartialEq, Eq, PartialOrd)]
pub struct Nanos(pub u64);

// A time in microseconds.
#[derive(Clone, Copy)]
pub struct Micros(pub u64);

// A time as a number of steps of a raster.
#[derive(Clone, Copy)]
pub struct RasterCount(pub u64);

// The rasters of a file, in the paper's order; 0 ns is none.
#[derive(Clone, Copy)]
pub struct Rasters {
    pub gradient: Nanos,
    pub rf: Nanos,
    pub adc: Nanos,
    pub block: Nanos,
}

impl Micros {
    // The same time in nanoseconds.
    pub fn nanos(self) -> Nanos
        ensures { result.0 ≡ capped (self.0 * 1000) }
    {
        Nanos(self.0.saturating_mul(1000))
    }
}

impl RasterCount {
    // So many steps of a raster, in nanoseconds.
    pub fn nanos(self, raster: Nanos) -> Nanos
        ensures { result.0 ≡ capped (self.0 * raster.0) }
    {
        Nanos(self.0.saturating_mul(raster.0))
    }
}

impl Nanos {
    // This time as whole microseconds, where it is that.
    pub fn micros(self) -> Option<Micros>
        ensures { result ≡ in_micros self.0 }
    {
        self.0.is_multiple_of(1000).then_some(Micros(self.0 / 1000))
    }

    // This time as whole steps of a raster, where it is that.
    pub fn steps(self, raster: Nanos) -> Option<RasterCount>
        ensures { result ≡ on_raster self.0 raster.0 }
    {
        if raster.0 == 0 || self.0 % raster.0 != 0 {
            return None;
        }
        Some(RasterCount(self.0 / raster.0))
    }

    // One time after the other.
    pub fn plus(self, other: Nanos) -> Nanos
        ensures { result.0 ≡ capped (self.0 + other.0) }
    {
        Nanos(self.0.saturating_add(other.0))
    }

    // The longer of two times.
    pub fn longer(self, other: Nanos) -> Nanos
        ensures { result.0 ≡ max self.0 other.0 }
    {
        Nanos(self.0.max(other.0))
    }

    // Is this time longer than the other?
    pub fn exceeds(self, other: Nanos) -> bool
        ensures { result ≡ ltb other.0 self.0 }
    {
        other < self
    }
}

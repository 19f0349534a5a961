//! Where a time stands in the picture, from left to right.

/// Where the time 0 stands, in tenths of a pixel.
const LEFT: u64 = 1_300;

/// The width of the lanes in tenths of a pixel: 14 pixels a step; where that is wide, 4 pixels a step, or 12 for each mark where that is less; and
/// never more than 24,000 pixels.
const WIDE_STEP: u64 = 140;

const NARROW_STEP: u64 = 40;

const MARK: u64 = 120;

const WIDE: u64 = 12_000;

const LEAST: u64 = 6_000;

const MOST: u64 = 240_000;

/// The least distance of two marks of the axis, in tenths of a pixel.
const TICK: u64 = 500;

/// How times become places.
#[derive(Clone, Copy)]
pub(crate) struct Scale {
    end: u64,
    /// How many steps are one unit, which is 1 but in runs of more than 2^40 steps; and how many units there are.
    unit: u64,
    units: u64,
    width: u64,
}

impl Scale {
    /// The scale of a picture that ends at this time and has so many marks.
    pub(crate) fn to(end: u64, marks: usize) -> Scale {
        let unit = (end >> 40).saturating_add(1);
        let units = end.checked_div(unit).unwrap_or(0).max(1);
        let wide = units.saturating_mul(WIDE_STEP);
        let least = units
            .saturating_mul(NARROW_STEP)
            .min((marks as u64).saturating_mul(MARK));
        let narrow = least.max(WIDE).min(MOST);
        Scale {
            end,
            unit,
            units,
            width: wide.min(narrow).max(LEAST),
        }
    }

    /// The place of a time, in tenths of a pixel from the left.
    pub(crate) fn at(self, time: u64) -> u64 {
        let units = time.checked_div(self.unit).unwrap_or(0).min(self.units);
        let along = units.saturating_mul(self.width).checked_div(self.units);
        LEFT.saturating_add(along.unwrap_or(0))
    }

    /// The last time.
    pub(crate) fn end(self) -> u64 {
        self.end
    }

    /// Where the lanes begin and end.
    pub(crate) fn left(self) -> u64 {
        LEFT
    }

    pub(crate) fn right(self) -> u64 {
        LEFT.saturating_add(self.width)
    }

    /// The time from one mark of the axis to the next: 1, 2 or 5, or a power of ten times that.
    pub(crate) fn tick(self) -> u64 {
        let most = self.width.checked_div(TICK).unwrap_or(1);
        let mut power: u64 = 1;
        for _ in 0..20 {
            for digit in [1, 2, 5] {
                let gap = power.saturating_mul(digit);
                if self.end.checked_div(gap).unwrap_or(0) <= most {
                    return gap;
                }
            }
            power = power.saturating_mul(10);
        }
        power
    }
}

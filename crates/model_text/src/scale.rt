// The scale of a model: how many decimals its numbers are written with.
ghost use Rattle.std.specs.Prelude.{◌≡◌, ◌≤◌, nat_le, ◌&&◌, if◌then◌else◌, Some, None};
ghost use Rattle.model_text.specs.Scale.{IsScale, cost_decimals, decimals_most, plain, with_decimals};

/// The most decimals of flows, and of tensions.
pub const DECIMALS_MOST: u8 = 6;

/// Version 1 has whole numbers. Version 2 writes flows and tensions with decimals, and a cost, a value or a base with both
/// counts together. Inside, all numbers are whole: they count units of the last decimal.
#[derive(Clone, Copy, PartialEq, Eq, Debug)]
pub struct Scale {
    pub version: u8,
    pub flow: u8,
    pub tension: u8,
}

impl Scale {
    /// Whole numbers, as version 1 has them.
    pub const PLAIN: Scale = Scale {
        version: 1,
        flow: 0,
        tension: 0,
    };

    /// So many decimals of flows and of tensions, in version 2.
    pub fn of(flow: u8, tension: u8) -> Option<Scale>
        ensures { result ≡ (if nat_le flow decimals_most && nat_le tension decimals_most then Some (with_decimals flow tension) else None) }
    {
        if flow <= DECIMALS_MOST && tension <= DECIMALS_MOST {
            Some(Scale {
                version: 2,
                flow,
                tension,
            })
        } else {
            None
        }
    }

    /// The decimals of a cost, a value and a base.
    pub fn cost(self) -> u8
        requires { IsScale self }
        ensures is { result ≡ cost_decimals self }
        ensures most { result ≤ 12 }
    {
        self.flow + self.tension
    }
}

// Quotients and remainders by products that are exact for all that they are asked for: nothing is divided here.
// A function here requires what makes its product exact.
ghost use Rattle.std.specs.Prelude.{◌≡◌, ◌+◌, ◌*◌, ◌-◌, ◌/◌, ◌%◌, ◌^◌, ◌<◌, ◌≤◌};
ghost use Rattle.part.specs.Device.{block_fuses};

use super::KnownDevice;

// A quotient, and what is left.
#[derive(Clone, Copy)]
pub struct QuotientAndRest {
    pub quotient: u32,
    pub rest: u32,
}

impl QuotientAndRest {
    // The same, counted from a quotient that is not above it.
    pub fn after(self, before: u32) -> QuotientAndRest
        requires { before ≤ self.quotient }
        ensures { (result.quotient ≡ self.quotient - before) × (result.rest ≡ self.rest) }
    {
        QuotientAndRest {
            quotient: self.quotient - before,
            rest: self.rest,
        }
    }
}

// A product, shifted: what stands here for a division. For a divisor d the factor is 2^shift / d, rounded up. Those of
// fuse to address are typed, since a constant that divides would be a division in its source; the proofs show that each
// is the right one.
pub fn shifted_product(x: u32, factor: u64, shift: u32) -> u32
    requires { (shift < 64) × (x * factor < 2 ^ 64) × (x * factor / 2 ^ shift < 2 ^ 32) }
    ensures { result ≡ x * factor / 2 ^ shift }
{
    ((x as u64 * factor) >> shift) as u32
}

// x divided by d, where the product is the quotient: for x that is small enough, which each caller shows. The product
// is wide, so that one function serves all.
pub fn divided(x: u32, d: u32, factor: u64, shift: u32) -> QuotientAndRest
    requires { (shift < 64) × (x * factor < 2 ^ 64) × (x * factor / 2 ^ shift ≡ x / d) }
    ensures { (result.quotient ≡ x / d) × (result.rest ≡ x % d) }
{
    let quotient = shifted_product(x, factor, shift);
    QuotientAndRest {
        quotient,
        rest: x - quotient * d,
    }
}

// The factors that divide by 6 and by 7, the widths of the narrow columns, with the shift 8.
pub const MAIN_COLUMN_FACTOR: u64 = 43;

pub const WIRE_AND_COLUMN_FACTOR: u64 = 37;

// The factor that divides the number of a fuse by the fuses of a block, with the shift 32.
pub fn block_factor(d: KnownDevice) -> u64
    ensures { result ≡ 2 ^ 32 / block_fuses d.device + 1 }
{
    let n = d.blocks();
    match n {
        2 => 473432,
        4 => 414253,
        6 => 368225,
        8 => 331402,
        12 => 276169,
        _ => 236716,
    }
}

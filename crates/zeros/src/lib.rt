#![tactic(auto)]
// Zeros all over a slice, whatever its length: what a freed place and an empty table hold (document 01, 'Close' and 'The channel table').
ghost use Rattle.std.specs.Prelude.{◌≡◌, length, replicate};

// A type of cells that can be put to zero. A copy of its zero is its zero, and making one takes no memory.
pub trait HasZero: Copy {
    ghost ZERO: { Self };

    const ZERO: Self;

    ghost is_made: { Self.is_infallible ZERO };

    ghost is_same: { (copy : Self) → Self.is_clone ZERO copy → copy ≡ ZERO };
}

impl HasZero for u64 {
    ghost ZERO = { 0 };

    const ZERO: u64 = 0;

    ghost is_made = { tt };

    ghost is_same = { λ _ same. same };
}

impl HasZero for u32 {
    ghost ZERO = { 0 };

    const ZERO: u32 = 0;

    ghost is_made = { tt };

    ghost is_same = { λ _ same. same };
}

impl HasZero for u8 {
    ghost ZERO = { 0 };

    const ZERO: u8 = 0;

    ghost is_made = { tt };

    ghost is_same = { λ _ same. same };
}

pub fn zero<T: HasZero>(cells: &mut [T])
    ensures { cells.new ≡ replicate (length cells.old) T.ZERO }
{
    cells.fill(T::ZERO);
}

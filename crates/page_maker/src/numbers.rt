//! The numbers that choose the items: a linear congruential generator of 31 bits.

ghost use Rattle.std.specs.Prelude.{◌≡◌};
ghost use Rattle.page_maker.specs.Made.{next, kind};

// The number behind `number`.
#[tactic(auto, unfolding(crate::specs::Made::next))]
pub(crate) fn next(number: u32) -> u32
    ensures { result ≡ next number }
{
    let stretched = number as u64 * 1_103_515_245 + 12_345;
    (stretched % 2_147_483_648) as u32
}

// The kind of the item that `number` chooses, one of eight.
#[tactic(auto, unfolding(crate::specs::Made::kind))]
pub(crate) fn kind(number: u32) -> u32
    ensures { result ≡ kind number }
{
    number / 65_536 % 8
}

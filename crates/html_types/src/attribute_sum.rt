//! Sums of attributes, which their order doesn't change.

ghost use Rattle.std.specs.Prelude.{◌≡◌, IfOk};
ghost use Rattle.html_types.specs.Sums.{text_sum, pair_sum, HasSum};

use crate::attributes::Attribute;
use crate::memory::NoMemory;
use crate::name_index::NameIndex;
use crate::text::Text;
use std::alloc::Global;

// An odd number, of which the high bits of a product are spread.
const FACTOR: u64 = 0x9e37_79b9_7f4a_7c15;

// The number of a text, from one that stands for what goes before it.
#[tactic(auto, unfolding(crate::specs::Sums::text_sum))]
fn text_sum(start: u64, text: &Text) -> u64
    ensures { result ≡ text_sum start text.now }
{
    let mut sum = start;
    for c in text.as_str().chars() {
        sum = sum.wrapping_add(u64::from(c)).wrapping_mul(FACTOR);
    }
    sum
}

// The number of an attribute. Others mostly have another; which ones don't is not secret.
#[tactic(auto, unfolding(crate::specs::Sums::pair_sum))]
fn pair_sum(attribute: &Attribute) -> u64
    ensures { result ≡ pair_sum attribute.now }
{
    let name = text_sum(0, &attribute.name).wrapping_mul(FACTOR);
    text_sum(name, &attribute.value)
}

/// The sum of the numbers of attributes, unless two of them have the same name.
pub(crate) fn distinct_sum(alloc: Global, attributes: &[Attribute]) -> Result<Option<u64>, NoMemory>
    ensures { IfOk result (λ sum. HasSum attributes.now sum) }
{
    let mut names = NameIndex::new(alloc);
    let mut sum = 0u64;
    let mut left = attributes;
    'attributes: while let Some((last, front)) = left.split_last() {
        if names.has(&last.name) {
            return Ok(None);
        }
        names.add(alloc, &last.name)?;
        sum = sum.wrapping_add(pair_sum(last));
        left = front;
    }
    Ok(Some(sum))
}

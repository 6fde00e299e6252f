// Steps of reading a page, the same for each kind of page.

ghost use Rattle.std.specs.Prelude.{◌≡◌, ◌+◌, ◌≤◌, length, IfSome};
ghost use Rattle.pm_types.specs.declared.limits.TheConstants.{PAGE_BYTES};
ghost use Rattle.pm_image.specs.Answers.{answer};
ghost use Rattle.pm_image.specs.Steps.{magic_at, other_byte, rest_at};

use crate::PageFault;

// The page begins with these four bytes.
#[tactic(auto, unfolding(crate::specs::Steps::magic_at))]
pub(crate) fn check_magic(magic: &[u8; 4], page: &[u8]) -> Result<(), PageFault>
    requires { length page.now ≡ PAGE_BYTES }
    ensures { result ≡ answer (magic_at magic.now page.now) }
{
    if page[..4] != magic[..] {
        return Err(PageFault::Malformed(0));
    }
    Ok(())
}

// How far from this place on the first byte stands that is not 0.
fn other_byte(page: &[u8], place: usize) -> Option<usize>
    requires { place ≤ length page.now }
    ensures exact { result ≡ other_byte page.now place }
    ensures inside { IfSome result (λ ahead. place + ahead ≤ length page.now) }
{
    page[place..].iter().position(|byte| *byte != 0)
}

// From this place on there are only zeros.
#[tactic(auto, unfolding(crate::specs::Steps::rest_at))]
pub(crate) fn check_rest(page: &[u8], place: usize) -> Result<(), PageFault>
    requires whole { length page.now ≡ PAGE_BYTES }
    requires inside { place ≤ PAGE_BYTES }
    ensures { result ≡ answer (rest_at page.now place) }
{
    match other_byte(page, place) {
        Some(ahead) => Err(PageFault::Malformed((place + ahead) as u32)),
        None => Ok(()),
    }
}

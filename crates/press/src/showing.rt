// Showing: the shorter current form.
ghost use Rattle.std.specs.Prelude.{◌≡◌};
ghost use Rattle.claim.specs.Showing.{shows_right, show, part_of};

use words::workspace::sized;

// Whether the right form is shown: it has no more words than the left one.
pub fn shows_right(left_length: usize, right_length: usize) -> bool
    ensures { result ≡ shows_right left_length right_length }
{
    right_length <= left_length
}

// The shorter current form, a part of the workspace that holds it, the right one at equal lengths; the empty start of the left one where refusal 7 or
// 10 is met. No Option: the contract says where the empty part starts (`part_of`), and C gets its length.
pub fn show<'a>(
    left: &'a [u32],
    right: &'a [u32],
    left_length: usize,
    right_length: usize,
) -> &'a [u32]
    ensures { (result.ref_ptr, result.now) ≡ part_of left.entry.ref_ptr right.entry.ref_ptr left.now right.now (show left.now right.now left_length right_length) }
{
    let nothing = &left[..0];
    if !sized(left.len(), right.len(), left.len()) {
        return nothing;
    }
    if !terms::is_term(left, left_length) {
        return nothing;
    }
    if !terms::is_term(right, right_length) {
        return nothing;
    }
    if shows_right(left_length, right_length) {
        return &right[..right_length];
    }
    &left[..left_length]
}

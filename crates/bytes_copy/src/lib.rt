// Bytes copied to the front of a lent slice.
#![tactic(auto)]

ghost use Rattle.std.specs.Prelude.{◌≡◌};
ghost use Rattle.bytes_number.specs.WorkingLays.{laid_if_room};

// Copies src to the front of dst, if there is room for it.
pub fn copy(src: &[u8], dst: &mut [u8])
    ensures { dst.new ≡ laid_if_room src.now dst.old }
{
    if src.len() <= dst.len() {
        dst[..src.len()].copy_from_slice(src);
    }
}

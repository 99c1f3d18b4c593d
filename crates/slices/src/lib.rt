// Copying into a lent slice that keeps its rest; and a lent buffer that is filled from its front, one thing after the other.
#![tactic(auto)]

ghost use Rattle.std.specs.Prelude.{◌≡◌, ◌≤◌, length};
ghost use Rattle.slices.specs.Copying.{at_front};
ghost use Rattle.slices.specs.Filling.{HasRoom, Puts};

#[inline(always)]
pub fn copy<T: Copy>(out: &mut [T], items: &[T])
    requires { length items.now ≤ length out.old }
    ensures { out.new ≡ at_front items.now out.old }
{
    out[..items.len()].copy_from_slice(items);
}

// A lent buffer that is filled from its front, and how far it is filled.
#[derive(Drop)]
pub struct Filling<'a> {
    pub out: &'a mut [u8],
    pub at: usize,
}

impl<'a> Filling<'a> {
    #[inline(always)]
    #[tactic(auto, unfolding(crate::specs::Filling::filled))]
    pub fn put(&mut self, bytes: &[u8])
        requires { HasRoom self.old bytes.now }
        ensures { Puts self.old bytes.now self.new }
    {
        copy(&mut self.out[self.at..], bytes);
        self.at += bytes.len();
    }
}

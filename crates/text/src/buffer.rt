// A buffer that is written as far as it goes.
ghost use Rattle.std.specs.Prelude.{◌≡◌, slice_set};

// Past the buffer's end nothing is written. Words and bytes are lent, and none are answered: the runner's rating allocates nothing.
pub fn put_at<T: Copy>(buf: &mut [T], at: usize, x: T)
    ensures { buf.new ≡ slice_set buf.old at x }
{
    // by index: a proof does not know what is written through `get_mut`
    if at < buf.len() {
        buf[at] = x;
    }
}

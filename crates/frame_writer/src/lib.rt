// Writing frames into a table's own buffer. Document 02, "Frames from the compiler's report".
#![tactic(auto)]

ghost use Rattle.std.specs.Prelude.{◌≡◌, ◌+◌, ◌*◌, ◌/◌, ◌%◌, ◌≤◌, length, get_or, set};
ghost use Rattle.frame_writer.specs.Frames.{FramesSet};

// The frame of function f: "Then come three 16-bit little-endian numbers a, b, c."
fn write_frame(t: &mut [u8], f: usize, frame: u16)
    requires { f * 8 + 8 ≤ length t.old }
    ensures { t.new ≡ set (set t.old (f * 8 + 6) (frame % 256)) (f * 8 + 7) (frame / 256) }
{
    let [low, high] = frame.to_le_bytes();
    let at = f * 8 + 6;
    t[at] = low;
    t[at + 1] = high;
}

// Function f's frame becomes frames[f]. The caller passes one for each function of the table.
pub fn write_frames(t: &mut [u8], frames: &[u16])
    requires { length frames.now * 8 ≤ length t.old }
    ensures { FramesSet t.old (length frames.now) (λ f. get_or frames.now f 0) t.new }
{
    for (f, frame) in frames.iter().enumerate() {
        write_frame(t, f, *frame);
    }
}

ghost use Rattle.std.specs.Prelude.{◌≡◌, ◌+◌, ◌-◌, ◌<◌, ◌≤◌, length, take, drop};
ghost use Rattle.model.specs.State.{without};

use crate::tools::remove_at;

// No VecDeque: the steps read and write one slice, and `make_contiguous` would move all waiting messages at a call, which the
// window avoids. Pushing may also ask for memory, which a call that cannot fail must not.

/// Takes out what stands at a place of a table that begins at `head` of a buffer, and of which the first `used` places are in
/// use. Gives where the table begins then. Those move that are fewer: the later ones up, or the earlier ones back.
pub fn take_out<A: Copy>(
    buffer: &mut [A],
    head: usize,
    room: usize,
    used: usize,
    at: usize,
) -> usize
    requires there { at < used }
    requires fits { used ≤ room }
    requires within { head + room ≤ length buffer.old }
    requires slack { room < length buffer.old }
    ensures within { result + room ≤ length buffer.old }
    ensures gone { take (used - 1) (drop result buffer.new) ≡ without (take used (drop head buffer.old)) at }
{
    if used - at <= at {
        remove_at(&mut buffer[head..], used, at);
        return head;
    }
    let head = before_end(buffer, head, room, used);
    remove_back(&mut buffer[head..], at);
    head + 1
}

// Takes out what stands at a place by letting those before it move back: the first place is free then.
fn remove_back<A: Copy>(table: &mut [A], at: usize)
    requires { at < length table.old }
    ensures { drop 1 table.new ≡ without table.old at }
{
    table.copy_within(0..at, 1);
}

// Moves a table that reaches the end of the buffer to its beginning. Gives where it begins then.
fn before_end<A: Copy>(buffer: &mut [A], head: usize, room: usize, used: usize) -> usize
    requires fits { used ≤ room }
    requires within { head + room ≤ length buffer.old }
    requires slack { room < length buffer.old }
    ensures within { result + room < length buffer.old }
    ensures same { take used (drop result buffer.new) ≡ take used (drop head buffer.old) }
{
    if head + room < buffer.len() {
        return head;
    }
    buffer.copy_within(head..head + used, 0);
    0
}

ghost use Rattle.std.specs.Prelude.{◌≡◌, ◌+◌, ◌-◌, ◌<◌, ◌≤◌, [], ◌∷◌, ◌++◌, length, take, MatchResult};
ghost use Rattle.model.specs.State.{stored, without};
ghost use Rattle.model.specs.Deliveries.{carried, to_all};
ghost use Rattle.model.specs.declared.answers.Refusal.{Refusal as ModelRefusal};
ghost use Rattle.steps.specs.Posting.{sent_to};

use model::{Message, Party, Refusal};
use tables::Numbers;

/// The place of a message, if one waits there.
pub fn place_of(numbers: &Numbers, place: u32) -> Result<usize, Refusal>
    ensures { MatchResult result (λ at. (at ≡ place) × (place < numbers.now.waiting))
        (λ e. (e ≡ ModelRefusal.NoMessage) × (numbers.now.waiting ≤ place)) }
{
    let at = place as usize;
    if at >= numbers.waiting {
        return Err(Refusal::NoMessage);
    }
    Ok(at)
}

/// Takes out what stands at a place of the first `used`, and lets the later ones move up.
pub fn remove_at<A: Copy>(table: &mut [A], used: usize, at: usize)
    requires { (at < used) × (used ≤ length table.old) }
    ensures { table.new ≡ stored (without (take used table.old) at) table.old }
{
    table.copy_within(at + 1..used, at);
}

/// Adds an item behind the first `used`.
pub fn append<A: Copy>(table: &mut [A], used: usize, item: A)
    requires { used < length table.old }
    ensures { table.new ≡ stored (take used table.old ++ item ∷ []) table.old }
{
    table[used] = item;
}

/// Adds a copy of the message for each replica below `size`, in their order. The receiver that the message comes with is not
/// looked at: a type without it would be a `Message` but for one field.
pub fn send_all<F: Copy>(messages: &mut [Message<F>], used: usize, size: u32, message: Message<F>)
    requires { used + size ≤ length messages.old }
    ensures { messages.new ≡ stored (take used messages.old
        ++ to_all size message.kind message.operation message.sender (carried message)) messages.old }
{
    // An index: nothing is known of what was written through an adapter of `iter_mut`.
    for c in 0..size {
        messages[used + c as usize] = addressed(message, Party::Replica(c));
    }
}

// The same message to another receiver.
fn addressed<F: Copy>(message: Message<F>, receiver: Party) -> Message<F>
    ensures { result ≡ sent_to message receiver }
{
    Message {
        receiver,
        ..message
    }
}

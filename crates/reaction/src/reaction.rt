ghost use Rattle.std.specs.Prelude.{◌≡◌};
ghost use Rattle.model.specs.State.{unused};
ghost use Rattle.reaction.specs.Reactions.{nothing as no_reaction, posting as only_post, at_replica as replica_reaction};
ghost use Rattle.reaction.specs.Reactions.{at_reader as reader_reaction, at_writer as writer_reaction, answer_to};

use model::{Message, MessageKind, Party, Reader, RelayMark, Replica, Writer};

// A stamp and its figure stand side by side, as in the records of the tables, from and to which they are copied.

/// What a step sends.
#[derive(Clone, Copy)]
pub enum Post<F> {
    Nothing,
    One(Message<F>),
    /// One message to every replica.
    All {
        kind: MessageKind,
        operation: u16,
        sender: Party,
        stamp: u32,
        figure: F,
    },
}

/// An operation finishes with this stamp and figure, after so many exchanges.
#[derive(Clone, Copy)]
pub struct Finish<F> {
    pub operation: u16,
    pub stamp: u32,
    pub figure: F,
    pub exchanges: u8,
}

/// What a delivered message does: which records change, each with its place and its new content, what finishes, and what
/// is sent. It is worked out before anything is altered.
// No enum of cases: which records change is decided field by field, and each field is applied by one `change`.
#[derive(Clone, Copy)]
pub struct Reaction<F> {
    pub replica: Option<(usize, Replica<F>)>,
    pub mark: Option<(usize, RelayMark)>,
    pub reader: Option<(usize, Reader<F>)>,
    pub writer: Option<Writer>,
    pub finish: Option<Finish<F>>,
    pub post: Post<F>,
}

/// What a reader does after a message that counted.
#[derive(Clone, Copy)]
pub enum Move {
    Wait,
    /// It places its best in the replicas.
    PlaceBest,
    /// Its read finishes after so many exchanges.
    Finish(u8),
}

impl<F: Copy> Reaction<F> {
    /// Nothing changes, and nothing is sent.
    pub fn nothing() -> Self
        ensures { result ≡ no_reaction }
    {
        Reaction {
            replica: None,
            mark: None,
            reader: None,
            writer: None,
            finish: None,
            post: Post::Nothing,
        }
    }

    /// Nothing changes, and this is sent.
    pub fn posting(post: Post<F>) -> Self
        ensures { result ≡ only_post post }
    {
        Reaction {
            post,
            ..Reaction::nothing()
        }
    }

    /// Replica c becomes this, and so may a mark.
    pub fn at_replica(
        c: u32,
        replica: Replica<F>,
        mark: Option<(usize, RelayMark)>,
        post: Post<F>,
    ) -> Self
        ensures { result ≡ replica_reaction c replica mark post }
    {
        Reaction {
            replica: Some((c as usize, replica)),
            mark,
            post,
            ..Reaction::nothing()
        }
    }

    /// The reader at this place becomes this.
    pub fn at_reader(
        place: u32,
        reader: Reader<F>,
        finish: Option<Finish<F>>,
        post: Post<F>,
    ) -> Self
        ensures { result ≡ reader_reaction place reader finish post }
    {
        Reaction {
            reader: Some((place as usize, reader)),
            finish,
            post,
            ..Reaction::nothing()
        }
    }

    /// The writer becomes this.
    pub fn at_writer(writer: Writer, finish: Option<Finish<F>>) -> Self
        ensures { result ≡ writer_reaction writer finish }
    {
        Reaction {
            writer: Some(writer),
            finish,
            ..Reaction::nothing()
        }
    }
}

/// The answer of a message's receiver to the owner of the operation.
pub fn answer<F: Copy>(
    owner: Party,
    message: &Message<F>,
    kind: MessageKind,
    stamp: u32,
    figure: F,
) -> Post<F>
    ensures { result ≡ answer_to owner message.now kind (record { stamp = stamp; figure = figure }) }
{
    Post::One(Message {
        kind,
        operation: message.operation,
        sender: message.receiver,
        receiver: owner,
        stamp,
        figure,
    })
}

/// An answer that carries nothing: the fields that it does not use hold stamp 0 and the starting figure.
#[tactic(auto, unfolding(model::specs::Stamps::no_stamp))]
pub fn bare_answer<F: Copy>(
    owner: Party,
    message: &Message<F>,
    kind: MessageKind,
    start: F,
) -> Post<F>
    ensures { result ≡ answer_to owner message.now kind (unused start) }
{
    answer(owner, message, kind, 0, start)
}

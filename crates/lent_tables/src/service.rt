//! The tables that a caller has, and a register to whose calls they are lent.

use model::{Call, Message, Operation, Reader, Refusal, RelayMark, Replica, Reply};
use quorum::QuorumSystem;
use register::{Draft, Register};
use std::alloc::{AllocError, Global};

/// How long the tables are. There is a mark for each replica and reader.
#[derive(Clone, Copy)]
pub struct Lengths {
    pub replicas: u32,
    pub readers: u32,
    pub messages: usize,
    pub journal: usize,
}

/// The five tables.
#[derive(Drop)]
pub struct Tables<F> {
    pub replicas: Vec<Replica<F>>,
    pub readers: Vec<Reader<F>>,
    pub marks: Vec<RelayMark>,
    pub messages: Vec<Message<F>>,
    pub journal: Vec<Operation<F>>,
}

impl<F: Copy> Tables<F> {
    /// Tables of these lengths, with nothing in them yet.
    pub(crate) fn blank(
        heap: Global,
        lengths: Lengths,
        figure: F,
    ) -> Result<Tables<F>, AllocError> {
        let size = lengths.replicas as usize;
        let width = lengths.readers as usize;
        Ok(Tables {
            replicas: table_of(heap, size, Replica::new(figure))?,
            readers: table_of(heap, width, Reader::new(figure))?,
            marks: table_of(heap, size * width, RelayMark::default())?,
            messages: table_of(heap, lengths.messages, Message::blank(figure))?,
            journal: table_of(heap, lengths.journal, Operation::blank(figure))?,
        })
    }
}

// A table of so many copies of an item. `vec![..; n]` would clone it, which `A: Copy` does not promise to work.
fn table_of<A: Copy>(heap: Global, count: usize, item: A) -> Result<Vec<A>, AllocError> {
    let mut table = Vec::new(heap);
    table.resize(count, item)?;
    Ok(table)
}

/// A register in service, and the tables that are lent to each of its calls.
#[derive(Drop)]
pub struct Service<R: QuorumSystem, F> {
    pub register: Register<R, F>,
    pub tables: Tables<F>,
}

impl<R: QuorumSystem + Drop, F: Copy> Service<R, F> {
    /// Commissions the draft over the tables. None where these have other lengths than it needs.
    pub(crate) fn over(draft: Draft<R, F>, mut tables: Tables<F>) -> Option<Service<R, F>> {
        let register = draft
            .commission(
                &mut tables.replicas,
                &mut tables.readers,
                &mut tables.marks,
                &tables.messages,
                &tables.journal,
            )
            .ok()?;
        Some(Service { register, tables })
    }

    /// Does any of the six calls.
    pub(crate) fn call(&mut self, call: Call<F>) -> Result<Reply<F>, Refusal> {
        let Service { register, tables } = self;
        register.call(
            &mut tables.replicas,
            &mut tables.readers,
            &mut tables.marks,
            &mut tables.messages,
            &mut tables.journal,
            call,
        )
    }
}

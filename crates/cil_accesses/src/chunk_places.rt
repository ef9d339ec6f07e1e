//! Where chunks were last pushed.

use std::alloc::{AllocError, Allocator, Global};

/// For each word the place of the chunk that took up targets of the word last, while chunks are made of accesses that come in no order.
/// It is the likely place of a chunk of the same key and word: whoever looks there compares the keys, so what stands here can cost
/// time and room, and nothing else. It takes room by the greatest word.
#[derive(Drop)]
pub struct ChunkPlaces<A: Allocator = Global> {
    places: Vec<usize, A>,
}

impl<A: Allocator> ChunkPlaces<A> {
    /// No word has a place. It takes no memory.
    pub fn new(alloc: A) -> Self {
        ChunkPlaces {
            places: Vec::new(alloc),
        }
    }

    /// The place of a word, or that of the first chunk.
    pub(super) fn of(&self, word: u32) -> usize {
        match self.places.get(word as usize) {
            Some(place) => *place,
            None => 0,
        }
    }

    /// Gives a word a place.
    pub(super) fn put(&mut self, word: u32, place: usize) -> Result<(), AllocError> {
        let word = word as usize;
        if self.places.len() <= word {
            self.places.resize(word + 1, 0)?;
        }
        self.places[word] = place;
        Ok(())
    }
}

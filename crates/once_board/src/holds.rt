//! What seats hold and know. No value of these types is ever made: they are there for contracts and proofs alone.

use std::collections::LinkedList;

/// What a seat knows of a place.
pub struct Known<T> {
    /// The word that it last saw, or a greater one that it was told of: 0 free, 1 claimed, 2 open, 3 open while a seat has its turn.
    pub word: u64,
    /// The value that it put, read or was told of.
    pub value: Option<T>,
    /// How many exchanges of its looks, won or lost, and lost exchanges of its claims there were at the place.
    pub readings: u64,
    /// The word that the last of these read.
    pub last: u64,
}

/// What a seat holds and knows.
pub struct Hold<T> {
    /// Each right of the board is held by one seat.
    pub rights: LinkedList<u32>,
    /// The parts of all seats add up to 4,294,967,296.
    pub parts: u64,
    /// The places that it claimed.
    pub claims: LinkedList<u32>,
    /// The places that it put a value at.
    pub puts: LinkedList<u32>,
    /// What it knows of each place.
    pub places: LinkedList<Known<T>>,
}

/// What a seat is at, within a call.
pub enum Stage<T> {
    Idle,
    /// It has taken the empty slot of a place that it claimed.
    Filling(u32),
    /// It has the turn of a place, and has taken the place's value.
    Turn(u32, T),
    /// These two were joined.
    Joined(Hold<T>, Hold<T>),
}

/// What a seat of the table knows.
pub struct Seen<T> {
    pub hold: Hold<T>,
    pub stage: Stage<T>,
}

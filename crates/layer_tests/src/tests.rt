use std::alloc::{AllocError, Global};
use std::test::Fail;

mod growths;
mod logs;
mod pools;
mod shelves;
mod threads;

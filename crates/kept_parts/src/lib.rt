//! Parts of a state as rows of words: objects with their monitors, threads with their stacks. A table keeps each row
//! once, and a list of the numbers of rows stands for a heap.
//!
//! # Proved
//!
//! - A row is a function of the part: of an object and its monitor, of a thread and its stack, of flags. Two objects
//!   with their monitors whose rows are the same are the same, and so are two threads with their stacks (`object_one`,
//!   `thread_one`). So one list of numbers stands for one list of objects (`objects_stand_one`), also once the table
//!   has grown (`objects_stay`).
//! - `push_thread` puts the row of a thread behind other words. `heap_number` writes the row of each object, and
//!   answers a number that stands for the list of their numbers. What is the same in a heap before keeps its number:
//!   then the number stands for it, too. `fat_number` does the same for the flags of inflated locks.
//! - `read_heap`, `read_main` and `read_thread` answer only what has these rows, under the limits that are given. No
//!   cell of the heap that is read counts: a row of an object doesn't tell how many of its words do.
//! - What `is_same_stack` and `is_same_thread` find to be the same is.
//!
//! # Not proved
//!
//! - That what was written can be read: a reader may always answer a want of memory. So a row that stands for no part
//!   is one that is not read.
//! - That what is the same is found to be the same. Where it isn't, its row is written again, and gets its number.
//!
//! # Wrong bodies
//!
//! - `number-of-the-next-object`, `list-as-long`: an object has the number that another one has in the heap before, or
//!   a list of numbers stands for another one; refused by the contracts of `heap_number` and of what it calls.
//! - `row-without-the-monitor`, `waiter-joins-with-one-entry`: a monitor is left out, or read as another one;
//!   refused by the contracts of `push_object` and `read_monitor`.
//! - `object-read-counts-a-cell`: a cell counts of each object that is read; refused by that of `add_object`.
//! - `operands-are-not-compared`: a stack is found to be the same where an entry has fewer operands; refused by that of
//!   `is_same_stack`.
#![tactic(auto)]

mod entry_rows;
pub mod heap_rows;
mod kind_rows;
mod monitor_rows;
mod object_rows;
pub mod reader;
pub mod rows;
pub mod same;
mod stack_rows;
mod status_rows;
pub mod thread_rows;

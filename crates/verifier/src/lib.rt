//! The verifier (JVMS 4.10.2): a worklist finds frame types at the offsets of a method's code that agree with its
//! instructions, or shows that there are none.
//!
//! # Proved
//!
//! - `verify_method`, `verify_within` and `verify`, memory aside: where they answer `Ok`, the method, and each method
//!   with code of the linked classes, has a typing; `Unverified` is answered only where the method that the refusal
//!   names has none. They end. `Verified` keeps that each method has a typing.
//! - `verify_within`, which is given a number of steps, and `verify`, which gives 2,000,000,000 (`most_steps`):
//!   `TooLarge` is answered only where the searches over all methods of files together take more (`IsTooLong`). So no files are
//!   refused for steps, however large, whose searches take no more.
//! - The methods of built-in classes have typings in each program (`built_in_typings` of `run_laws`). So they are not
//!   searched, and no refusal is of one.
//! - What a search takes is a definition (`search_steps` of `Worklist`): the worklist as a function from tables to
//!   tables, with the steps of each turn. A turn takes off the lowest offset that waits, and merges what its
//!   instruction leads to. An offset waits only once a frame type was found there, or one that is not below it was
//!   merged in.
//! - A turn takes no more than a formula says (`turn_steps`): of the places that its instruction leads to, the texts
//!   that this names, the method's handlers, and the size of its frame types. The code does the turns of the definition
//!   and no others, and takes steps for nothing else (`DoesTurn`, `TakesAtMost`). It may take fewer than the formula:
//!   where it merges changed local variables alone, and where it keeps a meaning. By how many no clause says.
//! - A bound that no search need be done for is proved, too (`IsLimited`): `TooLarge` is answered only where all turns
//!   that searches may take by the weights of `typing_search`, each times its most, are more than the steps that are
//!   given. The weights depend on how many types may be above those of a method (`IsBounded`). The bound holds whatever
//!   numbers these are, and `types_of_a_method_are_limited` shows that there are some.
//! - The frame types that were found stand in tables with equal local variables in runs, or one by one, and a frame
//!   type equal to what is there is merged by one comparison. An instruction that neither reads nor writes the local
//!   variables that changed before it leads to the same offsets, where these alone change, and so (`flow_moves`,
//!   `joined_is`); what it led to is merged by joins of these local variables alone. So is, at any look, a frame type
//!   that differs in few local variables from the one that it is merged into (`raises_whole`). Some things only spare
//!   time, and no clause asks for them: that equal frame types are seen to be equal (where they are said to be, they
//!   are), that changes are few enough to be noted, from which turn on they are, that meanings of instructions are
//!   kept, how types of local variables are, and from where on the lowest offset that waits is sought.
//! - `verify` and `verify_within` give up the linked set where they refuse.
//! - Of a refusal: it names the file and the method, by the bytes of its name and its descriptor (`IsRefusalOf`); as
//!   `TooLarge` it has no offset.
//!
//! # Not proved
//!
//! - Tested in `verification_tests`: that no steps, and some, end in the method that takes many, which is named, and that
//!   many suffice.
//! - Shown by cases alone: the offset that a refusal names. Cases show the rules by pairs of methods, one that just
//!   passes and one that just fails. Where a JDK's older verifier was asked of such methods it said the same of all but
//!   three: it refuses an array as the receiver of an interface's method, takes `ifnull` of an object that isn't
//!   initialised, and refuses an exception entry that nothing reaches in a method whose max_stack is 0.
//! - Not proved: how long it takes. By the code an instruction is looked at again whenever the frame type before it
//!   rises. A frame type of `n` local variables and operands rises at most as often as `n` types can, each as often as
//!   its class has superclasses, and three times more. A look takes `n` steps, and for each place that the instruction
//!   leads to `n` joins; fewer for handlers, where little has changed since the last instruction with handlers. So the
//!   time is at most the number of instructions, times the square of `n`, times the most superclasses, times the most
//!   places. A local variable is found in one step where types are kept one by one, which is so where runs of equal
//!   types are more than a quarter as many as the local variables; else by going through the runs.
//!
//! # Wrong bodies
//!
//! - `refuses_every_file`: all files are refused; refused by `refused` of `verify_within`.
//! - `gives_up_at_once`: verification has no step from the start, whatever it is given; refused by `refused` of
//!   `verify_within`: too long only where it is given fewer steps than the searches take.
#![tactic(auto)]

mod changes;
mod fault;
pub mod flow;
pub mod flow_effects;
mod found;
mod frames;
mod locals;
mod look;
mod looks;
mod method;
mod near;
mod packed;
mod raised;
mod run;
mod steps;
mod verified;
mod waiting;

pub use steps::MOST_STEPS;
pub use verified::{Verified, verify, verify_within};

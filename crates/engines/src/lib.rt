//! What the words of a command line ask for, done over any files and any output: runs, replays, searches,
//! verifications, listings, and schedules as text.
//!
//! # Proved
//!
//! - `run`, for any folder, input and output: with a status, the words ask for help or the version, or they spell a
//!   command (`Spells`), and it is done (`done`, `Does`, `IsDone`). What is appended to the output, what is written,
//!   and the status are those of the command's engine, below, over the bytes of the files that the words stand for:
//!   - these are in the order in which they are handed on (`AreFiles`): by `AreGiven` for `disasm` and of a library,
//!     and else by `AreHandedOn`; none of them is the one that is written, nor is the text that a sweep compares with
//!     (`IsUnread`);
//!   - behind them come the files of the classes that the library adds (`AreHanded`, by `AreAdded` of `library_files`).
//!     It adds none for `disasm` and with `--files-alone` (`library_of`);
//!   - `run`, `replay` and `search` hand on all their options; `trace` its window and its form (`IsWindow`), or the
//!     file of its page (`IsPageDone`); `search` its goal (`IsSearchedFor`), with the text of the file of `differs`;
//!     `verify` whether it is of a library; `disasm` whether names are asked for; `schedule` whether a file is made,
//!     and with `--places` the schedule (`IsPlacesDone`); `run` over seeds its sweep (`IsSweepDone`);
//!   - the file that is asked for holds the bytes of the schedule, and each other file what it held (`IsWith`); of
//!     `run` over seeds one for each outcome, in the folder that is asked for (`written_in`), and after a fault those
//!     before it (`IsSweepUnrecorded`).
//! - `run` with a complaint: usage only where the words spell no command, or one that would write a file that it reads
//!   (`IsReadToo`), and nothing is written then. Over seeds that is one of the folder for the schedules, whose name
//!   begins and ends as theirs (`may_be_outcome`). A fault of files only where the words of the command stand for none,
//!   or these have no order; nothing is written then, either (`HasNoFiles`). Another fault only where the engine may
//!   answer it, or where help can't be written, memory is wanted for paths, or a folder, a class file or the file of
//!   `differs` can't be read, or the schedule is refused where a class file can't be read (`faulty`, `Stops`,
//!   `IsUndone`). Where a class is refused that the library adds, the complaint has its name (`IsUndoneAs`). A file is
//!   written whole or not at all: after a fault it is made only where a beginning of the report was written.
//! - `explain_complaint` (`IsExplained`): it tells nothing behind words that are refused or stand for no files, nor of
//!   a command with `--quiet`; where help can't be written it may tell any text. Of another command's fault it may tell
//!   a text of which nothing is said. The advice behind that text is nothing, or what `advice` answers, on the bytes of
//!   the files that `verify` was given, in their order (`IsAdvised`, proved of `advised`); that the text before it
//!   holds no advice is not proved. Shown by cases: where it stands, and what it tells of files of each kind.
//! - `run`: `device` is answered only where one more failure of the input or the output is counted, or a folder of this
//!   kind may fail at a path; and no failure is counted with any other answer (`told`, `TellsComplaint`).
//! - Of a folder `run` knows what `Folder` says: `held`, what a file holds where that is known; `listed`, the names in
//!   a folder where they are known; `may_fail`, at which paths reading, listing or writing may fail; and that a write
//!   that fails changes nothing. Of the files of the system nothing is known, and at each path they may fail.
//! - `Counted`, over any reader and writer of the system: each failure that it answers is one that was counted below it
//!   (`Watched`), call by call. When those readers and writers fail is in no contract of theirs. So that what is
//!   counted there is what they answered is read in two functions, `read_to_end` and `write` of `Watched`, and not
//!   proved.
//! - `replay_engine`, over any reader and writer:
//!   - with a status, the text and nothing else was appended, and text and status are those of the replay of these
//!     bytes (`replayed`, `WritesReplay` of `Theorem`): of a schedule file or of a text (`GivesEvents`), or of the
//!     events that a text with places gives over the class files (`Gives`, `GivesPlaces`, with `IsFollowed` of
//!     `place_runs`), where all of its places are there (`AreThere`); under the limits of the recording where it says
//!     them, and those of the options else (`HasLimits`). Where it gives up at a place, the text says `end place`
//!     (`told_text`);
//!   - with a fault, nothing was written or (`device`, `memory`) a beginning of the text; a schedule fault only where
//!     the bytes give no events and that fault stands in them, or where they give some and the class files or the
//!     options are not those of the recording (`Files`, `Limits`; `Disagrees`); a fault of a place only where the class
//!     files are accepted, and it is not there in them (`IsMisplaced`); a refusal of class files only where
//!     they give some or are words of places, all of that fits, and the class files are not accepted and may be refused
//!     so, memory aside
//!     (`faulty`, `IsKeptBy`): by linking, else by verification;
//!   - after a schedule fault no class file was read, unless it is one that shows only beside the class files
//!     (`schedule_first`);
//!   - `Device` exactly with one more failure of a device (`counted`).
//! - `records_replay` (`DoRecordsReplay` of `Theorem`): a replay of the events that a run has recorded, over the same
//!   accepted files and within the same limits, prints the same text, and its threads end alike, after as many events,
//!   unless it stops for want of memory.
//! - `trace_engine`, over any readers and writer: what is proved of `replay_engine`, but that the text is that of the
//!   lines of the events and of the report behind them (`traced`, `IsTraced`, with `IsTrace` of `traced_runs`); and
//!   after `device` and `memory` a beginning was written, of that text, or of the lines of a beginning of the events
//!   (`faulty`, `IsUntraced`).
//! - `page_engine`, over any readers and writer: what is proved of `replay_engine`, but that there is a page, too: that
//!   of the lines of a trace and of the report (`paged`, `IsPaged`, with `IsPage` of `pages`). Where these lines have
//!   more than 900,000 bytes, they are those of a summary (`TracesAs`). With a fault there is no page (`none`).
//! - `races_engine`, over any readers and writer: what is proved of `replay_engine`, but that the text is that of the
//!   data races of the events that were done, a line for each, and of the report behind them (`raced`, `WritesRaces` of
//!   `Theorem`). Each race that is told is one of these events, and each access that races with an earlier one is the
//!   second one of a race that is told (`AreRaces`). The status tells whether there is a race.
//! - `search_engine`, over any readers and writers:
//!   - with a status, one text was appended and nothing else: what a search over all schedules of the program of these
//!     bytes answers, within the limits of the options (`searched`, `IsSearched`, with `Says` of `Theorem`). Where all
//!     schedules were searched, the line of a race is that of a state to which a run comes (`TellsRace`).
//!     Where a run was found and its schedule is asked for, a file is made, which spells the events, the limits and
//!     what is recorded of the class files, as far as a file of the version that is asked for tells them
//!     (`recorded_as`); else none is;
//!   - with a refusal nothing was written, and it is one that linking or verification may give of these bytes; with
//!     `memory` or `device` nothing was written or made, or the file was made and a beginning of the text was written
//!     (`faulty`, `IsUnsearched`); `counted` as above.
//! - `continue_engine`, over any readers and writers: what is proved of `replay_engine`, but that text, status and file
//!   are those of a run that goes on behind the events of the schedule (`continued`, `IsContinued`, with `GoesOn` of
//!   `continued_runs`): the file, where one is asked for, spells the events of the whole, the limits and what is
//!   recorded of the class files; and of a run that went no further than a replay, those of the schedule. Where the
//!   schedule gives up at a place within the budget, nothing goes on behind it (`IsGivenUp`).
//! - `places_engine`, over any readers and writer: what is proved of `replay_engine`, but that the status is 0, and the
//!   words of the text are places and entries that stand for the events of the schedule over the class files, or entries
//!   of these events (`placed`, `IsPlaced`, `StandsFor`, with `IsPlacedText` of `place_runs`).
//! - `schedule_engine`: with a status, which is 0, a text was appended and nothing else. It is that which the
//!   definitions give for the entries of the schedule that was read, as they stand, and for what it was recorded with
//!   (`printed`). With a fault nothing was written, or a beginning of that, and a fault of the schedule stands in its
//!   bytes (`faulty`); `counted` as above.
//! - `write_schedule_engine`: with a status, which is 0, the bytes were appended, and nothing else, of a schedule file
//!   of the entries and the recording that the text spells (`written`); with a fault nothing was written, or a
//!   beginning of that, and the text is refused only where it spells none (`faulty`); `counted` as above.
//! - `run_engine`, over any readers and writers, where it returns, which is not promised (`may wait`):
//!   - with a status, one text was appended to the report and nothing else, and a file was made where it is asked for
//!     (`asked`): those of a run of these bytes (`ran`, `IsRun`). The class files are accepted; the limits are those of
//!     the options; events, report and end are those of a record of their program with these limits and this budget
//!     (`IsRecordOf` of `Theorem`), or, with `--seconds`, with what was spent of it (`IsSpent`); the text says
//!     `end seconds` where less was (`run_text`). Without workers they are those of the policy that is asked for, by the
//!     seed or the quantum of the options (`as_asked`, `IsRunFor`, with `IsRunBy` of `policies`): all that `events_by`
//!     says, or a front of them where the end says that memory was wanted, or with `--seconds` where it was stopped;
//!   - the text is the report's, the status is its own; and the file spells the events, the limits and what is recorded
//!     of the class files: the lengths and checksums of those that are given, and the checksum of those that the library
//!     adds (`recording_over`), as far as a file of the version that is asked for tells them (`recorded_as`);
//!   - with `--races` a line for each data race of all events of the record stands before the report, and the status
//!     is 1 where there is one, unless it is 3 (`AreRacesTold` of `recorded_races`, `raced_status`);
//!   - with a refusal nothing was written, and it is one that linking or verification may give of these bytes; with
//!     `memory` or `device` nothing was written or made, or the file was made and a beginning of the text was written
//!     (`faulty`, `IsUnrun`);
//!   - `Device` exactly with one more failure of a device (`counted`).
//! - `sweep_engine`, over any readers and writer: with a status, one text was appended and nothing else: that of a
//!   sweep over the seeds that are asked for (`swept`, `IsSwept`, with `Sweeps` of `sweeps`), which doesn't depend on
//!   how many workers there are. Where they are asked for, files are made of the schedules of the first runs of the
//!   outcomes, in the order of these, and of no other (`AreOutcomeFiles`). With a refusal nothing was written, with
//!   `memory` or `device` nothing or a beginning of the text (`faulty`, `IsUnswept`); `counted` as above.
//! - `policy_for`, by which a run without workers gives turns: it is the policy that the options ask for, with the seed
//!   or the quantum of these, or the usual quantum, or a seed of 32 bits (`IsAskedFor`). No clause says where a seed
//!   that is drawn comes from, nor that it is told.
//! - `Until`, by which `--seconds` stops a run, a search or a sweep: it is over only where so many are asked for, and the
//!   `Deadline` says that they have passed (`is_late`). No clause says when a clock does.
//! - `verify_engine`, over any readers and writer:
//!   - with a status, which is 0, the files are accepted, and what is told of them was appended and nothing else
//!     (`verified`): how many are given, how many the library adds, and its classes in whose place files have their own
//!     (`verified_text`, `AreOwnOf`);
//!   - with a refusal nothing was written, and it is one that linking or verification may give of these bytes; accepted
//!     files are refused only for want of memory, or as `TooLarge` where the searches over their methods take more than
//!     2,000,000,000 steps (`accepted` of `IsRefused`); with `memory` or `device` a beginning of that may be
//!     written (`faulty`);
//!   - `Device` exactly with one more failure of a device (`counted`).
//! - `verify_library_engine`: the same as of `verify_engine`, but that the files are accepted, or refused, behind a
//!   class that stands in the definitions byte by byte (`library_main`): it has a static main, which returns. Files are
//!   counted without it, in the line and in a refusal (`verified`, `faulty`, `counted`).
//! - `disasm_engine`, over any readers and writer:
//!   - with a status, which is 0, the listings of the trees that the bytes spell were appended, one behind the other,
//!     and nothing else (`listed`);
//!   - with a refusal, nothing was written, and the file that it names is the first that spells no tree, memory aside;
//!     its cause and its offset are such as `decode` promises of its bytes (`StandsAt`); with `memory` a beginning of
//!     the listings was written, with `device` nothing or a beginning of them (`faulty`);
//!   - `Device` exactly with one more failure of a device (`counted`).
//! - `names_engine`: the same as of `disasm_engine`, but that nothing is said of the text (`listed`, `faulty`,
//!   `counted`).
//! - The status of each outcome (`Status::of`, `of_complaint`, `of_files`, `of_fault`, `of_usage`, `code`); and that
//!   the line of a fault (`fault_line`), or of a refused class of the library (`library_line`), is written where no
//!   write fails, with its end and nothing else (`Fault::write_line`, `Complaint::write_text`).
//! - No clause refuses a body that always answers a want of memory, or does so in the place of a refusal that stands in
//!   the files. All cases show that this isn't so. Some meet each refusal but `TooLarge`; that one
//!   `tests/test_hostile_files.py` meets, by 65,001 files and by files of half a megabyte.
//!
//! # Not proved
//!
//! - Not said by `run`: the texts of help and of `disasm --names`; what is told of threads and of failures.
//! - Shown by cases alone: that a text with places is read, which fault of it is answered, and its line; which entries
//!   become places; the places of refusals that `linker` doesn't promise; the texts of usage faults; that what
//!   threads are about is told of the schedule of the very run; that runs and replays come to an end; that workers and
//!   their quantum are heeded.
//! - Shown by `tools/try-files` alone: what stands in a file of the system after a failure, and what its links and
//!   pipes get; that devices fail at once and behind a beginning; what is seen of a run while it goes on, by `Growth`:
//!   the lines that it has printed, and the text of `growing_text` beside the file of its record; which seeds are
//!   drawn, and when they are told; and that the clock stops runs, searches and sweeps.
#![tactic(auto)]

mod advised;
mod class_files;
mod command_files;
mod commands;
mod complaint;
mod continuing;
mod deadline;
mod device;
mod differing_files;
mod explaining;
mod explanation;
mod fault;
mod going_on;
mod growth;
mod handed;
mod library;
mod listing;
mod made_file;
mod main_hints;
mod named_file;
mod names;
mod open;
mod opening;
mod paging;
mod place_ends;
mod place_schedules;
mod placing;
mod program;
mod racing;
mod racing_runs;
mod recording;
mod repeat_words;
mod replaying;
mod running;
mod searching;
mod seeds;
mod status;
mod stopped_runs;
mod sweep_records;
mod sweep_runs;
mod system_folder;
mod telling;
mod theorem;
mod tracing;
mod transcribing;
mod verification;
mod watched;

pub use command_line::{LimitOptions, RunOptions, Usage};
pub use complaint::Complaint;
pub use continuing::continue_engine;
pub use deadline::Deadline;
pub use device::Counted;
pub use explaining::{Failures, explain_complaint};
pub use explanation::Explanation;
pub use fault::Fault;
pub use growth::Growth;
pub use library::verify_library_engine;
pub use library_files::LibraryClass;
pub use listing::disasm_engine;
pub use names::names_engine;
pub use open::Open;
pub use placing::places_engine;
pub use program::run;
pub use program_files::{FilesFault, Folder};
pub use program_runs::workers::Gate;
pub use racing::races_engine;
pub use recording::Conditions;
pub use replaying::replay_engine;
pub use running::run_engine;
pub use search::Progress;
pub use searching::search_engine;
pub use seeds::Seeds;
pub use status::Status;
pub use sweep_runs::{MadeSweep, SweepTask, sweep_engine};
pub use sweeps::Watch;
pub use system_folder::SystemFolder;
pub use theorem::records_replay;
pub use tracing::trace_engine;
pub use transcribing::{schedule_engine, write_schedule_engine};
pub use verification::verify_engine;

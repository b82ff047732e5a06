// The top call.
ghost use Rattle.std.specs.Prelude.{◌≡◌, ◌≢◌, ◌≤◌, ◌⊎◌, ◌↔◌, ◌++◌, true, false, Some, Ok, Err};
ghost use Rattle.std.specs.Prelude.{IsTrue, IsNone, IsOk, IfErr, OnOk, map as map_list, string_bytes};
ghost use Rattle.rw_host.specs.Crash.{Leaves, Only};
ghost use Rattle.rw_host.specs.Files.{Rose};
ghost use Rattle.rw_host.specs.Sink.{PutsPrefix};
ghost use Rattle.command_words.specs.Asking.{asked_told, command_told};
ghost use Rattle.command_words.specs.Words.{Asked as AnyAsked, Command as AnyCommand, apply, check, command_of, dry};
ghost use Rattle.command_words.specs.Words.{history, recover};
ghost use Rattle.rewrite_cli.specs.Answers.{IsPut, answer, fault_line, is_writing};
ghost use Rattle.rewrite_cli.specs.Journals.{recovered};
ghost use Rattle.rewrite_cli.specs.Meanings.{AreMeanings, Meanings};
ghost use Rattle.rewrite_cli.specs.Moments.{EachStands, Idle, IsOldOrNew};
ghost use Rattle.rewrite_cli.specs.Statuses.{IsAnswered, IsAsBefore, IsHalted, IsStatus, NamesNoFault};
ghost use Rattle.rewrite_cli.specs.Statuses.{status_of, text_of};
ghost use Rattle.rewrite_cli.specs.Untouched.{RunLeavesTheUntouched};

use crate::checking::check_repository;
use crate::histories::tell_history;
use crate::journals::{recover_first, recovered, standing_entries};
use crate::running::{apply_recipe, dry_run};
use crate::stop::{Done, OUTPUT_FAULT, Stop, USAGE, USAGE_LINE};
use command_words::{Asked, Command, command_of};
use rw_host::{Gate, Sink, Store};
use std::alloc::Global;

// Puts the line of a status. Where the sink fails, the status stays.
fn say<K: Sink>(out: &mut K, line: &[u8])
    ensures { IsTrue K.tells_bytes →
        IsPut (Rose (K.faults out.old) (K.faults out.new)) line.now (K.bytes_put out.old) (K.bytes_put out.new) }
{
    let _ = out.put(line);
}

// Puts what a command tells, and gives the exit status.
fn tell<K: Sink>(out: &mut K, ended: Result<Done, Stop>) -> u8
    ensures status { result ≢ 7 → result ≡ status_of ended }
    ensures whole { IsTrue K.tells_bytes → result ≤ 1 →
        K.bytes_put out.new ≡ K.bytes_put out.old ++ text_of ended }
    ensures line { IsTrue K.tells_bytes → result ≢ 7 →
        IsPut (Rose (K.faults out.old) (K.faults out.new)) (text_of ended) (K.bytes_put out.old) (K.bytes_put out.new) }
    ensures cut { result ≡ 7 → IsOk ended }
    ensures front { IsTrue K.tells_bytes → result ≡ 7 →
        PutsPrefix (K.bytes_put out.old) (text_of ended) (K.bytes_put out.new) }
    ensures sink_fault { result ≡ 7 → Rose (K.faults out.old) (K.faults out.new) }
    ensures not_usage { result ≢ 2 }
{
    match ended {
        Ok(done) => {
            if !done.text.is_empty() && out.put(&done.text).is_err() {
                return OUTPUT_FAULT;
            }
            done.status()
        }
        Err(stop) => {
            say(out, stop.line());
            stop.status()
        }
    }
}

// Recovers the store, and runs a recipe on it.
#[tactic(auto, using(crate::proofs::Performing::performed))]
fn run<S: Store>(alloc: Global, store: &mut S, asked: Asked) -> Result<Done, Stop>
    ensures answer { IsTrue S.tells_files → (meanings : Meanings) → AreMeanings meanings →
        IsAnswered (answer meanings (S.files store.old) (apply (asked_told asked.entry))) result (S.files store.new) }
    ensures any_moment { IsTrue S.tells_images → (meanings : Meanings) → AreMeanings meanings →
        EachStands (S.image store.old) → Leaves S.moment S.left_since S.image store.old store.new
        (IsOldOrNew (S.image store.old) (answer meanings (S.files store.old) (apply (asked_told asked.entry))).left)
        (IsOldOrNew (S.image store.old) (answer meanings (S.files store.old) (apply (asked_told asked.entry))).left) }
    ensures one_image { IsTrue S.tells_images → OnOk result (Only (S.files store.new) (S.image store.new)) }
    ensures synced { OnOk result (S.is_unsynced store.new ≡ false) }
    ensures read_fault { result ≡ Err Stop.ReadFault → Rose (S.read_faults store.old) (S.read_faults store.new) }
    ensures write_fault { result ≡ Err Stop.WriteFault → Rose (S.write_faults store.old) (S.write_faults store.new) }
    ensures unchanged { IsTrue S.tells_files → (meanings : Meanings) → AreMeanings meanings →
        IfErr result (λ stop. stop ≢ Stop.WriteFault →
        IsAsBefore (meanings.journal (S.files store.old)) (S.files store.old) (S.files store.new)) }
{
    match recover_first(alloc, store) {
        Ok(_) => apply_recipe(alloc, store, asked),
        Err(stop) => Err(stop),
    }
}

// Makes the changes of an open journal, and tells how many there were.
#[tactic(auto, using(crate::proofs::Performing::performed))]
fn recover<S: Store>(alloc: Global, store: &mut S) -> Result<Done, Stop>
    ensures answer { IsTrue S.tells_files → (meanings : Meanings) → AreMeanings meanings →
        IsAnswered (answer meanings (S.files store.old) recover) result (S.files store.new) }
    ensures any_moment { IsTrue S.tells_images → (meanings : Meanings) → AreMeanings meanings →
        EachStands (S.image store.old) → Leaves S.moment S.left_since S.image store.old store.new
        (IsOldOrNew (S.image store.old) (answer meanings (S.files store.old) recover).left)
        (IsOldOrNew (S.image store.old) (answer meanings (S.files store.old) recover).left) }
    ensures one_image { IsTrue S.tells_images → OnOk result (Only (S.files store.new) (S.image store.new)) }
    ensures synced { OnOk result (S.is_unsynced store.new ≡ false) }
    ensures read_fault { result ≡ Err Stop.ReadFault → Rose (S.read_faults store.old) (S.read_faults store.new) }
    ensures write_fault { result ≡ Err Stop.WriteFault → Rose (S.write_faults store.old) (S.write_faults store.new) }
    ensures unchanged { IsTrue S.tells_files → (meanings : Meanings) → AreMeanings meanings →
        IfErr result (λ stop. stop ≢ Stop.WriteFault →
        IsAsBefore (meanings.journal (S.files store.old)) (S.files store.old) (S.files store.new)) }
{
    match recover_first(alloc, store) {
        Ok(count) => recovered(alloc, count),
        Err(stop) => Err(stop),
    }
}

// Tells what a run would do with what the store stands for.
#[tactic(auto, using(crate::proofs::Performing::performed, crate::proofs::Idling::idling))]
fn dry_standing<S: Store>(alloc: Global, store: &mut S, asked: Asked) -> Result<Done, Stop>
    ensures answer { IsTrue S.tells_files → (meanings : Meanings) → AreMeanings meanings →
        IsAnswered (answer meanings (S.files store.old) (dry (asked_told asked.entry))) result (S.files store.new) }
    ensures files { S.files store.new ≡ S.files store.old }
    ensures idle { Idle S.tells_images S.is_unsynced S.moment S.left_since S.image store.old store.new }
    ensures cause { result ≡ Err Stop.ReadFault → Rose (S.read_faults store.old) (S.read_faults store.new) }
    ensures no_write { result ≢ Err Stop.WriteFault }
{
    match standing_entries(alloc, store) {
        Ok(entries) => dry_run(alloc, store, &entries, asked),
        Err(stop) => Err(stop),
    }
}

// Reads the files that the store stands for.
#[tactic(auto, using(crate::proofs::Performing::performed, crate::proofs::Idling::idling))]
fn check_standing<S: Store>(alloc: Global, store: &mut S) -> Result<Done, Stop>
    ensures answer { IsTrue S.tells_files → (meanings : Meanings) → AreMeanings meanings →
        IsAnswered (answer meanings (S.files store.old) check) result (S.files store.new) }
    ensures files { S.files store.new ≡ S.files store.old }
    ensures idle { Idle S.tells_images S.is_unsynced S.moment S.left_since S.image store.old store.new }
    ensures cause { result ≡ Err Stop.ReadFault → Rose (S.read_faults store.old) (S.read_faults store.new) }
    ensures no_write { result ≢ Err Stop.WriteFault }
{
    match standing_entries(alloc, store) {
        Ok(entries) => check_repository(alloc, store, &entries),
        Err(stop) => Err(stop),
    }
}

// Tells the history that the store stands for.
#[tactic(auto, using(crate::proofs::Performing::performed, crate::proofs::Idling::idling))]
fn history_standing<S: Store>(alloc: Global, store: &mut S) -> Result<Done, Stop>
    ensures answer { IsTrue S.tells_files → (meanings : Meanings) → AreMeanings meanings →
        IsAnswered (answer meanings (S.files store.old) history) result (S.files store.new) }
    ensures files { S.files store.new ≡ S.files store.old }
    ensures idle { Idle S.tells_images S.is_unsynced S.moment S.left_since S.image store.old store.new }
    ensures cause { result ≡ Err Stop.ReadFault → Rose (S.read_faults store.old) (S.read_faults store.new) }
    ensures no_write { result ≢ Err Stop.WriteFault }
{
    match standing_entries(alloc, store) {
        Ok(entries) => tell_history(alloc, store, &entries),
        Err(stop) => Err(stop),
    }
}

// Does what a command says with the files of the store.
#[tactic(auto, using(crate::proofs::Performing::performed))]
fn perform<S: Store>(alloc: Global, store: &mut S, command: Command) -> Result<Done, Stop>
    ensures answer { IsTrue S.tells_files → (meanings : Meanings) → AreMeanings meanings →
        IsAnswered (answer meanings (S.files store.old) (command_told command.entry)) result (S.files store.new) }
    ensures any_moment { IsTrue S.tells_images → (meanings : Meanings) → AreMeanings meanings →
        EachStands (S.image store.old) → Leaves S.moment S.left_since S.image store.old store.new
        (IsOldOrNew (S.image store.old) (answer meanings (S.files store.old) (command_told command.entry)).left)
        (IsOldOrNew (S.image store.old) (answer meanings (S.files store.old) (command_told command.entry)).left) }
    ensures one_image { IsTrue S.tells_images → is_writing (command_told command.entry) ≡ true →
        OnOk result (Only (S.files store.new) (S.image store.new)) }
    ensures synced { is_writing (command_told command.entry) ≡ true → OnOk result (S.is_unsynced store.new ≡ false) }
    ensures read_fault { result ≡ Err Stop.ReadFault → Rose (S.read_faults store.old) (S.read_faults store.new) }
    ensures write_fault { result ≡ Err Stop.WriteFault → Rose (S.write_faults store.old) (S.write_faults store.new) }
    ensures unchanged { IsTrue S.tells_files → (meanings : Meanings) → AreMeanings meanings →
        IfErr result (λ stop. stop ≢ Stop.WriteFault →
        IsAsBefore (meanings.journal (S.files store.old)) (S.files store.old) (S.files store.new)) }
    ensures unwritten { is_writing (command_told command.entry) ≡ false → S.files store.new ≡ S.files store.old }
{
    match command {
        Command::Apply(asked) => run(alloc, store, asked),
        Command::Dry(asked) => dry_standing(alloc, store, asked),
        Command::Check => check_standing(alloc, store),
        Command::Recover => recover(alloc, store),
        Command::History => history_standing(alloc, store),
    }
}

/// Does what the words say with the files of the store, puts the text, and answers the exit status.
///
/// | words | what is done |
/// |---|---|
/// | `run --recipe NAME` | the recipe of the file `rewrite.yml` is applied, and what it changes is committed |
/// | `dry --recipe NAME` | it is told what `run` would do; nothing is written |
/// | `check` | each Java, YAML and properties file and each stub is read; none is written |
/// | `recover` | a commit that was stopped is finished; `run` begins with this too |
/// | `history` | the runs that changed files are told |
///
/// Behind the first three may stand `--workers N`, from 1 to 64, and behind the first two `--cycles N`, from 1 to 10,
/// in any order. Where a commit was stopped, `dry`, `check` and `history` see what `recover` would leave.
///
/// | status | when | text |
/// |---|---|---|
/// | 0 | done, and nothing is told of a file | the report, `files N`, `recovered N`, or the runs |
/// | 1 | done, some file is refused or some edit was dropped | the same with a line for each |
/// | 2 | the words are others; the store isn't used | the usage line |
/// | 3 | the recipe file or the plan has a fault | `recipe fault N at L:C`, or without a place |
/// | 4 | the store failed to list, read or reserve | `read fault` |
/// | 5 | the store failed to write, remove or sync | `write fault` |
/// | 6 | the system refused memory | none |
/// | 7 | done, but the text didn't go out whole | the first part of it |
/// | 8 | a limit is passed | `limit: paths more than 100000`, .. |
/// | 9 | the journal of a stopped commit, or the history, has no reading | `damaged: PATH at NUMBER` |
pub fn rewrite<S: Store, K: Sink, G: Gate>(
    alloc: Global,
    words: &[String],
    store: &mut S,
    out: &mut K,
    _gate: &G,
) -> u8
    // 2 comes exactly where the words aren't those of a command.
    ensures usage { result ≡ 2 ↔ IsNone (command_of (map_list string_bytes words.now)) }
    ensures unused { result ≡ 2 → store.new ≡ store.old }

    // Where no fault comes in between, the status is that of the answer, and the files are those that it leaves.
    ensures status { IsTrue S.tells_files → (meanings : Meanings) → AreMeanings meanings → (command : AnyCommand) →
        command_of (map_list string_bytes words.now) ≡ Some command → NamesNoFault result →
        result ≡ (answer meanings (S.files store.old) command).status }
    ensures files { IsTrue S.tells_files → (meanings : Meanings) → AreMeanings meanings → (command : AnyCommand) →
        command_of (map_list string_bytes words.now) ≡ Some command → NamesNoFault result ⊎ result ≡ 7 →
        S.files store.new ≡ (answer meanings (S.files store.old) command).left }

    // The text is that of the answer: whole at 0 and 1.
    ensures text { IsTrue S.tells_files → IsTrue K.tells_bytes → (meanings : Meanings) → AreMeanings meanings →
        (command : AnyCommand) → command_of (map_list string_bytes words.now) ≡ Some command → result ≤ 1 →
        K.bytes_put out.new ≡ K.bytes_put out.old ++ (answer meanings (S.files store.old) command).text }
    ensures line { IsTrue S.tells_files → IsTrue K.tells_bytes → (meanings : Meanings) → AreMeanings meanings →
        (command : AnyCommand) → command_of (map_list string_bytes words.now) ≡ Some command → NamesNoFault result →
        IsPut (Rose (K.faults out.old) (K.faults out.new)) (answer meanings (S.files store.old) command).text
        (K.bytes_put out.old) (K.bytes_put out.new) }

    // 7 comes only where the sink's own count rose, and the work was done. The first part of the text was put.
    ensures sink_fault { result ≡ 7 → Rose (K.faults out.old) (K.faults out.new) }
    ensures done { IsTrue S.tells_files → (meanings : Meanings) → AreMeanings meanings → (command : AnyCommand) →
        command_of (map_list string_bytes words.now) ≡ Some command → result ≡ 7 →
        (answer meanings (S.files store.old) command).status ≤ 1 }
    ensures cut_text { IsTrue S.tells_files → IsTrue K.tells_bytes → (meanings : Meanings) → AreMeanings meanings →
        (command : AnyCommand) → command_of (map_list string_bytes words.now) ≡ Some command → result ≡ 7 →
        PutsPrefix (K.bytes_put out.old) (answer meanings (S.files store.old) command).text (K.bytes_put out.new) }

    // 4 and 5 come only where the store's own count rose in this call.
    ensures read_fault { result ≡ 4 → Rose (S.read_faults store.old) (S.read_faults store.new) }
    ensures write_fault { result ≡ 5 → Rose (S.write_faults store.old) (S.write_faults store.new) }

    // At 2, 4 and 5 the status's own line was put, or a part of it where the sink failed, and at 6 nothing.
    ensures fault_text { IsTrue K.tells_bytes → result ≡ 2 ⊎ result ≡ 4 ⊎ result ≡ 5 ⊎ result ≡ 6 →
        IsPut (Rose (K.faults out.old) (K.faults out.new)) (fault_line result) (K.bytes_put out.old)
        (K.bytes_put out.new) }

    // At 3, 4, 6, 8 and 9 the files are what they were, or what a recovery made of them.
    ensures unchanged { IsTrue S.tells_files → (meanings : Meanings) → AreMeanings meanings → IsHalted result →
        IsAsBefore (meanings.journal (S.files store.old)) (S.files store.old) (S.files store.new) }

    // After `run` each path but those of gate, journal and history has the bytes that it had in the repository for which
    // the store stood, or a step of the run removes the file there, edits it in ranges of the tree that it reads as
    // then, or makes one where none stood.
    ensures untouched { IsTrue S.tells_files → (meanings : Meanings) → AreMeanings meanings → (asked : AnyAsked) →
        command_of (map_list string_bytes words.now) ≡ Some (apply asked) → NamesNoFault result ⊎ result ≡ 7 →
        RunLeavesTheUntouched meanings asked (recovered (meanings.journal (S.files store.old)) (S.files store.old))
        (S.files store.new) }

    // `dry`, `check` and `history` change no file, whatever the status.
    ensures unwritten { (command : AnyCommand) → command_of (map_list string_bytes words.now) ≡ Some command →
        is_writing command ≡ false → S.files store.new ≡ S.files store.old }

    // Where each image of the start stands for a repository, each image at any moment stands for such a one, or for the
    // same as the files that the answer leaves: all of the old or all of the new, wherever the program is stopped.
    ensures any_moment { IsTrue S.tells_images → (meanings : Meanings) → AreMeanings meanings → (command : AnyCommand) →
        command_of (map_list string_bytes words.now) ≡ Some command → EachStands (S.image store.old) →
        Leaves S.moment S.left_since S.image store.old store.new
        (IsOldOrNew (S.image store.old) (answer meanings (S.files store.old) command).left)
        (IsOldOrNew (S.image store.old) (answer meanings (S.files store.old) command).left) }

    // After `run` and `recover` nothing can be lost in a crash any more.
    ensures one_image { IsTrue S.tells_images → (command : AnyCommand) →
        command_of (map_list string_bytes words.now) ≡ Some command → is_writing command ≡ true →
        result ≤ 1 ⊎ result ≡ 7 → Only (S.files store.new) (S.image store.new) }
    ensures synced { (command : AnyCommand) → command_of (map_list string_bytes words.now) ≡ Some command →
        is_writing command ≡ true → result ≤ 1 ⊎ result ≡ 7 → S.is_unsynced store.new ≡ false }

    // Nothing else is answered.
    ensures known { IsStatus result }
{
    match command_of(words) {
        Some(command) => tell(out, perform(alloc, store, command)),
        None => {
            say(out, USAGE_LINE);
            USAGE
        }
    }
}

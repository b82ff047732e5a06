// What `run` and `dry` tell.
ghost use Rattle.std.specs.Prelude.{◌≡◌, ◌++◌, OnOk, IfOk, if◌then◌else◌};
ghost use Rattle.command_words.specs.Asking.{asked_told};
ghost use Rattle.rewrite_cli.specs.Answers.{tells};
ghost use Rattle.rewrite_cli.specs.Changes.{changes as all_changes};
ghost use Rattle.rewrite_cli.specs.Ends.{ran_told};
ghost use Rattle.rewrite_cli.specs.Report.{change_line, change_lines, count_lines, count_of, count_read_in, drop_name};
ghost use Rattle.rewrite_cli.specs.Report.{dropped_line, event_line, event_lines, has_kind, head_lines, number_line};
ghost use Rattle.rewrite_cli.specs.Report.{report, still_line, text_line};

use crate::changes::Change;
use crate::running::Ran;
use crate::stop::Done;
use crate::text::{name_of, put_number, put_refusal};
use command_words::Asked;
use kept_files::KeptFile;
use rw_base::{Mem, Place, Shared};
use scheduler::{DropCause, Event};
use std::alloc::Global;

/// What a change is.
#[derive(Clone, Copy, Debug, PartialEq, Eq)]
pub enum ChangeKind {
    Created,
    Changed,
    Removed,
}

// ---- numbers

#[tactic(auto, unfolding(crate::specs::Report::has_kind))]
fn has_kind(change: &Change, kind: ChangeKind) -> bool
    ensures { result ≡ has_kind kind change.now }
{
    match change {
        Change::Created(_) => kind == ChangeKind::Created,
        Change::Changed(_) => kind == ChangeKind::Changed,
        Change::Removed(_) => kind == ChangeKind::Removed,
    }
}

fn one_if(test: bool) -> usize
    ensures { result ≡ (if test then 1 else 0) }
{
    if test { 1 } else { 0 }
}

// How many of these changes are of a kind.
#[tactic(auto, using(crate::proofs::ReportSteps::counted))]
pub fn count_of(changes: &[Change], kind: ChangeKind) -> usize
    ensures { result ≡ count_of kind changes.now }
{
    let mut count = 0;
    for at in 0..changes.len() {
        count += one_if(has_kind(&changes[at], kind));
    }
    count
}

// How many of these files were read.
#[tactic(auto, using(crate::proofs::ReportSteps::read))]
fn count_read_in(files: &[Shared<KeptFile>]) -> usize
    ensures { result ≡ count_read_in files.now }
{
    let mut count = 0;
    for at in 0..files.len() {
        count += one_if(files[at].get().bytes.is_some());
    }
    count
}

// ---- lines

#[tactic(auto, using(crate::proofs::ReportSteps::joined))]
fn put_text_line(text: &mut Vec<u8>, name: &[u8], told: &[u8]) -> Mem<()>
    ensures { OnOk result (text.new.items ≡ text.old.items ++ text_line name.now told.now) }
{
    text.extend_from_slice(name)?;
    text.extend_from_slice(b" ")?;
    text.extend_from_slice(told)?;
    text.extend_from_slice(b"\n")?;
    Ok(())
}

#[tactic(auto, using(crate::proofs::ReportSteps::joined))]
fn put_number_line(text: &mut Vec<u8>, name: &[u8], number: u64) -> Mem<()>
    ensures { OnOk result (text.new.items ≡ text.old.items ++ number_line name.now number) }
{
    text.extend_from_slice(name)?;
    text.extend_from_slice(b" ")?;
    put_number(text, number)?;
    text.extend_from_slice(b"\n")?;
    Ok(())
}

#[tactic(auto, unfolding(crate::specs::Report::change_line))]
fn put_change(text: &mut Vec<u8>, change: &Change) -> Mem<()>
    ensures { OnOk result (text.new.items ≡ text.old.items ++ change_line change.now) }
{
    match change {
        Change::Created(file) => put_text_line(
            text,
            b"created",
            file.get().path.as_str().as_bytes(),
        ),
        Change::Changed(file) => put_text_line(
            text,
            b"changed",
            file.get().path.as_str().as_bytes(),
        ),
        Change::Removed(file) => put_text_line(
            text,
            b"removed",
            file.get().path.as_str().as_bytes(),
        ),
    }
}

fn drop_name(cause: DropCause) -> &'static [u8]
    ensures { result.now ≡ drop_name cause }
{
    match cause {
        DropCause::Refused(cause) => name_of(cause),
        DropCause::Taken => b"Taken",
    }
}

#[tactic(auto, using(crate::proofs::ReportSteps::joined))]
fn put_drop(
    text: &mut Vec<u8>,
    path: &str,
    place: Place,
    cause: DropCause,
    recipe: &[u8],
) -> Mem<()>
    ensures { OnOk result (text.new.items ≡ text.old.items ++ dropped_line path.now place cause recipe.now) }
{
    text.extend_from_slice(b"dropped ")?;
    text.extend_from_slice(path.as_bytes())?;
    text.extend_from_slice(b" ")?;
    put_number(text, place.line as u64)?;
    text.extend_from_slice(b":")?;
    put_number(text, place.column as u64)?;
    text.extend_from_slice(b" ")?;
    text.extend_from_slice(drop_name(cause))?;
    text.extend_from_slice(b" ")?;
    text.extend_from_slice(recipe)?;
    text.extend_from_slice(b"\n")?;
    Ok(())
}

#[tactic(auto, unfolding(crate::specs::Report::event_line))]
fn put_event(text: &mut Vec<u8>, event: &Event) -> Mem<()>
    ensures { OnOk result (text.new.items ≡ text.old.items ++ event_line event.now) }
{
    match event {
        Event::Refused { path, place, cause } => put_refusal(text, path.as_str(), *place, *cause),
        Event::Dropped {
            path,
            place,
            cause,
            recipe,
        } => put_drop(text, path.as_str(), *place, *cause, recipe.as_slice()),
    }
}

#[tactic(auto, using(crate::proofs::ReportSteps::listed))]
fn put_changes(text: &mut Vec<u8>, changes: &[Change]) -> Mem<()>
    ensures { OnOk result (text.new.items ≡ text.old.items ++ change_lines changes.now) }
{
    for change in changes {
        put_change(text, change)?;
    }
    Ok(())
}

#[tactic(auto, using(crate::proofs::ReportSteps::listed))]
fn put_events(text: &mut Vec<u8>, events: &[Event]) -> Mem<()>
    ensures { OnOk result (text.new.items ≡ text.old.items ++ event_lines events.now) }
{
    for event in events {
        put_event(text, event)?;
    }
    Ok(())
}

// Whether there is any.
fn tells(events: &[Event]) -> bool
    ensures { result ≡ tells events.now }
{
    match events {
        [_, ..] => true,
        [] => false,
    }
}

#[tactic(auto, unfolding(crate::specs::Report::still_line))]
fn put_still(text: &mut Vec<u8>, still_changing: bool) -> Mem<()>
    ensures { OnOk result (text.new.items ≡ text.old.items ++ still_line still_changing) }
{
    if still_changing {
        text.extend_from_slice(b"still changing\n")?;
    }
    Ok(())
}

// ---- the report

#[tactic(auto, using(crate::proofs::ReportSteps::whole))]
fn put_head(text: &mut Vec<u8>, asked: Asked, ran: &Ran) -> Mem<()>
    ensures { OnOk result (text.new.items ≡ text.old.items ++ head_lines (asked_told asked.entry) (ran_told ran.now)) }
{
    put_text_line(text, b"recipe", asked.recipe)?;
    put_number_line(text, b"cycles", ran.cycles as u64)?;
    put_number_line(text, b"files", count_read_in(&ran.first) as u64)?;
    Ok(())
}

#[tactic(auto, using(crate::proofs::ReportSteps::whole))]
fn put_counts(text: &mut Vec<u8>, changes: &[Change]) -> Mem<()>
    ensures { OnOk result (text.new.items ≡ text.old.items ++ count_lines changes.now) }
{
    put_number_line(
        text,
        b"changed",
        count_of(changes, ChangeKind::Changed) as u64,
    )?;
    put_number_line(
        text,
        b"created",
        count_of(changes, ChangeKind::Created) as u64,
    )?;
    put_number_line(
        text,
        b"removed",
        count_of(changes, ChangeKind::Removed) as u64,
    )?;
    Ok(())
}

/// What is told of a run, and whether it tells of a file that is refused or keeps its bytes.
#[tactic(auto, using(crate::proofs::ReportSteps::whole))]
pub fn report(alloc: Global, asked: Asked, ran: &Ran, changes: &[Change]) -> Mem<Done>
    requires { changes.now ≡ all_changes (ran_told ran.now).first (ran_told ran.now).last }
    ensures text { IfOk result (λ done. done.text.items ≡ report (asked_told asked.entry) (ran_told ran.now)) }
    ensures tells { IfOk result (λ done. done.tells_of_files ≡ tells (ran_told ran.now).events) }
{
    let mut text = Vec::new(alloc);
    put_head(&mut text, asked, ran)?;
    put_counts(&mut text, changes)?;
    put_changes(&mut text, changes)?;
    put_events(&mut text, &ran.refused)?;
    let any_refused = tells(&ran.refused);
    put_events(&mut text, ran.events.as_slice())?;
    put_still(&mut text, ran.still_changing)?;
    Ok(Done {
        text,
        tells_of_files: any_refused || !ran.events.as_slice().is_empty(),
    })
}

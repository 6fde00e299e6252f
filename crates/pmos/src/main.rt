//! `pmos`: a store of objects that refer to one another, in one file. It makes the real file, input and output, and
//! leaves all else to `pm_top`.
#![tactic(auto)]

ghost use Rattle.std.specs.Prelude.{◌≡◌, ◌<◌, false, length, map, drop, string_bytes, IfOk, IfErr, IsErr, OnErr, MatchResult};
ghost use Rattle.std.specs.IoError.{error_kind};
ghost use Rattle.std.specs.Process.{exit_status};
ghost use Rattle.std.specs.Vec.Iter.{into_iter_items};
ghost use Rattle.pm_types.specs.Memory.{no_memory};
ghost use Rattle.pm_io.specs.Known.{new_sink, new_source};
ghost use Rattle.pm_place.specs.Choosers.{IsChooser};
ghost use Rattle.pm_words.specs.Words.{Places};
ghost use Rattle.pm_words.specs.declared.chosen.Chosen.{Chosen as Place};
ghost use Rattle.pm_runs.specs.Ends.Ends.{detail_line};
ghost use Rattle.pm_runs.specs.declared.ends.ended.Detail.TheVariants.{Memory};
ghost use Rattle.pm_top.specs.Program.{Tells};
ghost use Rattle.pmos.specs.Main.{Chooses, IsOtherPath, MakesChooser, path_in, place_in, words_in, PerformsFrom};

mod memory;

use crate::memory::out_of_memory;
use pm_disk::Disk;
use pm_file::{FileDisk, OneFile};
use pm_io::{InStream, OutStream, Sink, Source, StdSink, StdSource};
use pm_place::{Placement, first_of, last_of, middle_of};
use pm_top::{Detail, Ended, program, tell};
use pm_turns::OpenGate;
use pm_types::NoMemory;
use pm_words::{Chosen, read_place};
use std::alloc::{AllocError, Global};
use std::env::Args;
use std::io::ErrorKind;
use std::process::ExitCode;
use std::sync::Wait;
use std::thread::Threads;
use std::{env, io, mem};

// The words behind the program's name, all of them.
fn behind_name(alloc: Global, mut all: Args) -> Result<Vec<String>, AllocError>
    ensures { IfOk result (λ words. words.items ≡ drop 1 (into_iter_items all)) }
{
    let mut words = Vec::new(alloc);
    let _ = all.next();
    for word in all {
        words.push(word)?;
    }
    Ok(words)
}

// The words of the command line, of what std gave. Those that are no text are no command line, as no words are.
fn words(alloc: Global, all: io::Result<Args>) -> Result<Vec<String>, NoMemory>
    ensures all { IfOk result (λ words. map string_bytes words.items
        ≡ words_in (λ all. map string_bytes (drop 1 (into_iter_items all))) all) }
    ensures short { IfErr all (λ error. error_kind error ≡ ErrorKind.OutOfMemory → IsErr result) }
{
    match all {
        Ok(all) => Ok(behind_name(alloc, all)?),
        Err(error) => match out_of_memory(error) {
            Some(refused) => Err(refused),
            None => Ok(Vec::new(alloc)),
        },
    }
}

fn texts(alloc: Global, words: &[String]) -> Result<Vec<&str>, AllocError>
    ensures { IfOk result (λ texts. map (λ text. text.now) texts.items ≡ map string_bytes words.now) }
{
    let mut texts = Vec::new(alloc);
    for word in words {
        texts.push(word.as_str())?;
    }
    Ok(texts)
}

// The file's name: the second word, or nothing where there is none.
fn path_of<'a>(words: &[&'a str]) -> &'a str
    ensures { result.now ≡ path_in (map (λ word. word.now) words.now) }
{
    match words {
        [_, file, ..] => *file,
        _ => "",
    }
}

// The other file's name: the third word of a ship, or nothing.
fn other_path_of<'a>(words: &[&'a str]) -> &'a str
    ensures { IsOtherPath (map (λ word. word.now) words.now) result.now }
{
    match words {
        [verb, _, other, ..] => { if *verb == "ship" { *other } else { "" } }
        _ => "",
    }
}

// The place in a list of trains of the one that is chosen.
fn place_of(chosen: Chosen, trains: &[u64]) -> usize
    requires { 0 < length trains.now }
    ensures { result ≡ place_in chosen (length trains.now) }
{
    match chosen {
        Chosen::First => first_of(trains),
        Chosen::Last => last_of(trains),
        Chosen::Middle => middle_of(trains),
    }
}

// Runs the program over two disks of which no call was made yet, over a reader and a writer, with the chooser of the words,
// and hands back what it left.
fn run<
    R: AllocGlobal + Threads + Wait + Sync,
    I: InStream,
    O: OutStream,
    E: Sink,
    F: Fn(&[u64]) -> usize + Drop + Send,
>(
    rt: &R,
    disk: FileDisk<HostRuntime>,
    other: FileDisk<HostRuntime>,
    words: &[&str],
    reader: I,
    writer: O,
    errors: &mut E,
    _chosen: Chosen,
    place: Placement<F>,
) -> Ended<FileDisk<HostRuntime>, FileDisk<HostRuntime>, StdSource<I>, StdSink<O>>
    requires chooser { IsChooser F.Fn place }
    requires places { Places (map (λ word. word.now) words.now) _chosen }
    requires chooses { Chooses F.Fn place _chosen }
    requires path { string_bytes disk.path ≡ path_in (map (λ word. word.now) words.now) }
    requires other_path { IsOtherPath (map (λ word. word.now) words.now) (string_bytes other.path) }
    requires count { ⟦<FileDisk<HostRuntime> as Disk>⟧.count disk ≡ 0 }
    requires uncalled { ⟦<FileDisk<HostRuntime> as Disk>⟧.moment disk ≡ 0 }
    requires other_count { ⟦<FileDisk<HostRuntime> as Disk>⟧.count other ≡ 0 }
    requires other_uncalled { ⟦<FileDisk<HostRuntime> as Disk>⟧.moment other ≡ 0 }
    ensures told { Tells E.Sink errors.old errors.new (detail_line result.detail) }
    ensures performs { PerformsFrom
        ⟦<FileDisk<HostRuntime> as Disk>⟧ ⟦<StdSource<I> as Source>⟧ ⟦<StdSink<O> as Sink>⟧
        F.Fn (λ disk. string_bytes disk.path) (new_source (I.left reader) (I.tries reader))
        (new_sink (O.written writer) (O.flushed writer) (O.tries writer)) (map (λ word. word.now) words.now) result }
{
    let source = StdSource::new(reader);
    let sink = StdSink::new(writer);
    // Between its turns no worker is held back.
    let gate = OpenGate;
    program(rt, words, disk, other, source, sink, errors, place, &gate)
}

// The disk of the file that the words name, and that of the other one. Neither is called.
fn disks(
    alloc: Global,
    file: OneFile<HostRuntime>,
    other: OneFile<HostRuntime>,
    words: &[&str],
) -> Result<(FileDisk<HostRuntime>, FileDisk<HostRuntime>), NoMemory>
    ensures path { IfOk result (λ disks. string_bytes disks.0.path ≡ path_in (map (λ word. word.now) words.now)) }
    ensures other_path { IfOk result (λ disks.
        IsOtherPath (map (λ word. word.now) words.now) (string_bytes disks.1.path)) }
    ensures count { IfOk result (λ disks. ⟦<FileDisk<HostRuntime> as Disk>⟧.count disks.0 ≡ 0) }
    ensures uncalled { IfOk result (λ disks. ⟦<FileDisk<HostRuntime> as Disk>⟧.moment disks.0 ≡ 0) }
    ensures other_count { IfOk result (λ disks. ⟦<FileDisk<HostRuntime> as Disk>⟧.count disks.1 ≡ 0) }
    ensures other_uncalled { IfOk result (λ disks. ⟦<FileDisk<HostRuntime> as Disk>⟧.moment disks.1 ≡ 0) }
{
    let disk = file.named(alloc, path_of(words))?;
    // No command but `ship` calls it, so no file of no name is opened.
    let other = other.named(alloc, other_path_of(words))?;
    Ok((disk, other))
}

// Runs the program over words whose texts are lent, with the chooser of the place that they choose, which is made for it.
// Where there is no memory for the files' names, reader and writer come back as they were.
fn run_texts<
    R: AllocGlobal + Threads + Wait + Sync,
    I: InStream,
    O: OutStream,
    E: Sink,
    F: Fn(&[u64]) -> usize + Drop + Send,
    M: Fn(Chosen) -> Placement<F> + Drop,
>(
    rt: &R,
    file: OneFile<HostRuntime>,
    other: OneFile<HostRuntime>,
    words: &[&str],
    reader: I,
    writer: O,
    errors: &mut E,
    make: M,
) -> Result<
    Ended<FileDisk<HostRuntime>, FileDisk<HostRuntime>, StdSource<I>, StdSink<O>>,
    (I, O, NoMemory),
>
    requires makes { (chosen : Place) → MakesChooser F.Fn M.Fn make chosen }
    ensures told { IfOk result (λ ended. Tells E.Sink errors.old errors.new (detail_line ended.detail)) }
    ensures performs { IfOk result (λ ended. PerformsFrom
        ⟦<FileDisk<HostRuntime> as Disk>⟧ ⟦<StdSource<I> as Source>⟧ ⟦<StdSink<O> as Sink>⟧
        F.Fn (λ disk. string_bytes disk.path) (new_source (I.left reader) (I.tries reader))
        (new_sink (O.written writer) (O.flushed writer) (O.tries writer)) (map (λ word. word.now) words.now) ended) }
    ensures untold { OnErr result (errors.new ≡ errors.old) }
    ensures back { IfErr result (λ back. (back.0 ≡ reader) × (back.1 ≡ writer)) }
{
    match disks(rt.alloc(), file, other, words) {
        Ok((disk, other)) => {
            let chosen = read_place(words);
            let place = make(chosen);
            Ok(run(
                rt, disk, other, words, reader, writer, errors, chosen, place,
            ))
        }
        Err(refused) => Err((reader, writer, refused)),
    }
}

// Runs the program over words.
fn run_words<
    R: AllocGlobal + Threads + Wait + Sync,
    I: InStream,
    O: OutStream,
    E: Sink,
    F: Fn(&[u64]) -> usize + Drop + Send,
    M: Fn(Chosen) -> Placement<F> + Drop,
>(
    rt: &R,
    file: OneFile<HostRuntime>,
    other: OneFile<HostRuntime>,
    words: &[String],
    reader: I,
    writer: O,
    errors: &mut E,
    make: M,
) -> Result<
    Ended<FileDisk<HostRuntime>, FileDisk<HostRuntime>, StdSource<I>, StdSink<O>>,
    (I, O, NoMemory),
>
    requires makes { (chosen : Place) → MakesChooser F.Fn M.Fn make chosen }
    ensures told { IfOk result (λ ended. Tells E.Sink errors.old errors.new (detail_line ended.detail)) }
    ensures performs { IfOk result (λ ended. PerformsFrom
        ⟦<FileDisk<HostRuntime> as Disk>⟧ ⟦<StdSource<I> as Source>⟧ ⟦<StdSink<O> as Sink>⟧
        F.Fn (λ disk. string_bytes disk.path) (new_source (I.left reader) (I.tries reader))
        (new_sink (O.written writer) (O.flushed writer) (O.tries writer)) (map string_bytes words.now) ended) }
    ensures untold { OnErr result (errors.new ≡ errors.old) }
    ensures back { IfErr result (λ back. (back.0 ≡ reader) × (back.1 ≡ writer)) }
{
    match texts(rt.alloc(), words) {
        Ok(texts) => run_texts(
            rt,
            file,
            other,
            texts.as_slice(),
            reader,
            writer,
            errors,
            make,
        ),
        Err(refused) => Err((reader, writer, NoMemory::from(refused))),
    }
}

// Runs the program over what std gave for the words of the command line, and hands back what it left; or, where there is no
// memory for words or names, reader and writer as they were.
fn run_all<
    R: AllocGlobal + Threads + Wait + Sync,
    I: InStream,
    O: OutStream,
    E: Sink,
    F: Fn(&[u64]) -> usize + Drop + Send,
    M: Fn(Chosen) -> Placement<F> + Drop,
>(
    rt: &R,
    all: io::Result<Args>,
    file: OneFile<HostRuntime>,
    other: OneFile<HostRuntime>,
    reader: I,
    writer: O,
    errors: &mut E,
    make: M,
) -> Result<
    Ended<FileDisk<HostRuntime>, FileDisk<HostRuntime>, StdSource<I>, StdSink<O>>,
    (I, O, NoMemory),
>
    requires makes { (chosen : Place) → MakesChooser F.Fn M.Fn make chosen }
    ensures told { IfOk result (λ ended. Tells E.Sink errors.old errors.new (detail_line ended.detail)) }
    ensures performs { IfOk result (λ ended. PerformsFrom
        ⟦<FileDisk<HostRuntime> as Disk>⟧ ⟦<StdSource<I> as Source>⟧ ⟦<StdSink<O> as Sink>⟧
        F.Fn (λ disk. string_bytes disk.path) (new_source (I.left reader) (I.tries reader))
        (new_sink (O.written writer) (O.flushed writer) (O.tries writer))
        (words_in (λ all. map string_bytes (drop 1 (into_iter_items all))) all) ended) }
    ensures short { IfErr all (λ error. error_kind error ≡ ErrorKind.OutOfMemory → IsErr result) }
    ensures untold { OnErr result (errors.new ≡ errors.old) }
    ensures back { IfErr result (λ back. (back.0 ≡ reader) × (back.1 ≡ writer)) }
{
    match words(rt.alloc(), all) {
        Ok(words) => run_words(
            rt,
            file,
            other,
            words.as_slice(),
            reader,
            writer,
            errors,
            make,
        ),
        Err(refused) => Err((reader, writer, refused)),
    }
}

// Runs the program, and tells how it ended, also where there is no memory for its words or for the files' names.
fn end<
    R: AllocGlobal + Threads + Wait + Sync,
    I: InStream,
    O: OutStream,
    E: Sink,
    F: Fn(&[u64]) -> usize + Drop + Send,
    M: Fn(Chosen) -> Placement<F> + Drop,
>(
    rt: &R,
    all: io::Result<Args>,
    file: OneFile<HostRuntime>,
    other: OneFile<HostRuntime>,
    reader: I,
    writer: O,
    errors: &mut E,
    make: M,
) -> Result<
    Ended<FileDisk<HostRuntime>, FileDisk<HostRuntime>, StdSource<I>, StdSink<O>>,
    (I, O, NoMemory),
>
    requires makes { (chosen : Place) → MakesChooser F.Fn M.Fn make chosen }
    ensures told { MatchResult result (λ ended. Tells E.Sink errors.old errors.new (detail_line ended.detail))
        (λ _. Tells E.Sink errors.old errors.new (detail_line (Memory false no_memory))) }
    ensures performs { IfOk result (λ ended. PerformsFrom
        ⟦<FileDisk<HostRuntime> as Disk>⟧ ⟦<StdSource<I> as Source>⟧ ⟦<StdSink<O> as Sink>⟧
        F.Fn (λ disk. string_bytes disk.path) (new_source (I.left reader) (I.tries reader))
        (new_sink (O.written writer) (O.flushed writer) (O.tries writer))
        (words_in (λ all. map string_bytes (drop 1 (into_iter_items all))) all) ended) }
    ensures short { IfErr all (λ error. error_kind error ≡ ErrorKind.OutOfMemory → IsErr result) }
    ensures back { IfErr result (λ back. (back.0 ≡ reader) × (back.1 ≡ writer)) }
{
    match run_all(rt, all, file, other, reader, writer, errors, make) {
        Ok(ended) => Ok(ended),
        Err(back) => {
            let detail = Detail::Memory {
                opened: false,
                refused: back.2,
            };
            tell(errors, &detail);
            Err(back)
        }
    }
}

// The exit code with this status.
fn exit_of(status: u8) -> ExitCode
    ensures { exit_status result ≡ status }
{
    ExitCode::from(status)
}

// Lets go what the program left, and answers the status.
fn let_go<I: InStream, O: OutStream>(
    left: Result<
        Ended<FileDisk<HostRuntime>, FileDisk<HostRuntime>, StdSource<I>, StdSink<O>>,
        (I, O, NoMemory),
    >,
) -> u8
    ensures { MatchResult left (λ ended. result ≡ ended.status) (λ _. result ≡ 7) }
{
    match left {
        Ok(ended) => {
            let Ended {
                status,
                journal,
                ..
            } = ended;
            // The process ends now, and gives all memory back at once.
            mem::forget(journal);
            status
        }
        Err(_) => 7,
    }
}

fn main(rt: HostRuntime) -> ExitCode {
    let mut errors = StdSink::new(rt.stderr());
    exit_of(let_go(end(
        &rt,
        env::args(&rt),
        OneFile::new(rt),
        OneFile::new(rt),
        rt.reader(),
        io::writer(&rt),
        &mut errors,
        // Of the trains that an object may move to it picks the one that the words choose.
        |chosen: Chosen| Placement::new(move |trains: &[u64]| place_of(chosen, trains)),
    )))
}

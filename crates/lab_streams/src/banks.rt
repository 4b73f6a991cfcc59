//! The callbacks that a scenario is played over.
ghost use Rattle.std.specs.Prelude.{◌≡◌, ◌≤◌, ◌++◌, Ok, Some, true, false, codes, decimal, length, map, option_map, is_some, IfErr, IfOk, IfSome, IsSomeAnd, OnOk};
ghost use Rattle.std.specs.Io.KnownBytes.{Appends};
ghost use Rattle.std.specs.IoError.{error_kind};
ghost use Rattle.std.specs.declared.io.ErrorKind.TheVariants.{OutOfMemory};
ghost use Rattle.evl_bank.specs.Bank.{program_bank};
ghost use Rattle.evl_plans.specs.Banks.{bank_of};
ghost use Rattle.evl_plans.specs.Told.{handler_of};
ghost use Rattle.lab_streams.specs.Banks.{IsBank, SaysRefused, bank_fault_words, bank_line, no_bank_line, unread_line};
ghost use Rattle.lab_streams.specs.Streams.{EndsEarly};

use crate::endings::TOO_LONG;
use crate::streams::Stream;
use crate::texts::{self, Unread};
use evl_plans::{BankFault, Part, Planned, read_bank};
use lab_reports::program_plans;
use std::alloc::{AllocError, Global};
use std::io;
use std::rt::Files;

// All that is wanted of a callback, of how many times it accepts, and of its rows.
const NO_KEYS: &str = "a table with no keys but accepts and do is wanted, at most 64 of them";

const NO_ACCEPTS: &str = "accepts: a number from 1 to 18446744073709551615 is wanted";

const NO_ROWS: &str = "do: a list of at most four rows is wanted";

// Says that a bank's file can't be read.
fn tell_no_file<E: Stream>(err: &mut E, path: &str) -> io::Result<()>
    ensures line { OnOk result (Appends (E.contents err.old) (E.contents err.new) (no_bank_line path.now)) }
    ensures early { IfErr result (EndsEarly false false (E.has_failed err.new)) }
{
    writeln!(err, "lab: no file {path}")
}

// Says what is wrong in a bank.
fn tell_words<E: Stream>(err: &mut E, path: &str, words: &str) -> io::Result<()>
    ensures line { OnOk result (Appends (E.contents err.old) (E.contents err.new) (bank_line path.now words.now)) }
    ensures early { IfErr result (EndsEarly false false (E.has_failed err.new)) }
{
    writeln!(err, "lab: {path}: {words}")
}

// Says why a bank's file isn't read. Want of memory isn't reported: it is this function's own error.
fn tell_unread<E: Stream>(err: &mut E, path: &str, why: Unread) -> io::Result<()>
    ensures line { OnOk result (IsSomeAnd (unread_line path.now why) (λ line. Appends (E.contents err.old) (E.contents err.new) line)) }
    ensures early { IfErr result (EndsEarly false false (E.has_failed err.new)) }
{
    match why {
        Unread::NoFile => tell_no_file(err, path),
        Unread::TooLong => tell_words(err, path, TOO_LONG),
        Unread::Memory => Err(AllocError.into()),
    }
}

// Says which row of a callback can't be read.
fn tell_row<E: Stream>(err: &mut E, path: &str, number: usize, row: usize) -> io::Result<()>
    ensures line { OnOk result (IsSomeAnd (bank_fault_words (BankFault.Callback number (Part.Row row))) (λ words. Appends (E.contents err.old) (E.contents err.new) (bank_line path.now words))) }
    ensures early { IfErr result (EndsEarly false false (E.has_failed err.new)) }
{
    writeln!(
        err,
        "lab: {path}: callback {number}: do: row {row} isn't one of at most four, with every (1 or more) and one of post_sem, post_flags and bits, propagate, post_oob, stop_timer"
    )
}

// Says what is wrong in a callback, by these words.
fn tell_callback<E: Stream>(err: &mut E, path: &str, number: usize, words: &str) -> io::Result<()>
    ensures line { OnOk result (Appends (E.contents err.old) (E.contents err.new) (bank_line path.now (codes "callback " ++ (decimal number ++ (codes ": " ++ words.now))))) }
    ensures early { IfErr result (EndsEarly false false (E.has_failed err.new)) }
{
    writeln!(err, "lab: {path}: callback {number}: {words}")
}

// Says what is wrong in a callback.
fn tell_part<E: Stream>(err: &mut E, path: &str, number: usize, part: Part) -> io::Result<()>
    ensures line { OnOk result (IsSomeAnd (bank_fault_words (BankFault.Callback number part)) (λ words. Appends (E.contents err.old) (E.contents err.new) (bank_line path.now words))) }
    ensures early { IfErr result (EndsEarly false false (E.has_failed err.new)) }
{
    match part {
        Part::Keys => tell_callback(err, path, number, NO_KEYS),
        Part::Accepts => tell_callback(err, path, number, NO_ACCEPTS),
        Part::Rows => tell_callback(err, path, number, NO_ROWS),
        Part::Row(row) => tell_row(err, path, number, row),
    }
}

// Reports the fault of a bank. Want of memory isn't reported: it is this function's own error.
fn tell_fault<E: Stream>(err: &mut E, path: &str, fault: BankFault) -> io::Result<()>
    ensures line { OnOk result (IsSomeAnd (bank_fault_words fault) (λ words. Appends (E.contents err.old) (E.contents err.new) (bank_line path.now words))) }
    ensures early { IfErr result (EndsEarly false false (E.has_failed err.new)) }
{
    match fault {
        BankFault::Text => tell_words(err, path, "no TOML in UTF-8"),
        BankFault::Document => tell_words(
            err,
            path,
            "tables [[callback]] are wanted, and nothing else",
        ),
        BankFault::Callback(number, part) => tell_part(err, path, number, part),
        BankFault::Memory => Err(AllocError.into()),
    }
}

// The callbacks of a bank's text; none where it is at fault, which is reported.
fn read_text<E: Stream>(
    alloc: Global,
    path: &str,
    text: &[u8],
    err: &mut E,
) -> io::Result<Option<Vec<Planned>>>
    ensures few { IfOk result (λ plans. IfSome plans (λ p. length p.items ≤ 64)) }
    ensures bank { IfOk result (λ plans. IfSome plans (λ p. bank_of text.now ≡ Ok (map handler_of p.items))) }
    ensures quiet { IfOk result (λ plans. is_some plans ≡ true → err.new ≡ err.old) }
    ensures refused { IfOk result (λ plans. is_some plans ≡ false → SaysRefused (Some path.now) (E.contents err.old) (E.contents err.new)) }
    ensures early { IfErr result (EndsEarly false false (E.has_failed err.new)) }
{
    match read_bank(alloc, text) {
        Ok(plans) => Ok(Some(plans)),
        Err(fault) => match tell_fault(err, path, fault) {
            Ok(()) => Ok(None),
            Err(error) => Err(error),
        },
    }
}

// The callbacks of a bank's file; none where it is at fault, which is reported.
fn read_file<R: Files + AllocGlobal, E: Stream>(
    rt: &R,
    path: &str,
    err: &mut E,
) -> io::Result<Option<Vec<Planned>>>
    ensures few { IfOk result (λ plans. IfSome plans (λ p. length p.items ≤ 64)) }
    ensures bank { IfOk result (λ plans. IfSome plans (λ p. IsBank (Some path.now) (map handler_of p.items))) }
    ensures quiet { IfOk result (λ plans. is_some plans ≡ true → err.new ≡ err.old) }
    ensures refused { IfOk result (λ plans. is_some plans ≡ false → SaysRefused (Some path.now) (E.contents err.old) (E.contents err.new)) }
    ensures early { IfErr result (EndsEarly false false (E.has_failed err.new)) }
{
    match texts::read_file(rt, path) {
        Ok(text) => read_text(rt.alloc(), path, text.as_slice(), err),
        Err(why) => match tell_unread(err, path, why) {
            Ok(()) => Ok(None),
            Err(error) => Err(error),
        },
    }
}

// The program's callbacks.
fn own_plans(alloc: Global) -> io::Result<Option<Vec<Planned>>>
    ensures few { IfOk result (λ plans. IfSome plans (λ p. length p.items ≤ 64)) }
    ensures bank { IfOk result (λ plans. option_map (λ p. map handler_of p.items) plans ≡ Some program_bank) }
    ensures early { IfErr result (λ e. error_kind e ≡ OutOfMemory) }
{
    match program_plans(alloc) {
        Ok(plans) => Ok(Some(plans)),
        Err(error) => Err(error.into()),
    }
}

/// The callbacks of a bank's file, or the program's where none is named; none where the file is at fault, which is
/// reported.
pub fn read_plans<R: Files + AllocGlobal, E: Stream>(
    rt: &R,
    bank: Option<&str>,
    err: &mut E,
) -> io::Result<Option<Vec<Planned>>>
    ensures few { IfOk result (λ plans. IfSome plans (λ p. length p.items ≤ 64)) }
    ensures bank { IfOk result (λ plans. IfSome plans (λ p. IsBank (option_map (λ file. file.now) bank.entry) (map handler_of p.items))) }
    ensures own { is_some bank.entry ≡ false → IfOk result (λ plans. is_some plans ≡ true) }
    ensures quiet { IfOk result (λ plans. is_some plans ≡ true → err.new ≡ err.old) }
    ensures refused { IfOk result (λ plans. is_some plans ≡ false → SaysRefused (option_map (λ file. file.now) bank.entry) (E.contents err.old) (E.contents err.new)) }
    ensures early { IfErr result (EndsEarly false false (E.has_failed err.new)) }
{
    match bank {
        Some(path) => read_file(rt, path, err),
        None => own_plans(rt.alloc()),
    }
}

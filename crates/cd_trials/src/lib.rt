//! Puts rows of data to the top call of a program, and prints each that is answered otherwise than
//! it says.
//!
//! The files of data are TOML. A row has words and exactly the answer to them; questions have pairs
//! of types, and declarations if there are any:
//!
//! ```toml
//! [[row]]
//! words = ['sub', '0--5', '0--4']
//! status = 1
//! out = "no: 5\n"
//!
//! [[questions]]
//! types = 'type Digit = 0--9'
//! within = [['5', 'Digit']]
//! apart = [['Digit', '5']]
//! ```
//!
//! | In a row | |
//! |---|---|
//! | `words` | the words of the command line |
//! | `status`, `out`, `err` | the answer; 0 and empty texts if they are left out |
//! | `files`, `bytes` | files by name: their texts, or lists of bytes if they are no texts |
//! | `failing_reads` | the reads that fail, counted from 1 |
//! | `failing_puts` | the puts that fail, on output and on errors, and how many bytes each keeps |
//! | `times` | how often each part between `«` and `»` is repeated, in all texts of the row |
//!
//! A row of `prefixes` has words, an answer and files too: it is answered so; where its put fails
//! after each possible number of bytes, by a write fault with so many bytes; and where each of its
//! `reads` fails in turn, by a fault of the file that `reads` names there.
//!
//! A row of `places` has a `text`, a byte `at` which it is looked at, and the `line` and `column`
//! of that byte. A pair of `within` should be answered yes, and one of `apart` no with any element
//! that is right. Programs of `accepted` should be that by `check`, and of `refused` the texts are a
//! program and what is said of it, after the name of its file. A row of `runs` has a `program`, a
//! `document` and the `units` that are just enough: with them it ends with `out`, with an exception
//! that is `raised`, or by `overflow`, and with one less they are spent. Of `documents`, a pair of
//! `printed` is a text and the canonical text of its value, and one of `canonical` is its own.
#![tactic(auto)]

mod answer;
mod checked;
mod file;
mod form;
mod place;
mod prefixes;
mod printed;
mod question;
mod row;
mod run;
pub mod tally;
mod texts;
pub mod top_call;
mod values;

use crate::file::put_file;
use crate::form::check_form;
use crate::tally::{FileTally, Tally};
use crate::top_call::TopCall;
use anyhow::{Context, Result};
use std::rt::Files;
use std::{fs, io};

/// Puts the rows of all files of data, which are the files `*.toml` of the folder in which the
/// program runs. Each row that differs is printed, and at the end how many there are and how many
/// of them differ.
pub fn put_all<R: Print + AllocGlobal + Files + Clone + Drop, T: TopCall>(
    rt: &R,
    top: &T,
) -> Result<Tally> {
    let mut tally = Tally { rows: 0, differ: 0 };
    for name in data_files(rt)?.as_slice() {
        let name = name.as_str();
        let put = put_named(rt, top, name).context(format_args!("{name}"))?;
        print_differences(rt, name, put.differences.as_slice())?;
        tally.rows = tally.rows.saturating_add(put.rows);
        tally.differ = tally.differ.saturating_add(put.differences.len() as u64);
    }
    println!(rt; "{} rows, {} differ", tally.rows, tally.differ)?;
    Ok(tally)
}

// The names of the files of data, in order.
fn data_files<R: AllocGlobal + Files + Clone + Drop>(rt: &R) -> io::Result<Vec<String>> {
    let mut names = Vec::new(rt.alloc());
    for entry in fs::read_dir(rt, ".")? {
        let entry = entry?;
        if entry.file_name().ends_with(".toml") {
            names.push(String::from_str(rt.alloc(), entry.file_name())?)?;
        }
    }
    names.sort()?;
    Ok(names)
}

// Puts the rows of the file of this name.
fn put_named(rt: &(impl AllocGlobal + Files), top: &impl TopCall, name: &str) -> Result<FileTally> {
    let text = fs::read_to_string(rt, name)?;
    let file = toml::table_from_str(rt.alloc(), text.as_str())?;
    check_form(&file)?;
    Ok(put_file(rt.alloc(), top, &file)?)
}

fn print_differences(rt: &impl Print, name: &str, differences: &[String]) -> io::Result<()> {
    for difference in differences {
        println!(rt; "{name}:{difference}")?;
    }
    Ok(())
}
